ghost use Rattle.std.specs.Prelude.{◌%◌, ◌<◌};
ghost use Rattle.pa_layout.specs.SuperPage.{IsOfKind};

use crate::pages::{LAST_PAGE, PARTITION_PAGE, SUPER_PAGE, SYSTEM_PAGE};

/// What a byte of a bucket's super page is for (PartitionAlloc.md, "Layout in Memory").
#[derive(Clone, Copy, Debug, PartialEq, Eq)]
pub enum Kind {
    /// A guard: nothing reads or writes it.
    Guard,
    /// A part of the partition pages' records.
    Metadata,
    /// A part of the slot spans.
    Payload,
}

/// What the byte at this offset of the region is for, if its super page is a bucket's.
pub fn kind_of(offset: u32) -> Kind
    ensures { IsOfKind (offset % 2097152) result }
{
    let within = offset % SUPER_PAGE;
    let page = within / PARTITION_PAGE;
    if page == 0 {
        kind_in_first_page(within)
    } else if page == LAST_PAGE {
        Kind::Guard
    } else {
        Kind::Payload
    }
}

// The first partition page has the metadata in its second system page, and guards elsewhere.
fn kind_in_first_page(within: u32) -> Kind
    requires { within < 16384 }
    ensures { IsOfKind within result }
{
    if within / SYSTEM_PAGE == 1 {
        Kind::Metadata
    } else {
        Kind::Guard
    }
}
