ghost use Rattle.std.specs.Prelude.{◌≡◌, ◌<◌, ◌≤◌};
ghost use Rattle.pa_layout.specs.Pages.{super_page_at, page_at, page_place, record_place, supers_for};

/// Bytes of a system page. PartitionAlloc takes the system's; 4,096 is this project's profile.
pub const SYSTEM_PAGE: u32 = 4096;

/// Bytes of a partition page: four system pages (PartitionAlloc.md).
pub const PARTITION_PAGE: u32 = 16384;

/// Bytes of a super page: 2 MiB, aligned on 2 MiB (PartitionAlloc.md), which are 128 partition pages.
pub const SUPER_PAGE: u32 = 2097152;

// The last partition page of a super page.
pub(crate) const LAST_PAGE: u32 = SUPER_PAGE / PARTITION_PAGE - 1;

// Bytes of a partition page's record in the metadata.
const RECORD: u32 = 32;

/// The super page of a byte of the region, counted from 0.
pub fn super_page_of(offset: u32) -> u32
    ensures page { result ≡ super_page_at offset }
    ensures bound { result < 2048 }
{
    offset / SUPER_PAGE
}

/// The partition page of a byte inside its super page, 0 to 127.
pub fn page_of(offset: u32) -> u32
    ensures page { result ≡ page_at offset }
    ensures bound { result < 128 }
{
    offset % SUPER_PAGE / PARTITION_PAGE
}

/// The offset of the first byte of a partition page.
pub fn page_start(super_page: u32, page: u32) -> u32
    requires in_region { super_page < 2048 }
    requires in_super_page { page < 128 }
    ensures { result ≡ page_place super_page page }
{
    SUPER_PAGE * super_page + PARTITION_PAGE * page
}

/// The offset of the record of a partition page: 32 bytes in the second system page of its super page.
pub fn meta_start(super_page: u32, page: u32) -> u32
    requires in_region { super_page < 2048 }
    requires in_super_page { page < 128 }
    ensures { result ≡ record_place super_page page }
{
    SUPER_PAGE * super_page + SYSTEM_PAGE + RECORD * page
}

/// The super pages that a direct map takes for a slot of that many bytes: the slot, a partition page before it and another
/// after it.
pub fn supers_for(slot: u32) -> u32
    ensures supers { result ≡ supers_for slot }
    ensures bound { result ≤ 2049 }
{
    let bytes = u64::from(slot) + u64::from(2 * PARTITION_PAGE);
    bytes.div_ceil(u64::from(SUPER_PAGE)) as u32
}
