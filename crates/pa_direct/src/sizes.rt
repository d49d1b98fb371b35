ghost use Rattle.std.specs.Prelude.{◌≡◌, ◌↔◌, ◌<◌, IsNone, IfSome};
ghost use Rattle.pa_direct.specs.Shapes.{shape_of, greatest_size, greatest_in_class};

use crate::maps::Shape;
use pa_layout::{SYSTEM_PAGE, supers_for};

/// The greatest request that is served, in bytes: with it the slot and its guards fill 16 super pages.
pub const GREATEST_SIZE: u32 = 33_521_656;

/// The greatest request that a class serves, in bytes.
pub const GREATEST_IN_CLASS: u32 = 917_496;

// Bytes of a count word.
const COUNT_WORD: u32 = 8;

/// The shape of the direct map for a request of that many bytes: the raw size rounded up to system pages, and the
/// super pages that hold it with a partition page before it and another after it. `None` exactly when the request
/// is above 33,521,656 bytes.
pub fn shape(size: u32) -> Option<Shape>
    requires no_class { greatest_in_class < size }
    ensures refused { IsNone result ↔ (greatest_size < size) }
    ensures shape { IfSome result (λ s. s ≡ shape_of size) }
{
    if size > GREATEST_SIZE {
        return None;
    }
    let slot = (size + COUNT_WORD).div_ceil(SYSTEM_PAGE) * SYSTEM_PAGE;
    let supers = supers_for(slot);
    Some(Shape { slot, supers })
}
