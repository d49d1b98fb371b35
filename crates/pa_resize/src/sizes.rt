ghost use Rattle.std.specs.Prelude.{◌≡◌, ◌≤◌};
ghost use Rattle.pa_direct.specs.Shapes.{greatest_size};
ghost use Rattle.pa_rules.specs.Sizes.{slot_size_for};

use pa_buckets::{class_of, raw_of, slot_size};
use pa_direct::shape;

// The length of a slot for a request of this many bytes.
pub(crate) fn slot_size_for(size: u32) -> u32
    requires { size ≤ greatest_size }
    ensures { result ≡ slot_size_for 1 size }
{
    match class_of(raw_of(size)) {
        Some(class) => slot_size(class),
        None => match shape(size) {
            Some(direct) => direct.slot,
            None => unreachable!(),
        },
    }
}
