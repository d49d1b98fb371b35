ghost use Rattle.std.specs.Prelude.{◌≡◌, ◌≤◌};
ghost use Rattle.pa_direct.specs.Shapes.{greatest_size};
ghost use Rattle.pa_rules.specs.Sizes.{usable_of};

use pa_buckets::{class_in, raw_of, slot_size};
use pa_direct::shape;

// Bytes of a count word.
const COUNT_WORD: u32 = 8;

// How many bytes of the slot of a request for `size` bytes are usable in the version.
pub(crate) fn usable_for(version: u32, size: u32) -> u32
    requires { size ≤ greatest_size }
    ensures { result ≡ usable_of version size }
{
    match class_in(version, raw_of(size)) {
        Some(class) => slot_size(class) - COUNT_WORD,
        None => match shape(size) {
            Some(direct) => direct.slot - COUNT_WORD,
            None => 0,
        },
    }
}
