//! The answers of ops that only looked at a slot, by what they saw.
ghost use Rattle.std.specs.Prelude.{◌≡◌};
ghost use Rattle.pa_rules.specs.Nexts.{looked_free, looked_read, looked_write};

use pa_record::{Answer, Seen};
use pa_slot::held;

/// The answer of a free through a `raw_ptr`: a second free if the slot was freed before, else a free by a non-owner.
pub fn looked_free(seen: Seen) -> Answer
    ensures { result ≡ looked_free seen }
{
    if held(seen.found) {
        Answer::NotOwner { seen }
    } else {
        Answer::SecondFree { seen: Some(seen) }
    }
}

/// The answer of a write through a `raw_ptr`: a stale use if the slot was freed, else a write by a non-owner.
pub fn looked_write(seen: Seen) -> Answer
    ensures { result ≡ looked_write seen }
{
    if held(seen.found) {
        Answer::NotOwner { seen }
    } else {
        Answer::StaleUse { seen: Some(seen) }
    }
}

/// The answer of a read of this value: dangling if the slot was freed.
pub fn looked_read(seen: Seen, value: u64) -> Answer
    ensures { result ≡ looked_read seen value }
{
    if held(seen.found) {
        Answer::Value { seen, value }
    } else {
        Answer::Dangling { seen, value }
    }
}
