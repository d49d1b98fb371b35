ghost use Rattle.std.specs.Prelude.{◌≡◌, ◌+◌, ◌*◌, ◌<◌};
ghost use Rattle.pa_audit_records.specs.Keys.{name_key, word_key};
ghost use Rattle.pa_audit_records.specs.Marks.{IsSized};

use pa_slot::{SlotName, Word};

// The number of a slot.
pub(crate) fn key(slot: SlotName) -> u128
    ensures key { result ≡ name_key slot }
    ensures start { slot.start < 4294967296 }
{
    slot.born as u128 * 4_294_967_296 + slot.start as u128
}

// The number of a slot at a word.
pub(crate) fn key_word(slot: SlotName, word: Word) -> u128
    ensures key { result ≡ word_key slot word.0 }
    ensures sized { IsSized slot word.0 }
{
    key(slot) * 18_446_744_073_709_551_616 + word.0 as u128
}
