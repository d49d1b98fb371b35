ghost use Rattle.std.specs.Prelude.{◌≡◌, ◌↔◌, IfOk, IsTrue};
ghost use Rattle.std.specs.Option.{unwrap_or};
ghost use Rattle.pa_slot.specs.Run.{Slots};
ghost use Rattle.pa_rules.specs.Played.{marks_of};
ghost use Rattle.pa_rules.specs.Rising.{RiseByLine};
ghost use Rattle.pa_audit_records.specs.ByKeys.{value_at};
ghost use Rattle.pa_audit_records.specs.Along.{word_by, LeadsOn};

use crate::by_key::ByKey;
use crate::keys::key;
use crate::marks::{Marked, told_mark};
use crate::salt::Salt;
use pa_rules::Played;
use pa_slot::{OutOfMemory, Word, apply};
use std::alloc::Global;

// Whether a word is the one in a table, or 0 if the table has none.
fn is_word(given: Option<u64>, word: Word) -> bool
    ensures { IsTrue result ↔ (word.0 ≡ unwrap_or given 0) }
{
    word.0 == given.unwrap_or(0)
}

// Whether the mark found its slot's word in the table, and made no step that isn't enabled there.
// The next word is put into the table.
fn continues(words: &mut ByKey<u64>, mark: Marked) -> Result<bool, OutOfMemory>
    ensures { IfOk result (λ b. IsTrue b →
        LeadsOn (word_by (value_at words.old)) (word_by (value_at words.new)) mark.slot mark.found.0 mark.step) }
{
    let at = key(mark.slot);
    match mark.step {
        Some(step) => match apply(mark.found, step) {
            Some(next) => {
                let old = words.replace(at, next.0)?;
                Ok(is_word(old, mark.found))
            }
            None => Ok(false),
        },
        None => Ok(is_word(words.find(at), mark.found)),
    }
}

// Whether each record that reports a slot found the word that those before it left there: one walk with one table shows
// then that each slot has one run. If threads had other steps between theirs, records may be in another order.
pub(crate) fn stand_in_order(
    alloc: Global,
    salt: Salt,
    records: &[Played],
) -> Result<bool, OutOfMemory>
    requires rising { RiseByLine records.now }
    ensures { IfOk result (λ b. IsTrue b → Slots (marks_of records.now)) }
{
    let mut words = ByKey::new(alloc, salt);
    for record in records {
        if let Some(mark) = told_mark(*record) {
            if !continues(&mut words, mark)? {
                return Ok(false);
            }
        }
    }
    Ok(true)
}
