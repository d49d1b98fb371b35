ghost use Rattle.std.specs.Prelude.{◌≡◌, ◌<◌, ◌^◌, AllPairs, IfOk, IfSome, IfNone, OnOk, IsSome, None, length};
ghost use Rattle.pa_audit_records.specs.ByKeys.{value_at};
ghost use Rattle.pa_slot.specs.declared.word.SlotName.{SlotName};
ghost use Rattle.pa_slot.specs.declared.word.Step.{Step};
ghost use Rattle.pa_slot.specs.Run.{Mark, IsFirstAt};
ghost use Rattle.pa_rules.specs.Played.{marks_of};
ghost use Rattle.pa_audit_records.specs.Keys.{word_key};
ghost use Rattle.pa_audit_records.specs.Marks.{IsSized};
ghost use Rattle.pa_rules.specs.Rising.{RiseByLine};
ghost use Rattle.pa_audit_records.specs.Steps.{AreFirsts, AreReached, IsNextWord, IsLastWord};

use crate::by_key::ByKey;
use crate::keys::key_word;
use crate::marks::{step_key, told_mark};
use crate::salt::Salt;
use pa_rules::Played;
use pa_slot::{OutOfMemory, SlotName, Step, Word, apply};
use std::alloc::Global;

// The first record that made a step of each slot at each word. The last record is looked at first.
pub(crate) fn firsts(
    alloc: Global,
    salt: Salt,
    records: &[Played],
) -> Result<ByKey<u32>, OutOfMemory>
    requires few { length records.now < 2 ^ 32 }
    ensures { IfOk result (λ m. AreFirsts records.now (value_at m)) }
{
    let mut firsts = ByKey::new(alloc, salt);
    let mut at = records.len();
    while at > 0 {
        at -= 1;
        if let Some(key) = step_key(records[at]) {
            firsts.put(key, at as u32)?;
        }
    }
    Ok(firsts)
}

// The step that was first made of the slot at the word.
fn first_step(firsts: &ByKey<u32>, records: &[Played], slot: SlotName, word: Word) -> Option<Step>
    requires firsts { AreFirsts records.now (value_at firsts.now) }
    requires rising { RiseByLine records.now }
    ensures step { IfSome result (λ p. (m : Mark) × IsFirstAt (marks_of records.now) slot word.0 m p) }
    ensures none { IfNone result ((m : Mark) (p : Step) → IsFirstAt (marks_of records.now) slot word.0 m p → ⊥) }
{
    match firsts.find(key_word(slot, word)) {
        Some(at) => match told_mark(records[at as usize]) {
            Some(mark) => mark.step,
            None => None,
        },
        None => None,
    }
}

// The word after this one in the slot's run.
fn next_word(firsts: &ByKey<u32>, records: &[Played], slot: SlotName, word: Word) -> Option<Word>
    requires firsts { AreFirsts records.now (value_at firsts.now) }
    requires rising { RiseByLine records.now }
    ensures next { IfSome result (λ v. IsNextWord records.now slot word.0 v.0) }
    ensures last { IfNone result (IsLastWord records.now slot word.0) }
{
    match first_step(firsts, records, slot, word) {
        Some(step) => apply(word, step),
        None => None,
    }
}

// Enters the words of the slot's run, none of which is entered yet.
pub(crate) fn reach(
    firsts: &ByKey<u32>,
    records: &[Played],
    reached: &mut ByKey<u32>,
    slot: SlotName,
) -> Result<(), OutOfMemory>
    requires firsts { AreFirsts records.now (value_at firsts.now) }
    requires rising { RiseByLine records.now }
    requires reached { AreReached records.now (value_at reached.old) }
    requires fresh { value_at reached.old (word_key slot 0) ≡ None }
    ensures reached { OnOk result (AreReached records.now (value_at reached.new)) }
    ensures kept { OnOk result ((s : SlotName) → s.start < 4294967296 →
        IsSome (value_at reached.old (word_key s 0)) → IsSome (value_at reached.new (word_key s 0))) }
    ensures first { OnOk result (IsSome (value_at reached.new (word_key slot 0))) }
{
    let mut word = Word(0);
    reached.put(key_word(slot, word), 0)?;
    while let Some(next) = next_word(firsts, records, slot, word) {
        reached.put(key_word(slot, next), 0)?;
        word = next;
    }
    Ok(())
}
