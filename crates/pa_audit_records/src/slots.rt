ghost use Rattle.std.specs.Prelude.{◌≡◌, ◌↔◌, ◌<◌, ◌^◌, IfOk, IsTrue, length};
ghost use Rattle.pa_audit_records.specs.ByKeys.{value_at};
ghost use Rattle.pa_rules.specs.declared.verdict.Place.TheVariants as places;
ghost use Rattle.pa_rules.specs.Played.{mark_of};
ghost use Rattle.pa_rules.specs.RecordDemands.{SlotsDemand};
ghost use Rattle.pa_audit_records.specs.Marks.{mark_with};
ghost use Rattle.pa_rules.specs.Rising.{RiseByLine};
ghost use Rattle.pa_audit_records.specs.Steps.{AreFirsts, AreReached, HasAllSlots, StepFits, MarkFits};
ghost use Rattle.pa_rules.specs.Tells.{TellsFirst};

use crate::along::stand_in_order;
use crate::by_key::ByKey;
use crate::keys::key_word;
use crate::marks::{Marked, told_mark};
use crate::salt::Salt;
use crate::steps::{firsts, reach};
use pa_rules::Played;
use pa_slot::{OutOfMemory, Word, apply};
use std::alloc::Global;

/// The index of the first record that found a word which isn't one of its slot's run, or made a step which isn't the one that the run
/// used there. None if no record did.
pub fn slots_meet(alloc: Global, salt: Salt, records: &[Played]) -> Result<Option<u32>, OutOfMemory>
    requires few { length records.now < 2 ^ 32 }
    requires rising { RiseByLine records.now }
    ensures { IfOk result (TellsFirst (λ i. SlotsDemand records.now (places.Record i))) }
{
    if stand_in_order(alloc, salt, records)? {
        return Ok(None);
    }
    let firsts = firsts(alloc, salt, records)?;
    let reached = runs(alloc, salt, records, &firsts)?;
    let mut at: u32 = 0;
    for record in records {
        if !mark_fits(&firsts, &reached, at, *record) {
            return Ok(Some(at));
        }
        at += 1;
    }
    Ok(None)
}

// The words of the runs of all slots that the records report.
fn runs(
    alloc: Global,
    salt: Salt,
    records: &[Played],
    firsts: &ByKey<u32>,
) -> Result<ByKey<u32>, OutOfMemory>
    requires firsts { AreFirsts records.now (value_at firsts.now) }
    requires rising { RiseByLine records.now }
    ensures reached { IfOk result (λ m. AreReached records.now (value_at m)) }
    ensures all { IfOk result (λ m. HasAllSlots records.now (value_at m)) }
{
    let mut reached = ByKey::new(alloc, salt);
    for record in records {
        if let Some(mark) = told_mark(*record) {
            if reached.find(key_word(mark.slot, Word(0))).is_none() {
                reach(firsts, records, &mut reached, mark.slot)?;
            }
        }
    }
    Ok(reached)
}

// Whether the step that a record of this index made, if it made one, is the first at its word and enabled there.
fn step_fits(firsts: &ByKey<u32>, at: u32, line: u32, mark: Marked) -> bool
    ensures { IsTrue result ↔ StepFits (value_at firsts.now) at (mark_with line mark) mark.step }
{
    match mark.step {
        Some(step) => {
            firsts.find(key_word(mark.slot, mark.found)) == Some(at)
                && apply(mark.found, step).is_some()
        }
        None => true,
    }
}

// Whether the word that the record of this index found is one of its slot's run, and its step fits.
fn mark_fits(firsts: &ByKey<u32>, reached: &ByKey<u32>, at: u32, told: Played) -> bool
    ensures { IsTrue result ↔ MarkFits (value_at firsts.now) (value_at reached.now) at (mark_of told) }
{
    match told_mark(told) {
        Some(mark) => {
            reached.find(key_word(mark.slot, mark.found)).is_some()
                && step_fits(firsts, at, told.line, mark)
        }
        None => true,
    }
}
