ghost use Rattle.std.specs.Prelude.{◌↔◌, ◌<◌, ◌^◌, All, IfOk, IsTrue, List, length};
ghost use Rattle.pa_rules.specs.declared.verdict.Place.TheVariants as places;
ghost use Rattle.pa_rules.specs.Cells.{history_at};
ghost use Rattle.pa_rules.specs.RecordDemands.{RegistersDemand};
ghost use Rattle.pa_rules.specs.declared.played.Played.{Played};
ghost use Rattle.pa_rules.specs.Registers.{plain_in, usable_in};
ghost use Rattle.pa_rules.specs.Sizes.{usable_of};
ghost use Rattle.pa_audit_records.specs.Rows.{AnswersCopy, AnswersRead, MayAnswer, IsPlayedWithin};
ghost use Rattle.pa_audit_records.specs.Tables.{ArePlains, AreUsables, ReadsSlot, regs_in, facts_by};
ghost use Rattle.pa_rules.specs.Tells.{TellsFirst};

use crate::known::{KnownSlots, known_slots};
use crate::registers::Registers;
use crate::rows::{
    may_alloc, may_copy_to, may_free, may_read_from, may_reset, may_swap, may_write,
};
use crate::salt::Salt;
use pa_record::{Answer, History};
use pa_rules::{Played, Register};
use pa_slot::{OutOfMemory, SlotName};
use pa_trace::Op;
use std::alloc::Global;

/// The index of the first record with another answer than its thread's registers require by the rules of the version.
/// None if there is no such record.
pub fn registers_meet(
    alloc: Global,
    salt: Salt,
    version: u32,
    records: &[Played],
    cells: &[History],
) -> Result<Option<u32>, OutOfMemory>
    requires few { length records.now < 2 ^ 32 }
    requires within { All IsPlayedWithin records.now }
    ensures { IfOk result (TellsFirst (λ i. RegistersDemand (usable_of version) (history_at cells.now) records.now (places.Record i))) }
{
    let known = known_slots(alloc, salt, records)?;
    let mut registers = Registers::new(alloc)?;
    let mut at: u32 = 0;
    for record in records {
        if !may_answer(version, &registers, &known, cells, record) {
            return Ok(Some(at));
        }
        registers.change(cells, record);
        at += 1;
    }
    Ok(None)
}

// Whether a copy may have this answer, by what both registers hold.
fn may_copy(
    known: &KnownSlots,
    holds: Register<SlotName>,
    into: Register<SlotName>,
    answer: Answer,
) -> bool
    ensures { (ps : List Played) → ArePlains ps known.now → IsTrue result ↔ AnswersCopy holds (plain_in ps) into answer }
{
    match holds.for_copy() {
        Ok(slot) => may_copy_to(into, holds.is_owner() && known.is_plain(slot), slot, answer),
        Err(refusal) => answer == refusal,
    }
}

// Whether a read may have this answer, by what its register holds.
fn may_read(known: &KnownSlots, holds: Register<SlotName>, place: u32, answer: Answer) -> bool
    ensures { (ps : List Played) → AreUsables ps known.now → IsTrue result ↔ AnswersRead holds (usable_in ps) place answer }
{
    match holds.for_read() {
        Ok(slot) => may_read_from(slot, known.usable(slot), place, answer),
        Err(refusal) => answer == refusal,
    }
}

// Whether a record's answer is one that its thread's registers require.
fn may_answer(
    version: u32,
    registers: &Registers,
    known: &KnownSlots,
    cells: &[History],
    told: &Played,
) -> bool
    requires within { IsPlayedWithin told.now }
    ensures { (ps : List Played) → (ReadsSlot told.now.op → AreUsables ps known.now) → ArePlains ps known.now →
        IsTrue result ↔
        MayAnswer (facts_by version (history_at cells.now) ps) told.now.op (regs_in registers.now told.now.thread) told.now.answer }
{
    let thread = told.thread;
    let answer = told.answer;
    match told.op {
        Op::Alloc { reg, size, .. } => {
            may_alloc(version, registers.get(thread, reg), size, answer)
        }
        Op::Copy { from, to } => {
            may_copy(
                known,
                registers.get(thread, from),
                registers.get(thread, to),
                answer,
            )
        }
        Op::Reset { reg } => may_reset(registers.get(thread, reg), answer),
        Op::Free { reg } => may_free(registers.get(thread, reg), answer),
        Op::Write { reg, .. } => may_write(registers.get(thread, reg), answer),
        Op::Read { reg, place } => may_read(known, registers.get(thread, reg), place, answer),
        Op::Swap { cell, reg } => may_swap(cells, cell, registers.get(thread, reg), answer),
        Op::Purge => matches!(answer, Answer::Purged { .. }),
    }
}
