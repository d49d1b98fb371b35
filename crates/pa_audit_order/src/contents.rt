ghost use Rattle.std.specs.Prelude.{◌≡◌, ◌↔◌, ℕ, ◌<◌, ◌^◌, All, IfOk, IfSome, IfNone, IsTrue, length};
ghost use Rattle.std.specs.Ordering.{nat_cmp};
ghost use Rattle.std.specs.BTreeMap.{get};
ghost use Rattle.pa_rules.specs.declared.played.Played.{Played};
ghost use Rattle.pa_rules.specs.declared.verdict.Place.TheVariants as places;
ghost use Rattle.pa_rules.specs.Cells.{history_at};
ghost use Rattle.pa_rules.specs.Contents.{IsContent, IsNextFree};
ghost use Rattle.pa_rules.specs.RecordDemands.{SlotsDemand, ContentsDemand};
ghost use Rattle.pa_rules.specs.Sizes.{usable_of};
ghost use Rattle.pa_rules.specs.Tells.{TellsFirst};
ghost use Rattle.pa_rules.specs.Rising.{RiseByLine};
ghost use Rattle.pa_audit_records.specs.Rows.{IsPlayedWithin};
ghost use Rattle.pa_audit_records.specs.Tables.{regs_in};
ghost use Rattle.pa_audit_order.specs.declared.numbers.Kind.TheVariants.{Fill, Free};
ghost use Rattle.pa_audit_order.specs.Numbers.{AreByNumber, IsOneAt, put_by};
ghost use Rattle.pa_audit_order.specs.Given.{MeetRegisters, ReadsRaw, IsOther, IsFreedMeanwhile, MayFindPoison, MayGive, NeedsNoContent};

use crate::keys::{greatest, key, least};
use crate::numbers::{Kind, by_number};
use pa_audit_records::Registers;
use pa_record::{Answer, History};
use pa_rules::{Played, Register};
use pa_slot::{OutOfMemory, POISON, SlotName, number};
use pa_trace::Op;
use std::alloc::Global;
use std::collections::BTreeMap;

/// The index of the first record that read a value which it may not report: neither the content of its slot at the number that it found
/// nor poison, or poison when no other thread's free was under way. None if no record did. So it is by the rules of each version by which
/// the records have answers that their registers require.
pub fn contents_meet(
    alloc: Global,
    records: &[Played],
    cells: &[History],
) -> Result<Option<u32>, OutOfMemory>
    requires few { length records.now < 2 ^ 32 }
    requires rising { RiseByLine records.now }
    requires within { All IsPlayedWithin records.now }
    requires slots { (i : ℕ) → SlotsDemand records.now (places.Record i) }
    ensures { IfOk result (λ at. (version : ℕ) → MeetRegisters version (history_at cells.now) records.now
        → TellsFirst (λ i. ContentsDemand (usable_of version) (history_at cells.now) records.now (places.Record i)) at) }
{
    if need_no_content(records) {
        return Ok(None);
    }
    let fills = by_number(alloc, records, Kind::Fill)?;
    let frees = by_number(alloc, records, Kind::Free)?;
    let mut registers = Registers::new(alloc)?;
    let mut at: u32 = 0;
    for record in records {
        if !may_give(&fills, &frees, records, &registers, *record) {
            return Ok(Some(at));
        }
        registers.change(cells, record);
        at += 1;
    }
    Ok(None)
}

// Whether the answer is one that a record may report whatever its slot holds:
// poison for a slot that was freed, or no value at all.
fn needs_no_content(answer: Answer) -> bool
    ensures { IsTrue result ↔ NeedsNoContent answer }
{
    match answer {
        Answer::Value { .. } => false,
        Answer::Dangling { value, .. } => value == POISON,
        _ => true,
    }
}

// Whether each record has an answer that doesn't depend on a content.
fn need_no_content(records: &[Played]) -> bool
    ensures { IsTrue result ↔ All (λ x. NeedsNoContent x.answer) records.now }
{
    records.iter().all(|record| needs_no_content(record.answer))
}

// What a record that filled a slot put into it.
fn filling(told: Played) -> u64
    ensures { result ≡ put_by told.op told.answer }
{
    match told.answer {
        Answer::Done { .. } => match told.op {
            Op::Write { value, .. } => value,
            _ => 0,
        },
        _ => 0,
    }
}

// The content of the slot at the number.
fn content(fills: &BTreeMap<u128, u32>, records: &[Played], slot: SlotName, number: u64) -> u64
    requires fills { AreByNumber Fill records.now (get nat_cmp fills.now) (length records.now) }
    requires one { IsOneAt Fill records.now }
    ensures { IsContent records.now slot number result }
{
    match greatest(fills, key(slot, 0), key(slot, number)) {
        Some((_, at)) => filling(records[at as usize]),
        None => 0,
    }
}

// Whether the value is the content of the slot at the number.
fn gives_content(
    fills: &BTreeMap<u128, u32>,
    records: &[Played],
    slot: SlotName,
    number: u64,
    value: u64,
) -> bool
    requires fills { AreByNumber Fill records.now (get nat_cmp fills.now) (length records.now) }
    requires one { IsOneAt Fill records.now }
    ensures { IsTrue result ↔ IsContent records.now slot number value }
{
    content(fills, records, slot, number) == value
}

// The record of the next free of the slot from the number on.
fn next_free(
    frees: &BTreeMap<u128, u32>,
    records: &[Played],
    slot: SlotName,
    number: u64,
) -> Option<Played>
    requires frees { AreByNumber Free records.now (get nat_cmp frees.now) (length records.now) }
    ensures some { IfSome result (IsNextFree records.now slot number) }
    ensures none { IfNone result ((y : Played) → IsNextFree records.now slot number y → ⊥) }
{
    match least(frees, key(slot, number), key(slot, u64::MAX)) {
        Some((_, at)) => Some(records[at as usize]),
        None => None,
    }
}

// Whether the free is another thread's than the record's, in its phase.
fn is_other(free: Played, told: Played) -> bool
    ensures { IsTrue result ↔ IsOther free told }
{
    free.thread != told.thread && free.phase == told.phase
}

// Whether the next free of the slot from the number on is another thread's than the record's, in its phase.
fn is_freed_meanwhile(
    frees: &BTreeMap<u128, u32>,
    records: &[Played],
    told: Played,
    slot: SlotName,
    number: u64,
) -> bool
    requires frees { AreByNumber Free records.now (get nat_cmp frees.now) (length records.now) }
    requires one { IsOneAt Free records.now }
    ensures { IsTrue result ↔ IsFreedMeanwhile records.now told slot number }
{
    match next_free(frees, records, slot, number) {
        Some(free) => is_other(free, told),
        None => false,
    }
}

// Whether the record's op reads the slot through a raw_ptr.
fn reads_raw(registers: &Registers, told: Played, slot: SlotName) -> bool
    requires within { IsPlayedWithin told }
    ensures { IsTrue result ↔ ReadsRaw (regs_in registers.now told.thread) told.op slot }
{
    match told.op {
        Op::Read { reg, .. } => registers.get(told.thread, reg) == Register::Ref(slot),
        _ => false,
    }
}

// Whether a record that read this value of the slot at the number may have found poison, as the slot was being freed.
fn may_find_poison(
    frees: &BTreeMap<u128, u32>,
    records: &[Played],
    registers: &Registers,
    told: Played,
    slot: SlotName,
    number: u64,
    value: u64,
) -> bool
    requires frees { AreByNumber Free records.now (get nat_cmp frees.now) (length records.now) }
    requires one { IsOneAt Free records.now }
    requires within { IsPlayedWithin told }
    ensures { IsTrue result ↔ MayFindPoison records.now (regs_in registers.now told.thread) told slot number value }
{
    value == POISON
        && reads_raw(registers, told, slot)
        && is_freed_meanwhile(frees, records, told, slot, number)
}

// Whether the value that a record read is one that it may report.
fn may_give(
    fills: &BTreeMap<u128, u32>,
    frees: &BTreeMap<u128, u32>,
    records: &[Played],
    registers: &Registers,
    told: Played,
) -> bool
    requires fills { AreByNumber Fill records.now (get nat_cmp fills.now) (length records.now) }
    requires frees { AreByNumber Free records.now (get nat_cmp frees.now) (length records.now) }
    requires one_fill { IsOneAt Fill records.now }
    requires one_free { IsOneAt Free records.now }
    requires within { IsPlayedWithin told }
    ensures { IsTrue result ↔ MayGive records.now (regs_in registers.now told.thread) told told.answer }
{
    match told.answer {
        Answer::Value { seen, value } => {
            let at = number(seen.found);
            gives_content(fills, records, seen.slot, at, value)
                || may_find_poison(frees, records, registers, told, seen.slot, at, value)
        }
        Answer::Dangling { value, .. } => value == POISON,
        _ => true,
    }
}
