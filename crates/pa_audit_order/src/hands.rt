ghost use Rattle.std.specs.Prelude.{◌≡◌, ℕ, ◌<◌, ◌^◌, Contains, IfOk, IfSome, Some, length};
ghost use Rattle.pa_audit_records.specs.ByKeys.{value_at};
ghost use Rattle.pa_record.specs.declared.entry.Answer.TheVariants.{Swapped};
ghost use Rattle.pa_trace.specs.declared.script.Op.TheVariants.{Swap};
ghost use Rattle.pa_rules.specs.declared.played.Played.{Played};
ghost use Rattle.pa_rules.specs.declared.verdict.Place.TheVariants as places;
ghost use Rattle.pa_rules.specs.Cells.{history_at};
ghost use Rattle.pa_rules.specs.RecordDemands.{IsRecord, CellsDemand};
ghost use Rattle.pa_rules.specs.Seen.{HandsTo};
ghost use Rattle.pa_rules.specs.Rising.{RiseByLine};
ghost use Rattle.pa_audit_order.specs.Steps.{AreGivers, ArePrevious, IsGiving};

use pa_audit_records::{ByKey, Salt, exchange, record_on};
use pa_record::{Answer, Held, History};
use pa_rules::Played;
use pa_slot::OutOfMemory;
use pa_trace::Op;
use std::alloc::Global;

// For each record the one before it of its thread.
pub(crate) fn previous_of(
    alloc: Global,
    salt: Salt,
    records: &[Played],
) -> Result<Vec<Option<u32>>, OutOfMemory>
    requires few { length records.now < 2 ^ 32 }
    ensures { IfOk result (λ v. ArePrevious records.now v.items (length records.now)) }
{
    let mut previous = Vec::new(alloc);
    let mut last = ByKey::new(alloc, salt);
    let mut at: u32 = 0;
    for record in records {
        let thread = record.thread as u128;
        previous.push(last.find(thread))?;
        last.put(thread, at)?;
        at += 1;
    }
    Ok(previous)
}

// The line of the exchange before this one of the cell, if that gave a handle.
fn given(cells: &[History], cell: u32, entry: u32) -> Option<u32>
    ensures some { IfSome result (IsGiving (history_at cells.now) cell entry) }
    ensures all { (l : ℕ) → IsGiving (history_at cells.now) cell entry l → result ≡ Some l }
{
    if entry == 0 {
        return None;
    }
    let before = exchange(cells, cell, entry - 1)?;
    if before.gave == Held::Nothing {
        None
    } else {
        Some(before.line)
    }
}

// The line of the record whose exchange gave the handle that this one's found.
fn given_to(cells: &[History], told: Played) -> Option<u32>
    ensures some { IfSome result (λ l. (k reg j : ℕ) × (told.op ≡ Swap k reg) × (told.answer ≡ Swapped j)
        × IsGiving (history_at cells.now) k j l) }
    ensures all { (k reg j l : ℕ) → told.op ≡ Swap k reg → told.answer ≡ Swapped j
        → IsGiving (history_at cells.now) k j l → result ≡ Some l }
{
    match told.op {
        Op::Swap { cell, .. } => match told.answer {
            Answer::Swapped { entry } => given(cells, cell, entry),
            _ => None,
        },
        _ => None,
    }
}

// The index of the record whose exchange gave the handle that this one's found.
fn giver(records: &[Played], cells: &[History], told: Played) -> Option<u32>
    requires few { length records.now < 2 ^ 32 }
    requires rising { RiseByLine records.now }
    requires among { Contains records.now told }
    requires swaps { (i : ℕ) → CellsDemand (history_at cells.now) records.now (places.Record i) }
    requires exchanges { (k j : ℕ) → CellsDemand (history_at cells.now) records.now (places.Cell k j) }
    ensures some { IfSome result (λ j. (x : Played) × IsRecord records.now j x × HandsTo (history_at cells.now) x told) }
    ensures all { (j : ℕ) (x : Played) → IsRecord records.now j x → HandsTo (history_at cells.now) x told → result ≡ Some j }
{
    match given_to(cells, told) {
        Some(line) => record_on(records, line),
        None => None,
    }
}

// The record that handed over to each one.
pub(crate) fn givers_of(
    alloc: Global,
    records: &[Played],
    cells: &[History],
) -> Result<Vec<Option<u32>>, OutOfMemory>
    requires few { length records.now < 2 ^ 32 }
    requires rising { RiseByLine records.now }
    requires swaps { (i : ℕ) → CellsDemand (history_at cells.now) records.now (places.Record i) }
    requires exchanges { (k j : ℕ) → CellsDemand (history_at cells.now) records.now (places.Cell k j) }
    ensures { IfOk result (λ v. AreGivers (history_at cells.now) records.now v.items (length records.now)) }
{
    let mut givers = Vec::new(alloc);
    for record in records {
        let giver = giver(records, cells, *record);
        givers.push(giver)?;
    }
    Ok(givers)
}
