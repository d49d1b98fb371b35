ghost use Rattle.std.specs.Prelude.{◌≡◌, ◌↔◌, ℕ, ◌+◌, ◌<◌, ◌^◌, Contains, IfOk, IfSome, IfNone, IsTrue, length};
ghost use Rattle.pa_audit_records.specs.ByKeys.{value_at};
ghost use Rattle.pa_rules.specs.declared.played.Played.{Played};
ghost use Rattle.pa_rules.specs.declared.verdict.Place.TheVariants as places;
ghost use Rattle.pa_rules.specs.Cells.{history_at};
ghost use Rattle.pa_rules.specs.RecordDemands.{CellsDemand};
ghost use Rattle.pa_audit_records.specs.Exchanges.{NamesExchange, SwapFits, IsSwapOf, TellsPair, AreLinesKnown, IsRecordOfSwap, FitsNow};
ghost use Rattle.pa_rules.specs.Rising.{RiseByLine};
ghost use Rattle.pa_rules.specs.Tells.{TellsFirst};

use crate::by_key::ByKey;
use crate::records::record_on;
use crate::rows::exchange;
use crate::salt::Salt;
use pa_record::{Answer, CellEntry, Held, History};
use pa_rules::Played;
use pa_slot::OutOfMemory;
use pa_trace::Op;
use std::alloc::Global;

/// The index of the first record of an exchange that doesn't name one of its cell with its line, and none if each does.
pub fn swaps_meet(records: &[Played], cells: &[History]) -> Option<u32>
    requires few { length records.now < 2 ^ 32 }
    ensures { TellsFirst (λ i. CellsDemand (history_at cells.now) records.now (places.Record i)) result }
{
    let mut at: u32 = 0;
    for record in records {
        if !swap_fits(cells, record.op, record.answer, record.line) {
            return Some(at);
        }
        at += 1;
    }
    None
}

// Whether the answer names an exchange with the cell that has this line.
fn names_exchange(cells: &[History], cell: u32, answer: Answer, line: u32) -> bool
    ensures { IsTrue result ↔ NamesExchange (history_at cells.now cell) answer line }
{
    match answer {
        Answer::Swapped { entry } => match exchange(cells, cell, entry) {
            Some(found) => found.line == line,
            None => false,
        },
        _ => false,
    }
}

// Whether the answer of an op is what it requires, if it is an exchange.
fn swap_fits(cells: &[History], op: Op, answer: Answer, line: u32) -> bool
    ensures { IsTrue result ↔ SwapFits (history_at cells.now) op answer line }
{
    match op {
        Op::Swap { cell, .. } => names_exchange(cells, cell, answer, line),
        _ => true,
    }
}

// Whether the op is an exchange with the cell.
fn is_swap(op: Op, of: u32) -> bool
    ensures { IsTrue result ↔ IsSwapOf of op }
{
    match op {
        Op::Swap { cell, .. } => cell == of,
        _ => false,
    }
}

// The record of the line, if it is of an exchange with the cell.
fn swap_of(records: &[Played], line: u32, cell: u32) -> Option<Played>
    requires few { length records.now < 2 ^ 32 }
    requires rising { RiseByLine records.now }
    ensures some { IfSome result (λ x. Contains records.now x × (x.line ≡ line) × IsSwapOf cell x.op) }
    ensures none { IfNone result ((x : Played) → Contains records.now x → x.line ≡ line → IsSwapOf cell x.op → ⊥) }
{
    match record_on(records, line) {
        Some(at) => {
            let told = records[at as usize];
            if is_swap(told.op, cell) {
                Some(told)
            } else {
                None
            }
        }
        None => None,
    }
}

// Whether the exchange found what is given, has none of the known lines, and its record comes before none so far.
fn fits_now(
    known: &ByKey<u32>,
    last: &ByKey<u32>,
    phase: u32,
    given: Held,
    entry: CellEntry,
    told: Played,
) -> bool
    ensures { IsTrue result ↔ FitsNow (value_at known.now) (value_at last.now) phase given entry told }
{
    entry.found == given
        && known.find(entry.line as u128).is_none()
        && last.find(told.thread as u128).unwrap_or(0) <= told.line
        && phase <= told.phase
}

// The record of the exchange, if it fits.
fn record_of(
    records: &[Played],
    known: &ByKey<u32>,
    last: &ByKey<u32>,
    phase: u32,
    given: Held,
    cell: u32,
    entry: CellEntry,
) -> Option<Played>
    requires few { length records.now < 2 ^ 32 }
    requires rising { RiseByLine records.now }
    ensures some { IfSome result (λ x. IsRecordOfSwap records.now cell entry x
        × FitsNow (value_at known.now) (value_at last.now) phase given entry x) }
    ensures none { IfNone result ((x : Played) → IsRecordOfSwap records.now cell entry x
        → FitsNow (value_at known.now) (value_at last.now) phase given entry x → ⊥) }
{
    match swap_of(records, entry.line, cell) {
        Some(told) => {
            if fits_now(known, last, phase, given, entry, told) {
                Some(told)
            } else {
                None
            }
        }
        None => None,
    }
}

// The index of the first exchange with the cell that doesn't fit. The lines of those that do are known then.
fn cell_meets(
    alloc: Global,
    salt: Salt,
    records: &[Played],
    known: &mut ByKey<u32>,
    cell: u32,
    cells: &[History],
) -> Result<Option<usize>, OutOfMemory>
    requires cell { cell < length cells.now }
    requires few { length records.now < 2 ^ 32 }
    requires rising { RiseByLine records.now }
    requires known { AreLinesKnown (history_at cells.now) (value_at known.old) cell 0 }
    ensures tells { IfOk result (TellsFirst (λ j. CellsDemand (history_at cells.now) records.now (places.Cell cell j))) }
    ensures known { IfOk result (λ o. IfNone o (AreLinesKnown (history_at cells.now) (value_at known.new) (cell + 1) 0)) }
{
    let entries = cells[cell as usize].entries();
    let mut last = ByKey::new(alloc, salt);
    let mut phase: u32 = 0;
    let mut given = Held::Nothing;
    let mut at: usize = 0;
    for entry in entries {
        let told = match record_of(records, known, &last, phase, given, cell, *entry) {
            Some(told) => told,
            None => return Ok(Some(at)),
        };
        known.put(entry.line as u128, 0)?;
        last.put(told.thread as u128, told.line)?;
        phase = told.phase;
        given = entry.gave;
        at += 1;
    }
    Ok(None)
}

/// The first exchange, cell by cell, that found what the one before didn't give, that has no line of its cell's or one that an exchange
/// above it has, or that comes after one with a record that comes later. None if there is no such exchange.
pub fn exchanges_meet(
    alloc: Global,
    salt: Salt,
    records: &[Played],
    cells: &[History],
) -> Result<Option<(u32, usize)>, OutOfMemory>
    requires few { length records.now < 2 ^ 32 }
    requires cells { length cells.now < 2 ^ 32 }
    requires rising { RiseByLine records.now }
    ensures { IfOk result (TellsPair (λ k j. CellsDemand (history_at cells.now) records.now (places.Cell k j))) }
{
    let mut known = ByKey::new(alloc, salt);
    let mut cell: u32 = 0;
    for _history in cells {
        if let Some(at) = cell_meets(alloc, salt, records, &mut known, cell, cells)? {
            return Ok(Some((cell, at)));
        }
        cell += 1;
    }
    Ok(None)
}
