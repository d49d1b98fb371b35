ghost use Rattle.std.specs.Prelude.{◌≡◌, ◌↔◌, ℕ, ◌<◌, ◌^◌, All, IfOk, IsTrue, Some, length};
ghost use Rattle.pa_audit_records.specs.ByKeys.{value_at};
ghost use Rattle.pa_slot.specs.Run.{Mark};
ghost use Rattle.pa_rules.specs.declared.verdict.Place.TheVariants as places;
ghost use Rattle.pa_rules.specs.Cells.{history_at};
ghost use Rattle.pa_rules.specs.Played.{mark_of};
ghost use Rattle.pa_rules.specs.RecordDemands.{CellsDemand, SeenDemand};
ghost use Rattle.pa_rules.specs.Tells.{TellsFirst};
ghost use Rattle.pa_rules.specs.Rising.{RiseByLine};
ghost use Rattle.pa_audit_records.specs.Rows.{IsPlayedWithin};
ghost use Rattle.pa_audit_records.specs.Cuts.{RiseByPhase};
ghost use Rattle.pa_audit_order.specs.Cuts.{IsPrepared, IsOrderly, TellsOf, earlier_of};

use crate::cuts::{Cut, finds_enough, no_cut, reach};
use crate::hands::{givers_of, previous_of};
use crate::rises::{has_no_exchange, numbers_rise};
use pa_audit_records::Salt;
use pa_record::History;
use pa_rules::Played;
use pa_slot::OutOfMemory;
use pa_trace::MOST_THREADS;
use std::alloc::Global;

/// The index of the first record that is before itself, by its thread, by phases and by handles that were handed over, or finds a lower
/// number of its slot than a record that is before it left. None if no record does.
pub fn seen_meets(
    alloc: Global,
    salt: Salt,
    records: &[Played],
    cells: &[History],
) -> Result<Option<u32>, OutOfMemory>
    requires few { length records.now < 2 ^ 32 }
    requires rising { RiseByLine records.now }
    requires phases { RiseByPhase records.now }
    requires within { All IsPlayedWithin records.now }
    requires swaps { (i : ℕ) → CellsDemand (history_at cells.now) records.now (places.Record i) }
    requires exchanges { (k j : ℕ) → CellsDemand (history_at cells.now) records.now (places.Cell k j) }
    ensures { IfOk result (TellsFirst (λ i. SeenDemand (history_at cells.now) records.now (places.Record i))) }
{
    if has_no_exchange(cells) && numbers_rise(alloc, salt, records)? {
        return Ok(None);
    }
    let previous = previous_of(alloc, salt, records)?;
    let givers = givers_of(alloc, records, cells)?;
    let mut first = None;
    for thread in 0..MOST_THREADS {
        let told = walk(alloc, salt, records, &previous, &givers, cells, thread)?;
        first = earlier(first, told);
    }
    Ok(first)
}

// The lesser of two indices, or the only one.
fn earlier(first: Option<u32>, told: Option<u32>) -> Option<u32>
    ensures { result ≡ earlier_of first told }
{
    match first {
        Some(a) => match told {
            Some(b) => Some(a.min(b)),
            None => Some(a),
        },
        None => told,
    }
}

// Whether the record isn't before itself, and finds no lower number than is left.
fn is_fresh(cut: &Cut, at: u32, told: Played) -> bool
    requires at { at < length cut.now.marked.items }
    ensures fresh { IsTrue result ↔ IsOrderly cut.now.marked.items at (value_at cut.now.left) (mark_of told) }
    ensures sized { (m : Mark) → mark_of told ≡ Some m → m.slot.start < 4294967296 }
{
    let enough = finds_enough(&cut.left, told);
    !cut.marked[at as usize] && enough
}

// The first record of the thread that is before itself, or finds too low a number.
fn walk(
    alloc: Global,
    salt: Salt,
    records: &[Played],
    previous: &[Option<u32>],
    givers: &[Option<u32>],
    cells: &[History],
    thread: u32,
) -> Result<Option<u32>, OutOfMemory>
    requires few { length records.now < 2 ^ 32 }
    requires ready { IsPrepared (history_at cells.now) records.now previous.now givers.now }
    ensures { IfOk result (TellsOf records.now thread (λ i. SeenDemand (history_at cells.now) records.now (places.Record i))) }
{
    let mut cut = no_cut(alloc, salt, records.len())?;
    let mut at: u32 = 0;
    for record in records {
        if record.thread == thread {
            reach(records, previous, givers, cells, at, &mut cut)?;
            if !is_fresh(&cut, at, *record) {
                return Ok(Some(at));
            }
        }
        at += 1;
    }
    Ok(None)
}
