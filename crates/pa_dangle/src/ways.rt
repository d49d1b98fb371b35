ghost use Rattle.std.specs.Prelude.{◌≡◌, ℕ, ◌<◌, ◌^◌, All, IfOk, IfSome, IfNone, OnOk, Contains, length};
ghost use Rattle.std.specs.Ordering.{nat_cmp};
ghost use Rattle.std.specs.BTreeMap.{get};
ghost use Rattle.pa_rules.specs.declared.played.Played.{Played};
ghost use Rattle.pa_rules.specs.Cells.{history_at};
ghost use Rattle.pa_rules.specs.RecordDemands.{IsRecord};
ghost use Rattle.pa_rules.specs.Rising.{RiseByLine};
ghost use Rattle.pa_audit_records.specs.Rows.{IsPlayedWithin};
ghost use Rattle.pa_dangle.specs.Origins.{first_register, put_held, put_into, HasOrigin};
ghost use Rattle.pa_dangle.specs.Ways.{register_key, IsGiverAt, IsWayBack, IsPutFor, AreLastPuts, PutsInto, IsWayOf, AreWays};

use pa_audit_records::{exchange, record_on};
use pa_record::{Answer, Held, History};
use pa_rules::Played;
use pa_slot::OutOfMemory;
use pa_trace::Op;
use std::alloc::Global;
use std::collections::BTreeMap;

// One step back on the way of the raw_ptr in the register that a record's op names first: it comes from the copy on this line, it
// was handed over by the record of this index, or no step is known.
#[derive(Clone, Copy)]
pub(crate) enum Way {
    Unknown,
    Copied(u32),
    Given(u32),
}

// The register that an op names first.
fn first_of(op: Op) -> Option<u32>
    ensures { result ≡ first_register op }
{
    match op {
        Op::Alloc { reg, .. }
        | Op::Reset { reg }
        | Op::Free { reg }
        | Op::Write { reg, .. }
        | Op::Read { reg, .. }
        | Op::Swap { reg, .. } => Some(reg),
        Op::Copy { from, .. } => Some(from),
        Op::Purge => None,
    }
}

// The register of an exchange, if what it found is a raw_ptr.
fn put_if(reg: u32, found: Held) -> Option<u32>
    ensures { result ≡ put_held reg found }
{
    match found {
        Held::Ref(_) => Some(reg),
        Held::Nothing | Held::Own(_) => None,
    }
}

// The register into which a record put a raw_ptr.
fn put_of(cells: &[History], op: Op, answer: Answer) -> Option<u32>
    ensures { result ≡ put_into (history_at cells.now) op answer }
{
    match op {
        Op::Copy { to, .. } => match answer {
            Answer::Done { .. } => Some(to),
            _ => None,
        },
        Op::Swap { cell, reg } => match answer {
            Answer::Swapped { entry } => match exchange(cells, cell, entry) {
                Some(found) => put_if(reg, found.found),
                None => None,
            },
            _ => None,
        },
        _ => None,
    }
}

// The index of the record that made the exchange before this one with the cell.
fn giver(records: &[Played], cells: &[History], cell: u32, entry: u32) -> Option<u32>
    requires few { length records.now < 2 ^ 32 }
    requires rising { RiseByLine records.now }
    ensures some { IfSome result (IsGiverAt (history_at cells.now) records.now cell entry) }
    ensures none { IfNone result ((i : ℕ) → IsGiverAt (history_at cells.now) records.now cell entry i → ⊥) }
{
    if entry == 0 {
        return None;
    }
    let before = exchange(cells, cell, entry - 1)?;
    record_on(records, before.line)
}

// The way back from a record that put a raw_ptr into a register.
fn way_back(records: &[Played], cells: &[History], put: Played) -> Way
    requires few { length records.now < 2 ^ 32 }
    requires rising { RiseByLine records.now }
    ensures { IsWayBack (history_at cells.now) records.now put result }
{
    match put.op {
        Op::Copy { .. } => Way::Copied(put.line),
        Op::Swap { cell, .. } => match put.answer {
            Answer::Swapped { entry } => match giver(records, cells, cell, entry) {
                Some(at) => Way::Given(at),
                None => Way::Unknown,
            },
            _ => Way::Unknown,
        },
        _ => Way::Unknown,
    }
}

// The number of a thread's register.
fn place(thread: u32, reg: u32) -> u32
    requires thread { thread < 16 }
    requires reg { reg < 64 }
    ensures { result ≡ register_key thread reg }
{
    64 * thread + reg
}

// The last record before this one, at index k, that put a raw_ptr into the register that this one's op names first.
fn last_for(
    records: &[Played],
    cells: &[History],
    last: &BTreeMap<u32, u32>,
    told: Played,
    at: u32,
) -> Option<u32>
    requires within { IsPlayedWithin told }
    requires last { AreLastPuts (history_at cells.now) records.now (get nat_cmp last.now) at }
    ensures { IsPutFor (history_at cells.now) records.now told at (first_register told.op) result }
{
    match first_of(told.op) {
        Some(reg) => last.get(&place(told.thread, reg)).copied(),
        None => None,
    }
}

// Enters a record that put a raw_ptr into a register.
fn enter(
    cells: &[History],
    last: &mut BTreeMap<u32, u32>,
    told: Played,
    at: u32,
) -> Result<(), OutOfMemory>
    requires within { IsPlayedWithin told }
    ensures { OnOk result (PutsInto (get nat_cmp last.old) (get nat_cmp last.new) told.thread
        (put_into (history_at cells.now) told.op told.answer) at) }
{
    if let Some(reg) = put_of(cells, told.op, told.answer) {
        last.insert(place(told.thread, reg), at)?;
    }
    Ok(())
}

// The way back from a record, by the last one that put a raw_ptr into its register.
fn way_by(records: &[Played], cells: &[History], told: Played, at: u32, put: Option<u32>) -> Way
    requires few { length records.now < 2 ^ 32 }
    requires rising { RiseByLine records.now }
    requires told { IsRecord records.now at told }
    requires last { IsPutFor (history_at cells.now) records.now told at (first_register told.op) put }
    ensures { IsWayOf (history_at cells.now) records.now told result }
{
    match put {
        Some(put) => way_back(records, cells, records[put as usize]),
        None => Way::Unknown,
    }
}

// The way back from each record.
pub(crate) fn ways_of(
    alloc: Global,
    records: &[Played],
    cells: &[History],
) -> Result<Vec<Way>, OutOfMemory>
    requires few { length records.now < 2 ^ 32 }
    requires rising { RiseByLine records.now }
    requires within { All IsPlayedWithin records.now }
    ensures { IfOk result (λ ways. AreWays (history_at cells.now) records.now ways.items (length records.now)) }
{
    let mut ways = Vec::new(alloc);
    let mut last = BTreeMap::new(alloc);
    let mut at: u32 = 0;
    for record in records {
        let put = last_for(records, cells, &last, *record, at);
        ways.push(way_by(records, cells, *record, at, put))?;
        enter(cells, &mut last, *record, at)?;
        at += 1;
    }
    Ok(ways)
}

// The copy to which the way from the record of this index leads.
fn end_of(records: &[Played], cells: &[History], ways: &[Way], at: u32) -> Option<u32>
    requires rising { RiseByLine records.now }
    requires at { at < length records.now }
    requires ways { AreWays (history_at cells.now) records.now ways.now (length records.now) }
    ensures some { IfSome result (λ line. (x : Played) → IsRecord records.now at x → HasOrigin (history_at cells.now) records.now x line) }
    ensures none { IfNone result ((x : Played) (line : ℕ) → IsRecord records.now at x
        → HasOrigin (history_at cells.now) records.now x line → ⊥) }
{
    let mut now = at;
    for _step in 0..ways.len() {
        match ways[now as usize] {
            Way::Copied(line) => return Some(line),
            Way::Given(before) => now = before,
            Way::Unknown => return None,
        }
    }
    None
}

// Enters the line of the copy for each record on the way to it, so that no way is gone twice.
fn shorten(records: &[Played], cells: &[History], ways: &mut [Way], at: u32, line: u32)
    requires rising { RiseByLine records.now }
    requires at { at < length records.now }
    requires ways { AreWays (history_at cells.now) records.now ways.old (length records.now) }
    requires leads { (x : Played) → IsRecord records.now at x → HasOrigin (history_at cells.now) records.now x line }
    ensures { AreWays (history_at cells.now) records.now ways.new (length records.now) }
{
    let mut now = at;
    for _step in 0..ways.len() {
        if let Way::Given(before) = ways[now as usize] {
            ways[now as usize] = Way::Copied(line);
            now = before;
        } else {
            return;
        }
    }
}

// The line of the copy from which the raw_ptr comes that the record of this index names.
pub(crate) fn origin(records: &[Played], cells: &[History], ways: &mut [Way], at: u32) -> u32
    requires rising { RiseByLine records.now }
    requires at { at < length records.now }
    requires ways { AreWays (history_at cells.now) records.now ways.old (length records.now) }
    requires comes { (x : Played) → IsRecord records.now at x → (line : ℕ) × HasOrigin (history_at cells.now) records.now x line }
    ensures origin { (x : Played) → IsRecord records.now at x → HasOrigin (history_at cells.now) records.now x result }
    ensures ways { AreWays (history_at cells.now) records.now ways.new (length records.now) }
{
    match end_of(records, cells, ways, at) {
        Some(line) => {
            shorten(records, cells, ways, at, line);
            line
        }
        None => unreachable!(),
    }
}
