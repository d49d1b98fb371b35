ghost use Rattle.std.specs.Prelude.{◌≡◌, ◌↔◌, ℕ, ◌+◌, ◌<◌, ◌≤◌, ◌^◌, List, [], ◌++◌, Bool, true, false, Contains, IfOk, IsTrue, None, Some, OnErr, OnOk, length, replicate, set};
ghost use Rattle.pa_audit_records.specs.ByKeys.{value_at};
ghost use Rattle.pa_slot.specs.Run.{Mark};
ghost use Rattle.pa_rules.specs.Cells.{history_at};
ghost use Rattle.pa_rules.specs.Played.{mark_of};
ghost use Rattle.pa_audit_order.specs.Looks.{IsMarked, AreLeft, FindsEnough};
ghost use Rattle.pa_audit_order.specs.Steps.{Adds, AddsAll, AddsSteps, as_list};
ghost use Rattle.pa_audit_order.specs.Cuts.{IsAheadAt, IsNear, IsGrown, IsPrepared};

use crate::keys::{key, raise};
use crate::looks::look_of;
use pa_audit_records::{ByKey, Salt};
use pa_record::History;
use pa_rules::Played;
use pa_slot::OutOfMemory;
use std::alloc::Global;

// The records that are before those to come: which are marked, which are still to be marked, the index below which all are among these,
// and for each slot the greatest number that a marked record left.
#[derive(Drop)]
pub(crate) struct Cut {
    pub marked: Vec<bool>,
    pub stack: Vec<u32>,
    pub floor: usize,
    pub left: ByKey<u64>,
}

// The cut of that many records before any is marked.
pub(crate) fn no_cut(alloc: Global, salt: Salt, length: usize) -> Result<Cut, OutOfMemory>
    ensures marked { IfOk result (λ c. c.marked.items ≡ replicate length false) }
    ensures stack { IfOk result (λ c. c.stack.items ≡ []) }
    ensures floor { IfOk result (λ c. c.floor ≡ 0) }
    ensures left { IfOk result (λ c. (q : ℕ) → value_at c.left q ≡ None) }
{
    Ok(Cut {
        marked: vec![in alloc; false; length]?,
        stack: Vec::new(alloc),
        floor: 0,
        left: ByKey::new(alloc, salt),
    })
}

// Puts a record on the stack, if there is one.
fn push(stack: &mut Vec<u32>, at: Option<u32>) -> Result<(), OutOfMemory>
    ensures pushed { OnOk result (stack.new.items ≡ stack.old.items ++ as_list at) }
    ensures same { OnErr result (stack.new.items ≡ stack.old.items) }
{
    if let Some(at) = at {
        stack.push(at)?;
    }
    Ok(())
}

// Puts all records of earlier phases on the stack that aren't there yet.
fn raise_floor(
    records: &[Played],
    phase: u32,
    stack: &mut Vec<u32>,
    floor: &mut usize,
) -> Result<(), OutOfMemory>
    requires few { length records.now < 2 ^ 32 }
    requires within { floor.old ≤ length records.now }
    ensures all { OnOk result (AddsAll records.now phase stack.old.items floor.old stack.new.items floor.new) }
    ensures some { OnErr result (Adds records.now phase stack.old.items floor.old stack.new.items floor.new) }
{
    while *floor < records.len() && records[*floor].phase < phase {
        stack.push(*floor as u32)?;
        *floor += 1;
    }
    Ok(())
}

// Puts the records on the stack from which the nearest steps lead to this one.
fn add_steps(
    records: &[Played],
    previous: &[Option<u32>],
    givers: &[Option<u32>],
    cells: &[History],
    at: u32,
    stack: &mut Vec<u32>,
    floor: &mut usize,
) -> Result<(), OutOfMemory>
    requires few { length records.now < 2 ^ 32 }
    requires ready { IsPrepared (history_at cells.now) records.now previous.now givers.now }
    requires at { at < length records.now }
    requires within { floor.old ≤ length records.now }
    ensures adds { OnOk result (AddsSteps (history_at cells.now) records.now at stack.old.items floor.old stack.new.items floor.new) }
    ensures kept { OnErr result ((j : ℕ) → Contains stack.old.items j → Contains stack.new.items j) }
{
    let told = records[at as usize];
    push(stack, previous[at as usize])?;
    push(stack, givers[at as usize])?;
    raise_floor(records, told.phase, stack, floor)?;
    Ok(())
}

// Marks a record.
fn mark(
    records: &[Played],
    at: u32,
    marked: &mut Vec<bool>,
    left: &mut ByKey<u64>,
) -> Result<(), OutOfMemory>
    requires at { at < length records.now }
    requires long { length marked.old.items ≡ length records.now }
    requires left { AreLeft records.now marked.old.items (value_at left.old) }
    ensures marked { marked.new.items ≡ set marked.old.items at true }
    ensures left { OnOk result (AreLeft records.now (set marked.old.items at true) (value_at left.new)) }
    ensures same { OnErr result ((q : ℕ) → value_at left.new q ≡ value_at left.old q) }
{
    marked[at as usize] = true;
    if let Some(look) = look_of(records[at as usize]) {
        raise(left, key(look.slot, 0), look.left)?;
    }
    Ok(())
}

// Marks all records that are before this one.
pub(crate) fn reach(
    records: &[Played],
    previous: &[Option<u32>],
    givers: &[Option<u32>],
    cells: &[History],
    at: u32,
    cut: &mut Cut,
) -> Result<(), OutOfMemory>
    requires few { length records.now < 2 ^ 32 }
    requires ready { IsPrepared (history_at cells.now) records.now previous.now givers.now }
    requires at { at < length records.now }
    requires cut { IsGrown (history_at cells.now) records.now (IsAheadAt (history_at cells.now) records.now at) (length records.now)
        cut.old.marked.items cut.old.stack.items cut.old.floor (value_at cut.old.left) }
    ensures cut { OnOk result (IsGrown (history_at cells.now) records.now (IsAheadAt (history_at cells.now) records.now at)
        (length records.now) cut.new.marked.items [] cut.new.floor (value_at cut.new.left)) }
    ensures empty { OnOk result (cut.new.stack.items ≡ []) }
    ensures near { OnOk result ((j : ℕ) → IsNear (history_at cells.now) records.now j at → IsMarked cut.new.marked.items j) }
{
    add_steps(
        records,
        previous,
        givers,
        cells,
        at,
        &mut cut.stack,
        &mut cut.floor,
    )?;
    while let Some(next) = cut.stack.pop() {
        if !cut.marked[next as usize] {
            mark(records, next, &mut cut.marked, &mut cut.left)?;
            add_steps(
                records,
                previous,
                givers,
                cells,
                next,
                &mut cut.stack,
                &mut cut.floor,
            )?;
        }
    }
    Ok(())
}

// Whether what a record reports finds no lower number of its slot than is left there.
pub(crate) fn finds_enough(left: &ByKey<u64>, told: Played) -> bool
    ensures enough { IsTrue result ↔ FindsEnough (value_at left.now) (mark_of told) }
    ensures sized { (m : Mark) → mark_of told ≡ Some m → m.slot.start < 4294967296 }
{
    match look_of(told) {
        Some(look) => match left.find(key(look.slot, 0)) {
            Some(number) => number <= look.found,
            None => true,
        },
        None => true,
    }
}
