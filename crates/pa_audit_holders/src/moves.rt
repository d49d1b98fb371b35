ghost use Rattle.std.specs.Prelude.{◌≡◌, ℕ, ◌+◌, ◌<◌, ◌^◌, ◌↔◌, [], ◌∷◌, ◌++◌, IfOk, IsTrue, List, OnOk, length, map};
ghost use Rattle.pa_dense.specs.Act.{act_of};
ghost use Rattle.pa_audit_records.specs.ByKeys.{value_at};
ghost use Rattle.pa_rules.specs.Holders.{Move, moves_by};
ghost use Rattle.pa_rules.specs.Rising.{RiseByLine};
ghost use Rattle.pa_audit_records.specs.Seeking.{IsOnLine};
ghost use Rattle.pa_audit_holders.specs.declared.owners.Course.TheVariants as courses;
ghost use Rattle.pa_audit_holders.specs.Owners.{AllFit, AreDirect, AreOfRuns, HasOwners, HasReturns, TellsThread, move_on};

use crate::owners::{Course, Mover, Owner, move_slot};
use pa_audit_records::{ByKey, record_near};
use pa_dense::Act;
use pa_record::Numbered;
use pa_rules::Played;
use pa_slot::OutOfMemory;
use std::alloc::Global;

// What is found of a line: the thread of its record, if there is one,
// and how far a line is above its record's index, as it was found last.
#[derive(Clone, Copy)]
pub(crate) struct Found {
    pub(crate) thread: Option<u32>,
    pub(crate) above: u32,
}

// The thread of the record on a line, if there is one. It is looked for first at the index that has this distance from the line:
// the lines of records follow one another but for those on which a phase begins.
pub(crate) fn thread_on(records: &[Played], line: u32, above: u32) -> Found
    requires few { length records.now < 2 ^ 32 }
    requires rising { RiseByLine records.now }
    ensures { TellsThread records.now line result.thread }
{
    match record_near(records, line, line.saturating_sub(above)) {
        Some(at) => found_at(records, at, line),
        None => Found {
            thread: None,
            above,
        },
    }
}

fn found_at(records: &[Played], at: u32, line: u32) -> Found
    requires { IsOnLine records.now line at }
    ensures { TellsThread records.now line result.thread }
{
    Found {
        thread: Some(records[at as usize].thread),
        above: line.saturating_sub(at),
    }
}

// The slots that an entry moves, all in one direction.
#[derive(Clone, Copy)]
pub(crate) struct Moves<'a> {
    pub(crate) course: Course,
    pub(crate) slots: &'a [Numbered],
}

// The slot of a direct map that an entry of this act moves, at its number. For another act it is any slot.
pub(crate) fn direct_slots(act: Act<'_>) -> [Numbered; 1]
    ensures { AreDirect (act_of act.entry) result }
{
    match act {
        Act::Map { slot, .. } => [Numbered { slot, number: 0 }],
        Act::Unmap { slot, .. } => [slot],
        _ => [Numbered::default()],
    }
}

fn out(slots: &[Numbered]) -> Moves<'_>
    ensures { (result.course ≡ courses.Out) × (result.slots.now ≡ slots.now) }
{
    Moves {
        course: Course::Out,
        slots,
    }
}

fn back(slots: &[Numbered]) -> Moves<'_>
    ensures { (result.course ≡ courses.Back) × (result.slots.now ≡ slots.now) }
{
    Moves {
        course: Course::Back,
        slots,
    }
}

// The slots that an entry of this act moves. A direct map's is the one beside the act.
pub(crate) fn moves_of<'a>(act: Act<'a>, direct: &'a [Numbered]) -> Moves<'a>
    requires { AreDirect (act_of act) direct.now }
    ensures { (line : ℕ) → moves_by line (act_of act.entry) ≡ map (move_on line result.course) result.slots.now }
{
    match act {
        Act::Fill { slots, .. } => out(slots.items()),
        Act::Map { .. } => out(direct),
        Act::Give { slots } => back(slots.items()),
        Act::Unmap { .. } => back(direct),
        Act::Full { .. } | Act::Purge => out(&[]),
    }
}

// Whether both hold.
pub(crate) fn both(a: bool, b: bool) -> bool
    ensures { IsTrue result ↔ (IsTrue a × IsTrue b) }
{
    a && b
}

// Moves slots, one after the other. Returns whether each has the holder that it needs.
pub(crate) fn move_slots(
    records: &[Played],
    firsts: &ByKey<u32>,
    owners: &mut ByKey<Owner>,
    mover: Mover,
    course: Course,
    slots: &[Numbered],
) -> Result<bool, OutOfMemory>
    requires known { AreOfRuns records.now }
    requires returns { HasReturns records.now (value_at firsts.now) }
    requires thread { TellsThread records.now mover.line mover.thread }
    ensures owners { OnOk result ((ms : List Move) → HasOwners records.now ms (value_at owners.old)
        → HasOwners records.now (ms ++ map (move_on mover.line course) slots.now) (value_at owners.new)) }
    ensures fits { IfOk result (λ b. (ms : List Move) → HasOwners records.now ms (value_at owners.old)
        → IsTrue b ↔ AllFit records.now ms (map (move_on mover.line course) slots.now)) }
{
    let mut all = true;
    for slot in slots {
        let fits = move_slot(records, firsts, owners, mover, course, *slot)?;
        all = both(all, fits);
    }
    Ok(all)
}
