ghost use Rattle.std.specs.Prelude.{◌≡◌, ℕ, ◌+◌, ◌*◌, ◌<◌, ◌↔◌, [], ◌∷◌, ◌++◌, IfNone, IfOk, IfSome, IsTrue, List, None, OnErr, OnOk, Some, filter};
ghost use Rattle.pa_audit_records.specs.ByKeys.{value_at};
ghost use Rattle.pa_slot.specs.declared.word.SlotName.{SlotName as Name};
ghost use Rattle.pa_rules.specs.Holders.{Move, is_move_of};
ghost use Rattle.pa_audit_records.specs.Keys.{word_key};
ghost use Rattle.pa_audit_records.specs.Marks.{IsSized};
ghost use Rattle.pa_audit_holders.specs.Owners.{AreOfRuns, EntersReturn, MoveFits, HasOwners, HasReturned, HasReturns, IsNeeded, TellsOwner, TellsThread, made_owner, move_on};

use crate::asks::step_of;
use pa_audit_records::{ByKey, Salt};
use pa_record::{Answer, Numbered};
use pa_rules::Played;
use pa_slot::{OutOfMemory, SlotName, number, returns};
use std::alloc::Global;

// Who holds a free slot at a number: the root or a thread, or nobody if it isn't free there.
#[derive(Clone, Copy, Debug, PartialEq, Eq)]
pub(crate) enum Owner {
    Nobody,
    Root,
    Thread(u32),
}

// A slot leaves the root, or comes back to it.
#[derive(Clone, Copy, Debug, PartialEq, Eq)]
pub(crate) enum Course {
    Out,
    Back,
}

// The number of a slot at a number of its count word.
pub(crate) fn key_at(slot: Numbered) -> u128
    ensures key { result ≡ word_key slot.slot slot.number }
    ensures sized { IsSized slot.slot slot.number }
{
    name_number(slot.slot) * 18_446_744_073_709_551_616 + slot.number as u128
}

fn name_number(slot: SlotName) -> u128
    ensures number { result ≡ 4294967296 * slot.born + slot.start }
    ensures start { slot.start < 4294967296 }
    ensures born { slot.born < 4294967296 }
{
    slot.born as u128 * 4_294_967_296 + slot.start as u128
}

// The slot that the record's step returned, at the number that it left.
fn returned(told: Played) -> Option<Numbered>
    ensures some { IfSome result (λ n. HasReturned told n.slot n.number) }
    ensures none { IfNone result ((s : Name) (k : ℕ) → HasReturned told s k → ⊥) }
{
    match told.answer {
        Answer::Done { seen } => match step_of(told.op) {
            Some(step) => {
                if returns(step, seen.found) {
                    Some(Numbered {
                        slot: seen.slot,
                        number: number(seen.found) + 1,
                    })
                } else {
                    None
                }
            }
            None => None,
        },
        _ => None,
    }
}

// The threads that returned slots, by the slots and the numbers that they left.
pub(crate) fn returns_of(
    alloc: Global,
    salt: Salt,
    records: &[Played],
) -> Result<ByKey<u32>, OutOfMemory>
    ensures { IfOk result (λ firsts. HasReturns records.now (value_at firsts)) }
{
    let mut firsts = ByKey::new(alloc, salt);
    for record in records {
        enter_return(&mut firsts, *record)?;
    }
    Ok(firsts)
}

// Enters the thread of a record whose step returned a slot.
fn enter_return(firsts: &mut ByKey<u32>, told: Played) -> Result<(), OutOfMemory>
    ensures enters { OnOk result (EntersReturn told (value_at firsts.old) (value_at firsts.new)) }
    ensures same { OnErr result ((q : ℕ) → value_at firsts.new q ≡ value_at firsts.old q) }
{
    match returned(told) {
        Some(slot) => firsts.put(key_at(slot), told.thread),
        None => Ok(()),
    }
}

// Who holds a slot at a number before any move.
pub(crate) fn first_owner(records: &[Played], firsts: &ByKey<u32>, slot: Numbered) -> Owner
    requires returns { HasReturns records.now (value_at firsts.now) }
    ensures { TellsOwner records.now [] slot.slot slot.number result }
{
    if slot.number == 0 {
        return Owner::Root;
    }
    match firsts.find(key_at(slot)) {
        Some(thread) => Owner::Thread(thread),
        None => Owner::Nobody,
    }
}

// Who holds a slot at a number after the moves so far.
fn owner_now(
    records: &[Played],
    firsts: &ByKey<u32>,
    owners: &ByKey<Owner>,
    slot: Numbered,
) -> Owner
    requires returns { HasReturns records.now (value_at firsts.now) }
    ensures { (ms : List Move) → HasOwners records.now ms (value_at owners.now)
        → TellsOwner records.now (filter (is_move_of slot.slot slot.number) ms) slot.slot slot.number result }
{
    match owners.find(key_at(slot)) {
        Some(owner) => owner,
        None => first_owner(records, firsts, slot),
    }
}

// The owner after a move on a line of this thread, or of none.
fn made(held: Owner, course: Course, thread: Option<u32>) -> Owner
    ensures { result ≡ made_owner held course thread }
{
    match thread {
        Some(thread) => moved(held, course, thread),
        None => Owner::Nobody,
    }
}

fn moved(held: Owner, course: Course, thread: u32) -> Owner
    ensures { result ≡ made_owner held course (Some thread) }
{
    match held {
        Owner::Nobody => Owner::Nobody,
        _ => match course {
            Course::Out => Owner::Thread(thread),
            Course::Back => Owner::Root,
        },
    }
}

// Whether these are one owner.
pub(crate) fn is_owner(a: Owner, b: Owner) -> bool
    ensures { IsTrue result ↔ (a ≡ b) }
{
    match (a, b) {
        (Owner::Nobody, Owner::Nobody) | (Owner::Root, Owner::Root) => true,
        (Owner::Thread(s), Owner::Thread(t)) => s == t,
        _ => false,
    }
}

// Whether this is the owner that the move needs.
fn is_needed(held: Owner, course: Course, thread: Option<u32>) -> bool
    ensures { IsTrue result ↔ IsNeeded held course thread }
{
    match thread {
        Some(thread) => match course {
            Course::Out => is_owner(held, Owner::Root),
            Course::Back => is_owner(held, Owner::Thread(thread)),
        },
        None => false,
    }
}

// Who moves slots: an entry on this line, whose record is of this thread if there is one.
#[derive(Clone, Copy)]
pub(crate) struct Mover {
    pub(crate) line: u32,
    pub(crate) thread: Option<u32>,
}

// Moves a slot at a number. Returns whether its holder is the one that the move needs.
pub(crate) fn move_slot(
    records: &[Played],
    firsts: &ByKey<u32>,
    owners: &mut ByKey<Owner>,
    mover: Mover,
    course: Course,
    slot: Numbered,
) -> Result<bool, OutOfMemory>
    requires known { AreOfRuns records.now }
    requires returns { HasReturns records.now (value_at firsts.now) }
    requires thread { TellsThread records.now mover.line mover.thread }
    ensures owners { OnOk result ((ms : List Move) → HasOwners records.now ms (value_at owners.old)
        → HasOwners records.now (ms ++ move_on mover.line course slot ∷ []) (value_at owners.new)) }
    ensures fits { IfOk result (λ b. (ms : List Move) → HasOwners records.now ms (value_at owners.old)
        → IsTrue b ↔ MoveFits records.now ms (move_on mover.line course slot)) }
    ensures same { OnErr result ((q : ℕ) → value_at owners.new q ≡ value_at owners.old q) }
{
    let held = owner_now(records, firsts, owners, slot);
    owners.put(key_at(slot), made(held, course, mover.thread))?;
    Ok(is_needed(held, course, mover.thread))
}
