ghost use Rattle.std.specs.Prelude.{◌≡◌, ◌↔◌, ◌≤◌, IsTrue, slice_get};
ghost use Rattle.pa_rules.specs.Cells.{history_at};
ghost use Rattle.pa_rules.specs.Registers.{handle_of, reg_of};
ghost use Rattle.pa_rules.specs.Nexts.{looked_free, looked_read, looked_write};
ghost use Rattle.pa_rules.specs.Sizes.{usable_of};
ghost use Rattle.pa_audit_records.specs.Rows.{IsDoneAt, AnswersRequest, AnswersAlloc, AnswersPoint, AnswersCopyTo, AnswersReset, AnswersFree, AnswersOwnWrite, AnswersWrite, AnswersReadFrom, AnswersSwap, IsLookedAt};

use crate::usable::usable_for;
use pa_direct::GREATEST_SIZE;
use pa_record::{Answer, CellEntry, Held, History};
use pa_rules::{Next, Register, looked_free, looked_read, looked_write};
use pa_slot::{SlotName, refs};

// Whether the answer is a step of the slot that was done.
fn is_done(slot: SlotName, answer: Answer) -> bool
    ensures { IsTrue result ↔ IsDoneAt slot answer }
{
    match answer {
        Answer::Done { seen } => seen.slot == slot,
        _ => false,
    }
}

// Whether a request of that many bytes may have this answer in the version.
fn may_request(version: u32, size: u32, answer: Answer) -> bool
    ensures { IsTrue result ↔ AnswersRequest (usable_of version size) size answer }
{
    if size > GREATEST_SIZE {
        return matches!(answer, Answer::TooLarge);
    }
    match answer {
        Answer::Made { usable, .. } => usable == usable_for(version, size),
        Answer::Full { .. } => true,
        _ => false,
    }
}

// Whether an allocation may have this answer in the version, by what its register holds.
pub(crate) fn may_alloc(version: u32, holds: Register<SlotName>, size: u32, answer: Answer) -> bool
    ensures { IsTrue result ↔ AnswersAlloc holds (usable_of version size) size answer }
{
    if holds.has_handle() {
        matches!(answer, Answer::Filled)
    } else {
        may_request(version, size, answer)
    }
}

// Whether a copy to a register without a handle may have this answer, by whether no raw_ptr to the slot would be counted.
fn may_point(plain: bool, slot: SlotName, answer: Answer) -> bool
    ensures { IsTrue result ↔ AnswersPoint plain slot answer }
{
    if plain {
        matches!(answer, Answer::Uncounted)
    } else {
        is_done(slot, answer)
    }
}

// Whether a copy of a handle to the slot may have this answer, by what the second register holds.
pub(crate) fn may_copy_to(
    into: Register<SlotName>,
    plain: bool,
    slot: SlotName,
    answer: Answer,
) -> bool
    ensures { IsTrue result ↔ AnswersCopyTo into plain slot answer }
{
    if into.has_handle() {
        matches!(answer, Answer::Filled)
    } else {
        may_point(plain, slot, answer)
    }
}

// Whether a reset may have this answer.
pub(crate) fn may_reset(holds: Register<SlotName>, answer: Answer) -> bool
    ensures { IsTrue result ↔ AnswersReset holds answer }
{
    match holds.for_reset() {
        Ok(slot) => is_done(slot, answer),
        Err(refusal) => answer == refusal,
    }
}

// Whether a free may have this answer.
pub(crate) fn may_free(holds: Register<SlotName>, answer: Answer) -> bool
    ensures { IsTrue result ↔ AnswersFree holds answer }
{
    match holds.for_free() {
        Next::Refused(refusal) => answer == refusal,
        Next::Step(slot) => is_done(slot, answer),
        Next::Look(slot) => may_free_through(slot, answer),
    }
}

// Whether a free through a `raw_ptr` to the slot may have this answer.
fn may_free_through(slot: SlotName, answer: Answer) -> bool
    ensures { IsTrue result ↔ IsLookedAt looked_free slot answer }
{
    match answer {
        Answer::NotOwner { seen } => seen.slot == slot && answer == looked_free(seen),
        Answer::SecondFree { seen: Some(seen) } => {
            seen.slot == slot && answer == looked_free(seen)
        }
        _ => false,
    }
}

// Whether a write may have this answer.
pub(crate) fn may_write(holds: Register<SlotName>, answer: Answer) -> bool
    ensures { IsTrue result ↔ AnswersWrite holds answer }
{
    match holds.for_write() {
        Next::Refused(refusal) => answer == refusal,
        Next::Step(slot) => may_write_own(slot, answer),
        Next::Look(slot) => may_write_through(slot, answer),
    }
}

// Whether a write by the owner of the slot may have this answer.
fn may_write_own(slot: SlotName, answer: Answer) -> bool
    ensures { IsTrue result ↔ AnswersOwnWrite slot answer }
{
    match answer {
        Answer::Shared { seen } => seen.slot == slot && refs(seen.found) > 0,
        Answer::Done { seen } => seen.slot == slot && refs(seen.found) == 0,
        _ => false,
    }
}

// Whether a write through a `raw_ptr` to the slot may have this answer.
fn may_write_through(slot: SlotName, answer: Answer) -> bool
    ensures { IsTrue result ↔ IsLookedAt looked_write slot answer }
{
    match answer {
        Answer::NotOwner { seen } => seen.slot == slot && answer == looked_write(seen),
        Answer::StaleUse { seen: Some(seen) } => {
            seen.slot == slot && answer == looked_write(seen)
        }
        _ => false,
    }
}

// Whether this answer is allowed for a read of word `place` of a slot with `usable` bytes.
pub(crate) fn may_read_from(slot: SlotName, usable: u32, place: u32, answer: Answer) -> bool
    ensures { IsTrue result ↔ AnswersReadFrom slot usable place answer }
{
    if 8 * place as u64 >= usable as u64 {
        return matches!(answer, Answer::OutOfRange);
    }
    match answer {
        Answer::Value { seen, value } => seen.slot == slot && answer == looked_read(seen, value),
        Answer::Dangling { seen, value } => {
            seen.slot == slot && answer == looked_read(seen, value)
        }
        _ => false,
    }
}

// The handle that a register holds.
fn handle(holds: Register<SlotName>) -> Held
    ensures { result ≡ handle_of holds }
{
    match holds {
        Register::Own(slot) => Held::Own(slot),
        Register::Ref(slot) => Held::Ref(slot),
        Register::Empty | Register::Freed | Register::Cleared => Held::Nothing,
    }
}

// The register that holds a handle.
pub(crate) fn register(held: Held) -> Register<SlotName>
    ensures { result ≡ reg_of held }
{
    match held {
        Held::Nothing => Register::Empty,
        Held::Own(slot) => Register::Own(slot),
        Held::Ref(slot) => Register::Ref(slot),
    }
}

/// The exchange of this index with the cell, if there is one. Both count from 0.
pub fn exchange(cells: &[History], cell: u32, entry: u32) -> Option<CellEntry>
    ensures { result ≡ slice_get (history_at cells.now cell) entry }
{
    match cells.get(cell as usize) {
        Some(history) => history.entries().get(entry as usize).copied(),
        None => None,
    }
}

// Whether an exchange with the cell may have this answer, by what the register holds.
pub(crate) fn may_swap(
    cells: &[History],
    cell: u32,
    holds: Register<SlotName>,
    answer: Answer,
) -> bool
    ensures { IsTrue result ↔ AnswersSwap (history_at cells.now cell) holds answer }
{
    match answer {
        Answer::Swapped { entry } => match exchange(cells, cell, entry) {
            Some(found) => found.gave == handle(holds),
            None => false,
        },
        _ => false,
    }
}
