//! What a worker counts of its steps, for the lines of the report, and what it owes to the totals words.
ghost use Rattle.std.specs.Prelude.{◌≡◌, ℕ, ◌+◌, ◌*◌, ◌<◌, ◌≤◌, IfSome};
ghost use Rattle.pa_trace.specs.Limits.{most_partitions};
ghost use Rattle.pa_totals.specs.Settled.{none_owed};
ghost use Rattle.pa_op_specs.specs.Counts.{AreOfSteps, IsOwedBySteps, after_step, owed_after_step, counts_after, owed_after, done_seen, made_seen, owned_in, pointed_in};
ghost use Rattle.pa_heap.specs.Accounts.{step_seen};

use pa_cells::Handle;
use pa_op_specs::Count;
use pa_record::{Answer, Seen};
use pa_rules::Register;
use pa_slot::{Step, Word, refs, returns};
use pa_totals::Owed;
use pa_trace::MOST_PARTITIONS;

// The count of a partition at the start.
pub(crate) const START: Count = Count {
    issued: 0,
    freed: 0,
    entered: 0,
    left: 0,
};

// Nothing is owed to the words of a partition.
const NOTHING: Owed = Owed {
    issued: 0,
    freed: 0,
    entered: 0,
    left: 0,
};

// Nothing is owed to any.
pub(crate) fn owed_none() -> [Owed; MOST_PARTITIONS as usize]
    ensures { result ≡ none_owed }
{
    [NOTHING; MOST_PARTITIONS as usize]
}

// Counts what an op did on the slot of a handle, if it made the step and found this.
pub(crate) fn count_step(
    counts: &mut [Count; MOST_PARTITIONS as usize],
    step: Step,
    handle: &Option<Handle>,
    seen: &Option<Seen>,
)
    requires small { AreOfSteps 4294967295 counts.old }
    requires handle { IfSome handle.now (λ h. h.partition < most_partitions) }
    ensures counts { counts.new ≡ counts_after step handle.now seen.now counts.old }
    ensures small { (n : ℕ) → AreOfSteps n counts.old → AreOfSteps (n + 1) counts.new }
{
    if let Some(handle) = handle
        && let Some(seen) = seen
    {
        let place = handle.partition as usize;
        counts[place] = stepped(counts[place], step, seen.found);
    }
}

// A partition's count after a step that found this.
fn stepped(count: Count, step: Step, found: Word) -> Count
    requires issued { count.issued ≤ 4294967295 }
    requires freed { count.freed ≤ 4294967295 }
    requires entered { count.entered ≤ 4294967295 }
    requires left { count.left ≤ 4294967295 }
    ensures { result ≡ after_step step found.0 count }
{
    let mut count = count;
    match step {
        Step::Issue => count.issued += 1,
        Step::Copy => {}
        Step::Reset => {
            if returns(step, found) {
                count.left += 1;
            }
        }
        Step::Free => {
            count.freed += 1;
            if refs(found) > 0 {
                count.entered += 1;
            }
        }
        Step::Write => {}
    }
    count
}

// Adds what an op on the slot of a handle owes, if it made the step and found this.
pub(crate) fn owe_step(
    owed: &mut [Owed; MOST_PARTITIONS as usize],
    step: Step,
    handle: &Option<Handle>,
    seen: &Option<Seen>,
)
    requires small { IsOwedBySteps 4294967295 owed.old }
    requires handle { IfSome handle.now (λ h. h.partition < most_partitions) }
    ensures owed { owed.new ≡ owed_after step handle.now seen.now owed.old }
    ensures small { (n : ℕ) → IsOwedBySteps n owed.old → IsOwedBySteps (n + 1) owed.new }
{
    if let Some(handle) = handle
        && let Some(seen) = seen
    {
        let place = handle.partition as usize;
        owed[place] = owing(owed[place], step, seen.found, handle.title.len);
    }
}

// What is owed to a partition's words after a step that found this, on a slot of this many bytes.
fn owing(owed: Owed, step: Step, found: Word, bytes: u32) -> Owed
    requires issued { owed.issued ≤ 4294967296 * 4294967295 }
    requires freed { owed.freed ≤ 4294967296 * 4294967295 }
    requires entered { owed.entered ≤ 4294967296 * 4294967295 }
    requires left { owed.left ≤ 4294967296 * 4294967295 }
    ensures { result ≡ owed_after_step step found.0 bytes owed }
{
    let bytes = u64::from(bytes);
    let mut owed = owed;
    match step {
        Step::Issue => owed.issued += bytes,
        Step::Copy => {}
        Step::Reset => {
            if returns(step, found) {
                owed.left += bytes;
            }
        }
        Step::Free => {
            owed.freed += bytes;
            if refs(found) > 0 {
                owed.entered += bytes;
            }
        }
        Step::Write => {}
    }
    owed
}

// The handle of the slot that a register owns.
pub(crate) fn owned(register: Register<Handle>) -> Option<Handle>
    ensures { result ≡ owned_in register }
{
    match register {
        Register::Own(handle) => Some(handle),
        _ => None,
    }
}

// The handle of the slot to which a register points.
pub(crate) fn pointed(register: Register<Handle>) -> Option<Handle>
    ensures { result ≡ pointed_in register }
{
    match register {
        Register::Ref(handle) => Some(handle),
        _ => None,
    }
}

// What the step of an op found, if the answer is that it was made.
pub(crate) fn found(step: Step, answer: &Answer) -> Option<Seen>
    ensures { result ≡ step_seen step answer.now }
{
    match step {
        Step::Issue => made(answer),
        Step::Copy => done(answer),
        Step::Reset => done(answer),
        Step::Free => done(answer),
        Step::Write => done(answer),
    }
}

// What was found of a slot, if the answer is that an op was done on it.
fn done(answer: &Answer) -> Option<Seen>
    ensures { result ≡ done_seen answer.now }
{
    match answer {
        Answer::Done { seen } => Some(*seen),
        _ => None,
    }
}

// What was found of a slot, if the answer is that it was made.
fn made(answer: &Answer) -> Option<Seen>
    ensures { result ≡ made_seen answer.now }
{
    match answer {
        Answer::Made { seen, .. } => Some(*seen),
        _ => None,
    }
}
