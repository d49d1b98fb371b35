//! A worker's account of what it played.
ghost use Rattle.std.specs.Prelude.{◌≡◌, ◌<◌, ◌∷◌, ◌++◌, [], length, IfSome, vec_capacity};
ghost use Rattle.pa_trace.specs.Limits.{most_partitions};
ghost use Rattle.pa_heap.specs.Accounts.{EndsOp, EndsStep, IsAccount};

use crate::counts::{count_step, found, owe_step, owed_none};
use pa_cells::Handle;
use pa_op_specs::Count;
use pa_record::{Answer, Entry};
use pa_slot::{OutOfMemory, Step};
use pa_totals::Owed;
use pa_trace::MOST_PARTITIONS;

// Its records so far, how many records it has room for in all, whether it ran out of memory, what it counted, and what it owes to
// the totals words.
#[derive(Drop)]
pub(crate) struct Account {
    pub(crate) records: Vec<Entry>,
    pub(crate) room: u32,
    pub(crate) stopped: bool,
    pub(crate) counts: [Count; MOST_PARTITIONS as usize],
    pub(crate) owed: [Owed; MOST_PARTITIONS as usize],
}

impl Account {
    // Ends an op of the thread on this line, which made this step on the slot of the handle if its answer says so.
    pub(crate) fn end_step(
        &mut self,
        thread: u32,
        line: u32,
        step: Step,
        handle: &Option<Handle>,
        ended: Result<Answer, OutOfMemory>,
    )
        requires account { IsAccount self.old }
        requires room { length self.old.records.items < self.old.room }
        requires few { length self.old.records.items < 4294967296 }
        requires handle { IfSome handle.now (λ h. h.partition < most_partitions) }
        ensures account { IsAccount self.new }
        ensures ends { EndsStep thread line step handle.now ended self.old self.new }
    {
        match ended {
            Ok(answer) => {
                let seen = found(step, &answer);
                count_step(&mut self.counts, step, handle, &seen);
                owe_step(&mut self.owed, step, handle, &seen);
                enter(&mut self.records, thread, line, answer);
            }
            Err(OutOfMemory) => {
                self.stopped = true;
                self.owed = owed_none();
                self.room = self.records.len() as u32;
            }
        }
    }

    // Ends an op of the thread on this line that made no step which is counted.
    pub(crate) fn end_op(&mut self, thread: u32, line: u32, ended: Result<Answer, OutOfMemory>)
        requires account { IsAccount self.old }
        requires room { length self.old.records.items < self.old.room }
        requires few { length self.old.records.items < 4294967296 }
        ensures account { IsAccount self.new }
        ensures ends { EndsOp thread line ended self.old self.new }
    {
        self.end_step(thread, line, Step::Write, &None, ended)
    }
}

// Appends a record, for which there is room.
fn enter(records: &mut Vec<Entry>, thread: u32, line: u32, answer: Answer)
    requires { length records.old.items < vec_capacity records.old }
    ensures items { records.new.items ≡ records.old.items ++ record { line = line; thread = thread; answer = answer } ∷ [] }
    ensures room { vec_capacity records.new ≡ vec_capacity records.old }
{
    records.push_reserved(Entry {
        line,
        thread,
        answer,
    });
}
