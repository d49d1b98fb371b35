//! The lines of one thread in one phase, one after the other.
ghost use Rattle.std.specs.Prelude.{◌≡◌, ◌∷◌, [], IfOk, OnOk, OnErr, true};
ghost use Rattle.pa_trace.specs.Limits.{IsOpWithin};
ghost use Rattle.pa_totals.specs.Settled.{none_owed};
ghost use Rattle.pa_op_specs.specs.Workers.{CanPlayOp, KeepsOn};
ghost use Rattle.pa_op_specs.specs.Plays.{PlaysOp};
ghost use Rattle.pa_thread_state.specs.Stopping.{KeepsItsStake};
ghost use Rattle.pa_runner.specs.Playing.{AreBefore, CanPlay, PlaysLines, IsPlayed};
ghost use Rattle.pa_runner.specs.Stopped.{StopsOp};

use crate::gate::Gate;
use crate::phases::Playing;
use pa_heap::Worker;
use pa_op_specs::settlings_end_phases;
use pa_record::Answer;
use pa_region::Name;
use pa_slot::OutOfMemory;
use pa_thread_state::Heap;
use pa_trace::Op;
use std::sync::Wait;
use std::thread::Threads;

/// An op of a thread, and the number of its line in the trace. The trace's head is line 1.
#[derive(Clone, Copy, Debug, PartialEq, Eq)]
pub struct LineOp {
    pub line: u32,
    pub op: Op,
}

impl<R: Threads + Wait + Sync, N: Name, G: Gate> Playing<'_, R, N, G> {
    /// Plays a thread's lines in their order, and adds the bytes of its steps to the totals words then. If an op runs out of
    /// memory the worker is stopped, and plays no more. It has no record of that op,
    /// but has its stake all the same, and owes nothing.
    pub fn play_lines(&self, worker: &mut Worker<N>, thread: u32, lines: &[LineOp])
        requires thread { worker.old.stock.thread ≡ thread }
        requires ready { CanPlay lines.now worker.old }
        requires settled { worker.old.owed ≡ none_owed }
        ensures { IsPlayed lines.now worker.old worker.new }
    {
        for due in lines {
            match self.play_line(worker, thread, *due) {
                Ok(()) => {}
                Err(OutOfMemory) => return,
            }
        }
        // A worker without lines has no record whose log segment could have the additions, and it owes nothing.
        if lines.is_empty() {
            return;
        }
        settlings_end_phases();
        worker.kept();
        worker.settle(self.heap);
    }

    // Plays one line, between the two calls of the gate.
    fn play_line(&self, worker: &mut Worker<N>, thread: u32, due: LineOp) -> Result<(), OutOfMemory>
        requires thread { worker.old.stock.thread ≡ thread }
        requires ready { CanPlayOp worker.old }
        requires limits { IsOpWithin worker.old.stock.partitions due.op }
        requires new { AreBefore due.line worker.old.records }
        ensures plays { OnOk result (PlaysLines (due ∷ []) worker.old worker.new) }
        ensures stops { OnErr result (worker.new.stopped ≡ true) }
        ensures stake { OnErr result (KeepsItsStake worker.old.stock worker.new.stock) }
        ensures settled { OnErr result (worker.new.owed ≡ none_owed) }
        ensures records { OnErr result (worker.new.records ≡ worker.old.records) }
        ensures left { OnErr result (StopsOp due.line due.op worker.old worker.new) }
    {
        self.gate.pass(self.rt, worker, thread, due.line);
        let answer = play_op(self.rt, self.heap, worker, due)?;
        self.gate
            .answered(self.rt, worker, thread, due.line, &answer);
        Ok(())
    }
}

// Plays the op of a line.
fn play_op<R: Wait, N: Name>(
    rt: &R,
    heap: &Heap<N>,
    worker: &mut Worker<N>,
    due: LineOp,
) -> Result<Answer, OutOfMemory>
    requires ready { CanPlayOp worker.old }
    requires limits { IsOpWithin worker.old.stock.partitions due.op }
    ensures plays { IfOk result (λ answer. PlaysOp due.line due.op answer worker.old worker.new) }
    ensures goes_on { OnOk result (KeepsOn worker.old worker.new) }
    ensures stops { OnErr result (worker.new.stopped ≡ true) }
    ensures stake { OnErr result (KeepsItsStake worker.old.stock worker.new.stock) }
    ensures settled { OnErr result (worker.new.owed ≡ none_owed) }
    ensures records { OnErr result (worker.new.records ≡ worker.old.records) }
    ensures left { OnErr result (StopsOp due.line due.op worker.old worker.new) }
{
    let line = due.line;
    match due.op {
        Op::Alloc {
            reg,
            partition,
            size,
        } => worker.alloc(rt, heap, line, reg, partition, size),
        Op::Copy { from, to } => Ok(worker.copy(heap, line, from, to)),
        Op::Reset { reg } => worker.reset(rt, heap, line, reg),
        Op::Free { reg } => worker.free(rt, heap, line, reg),
        Op::Write { reg, value } => Ok(worker.write(heap, line, reg, value)),
        Op::Read { reg, place } => Ok(worker.deref(heap, line, reg, place)),
        Op::Swap { cell, reg } => worker.exchange(rt, heap, line, cell, reg),
        Op::Purge => worker.purge(rt, heap, line),
    }
}
