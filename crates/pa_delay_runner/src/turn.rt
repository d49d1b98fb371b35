//! One turn of a delayed run: a worker gets its stake, plays a line, settles what it owes and lends its stake.
ghost use Rattle.std.specs.Prelude.{◌≡◌, ℕ, ◌+◌, ◌<◌, ◌≤◌, false, length, IfOk, OnOk};
ghost use Rattle.pa_trace.specs.Limits.{IsOpWithin, most_threads};
ghost use Rattle.pa_region.specs.Views.{stake_of};
ghost use Rattle.pa_region.specs.Waiting.{unclean_of};
ghost use Rattle.pa_totals.specs.Settled.{none_owed};
ghost use Rattle.pa_delay.specs.Queue.{with_waiting};
ghost use Rattle.pa_op_specs.specs.Workers.{CanPlayOp, KeepsOn};
ghost use Rattle.pa_heap.specs.Waiting.{HoldsQueue, PlaysDelayed};
ghost use Rattle.pa_delay_runner.specs.Turning.{TakesTurn};

use pa_cells::slots_stay_seen;
use pa_delay::Delay;
use pa_heap::Worker;
use pa_op_specs::settlings_end_turns;
use pa_record::Answer;
use pa_region::{Name, Seat};
use pa_runner::{LineOp, hear, tell};
use pa_slot::OutOfMemory;
use pa_thread_state::Heap;
use pa_trace::Op;
use std::sync::Wait;

/// One line, played by the worker of its thread: it gets its stake from the main seat, plays the op with the thread's queue, settles
/// what it owes, and lends its stake to the main seat. If it runs out of memory, the run is over: the worker has its stake still, and
/// of what it played nothing more is said.
pub fn play_turn<N: Name, R: Wait>(
    rt: &R,
    heap: &Heap<N>,
    worker: &mut Worker<N>,
    queue: &mut Delay,
    seat: &mut Seat,
    thread: u32,
    due: LineOp,
) -> Result<(), OutOfMemory>
    requires region { seat.old.region ≡ N.region }
    requires thread { (worker.old.stock.thread ≡ thread) × (thread < most_threads) }
    requires seat { (unclean_of seat.old.view ≡ 0) × (0 < stake_of seat.old.view thread) }
    requires none { (k : ℕ) → stake_of worker.old.stock.view k ≡ 0 }
    requires going { (worker.old.stopped ≡ false) × (worker.old.owed ≡ none_owed) × (length worker.old.records < worker.old.room) }
    requires limits { IsOpWithin worker.old.stock.partitions due.op }
    requires room { (length queue.old.slots < queue.old.room) × (queue.old.room ≤ 65536) }
    requires waits { HoldsQueue queue.old.slots worker.old.stock }
    ensures region { seat.new.region ≡ N.region }
    ensures turn { OnOk result (TakesTurn thread due.line due.op worker.old queue.old seat.old.view worker.new queue.new seat.new.view) }
{
    hear(heap, worker, seat, thread);
    play_delayed_op(rt, heap, worker, queue, due)?;
    settlings_end_turns();
    worker.kept();
    worker.settle(heap);
    tell(heap, worker, seat);
    Ok(())
}

// Plays the op of a line with the thread's queue. Only a free, a reset and a purge change the queue.
fn play_delayed_op<N: Name, R: Wait>(
    rt: &R,
    heap: &Heap<N>,
    worker: &mut Worker<N>,
    queue: &mut Delay,
    due: LineOp,
) -> Result<Answer, OutOfMemory>
    requires ready { CanPlayOp worker.old }
    requires limits { IsOpWithin worker.old.stock.partitions due.op }
    requires room { (length queue.old.slots < queue.old.room) × (queue.old.room ≤ 65536) }
    requires waits { HoldsQueue queue.old.slots worker.old.stock }
    ensures plays { IfOk result (λ answer. PlaysDelayed due.line due.op answer worker.old queue.old worker.new queue.new) }
    ensures goes_on { OnOk result (KeepsOn worker.old worker.new) }
    ensures waits { OnOk result (HoldsQueue queue.new.slots worker.new.stock) }
    ensures rest { queue.new ≡ with_waiting queue.old queue.new.slots }
    ensures few { OnOk result (length queue.new.slots ≤ length queue.old.slots + 1) }
{
    slots_stay_seen();
    let line = due.line;
    match due.op {
        Op::Alloc {
            reg,
            partition,
            size,
        } => worker.alloc(rt, heap, line, reg, partition, size),
        Op::Copy { from, to } => Ok(worker.copy(heap, line, from, to)),
        Op::Reset { reg } => worker.reset_delayed(rt, heap, queue, line, reg),
        Op::Free { reg } => worker.free_delayed(rt, heap, queue, line, reg),
        Op::Write { reg, value } => Ok(worker.write(heap, line, reg, value)),
        Op::Read { reg, place } => Ok(worker.deref(heap, line, reg, place)),
        Op::Swap { cell, reg } => worker.exchange(rt, heap, line, cell, reg),
        Op::Purge => worker.purge_delayed(rt, heap, queue, line),
    }
}
