//! A worker's free and reset, if returned slots wait in a queue before its lists.
ghost use Rattle.std.specs.Prelude.{◌≡◌, ◌+◌, ◌<◌, ◌≤◌, length, IfOk, OnOk, OnErr, true};
ghost use Rattle.pa_trace.specs.declared.script.Op.TheVariants as ops;
ghost use Rattle.pa_trace.specs.Limits.{register_count};
ghost use Rattle.pa_totals.specs.Settled.{none_owed};
ghost use Rattle.pa_delay.specs.Queue.{with_waiting};
ghost use Rattle.pa_op_specs.specs.Workers.{HasItsStake, CanPlayOp, KeepsOn};
ghost use Rattle.pa_thread_state.specs.Stopping.{KeepsItsStake};
ghost use Rattle.pa_heap.specs.Waiting.{DoesDelayed, HoldsQueue, PlaysDelayed};

use crate::counts::{owned, pointed};
use crate::queues::wait_behind;
use crate::worker::Worker;
use pa_cells::slots_stay_seen;
use pa_count::Fate;
use pa_delay::Delay;
use pa_record::Answer;
use pa_region::{Name, counted_steps_leave, looks_leave, owns_change, states_are_owns};
use pa_rules::{Next, looked_free};
use pa_slot::{OutOfMemory, Step};
use pa_thread_state::{Heap, Stock};
use std::sync::Wait;

impl<N: Name> Worker<N> {
    /// A free of what the register owns, on this line, if returned slots wait in a queue before the worker's lists. A slot of a class that
    /// its step returns comes to the back of the queue, and slots leave at its front while it has too many bytes. It waits for locks, and
    /// may run out of memory, only if a slot needs the root. If it does, the worker is stopped, and the step remains made.
    pub fn free_delayed<R: Wait>(
        &mut self,
        rt: &R,
        heap: &Heap<N>,
        queue: &mut Delay,
        line: u32,
        reg: u32,
    ) -> Result<Answer, OutOfMemory>
        requires ready { CanPlayOp self.old }
        requires reg { reg < register_count }
        requires room { length queue.old.slots < queue.old.room }
        requires waits { HoldsQueue queue.old.slots self.old.stock }
        ensures plays { IfOk result (λ answer. PlaysDelayed line (ops.Free reg) answer self.old queue.old self.new queue.new) }
        ensures goes_on { OnOk result (KeepsOn self.old self.new) }
        ensures waits { OnOk result (HoldsQueue queue.new.slots self.new.stock) }
        ensures rest { queue.new ≡ with_waiting queue.old queue.new.slots }
        ensures few { OnOk result (length queue.new.slots ≤ length queue.old.slots + 1) }
        ensures stops { OnErr result (self.new.stopped ≡ true) }
        ensures stake { OnErr result (KeepsItsStake self.old.stock self.new.stock) }
        ensures same { OnErr result (self.new
            ≡ record self.old { stock = self.new.stock; room = length self.old.records; stopped = true; owed = none_owed }) }
    {
        self.stock.kept();
        let handle = owned(self.stock.register(reg));
        let ended = play_free_delayed(&mut self.stock, rt, heap, queue, line, reg);
        self.stock.kept();
        self.account
            .end_step(self.stock.thread(), line, Step::Free, &handle, ended);
        ended
    }

    /// A reset of the register's `raw_ptr`, on this line, if returned slots wait in a queue before the worker's lists. A slot of a class
    /// that its step returns comes to the back of the queue, and slots leave at its front while it has too many bytes. It waits for locks,
    /// and may run out of memory, only if a slot needs the root. If it does, the worker is stopped, and the step remains made.
    pub fn reset_delayed<R: Wait>(
        &mut self,
        rt: &R,
        heap: &Heap<N>,
        queue: &mut Delay,
        line: u32,
        reg: u32,
    ) -> Result<Answer, OutOfMemory>
        requires ready { CanPlayOp self.old }
        requires reg { reg < register_count }
        requires room { length queue.old.slots < queue.old.room }
        requires waits { HoldsQueue queue.old.slots self.old.stock }
        ensures plays { IfOk result (λ answer. PlaysDelayed line (ops.Reset reg) answer self.old queue.old self.new queue.new) }
        ensures goes_on { OnOk result (KeepsOn self.old self.new) }
        ensures waits { OnOk result (HoldsQueue queue.new.slots self.new.stock) }
        ensures rest { queue.new ≡ with_waiting queue.old queue.new.slots }
        ensures few { OnOk result (length queue.new.slots ≤ length queue.old.slots + 1) }
        ensures stops { OnErr result (self.new.stopped ≡ true) }
        ensures stake { OnErr result (KeepsItsStake self.old.stock self.new.stock) }
        ensures same { OnErr result (self.new
            ≡ record self.old { stock = self.new.stock; room = length self.old.records; stopped = true; owed = none_owed }) }
    {
        self.stock.kept();
        let handle = pointed(self.stock.register(reg));
        let ended = play_reset_delayed(&mut self.stock, rt, heap, queue, line, reg);
        self.stock.kept();
        self.account
            .end_step(self.stock.thread(), line, Step::Reset, &handle, ended);
        ended
    }
}

// A free of what the register owns, on this line. Through a `raw_ptr` it only looks. A slot that its step returns comes behind the queue.
// If it runs out of memory the step remains made.
fn play_free_delayed<N: Name, R: Wait>(
    stock: &mut Stock<N>,
    rt: &R,
    heap: &Heap<N>,
    queue: &mut Delay,
    line: u32,
    reg: u32,
) -> Result<Answer, OutOfMemory>
    requires stake { HasItsStake stock.old }
    requires budget { 0 < stock.old.view.budget }
    requires reg { reg < register_count }
    requires room { length queue.old.slots < queue.old.room }
    requires waits { HoldsQueue queue.old.slots stock.old }
    ensures does { IfOk result (λ answer. DoesDelayed line (ops.Free reg) answer stock.old queue.old stock.new queue.new) }
    ensures waits { OnOk result (HoldsQueue queue.new.slots stock.new) }
    ensures rest { queue.new ≡ with_waiting queue.old queue.new.slots }
    ensures few { OnOk result (length queue.new.slots ≤ length queue.old.slots + 1) }
    ensures budget { IfOk result (λ answer. stock.old.view.budget ≤ stock.new.view.budget + 1) }
    ensures stake { OnErr result (KeepsItsStake stock.old stock.new) }
{
    counted_steps_leave();
    looks_leave();
    owns_change();
    states_are_owns();
    slots_stay_seen();
    stock.kept();
    match stock.register(reg).for_free() {
        Next::Refused(refusal) => Ok(refusal),
        Next::Step(handle) => {
            let (seen, fate) = stock.give_up(heap.region(), &handle, reg);
            match fate {
                Fate::Kept => Ok(Answer::Done { seen }),
                Fate::Last => {
                    stock.kept();
                    stock.lies(handle.title);
                    wait_behind(stock, rt, heap, queue, line, handle)?;
                    Ok(Answer::Done { seen })
                }
            }
        }
        Next::Look(handle) => {
            let seen = stock.look(heap.region(), &handle, reg);
            Ok(looked_free(seen))
        }
    }
}

// A reset of the register's `raw_ptr`, on this line. A slot that its step returns comes behind the queue. If it runs out of memory the
// step remains made.
fn play_reset_delayed<N: Name, R: Wait>(
    stock: &mut Stock<N>,
    rt: &R,
    heap: &Heap<N>,
    queue: &mut Delay,
    line: u32,
    reg: u32,
) -> Result<Answer, OutOfMemory>
    requires stake { HasItsStake stock.old }
    requires budget { 0 < stock.old.view.budget }
    requires reg { reg < register_count }
    requires room { length queue.old.slots < queue.old.room }
    requires waits { HoldsQueue queue.old.slots stock.old }
    ensures does { IfOk result (λ answer. DoesDelayed line (ops.Reset reg) answer stock.old queue.old stock.new queue.new) }
    ensures waits { OnOk result (HoldsQueue queue.new.slots stock.new) }
    ensures rest { queue.new ≡ with_waiting queue.old queue.new.slots }
    ensures few { OnOk result (length queue.new.slots ≤ length queue.old.slots + 1) }
    ensures budget { IfOk result (λ answer. stock.old.view.budget ≤ stock.new.view.budget + 1) }
    ensures stake { OnErr result (KeepsItsStake stock.old stock.new) }
{
    counted_steps_leave();
    slots_stay_seen();
    stock.kept();
    match stock.register(reg).for_reset() {
        Ok(handle) => {
            let (seen, fate) = stock.let_go(heap.region(), &handle, reg);
            match fate {
                Fate::Kept => Ok(Answer::Done { seen }),
                Fate::Last => {
                    stock.kept();
                    stock.lies(handle.title);
                    wait_behind(stock, rt, heap, queue, line, handle)?;
                    Ok(Answer::Done { seen })
                }
            }
        }
        Err(refusal) => Ok(refusal),
    }
}
