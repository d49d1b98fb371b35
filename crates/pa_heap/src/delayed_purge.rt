//! A worker's purge if returned slots wait in a queue: they all leave it, and then all lists go back.
ghost use Rattle.std.specs.Prelude.{◌≡◌, ◌+◌, ◌<◌, ◌≤◌, [], length, IfOk, OnOk, OnErr, true};
ghost use Rattle.pa_trace.specs.declared.script.Op.TheVariants as ops;
ghost use Rattle.pa_totals.specs.Settled.{none_owed};
ghost use Rattle.pa_rules.specs.Caches.{all_listed};
ghost use Rattle.pa_delay.specs.Queue.{with_waiting};
ghost use Rattle.pa_op_specs.specs.Stocks.{listed_in};
ghost use Rattle.pa_op_specs.specs.Workers.{HasItsStake, CanPlayOp, KeepsOn};
ghost use Rattle.pa_thread_state.specs.Stopping.{KeepsItsStake};
ghost use Rattle.pa_heap.specs.Waiting.{HoldsQueue, DoesDelayed, PlaysDelayed};

use crate::queues::drain_all;
use crate::worker::Worker;
use pa_cells::slots_stay_seen;
use pa_delay::Delay;
use pa_record::Answer;
use pa_region::Name;
use pa_slot::OutOfMemory;
use pa_thread_state::{Heap, Stock};
use std::sync::Wait;

impl<N: Name> Worker<N> {
    /// A purge, on this line, if returned slots wait in a queue: all slots of the queue leave it, in order, for their lists; then in
    /// each partition of the run all lists go back to the root, which decommits its empty spans. It answers how many slots lists and
    /// queue had. If it runs out of memory the worker is stopped: what left the queue and what went back stays so.
    pub fn purge_delayed<R: Wait>(
        &mut self,
        rt: &R,
        heap: &Heap<N>,
        queue: &mut Delay,
        line: u32,
    ) -> Result<Answer, OutOfMemory>
        requires ready { CanPlayOp self.old }
        requires few { queue.old.room ≤ 65536 }
        requires waits { HoldsQueue queue.old.slots self.old.stock }
        ensures plays { IfOk result (λ answer. PlaysDelayed line ops.Purge answer self.old queue.old self.new queue.new) }
        ensures goes_on { OnOk result (KeepsOn self.old self.new) }
        ensures waits { OnOk result (HoldsQueue queue.new.slots self.new.stock) }
        ensures rest { queue.new ≡ with_waiting queue.old queue.new.slots }
        ensures few { OnOk result (length queue.new.slots ≤ length queue.old.slots + 1) }
        ensures stops { OnErr result (self.new.stopped ≡ true) }
        ensures stake { OnErr result (KeepsItsStake self.old.stock self.new.stock) }
        ensures same { OnErr result (self.new
            ≡ record self.old { stock = self.new.stock; room = length self.old.records; stopped = true; owed = none_owed }) }
    {
        let ended = purge_waiting(&mut self.stock, rt, heap, queue, line);
        self.stock.kept();
        self.account.end_op(self.stock.thread(), line, ended);
        ended
    }
}

// A purge, on this line: all slots leave the queue for their lists, then in each partition of the run all lists go back whole, and
// its root is purged. It returns how many slots lists and queue had. If it runs out of memory, what left or went back stays so.
fn purge_waiting<N: Name, R: Wait>(
    stock: &mut Stock<N>,
    rt: &R,
    heap: &Heap<N>,
    queue: &mut Delay,
    line: u32,
) -> Result<Answer, OutOfMemory>
    requires stake { HasItsStake stock.old }
    requires few { queue.old.room ≤ 65536 }
    requires waits { HoldsQueue queue.old.slots stock.old }
    ensures does { IfOk result (λ answer. DoesDelayed line ops.Purge answer stock.old queue.old stock.new queue.new) }
    ensures none { OnOk result (queue.new.slots ≡ []) }
    ensures rest { queue.new ≡ with_waiting queue.old queue.new.slots }
    ensures budget { IfOk result (λ answer. stock.old.view.budget ≤ stock.new.view.budget + 1) }
    ensures stake { OnErr result (KeepsItsStake stock.old stock.new) }
{
    slots_stay_seen();
    stock.kept();
    let slots = count_all(stock, queue);
    drain_all(stock, rt, heap, queue, line)?;
    stock.kept();
    for partition in 0..stock.partitions() {
        stock.kept();
        stock.purge_partition(rt, heap, line, partition)?;
    }
    stock.kept();
    Ok(Answer::Purged { slots })
}

// How many slots the lists of the run's partitions and the queue have.
fn count_all<N: Name>(stock: &Stock<N>, queue: &Delay) -> u32
    requires few { queue.now.room ≤ 65536 }
    ensures { result ≡ all_listed (listed_in stock.now) 0 stock.now.partitions + length queue.now.slots }
{
    stock.kept();
    let mut slots = queue.len();
    for partition in 0..stock.partitions() {
        slots += stock.cached(partition).slots as u32;
    }
    slots
}
