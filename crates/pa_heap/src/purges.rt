//! A worker's purge: all its lists go back, and each root decommits its empty spans.
ghost use Rattle.std.specs.Prelude.{◌≡◌, ◌+◌, ◌<◌, ◌≤◌, length, IfOk, OnOk, OnErr, true};
ghost use Rattle.pa_trace.specs.declared.script.Op.TheVariants as ops;
ghost use Rattle.pa_totals.specs.Settled.{none_owed};
ghost use Rattle.pa_op_specs.specs.Workers.{HasItsStake, CanPlayOp, KeepsOn};
ghost use Rattle.pa_op_specs.specs.Plays.{DoesOp, PlaysOp};
ghost use Rattle.pa_thread_state.specs.Stopping.{KeepsItsStake};
ghost use Rattle.pa_heap.specs.Stopping.{StopsPurge};

use crate::worker::Worker;
use pa_record::Answer;
use pa_region::Name;
use pa_slot::OutOfMemory;
use pa_thread_state::{Heap, Stock};
use std::sync::Wait;

impl<N: Name> Worker<N> {
    /// A purge, on this line: in each partition of the run all lists of the worker go back to the root, which then decommits
    /// its empty spans. If it runs out of memory it is stopped: what went back stays so,
    /// and a batch that a root refused is free in its seat, on no list.
    pub fn purge<R: Wait>(
        &mut self,
        rt: &R,
        heap: &Heap<N>,
        line: u32,
    ) -> Result<Answer, OutOfMemory>
        requires ready { CanPlayOp self.old }
        ensures plays { IfOk result (λ answer. PlaysOp line ops.Purge answer self.old self.new) }
        ensures goes_on { OnOk result (KeepsOn self.old self.new) }
        ensures stops { OnErr result (self.new.stopped ≡ true) }
        ensures stake { OnErr result (KeepsItsStake self.old.stock self.new.stock) }
        ensures left { OnErr result (StopsPurge line self.old.stock self.new.stock) }
        ensures same { OnErr result (self.new
            ≡ record self.old { stock = self.new.stock; room = length self.old.records; stopped = true; owed = none_owed }) }
    {
        let ended = purge(&mut self.stock, rt, heap, line);
        self.stock.kept();
        self.account.end_op(self.stock.thread(), line, ended);
        ended
    }
}

// A purge, on this line: in each partition of the run all lists go back whole, and then its root is purged. It returns
// how many slots went back. If it runs out of memory, what was given back stays so.
fn purge<N: Name, R: Wait>(
    stock: &mut Stock<N>,
    rt: &R,
    heap: &Heap<N>,
    line: u32,
) -> Result<Answer, OutOfMemory>
    requires stake { HasItsStake stock.old }
    ensures does { IfOk result (λ answer. DoesOp line ops.Purge answer stock.old stock.new) }
    ensures budget { IfOk result (λ answer. stock.old.view.budget ≤ stock.new.view.budget + 1) }
    ensures stake { OnErr result (KeepsItsStake stock.old stock.new) }
    ensures left { OnErr result (StopsPurge line stock.old stock.new) }
{
    stock.kept();
    let mut slots = 0;
    for partition in 0..stock.partitions() {
        stock.kept();
        slots += stock.purge_partition(rt, heap, line, partition)?;
    }
    stock.kept();
    Ok(Answer::Purged { slots })
}
