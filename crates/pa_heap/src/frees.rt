//! A worker's free.
ghost use Rattle.std.specs.Prelude.{◌≡◌, ◌+◌, ◌<◌, ◌≤◌, length, IfOk, OnOk, OnErr, true};
ghost use Rattle.pa_trace.specs.declared.script.Op.TheVariants as ops;
ghost use Rattle.pa_trace.specs.Limits.{register_count};
ghost use Rattle.pa_totals.specs.Settled.{none_owed};
ghost use Rattle.pa_op_specs.specs.Workers.{HasItsStake, CanPlayOp, KeepsOn};
ghost use Rattle.pa_op_specs.specs.Plays.{DoesOp, PlaysOp};
ghost use Rattle.pa_thread_state.specs.Stopping.{KeepsItsStake};
ghost use Rattle.pa_heap.specs.Stopping.{StopsFree};

use crate::counts::owned;
use crate::worker::Worker;
use pa_cells::slots_stay_seen;
use pa_record::Answer;
use pa_region::{Name, counted_steps_leave, looks_leave, owns_change, states_are_owns};
use pa_rules::{Next, looked_free};
use pa_slot::{OutOfMemory, Step};
use pa_thread_state::{Heap, Stock};
use std::sync::Wait;

impl<N: Name> Worker<N> {
    /// A free of what the register owns, on this line. It waits for locks, and may run out of memory, only if its step returns a
    /// slot that needs the root. If it does, the worker is stopped, the step remains made, and its seat has the slot free, on no list.
    pub fn free<R: Wait>(
        &mut self,
        rt: &R,
        heap: &Heap<N>,
        line: u32,
        reg: u32,
    ) -> Result<Answer, OutOfMemory>
        requires ready { CanPlayOp self.old }
        requires reg { reg < register_count }
        ensures plays { IfOk result (λ answer. PlaysOp line (ops.Free reg) answer self.old self.new) }
        ensures goes_on { OnOk result (KeepsOn self.old self.new) }
        ensures stops { OnErr result (self.new.stopped ≡ true) }
        ensures stake { OnErr result (KeepsItsStake self.old.stock self.new.stock) }
        ensures left { OnErr result (StopsFree line reg self.old.stock self.new.stock) }
        ensures same { OnErr result (self.new
            ≡ record self.old { stock = self.new.stock; room = length self.old.records; stopped = true; owed = none_owed }) }
    {
        self.stock.kept();
        let handle = owned(self.stock.register(reg));
        let ended = play_free(&mut self.stock, rt, heap, line, reg);
        self.stock.kept();
        self.account
            .end_step(self.stock.thread(), line, Step::Free, &handle, ended);
        ended
    }
}

// A free of what the register owns, on this line. Through a `raw_ptr` it only looks. A slot that its step returns goes to the
// front of its list, which may spill, or back to its root. If it runs out of memory the step remains made.
fn play_free<N: Name, R: Wait>(
    stock: &mut Stock<N>,
    rt: &R,
    heap: &Heap<N>,
    line: u32,
    reg: u32,
) -> Result<Answer, OutOfMemory>
    requires stake { HasItsStake stock.old }
    requires budget { 0 < stock.old.view.budget }
    requires reg { reg < register_count }
    ensures does { IfOk result (λ answer. DoesOp line (ops.Free reg) answer stock.old stock.new) }
    ensures budget { IfOk result (λ answer. stock.old.view.budget ≤ stock.new.view.budget + 1) }
    ensures stake { OnErr result (KeepsItsStake stock.old stock.new) }
    ensures left { OnErr result (StopsFree line reg stock.old stock.new) }
{
    counted_steps_leave();
    looks_leave();
    owns_change();
    states_are_owns();
    slots_stay_seen();
    stock.kept();
    match stock.register(reg).for_free() {
        Next::Refused(refusal) => Ok(refusal),
        Next::Step(handle) => {
            let seen = stock.free(rt, heap, line, handle, reg)?;
            stock.kept();
            Ok(Answer::Done { seen })
        }
        Next::Look(handle) => {
            let seen = stock.look(heap.region(), &handle, reg);
            Ok(looked_free(seen))
        }
    }
}
