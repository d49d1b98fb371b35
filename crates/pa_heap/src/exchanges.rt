//! A worker's exchange with a cell.
ghost use Rattle.std.specs.Prelude.{◌≡◌, ◌+◌, ◌<◌, ◌≤◌, length, IfOk, OnOk, OnErr, true};
ghost use Rattle.pa_trace.specs.declared.script.Op.TheVariants as ops;
ghost use Rattle.pa_trace.specs.Limits.{register_count, cell_count};
ghost use Rattle.pa_totals.specs.Settled.{none_owed};
ghost use Rattle.pa_op_specs.specs.Workers.{HasItsStake, CanPlayOp, KeepsOn};
ghost use Rattle.pa_thread_state.specs.Exchanging.{IsUndone};
ghost use Rattle.pa_thread_state.specs.Stopping.{KeepsItsStake};
ghost use Rattle.pa_op_specs.specs.Plays.{DoesOp, PlaysOp};

use crate::worker::Worker;
use pa_cells::{givers_lack_handles, takers_have_handles};
use pa_record::Answer;
use pa_region::{
    Name, beginnings_join, free_numbers_stay, kept_numbers_stay, seen_lists_join, seen_numbers_join,
};
use pa_slot::OutOfMemory;
use pa_thread_state::{Heap, Stock};
use std::sync::Wait;

impl<N: Name> Worker<N> {
    /// An exchange of the register with a cell, on this line. It waits for the lock of the cells. If it runs out of memory the
    /// worker is stopped: it has no room for more records and owes nothing, and all else is as before.
    pub fn exchange<R: Wait>(
        &mut self,
        rt: &R,
        heap: &Heap<N>,
        line: u32,
        cell: u32,
        reg: u32,
    ) -> Result<Answer, OutOfMemory>
        requires ready { CanPlayOp self.old }
        requires numbers { (cell < cell_count) × (reg < register_count) }
        ensures plays { IfOk result (λ answer. PlaysOp line (ops.Swap cell reg) answer self.old self.new) }
        ensures goes_on { OnOk result (KeepsOn self.old self.new) }
        ensures stops { OnErr result (self.new.stopped ≡ true) }
        ensures stake { OnErr result (KeepsItsStake self.old.stock self.new.stock) }
        ensures undone { OnErr result (IsUndone self.old.stock self.new.stock) }
        ensures same { OnErr result (self.new
            ≡ record self.old { stock = self.new.stock; room = length self.old.records; stopped = true; owed = none_owed }) }
    {
        let ended = exchange(&mut self.stock, rt, heap, line, cell, reg);
        self.stock.kept();
        self.account.end_op(self.stock.thread(), line, ended);
        ended
    }
}

// An exchange with a cell, on this line: the cell gets the handle of the register, or nothing if there is none, and the
// register gets what the cell had. If it runs out of memory all is as before.
fn exchange<N: Name, R: Wait>(
    stock: &mut Stock<N>,
    rt: &R,
    heap: &Heap<N>,
    line: u32,
    cell: u32,
    reg: u32,
) -> Result<Answer, OutOfMemory>
    requires stake { HasItsStake stock.old }
    requires numbers { (cell < cell_count) × (reg < register_count) }
    ensures does { IfOk result (λ answer. DoesOp line (ops.Swap cell reg) answer stock.old stock.new) }
    ensures budget { IfOk result (λ answer. stock.old.view.budget ≤ stock.new.view.budget + 1) }
    ensures undone { OnErr result (IsUndone stock.old stock.new) }
{
    givers_lack_handles();
    takers_have_handles();
    seen_numbers_join();
    seen_lists_join();
    beginnings_join();
    free_numbers_stay();
    kept_numbers_stay();
    let region = heap.region();
    stock.kept();
    let given = stock.park(region, reg);
    stock.kept();
    match stock.swap(rt, heap, line, cell, given) {
        Ok((entry, found)) => {
            stock.kept();
            stock.take_in(region, found, reg);
            stock.kept();
            Ok(Answer::Swapped { entry })
        }
        Err(given) => {
            stock.put_back(region, given, reg);
            stock.kept();
            Err(OutOfMemory)
        }
    }
}
