//! A worker's copy.
ghost use Rattle.std.specs.Prelude.{◌≡◌, ℕ, ◌+◌, ◌<◌, ◌≤◌};
ghost use Rattle.pa_trace.specs.declared.script.Op.TheVariants as ops;
ghost use Rattle.pa_trace.specs.Limits.{register_count};
ghost use Rattle.pa_op_specs.specs.Stocks.{HasHandleTo, register_in};
ghost use Rattle.pa_op_specs.specs.Workers.{HasItsStake, CanPlayOp, KeepsOn};
ghost use Rattle.pa_op_specs.specs.Plays.{DoesOp, PlaysOp};

use crate::worker::Worker;
use pa_cells::Handle;
use pa_record::Answer;
use pa_region::{Name, Region, counted_steps_leave};
use pa_thread_state::{Heap, Stock};

impl<N: Name> Worker<N> {
    /// A copy of the handle in register `from` into `to`, on this line. The owner of a slot of a plain partition isn't copied. It waits
    /// for nobody.
    pub fn copy(&mut self, heap: &Heap<N>, line: u32, from: u32, to: u32) -> Answer
        requires ready { CanPlayOp self.old }
        requires registers { (from < register_count) × (to < register_count) }
        ensures plays { PlaysOp line (ops.Copy from to) result self.old self.new }
        ensures goes_on { KeepsOn self.old self.new }
    {
        let answer = copy(&mut self.stock, heap.region(), from, to);
        self.stock.kept();
        self.account.end_op(self.stock.thread(), line, Ok(answer));
        answer
    }
}

// A copy of a handle into another register: one more `raw_ptr`. It waits for nobody.
fn copy<N: Name>(stock: &mut Stock<N>, region: &Region, from: u32, to: u32) -> Answer
    requires region { region.now ≡ N.region }
    requires stake { HasItsStake stock.old }
    requires budget { 0 < stock.old.view.budget }
    requires registers { (from < register_count) × (to < register_count) }
    ensures does { (line : ℕ) → DoesOp line (ops.Copy from to) result stock.old stock.new }
    ensures budget { stock.old.view.budget ≤ stock.new.view.budget + 1 }
{
    stock.kept();
    match stock.register(from).for_copy() {
        Ok(handle) => copy_to(stock, region, handle, from, to),
        Err(refusal) => refusal,
    }
}

// A copy of this handle of the first register, if the second has none and it would be counted: that becomes a `raw_ptr` to the slot.
fn copy_to<N: Name>(
    stock: &mut Stock<N>,
    region: &Region,
    handle: Handle,
    from: u32,
    to: u32,
) -> Answer
    requires region { region.now ≡ N.region }
    requires stake { HasItsStake stock.old }
    requires budget { 0 < stock.old.view.budget }
    requires registers { (from < register_count) × (to < register_count) }
    requires handle { HasHandleTo handle (register_in stock.old.registers from) }
    ensures does { (line : ℕ) → DoesOp line (ops.Copy from to) result stock.old stock.new }
    ensures budget { stock.old.view.budget ≤ stock.new.view.budget + 1 }
{
    counted_steps_leave();
    stock.kept();
    let filled = stock.register(to).has_handle();
    let owner = stock.register(from).is_owner();
    let plain = stock.is_plain(&handle);
    if filled {
        Answer::Filled
    } else if owner && plain {
        Answer::Uncounted
    } else {
        let seen = stock.point(region, handle, from, to);
        Answer::Done { seen }
    }
}
