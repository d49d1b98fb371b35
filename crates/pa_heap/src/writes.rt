//! A worker's write.
ghost use Rattle.std.specs.Prelude.{◌≡◌, ℕ, ◌+◌, ◌<◌, ◌≤◌};
ghost use Rattle.pa_trace.specs.declared.script.Op.TheVariants as ops;
ghost use Rattle.pa_trace.specs.Limits.{register_count};
ghost use Rattle.pa_rules.specs.declared.register.Register.TheVariants.{Own};
ghost use Rattle.pa_op_specs.specs.Stocks.{register_in};
ghost use Rattle.pa_op_specs.specs.Workers.{HasItsStake, CanPlayOp, KeepsOn};
ghost use Rattle.pa_op_specs.specs.Plays.{DoesOp, PlaysOp};

use crate::worker::Worker;
use pa_cells::Handle;
use pa_record::Answer;
use pa_region::{
    Name, Region, counted_steps_leave, filled_words_have_the_value, looks_leave, owns_change,
    states_are_owns,
};
use pa_rules::{Next, looked_write};
use pa_slot::refs;
use pa_thread_state::{Heap, Stock};

impl<N: Name> Worker<N> {
    /// A write of a value to each word of the slot that the register owns, on this line. It waits for nobody.
    pub fn write(&mut self, heap: &Heap<N>, line: u32, reg: u32, value: u64) -> Answer
        requires ready { CanPlayOp self.old }
        requires reg { reg < register_count }
        ensures plays { PlaysOp line (ops.Write reg value) result self.old self.new }
        ensures goes_on { KeepsOn self.old self.new }
    {
        let answer = write(&mut self.stock, heap.region(), reg, value);
        self.stock.kept();
        self.account.end_op(self.stock.thread(), line, Ok(answer));
        answer
    }
}

// A write of a value to each word of the slot that the register owns, if no `raw_ptr` points to it. Through a `raw_ptr` it only
// looks. It waits for nobody.
fn write<N: Name>(stock: &mut Stock<N>, region: &Region, reg: u32, value: u64) -> Answer
    requires region { region.now ≡ N.region }
    requires stake { HasItsStake stock.old }
    requires budget { 0 < stock.old.view.budget }
    requires reg { reg < register_count }
    ensures does { (line : ℕ) → DoesOp line (ops.Write reg value) result stock.old stock.new }
    ensures budget { stock.old.view.budget ≤ stock.new.view.budget + 1 }
{
    looks_leave();
    stock.kept();
    match stock.register(reg).for_write() {
        Next::Refused(refusal) => refusal,
        Next::Step(handle) => write_owned(stock, region, &handle, reg, value),
        Next::Look(handle) => {
            let seen = stock.look(region, &handle, reg);
            looked_write(seen)
        }
    }
}

// A write by the owner.
fn write_owned<N: Name>(
    stock: &mut Stock<N>,
    region: &Region,
    handle: &Handle,
    reg: u32,
    value: u64,
) -> Answer
    requires region { region.now ≡ N.region }
    requires stake { HasItsStake stock.old }
    requires budget { 0 < stock.old.view.budget }
    requires reg { reg < register_count }
    requires handle { register_in stock.old.registers reg ≡ Own handle.now }
    ensures does { (line : ℕ) → DoesOp line (ops.Write reg value) result stock.old stock.new }
    ensures budget { stock.old.view.budget ≤ stock.new.view.budget + 1 }
{
    looks_leave();
    owns_change();
    counted_steps_leave();
    states_are_owns();
    filled_words_have_the_value();
    stock.kept();
    stock.placed(handle, reg);
    let seen = stock.look(region, handle, reg);
    if refs(seen.found) > 0 {
        return Answer::Shared { seen };
    }
    let seen = stock.fill(region, handle, reg, value);
    Answer::Done { seen }
}
