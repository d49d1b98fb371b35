//! A worker's read.
ghost use Rattle.std.specs.Prelude.{◌≡◌, ℕ, ◌<◌};
ghost use Rattle.pa_trace.specs.declared.script.Op.TheVariants as ops;
ghost use Rattle.pa_trace.specs.Limits.{register_count};
ghost use Rattle.pa_op_specs.specs.Stocks.{HasHandleTo, register_in};
ghost use Rattle.pa_op_specs.specs.Workers.{HasItsStake, CanPlayOp, KeepsOn};
ghost use Rattle.pa_op_specs.specs.Plays.{DoesOp, PlaysOp};

use crate::worker::Worker;
use pa_cells::Handle;
use pa_record::Answer;
use pa_region::{Name, Region, entries_stand_in_logs, looks_leave, owns_change};
use pa_rules::looked_read;
use pa_thread_state::{Heap, Stock};

impl<N: Name> Worker<N> {
    /// A read of a word, by its index from 0, of the slot that the register has a handle of,
    /// on this line. It waits for nobody.
    pub fn deref(&mut self, heap: &Heap<N>, line: u32, reg: u32, place: u32) -> Answer
        requires ready { CanPlayOp self.old }
        requires reg { reg < register_count }
        ensures plays { PlaysOp line (ops.Read reg place) result self.old self.new }
        ensures goes_on { KeepsOn self.old self.new }
    {
        let answer = deref(&mut self.stock, heap.region(), reg, place);
        self.stock.kept();
        self.account.end_op(self.stock.thread(), line, Ok(answer));
        answer
    }
}

// A read of a word, by its index from 0, of the slot that the register has a handle of. It waits for nobody.
fn deref<N: Name>(stock: &mut Stock<N>, region: &Region, reg: u32, place: u32) -> Answer
    requires region { region.now ≡ N.region }
    requires stake { HasItsStake stock.old }
    requires reg { reg < register_count }
    ensures does { (line : ℕ) → DoesOp line (ops.Read reg place) result stock.old stock.new }
    ensures budget { stock.new.view.budget ≡ stock.old.view.budget }
{
    stock.kept();
    match stock.register(reg).for_read() {
        Ok(handle) => read_from(stock, region, &handle, reg, place),
        Err(refusal) => refusal,
    }
}

// A read of this slot: out of range past its words, and dangling if it was freed.
fn read_from<N: Name>(
    stock: &mut Stock<N>,
    region: &Region,
    handle: &Handle,
    reg: u32,
    place: u32,
) -> Answer
    requires region { region.now ≡ N.region }
    requires stake { HasItsStake stock.old }
    requires reg { reg < register_count }
    requires handle { HasHandleTo handle.now (register_in stock.old.registers reg) }
    ensures does { (line : ℕ) → DoesOp line (ops.Read reg place) result stock.old stock.new }
    ensures budget { stock.new.view.budget ≡ stock.old.view.budget }
{
    looks_leave();
    entries_stand_in_logs();
    owns_change();
    stock.kept();
    stock.placed(handle, reg);
    if place >= handle.title.len / 8 - 1 {
        return Answer::OutOfRange;
    }
    let (seen, value) = stock.read_word(region, handle, reg, place);
    looked_read(seen, value)
}
