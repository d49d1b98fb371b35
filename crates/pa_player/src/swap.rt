ghost use Rattle.std.specs.Prelude.{◌≡◌, IfOk, OnOk, OnErr, length};
ghost use Rattle.pa_trace.specs.declared.script.Op.TheVariants as ops;
ghost use Rattle.pa_trace.specs.declared.script.Line.TheVariants.{Do};
ghost use Rattle.pa_player.specs.Asks.{CanSwap};
ghost use Rattle.pa_player.specs.Changes.{swapped};
ghost use Rattle.pa_player.specs.Plays.{IsReady, Plays};
ghost use Rattle.pa_player.specs.Tables.{handle_in};
ghost use Rattle.pa_player.specs.Told.{history_in};

use crate::output::Output;
use crate::player::Player;
use crate::told::Told;
use pa_record::Answer;
use pa_rules::Register;
use pa_slot::OutOfMemory;

impl<O: Output> Player<Told<O>> {
    // An exchange with a cell: it gets the register's handle, and the register what it held.
    pub(crate) fn swap(&mut self, thread: u32, cell: u32, reg: u32) -> Result<Answer, OutOfMemory>
        requires { IsReady (Do thread (ops.Swap cell reg)) self.old }
        ensures played { IfOk result (Plays self.old thread (ops.Swap cell reg) self.new) }
        ensures same { OnErr result (self.new ≡ self.old) }
    {
        let entry = self.exchange(thread, cell, reg)?;
        Ok(Answer::Swapped { entry })
    }

    // Makes the exchange. Returns its index in the cell's history.
    fn exchange(&mut self, thread: u32, cell: u32, reg: u32) -> Result<u32, OutOfMemory>
        requires { CanSwap thread cell reg self.old }
        ensures place { IfOk result (λ entry. entry ≡ length (history_in self.old.told cell)) }
        ensures swapped { OnOk result (self.new ≡ swapped thread cell reg self.old) }
        ensures same { OnErr result (self.new ≡ self.old) }
    {
        let gave = handle_in(self.register(thread, reg));
        let found = self.cells[cell as usize];
        let told_gave = self.table.told(gave);
        let told_found = self.table.told(found);
        let entry = self.told.exchange(cell, told_gave, told_found)?;
        self.cells[cell as usize] = gave;
        self.set_register(thread, reg, found);
        Ok(entry)
    }
}

// The handle that a register has, or none.
fn handle_in(register: Register<u32>) -> Register<u32>
    ensures { result ≡ handle_in register }
{
    if register.has_handle() {
        register
    } else {
        Register::Empty
    }
}
