//! Resets and frees, with what becomes of a slot that they return.
ghost use Rattle.std.specs.Prelude.{◌≡◌, ◌+◌, ◌<◌, ◌≤◌, IfOk, OnOk, OnErr};
ghost use Rattle.pa_slot.specs.declared.word.Step.TheVariants as steps;
ghost use Rattle.pa_trace.specs.Limits.{register_count};
ghost use Rattle.pa_quarantine.specs.Filling.{poisoned};
ghost use Rattle.pa_rules.specs.declared.register.Register.TheVariants as registers;
ghost use Rattle.pa_op_specs.specs.Stocks.{register_in};
ghost use Rattle.pa_op_specs.specs.Workers.{HasItsStake};
ghost use Rattle.pa_thread_state.specs.Changes.{IsBack, NeedsRoot};
ghost use Rattle.pa_thread_state.specs.Releasing.{IsBroughtBack, Releases};
ghost use Rattle.pa_thread_state.specs.Stopping.{IsLeftOver, KeepsItsStake, StopsRelease};

use crate::heap::Heap;
use crate::stock::Stock;
use pa_cells::Handle;
use pa_count::Fate;
use pa_record::Seen;
use pa_region::{Name, counted_steps_leave, owns_change, states_are_owns};
use pa_slot::OutOfMemory;
use std::sync::Wait;

impl<N: Name> Stock<N> {
    /// Resets the `raw_ptr` of a register, which is cleared, and brings a slot that this returns where it belongs. It runs out
    /// of memory only if that needs the root. The step remains made then,
    /// and the seat has the slot's title, which is on no list.
    pub fn reset<R: Wait>(
        &mut self,
        rt: &R,
        heap: &Heap<N>,
        line: u32,
        handle: Handle,
        reg: u32,
    ) -> Result<Seen, OutOfMemory>
        requires stake { HasItsStake self.old }
        requires budget { 0 < self.old.view.budget }
        requires reg { reg < register_count }
        requires handle { register_in self.old.registers reg ≡ registers.Ref handle }
        ensures releases { IfOk result
            (λ seen. Releases line steps.Reset handle reg registers.Cleared self.old.view seen self.old self.new) }
        ensures budget { OnOk result (self.old.view.budget ≤ self.new.view.budget + 1) }
        ensures stake { OnErr result (KeepsItsStake self.old self.new) }
        ensures stops { OnErr result (StopsRelease line steps.Reset handle reg registers.Cleared self.old.view self.old self.new) }
    {
        counted_steps_leave();
        self.kept();
        let (seen, fate) = self.let_go(heap.region(), &handle, reg);
        match fate {
            Fate::Kept => Ok(seen),
            Fate::Last => {
                self.bring_back(rt, heap, line, &handle)?;
                Ok(seen)
            }
        }
    }

    /// Poisons the slot that a register owns and frees it, and brings it where it belongs if this returns it. It runs out of
    /// memory only if that needs the root. The step remains made then, and the seat has the slot's title, which is on no list.
    pub fn free<R: Wait>(
        &mut self,
        rt: &R,
        heap: &Heap<N>,
        line: u32,
        handle: Handle,
        reg: u32,
    ) -> Result<Seen, OutOfMemory>
        requires stake { HasItsStake self.old }
        requires budget { 0 < self.old.view.budget }
        requires reg { reg < register_count }
        requires handle { register_in self.old.registers reg ≡ registers.Own handle }
        ensures releases { IfOk result
            (λ seen. Releases line steps.Free handle reg registers.Freed (poisoned handle.title self.old.view) seen self.old self.new) }
        ensures budget { OnOk result (self.old.view.budget ≤ self.new.view.budget + 1) }
        ensures stake { OnErr result (KeepsItsStake self.old self.new) }
        ensures stops { OnErr result
            (StopsRelease line steps.Free handle reg registers.Freed (poisoned handle.title self.old.view) self.old self.new) }
    {
        counted_steps_leave();
        owns_change();
        states_are_owns();
        self.kept();
        let (seen, fate) = self.give_up(heap.region(), &handle, reg);
        match fate {
            Fate::Kept => Ok(seen),
            Fate::Last => {
                self.bring_back(rt, heap, line, &handle)?;
                Ok(seen)
            }
        }
    }

    /// Brings a slot that a step returned where it belongs: at the front of its list if that has room, else by its root.
    pub fn bring_back<R: Wait>(
        &mut self,
        rt: &R,
        heap: &Heap<N>,
        line: u32,
        handle: &Handle,
    ) -> Result<(), OutOfMemory>
        requires stake { HasItsStake self.old }
        requires back { IsBack handle.now self.old }
        ensures back { OnOk result (IsBroughtBack line handle.now self.old self.new) }
        ensures budget { OnOk result (self.new.view.budget ≡ self.old.view.budget) }
        ensures stake { OnErr result (KeepsItsStake self.old self.new) }
        ensures root { OnErr result (NeedsRoot handle.now self.old) }
        ensures left { OnErr result (IsLeftOver line handle.now self.old self.new) }
    {
        let listed = self.put(heap.region(), handle);
        if listed {
            Ok(())
        } else {
            self.settle(rt, heap, line, handle)
        }
    }
}
