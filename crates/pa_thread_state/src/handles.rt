//! Single calls on the slot of a register's handle.
ghost use Rattle.std.specs.Prelude.{◌≡◌, ℕ, ◌+◌, ◌<◌, ◌≤◌, ◌↔◌, true, false};
ghost use Rattle.pa_trace.specs.Limits.{register_count};
ghost use Rattle.pa_op_specs.specs.Stocks.{HasHandleTo, HasNoHandle, register_in};
ghost use Rattle.pa_op_specs.specs.Workers.{HasItsStake};
ghost use Rattle.pa_rules.specs.declared.register.Register.TheVariants.{Ref, Own};
ghost use Rattle.pa_thread_state.specs.Changes.{LooksAtSlot, ReadsAt, CanFill, WritesTo, PointsTo, LetsGo};
ghost use Rattle.pa_slot.specs.Titles.{content_count};
ghost use Rattle.pa_slot.specs.declared.word.Step.TheVariants as steps;
ghost use Rattle.pa_slot.specs.Run.{IsReturning};
ghost use Rattle.pa_count.specs.declared.steps.Fate.TheVariants as fates;
ghost use Rattle.pa_slot.specs.declared.title.OwnState.TheVariants.{Clean, Dirty};
ghost use Rattle.pa_region.specs.Views.{HasStake, free_of, own_as, sealed_of};
ghost use Rattle.pa_region.specs.Waiting.{poisoned_owns};
ghost use Rattle.pa_region.specs.Shares.{IsStepMade};
ghost use Rattle.pa_cells.specs.Handles.{is_plain};
ghost use Rattle.pa_quarantine.specs.Filling.{poisoned, poisoned_share};
ghost use Rattle.pa_rules.specs.declared.register.Register.TheVariants as registers;

use crate::stock::{Stock, slot_name};
use pa_cells::Handle;
use pa_count::Fate;
use pa_record::Seen;
use pa_region::{
    Name, Region, Seat, counted_steps_leave, entries_stand_in_logs, filled_words_have_the_value,
    looks_leave, owns_change, states_are_owns,
};
use pa_rules::Register;
use pa_slot::{Title, Word};

impl<N: Name> Stock<N> {
    /// Looks at the slot of a register's handle.
    pub fn look(&mut self, region: &Region, handle: &Handle, reg: u32) -> Seen
        requires region { region.now ≡ N.region }
        requires stake { HasItsStake self.old }
        requires reg { reg < register_count }
        requires handle { HasHandleTo handle.now (register_in self.old.registers reg) }
        ensures { LooksAtSlot handle.now result self.old self.new }
    {
        looks_leave();
        owns_change();
        let found = pa_count::look(region, &mut self.seat, handle.title);
        Seen {
            slot: slot_name(handle),
            found,
        }
    }

    /// Reads a word of the slot, by its index from 0, right after a look at it.
    pub fn read_word(
        &mut self,
        region: &Region,
        handle: &Handle,
        reg: u32,
        place: u32,
    ) -> (Seen, u64)
        requires region { region.now ≡ N.region }
        requires stake { HasItsStake self.old }
        requires reg { reg < register_count }
        requires handle { HasHandleTo handle.now (register_in self.old.registers reg) }
        requires place { place < content_count handle.now.title }
        ensures { ReadsAt handle.now place result.0 result.1 self.old self.new }
    {
        looks_leave();
        entries_stand_in_logs();
        owns_change();
        let (found, value) = pa_quarantine::read(region, &mut self.seat, handle.title, place);
        let seen = Seen {
            slot: slot_name(handle),
            found,
        };
        (seen, value)
    }

    /// Writes the value to each word of the slot of an Own, and records the write with a step.
    pub fn fill(&mut self, region: &Region, handle: &Handle, reg: u32, value: u64) -> Seen
        requires region { region.now ≡ N.region }
        requires stake { HasItsStake self.old }
        requires budget { 0 < self.old.view.budget }
        requires reg { reg < register_count }
        requires handle { register_in self.old.registers reg ≡ Own handle.now }
        requires can { CanFill handle.now self.old }
        ensures { WritesTo handle.now value result self.old self.new }
    {
        owns_change();
        counted_steps_leave();
        states_are_owns();
        filled_words_have_the_value();
        self.kept();
        self.placed(handle, reg);
        let found = pa_quarantine::write(region, &mut self.seat, handle.title, value);
        Seen {
            slot: slot_name(handle),
            found,
        }
    }

    /// Makes the second register a `raw_ptr` to the slot that the first has a handle of. An owner's slot is in no plain partition.
    pub fn point(&mut self, region: &Region, handle: Handle, from: u32, to: u32) -> Seen
        requires region { region.now ≡ N.region }
        requires stake { HasItsStake self.old }
        requires budget { 0 < self.old.view.budget }
        requires registers { (from < register_count) × (to < register_count) }
        requires handle { HasHandleTo handle (register_in self.old.registers from) }
        requires none { HasNoHandle (register_in self.old.registers to) }
        requires counted { register_in self.old.registers from ≡ Own handle → is_plain self.old.plain_from handle ≡ false }
        ensures points { PointsTo handle to result self.old self.new }
        ensures budget { self.old.view.budget ≤ self.new.view.budget + 1 }
    {
        counted_steps_leave();
        owns_change();
        self.kept();
        let found = pa_count::copy(region, &mut self.seat, handle.title);
        self.registers[to as usize] = Register::Ref(handle);
        Seen {
            slot: slot_name(&handle),
            found,
        }
    }

    /// The step of a reset: the register is cleared, and `Last` says that the step returned the slot.
    pub fn let_go(&mut self, region: &Region, handle: &Handle, reg: u32) -> (Seen, Fate)
        requires region { region.now ≡ N.region }
        requires stake { HasItsStake self.old }
        requires budget { 0 < self.old.view.budget }
        requires reg { reg < register_count }
        requires handle { register_in self.old.registers reg ≡ registers.Ref handle.now }
        ensures gone { LetsGo steps.Reset handle.now reg registers.Cleared self.old.view result.0 self.old self.new }
        ensures fate { (result.1 ≡ fates.Last) ↔ IsReturning steps.Reset result.0.found.0 }
        ensures last { result.1 ≡ fates.Last → free_of self.new.view handle.now.title ≡ 1 }
        ensures budget { self.old.view.budget ≤ self.new.view.budget + 1 }
    {
        counted_steps_leave();
        owns_change();
        self.kept();
        self.placed(handle, reg);
        let (found, fate) = pa_quarantine::release(region, &mut self.seat, handle.title);
        self.registers[reg as usize] = Register::Cleared;
        let seen = Seen {
            slot: slot_name(handle),
            found,
        };
        (seen, fate)
    }

    /// Poisons the content of an Own, and frees it in one step. `Last` says that this returned the slot.
    pub fn give_up(&mut self, region: &Region, handle: &Handle, reg: u32) -> (Seen, Fate)
        requires region { region.now ≡ N.region }
        requires stake { HasItsStake self.old }
        requires budget { 0 < self.old.view.budget }
        requires reg { reg < register_count }
        requires handle { register_in self.old.registers reg ≡ registers.Own handle.now }
        ensures gone { LetsGo steps.Free handle.now reg registers.Freed
            (poisoned handle.now.title self.old.view) result.0 self.old self.new }
        ensures fate { (result.1 ≡ fates.Last) ↔ IsReturning steps.Free result.0.found.0 }
        ensures last { result.1 ≡ fates.Last → free_of self.new.view handle.now.title ≡ 1 }
        ensures budget { self.old.view.budget ≤ self.new.view.budget + 1 }
    {
        counted_steps_leave();
        owns_change();
        states_are_owns();
        self.kept();
        self.placed(handle, reg);
        let plain = self.is_plain(handle);
        let (found, fate) = free_as(region, &mut self.seat, handle.title, plain);
        self.registers[reg as usize] = Register::Freed;
        let seen = Seen {
            slot: slot_name(handle),
            found,
        };
        (seen, fate)
    }
}

// Poisons the content of an Own, which is sealed if the slot is plain, and frees it in one step. `Last` says that this returned the
// slot, as it always does that of a sealed Own.
fn free_as(region: &Region, seat: &mut Seat, title: Title, plain: bool) -> (Word, Fate)
    requires region { seat.old.region ≡ region.now }
    requires own { 0 < own_as seat.old.view title Clean + own_as seat.old.view title Dirty }
    requires sealed { plain ≡ true → 0 < sealed_of seat.old.view title }
    requires able { HasStake seat.old.view × (0 < seat.old.view.budget) }
    requires begins { poisoned_owns seat.old.view ≡ 0 }
    ensures made { IsStepMade steps.Free title result.0.0 (poisoned_share title seat.old) seat.new }
    ensures fate { (result.1 ≡ fates.Last) ↔ IsReturning steps.Free result.0.0 }
    ensures last { result.1 ≡ fates.Last → free_of seat.new.view title ≡ 1 }
{
    if plain {
        let found = pa_quarantine::free_sealed(region, seat, title);
        (found, Fate::Last)
    } else {
        pa_quarantine::free_owned(region, seat, title)
    }
}
