//! The parts of an exchange with a cell: a handle goes out, the cell gets it and gives what it had, and that comes in.
ghost use Rattle.std.specs.Prelude.{◌≡◌, ◌<◌, IfOk, IfErr, OnErr, IfSome, IfNone, Some};
ghost use Rattle.pa_trace.specs.Limits.{register_count, cell_count};
ghost use Rattle.pa_cells.specs.Handles.{IsParked, handle_item};
ghost use Rattle.pa_cells.specs.Cells.{IsOf};
ghost use Rattle.pa_op_specs.specs.Stocks.{HasNoHandle, register_in};
ghost use Rattle.pa_op_specs.specs.Workers.{HasItsStake};
ghost use Rattle.pa_thread_state.specs.Exchanging.{Parks, SwapsHandles, TakesIn, handle_register};

use crate::heap::Heap;
use crate::stock::Stock;
use pa_cells::{
    Handle, Parked, givers_lack_handles, slots_stay_seen, takers_have_handles,
    what_was_handed_can_wait,
};
use pa_machine::Item;
use pa_region::{Name, Note, Region, beginnings_join, hands_keep_seals};
use pa_rules::Register;
use pa_slot::{OutOfMemory, Title};
use std::sync::Wait;

impl<N: Name> Stock<N> {
    /// Hands over the handle of a register, which is empty then, or nothing, if it has none.
    pub fn park(&mut self, region: &Region, reg: u32) -> Option<Parked>
        requires region { region.now ≡ N.region }
        requires stake { HasItsStake self.old }
        requires reg { reg < register_count }
        ensures parks { Parks reg result self.old self.new }
        ensures note { IfSome result (IsOf N.region N.plain_from) }
    {
        self.kept();
        match self.register(reg) {
            Register::Empty => None,
            Register::Own(handle) => Some(self.park_handle(region, handle, true, reg)),
            Register::Ref(handle) => Some(self.park_handle(region, handle, false, reg)),
            Register::Freed => None,
            Register::Cleared => None,
        }
    }

    // Hands over this handle of the register.
    fn park_handle(&mut self, region: &Region, handle: Handle, own: bool, reg: u32) -> Parked
        requires region { region.now ≡ N.region }
        requires stake { HasItsStake self.old }
        requires reg { reg < register_count }
        requires handle { register_in self.old.registers reg ≡ handle_register own handle }
        ensures parks { Parks reg (Some result) self.old self.new }
        ensures note { IsOf N.region N.plain_from result }
    {
        what_was_handed_can_wait();
        givers_lack_handles();
        hands_keep_seals();
        self.kept();
        let item = own_or_ref(handle.title, own);
        let note = region.hand(&mut self.seat, &[item], 0, &[]);
        self.registers[reg as usize] = Register::Empty;
        Parked { handle, own, note }
    }

    /// The exchange itself, under the lock of the cells: what was given goes into the cell, and what it had comes out. What
    /// was given comes back if this runs out of memory, and nothing changed then.
    pub fn swap<R: Wait>(
        &mut self,
        rt: &R,
        heap: &Heap<N>,
        line: u32,
        cell: u32,
        given: Option<Parked>,
    ) -> Result<(u32, Option<Parked>), Option<Parked>>
        requires stake { HasItsStake self.old }
        requires given { IfSome given (IsOf N.region N.plain_from) }
        requires cell { cell < cell_count }
        ensures made { IfOk result (λ r. SwapsHandles line cell given r.1 r.0 self.old self.new) }
        ensures note { IfOk result (λ r. IfSome r.1 (IsOf N.region N.plain_from)) }
        ensures back { IfErr result (λ p. p ≡ given) }
        ensures same { OnErr result (self.new ≡ self.old) }
    {
        slots_stay_seen();
        self.kept();
        let mut locked = heap.cells.lock(rt);
        let cells = &mut *locked;
        match cells.exchange(heap.region(), &mut self.seat, line, cell, given) {
            Ok((index, found)) => Ok((index, found)),
            Err(given) => Err(given),
        }
    }

    /// Takes in what was found: the register has it then.
    pub fn take_in(&mut self, region: &Region, found: Option<Parked>, reg: u32)
        requires region { region.now ≡ N.region }
        requires note { IfSome found (IsOf N.region N.plain_from) }
        requires reg { reg < register_count }
        requires none { HasNoHandle (register_in self.old.registers reg) }
        ensures taken { TakesIn reg found self.old self.new }
    {
        self.kept();
        match found {
            Some(parked) => self.take_handle(region, parked, reg),
            None => self.registers[reg as usize] = Register::Empty,
        }
    }

    /// Takes a handle that was given back in again, if there was one.
    pub fn put_back(&mut self, region: &Region, given: Option<Parked>, reg: u32)
        requires region { region.now ≡ N.region }
        requires note { IfSome given (IsOf N.region N.plain_from) }
        requires reg { reg < register_count }
        requires none { HasNoHandle (register_in self.old.registers reg) }
        ensures taken { IfSome given (λ p. TakesIn reg (Some p) self.old self.new) }
        ensures none { IfNone given (self.new ≡ self.old) }
    {
        if let Some(parked) = given {
            self.take_handle(region, parked, reg);
        }
    }

    // Takes this handle in.
    fn take_handle(&mut self, region: &Region, parked: Parked, reg: u32)
        requires region { region.now ≡ N.region }
        requires note { IsOf N.region N.plain_from parked }
        requires reg { reg < register_count }
        requires none { HasNoHandle (register_in self.old.registers reg) }
        ensures taken { TakesIn reg (Some parked) self.old self.new }
    {
        takers_have_handles();
        beginnings_join();
        slots_stay_seen();
        self.kept();
        let (handle, own, note) = parts(parked);
        note.aware();
        region.take(&mut self.seat, note);
        self.seat.aware();
        self.registers[reg as usize] = register_with(handle, own);
    }
}

// The parts of a handle on its way.
fn parts(parked: Parked) -> (Handle, bool, Note)
    ensures handle { result.0 ≡ parked.handle }
    ensures own { result.1 ≡ parked.own }
    ensures note { result.2 ≡ parked.note }
    ensures parked { IsParked parked }
{
    parked.kept();
    let Parked { handle, own, note } = parked;
    (handle, own, note)
}

// What is handed over for a handle: the Own, or a Ref.
fn own_or_ref(title: Title, own: bool) -> Item
    ensures { result ≡ handle_item own title }
{
    if own {
        Item::Own(title)
    } else {
        Item::Ref(title)
    }
}

// The register that owns the handle's slot, or points to it.
fn register_with(handle: Handle, own: bool) -> Register<Handle>
    ensures { result ≡ handle_register own handle }
{
    if own {
        Register::Own(handle)
    } else {
        Register::Ref(handle)
    }
}
