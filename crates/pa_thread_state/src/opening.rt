ghost use Rattle.std.specs.Prelude.{◌≡◌, ℕ, ◌≤◌, IfOk, replicate};
ghost use Rattle.pa_trace.specs.Limits.{register_count, most_partitions};
ghost use Rattle.pa_region.specs.Views.{stake_of};
ghost use Rattle.pa_region.specs.Hands.{left_after, given_after, united};
ghost use Rattle.pa_region.specs.Lending.{stake_parcel};
ghost use Rattle.pa_rules.specs.Caches.{SameLists};
ghost use Rattle.pa_rules.specs.declared.register.Register.TheVariants.{Empty};
ghost use Rattle.pa_op_specs.specs.Stocks.{IsForThread, IsNewStock, listed_in};
ghost use Rattle.pa_op_specs.specs.Workers.{HasItsStake};
ghost use Rattle.pa_op_specs.specs.Plays.{KeepsApart};
ghost use Rattle.pa_thread_state.specs.Changes.{StaysMade};

use crate::lists::Lists;
use crate::stock::Stock;
use pa_cells::{Handle, slots_stay_seen};
use pa_region::{Mark, Name, Note, Region, beginnings_join, free_numbers_stay, seen_numbers_join};
use pa_rules::Register;
use pa_slot::OutOfMemory;
use pa_trace::REGISTERS;
use std::alloc::Global;
use std::marker::PhantomData;

impl<N: Name> Stock<N> {
    /// The thread state of a thread's worker at the start, in a run of a trace of this version whose partitions are plain from this
    /// one on: its registers and lists are empty, and it has what the note has.
    pub fn open(
        alloc: Global,
        note: Note,
        thread: u32,
        partitions: u32,
        plain_from: u32,
        version: u32,
    ) -> Result<Stock<N>, OutOfMemory>
        requires region { note.region ≡ N.region }
        requires note { IsForThread thread note.view }
        requires partitions { partitions ≤ most_partitions }
        requires plain { plain_from ≡ N.plain_from }
        ensures { IfOk result (IsNewStock thread partitions plain_from version note.view) }
    {
        let caches = Lists::new(alloc, version)?;
        let registers = empty_registers();
        let seat = note.seat();
        Ok(Stock {
            thread,
            partitions,
            plain_from,
            seat,
            registers,
            caches,
            of: PhantomData,
        })
    }

    /// Hands the stake over, with its log and a copy of what was seen.
    pub fn tell(&mut self, region: &Region) -> Note
        requires region { region.now ≡ N.region }
        requires stake { HasItsStake self.old }
        ensures region { result.region ≡ N.region }
        ensures told { result.view ≡ given_after (stake_parcel self.old.thread) self.old.view }
        ensures again { IsForThread self.old.thread result.view }
        ensures none { (k : ℕ) → stake_of self.new.view k ≡ 0 }
        ensures left { self.new ≡ record self.old { view = left_after (stake_parcel self.old.thread) self.old.view } }
    {
        let thread = self.thread;
        region.hand(&mut self.seat, &[], 0, &[Mark::Stake(thread)])
    }

    /// Takes the stake back, with what the note has seen. The lists are as they were, each title at its number, and
    /// so is what it has free and on no list.
    pub fn hear(&mut self, region: &Region, note: Note)
        requires regions { (region.now ≡ N.region) × (note.region ≡ N.region) }
        requires none { (k : ℕ) → stake_of self.old.view k ≡ 0 }
        requires note { IsForThread self.old.thread note.view }
        ensures heard { self.new ≡ record self.old { view = united self.old.view note.view } }
        ensures lists { SameLists (listed_in self.new) (listed_in self.old) }
        ensures apart { KeepsApart self.old self.new }
        ensures made { StaysMade self.old self.new }
    {
        beginnings_join();
        free_numbers_stay();
        seen_numbers_join();
        slots_stay_seen();
        self.kept();
        note.aware();
        region.take(&mut self.seat, note);
        self.seat.aware();
    }
}

// The registers of a worker at the start.
fn empty_registers() -> [Register<Handle>; 64]
    ensures { result ≡ replicate register_count Empty }
{
    [Register::Empty; REGISTERS as usize]
}
