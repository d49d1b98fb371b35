ghost use Rattle.std.specs.Prelude.{◌≡◌, ℕ, ◌<◌, ◌≤◌, length};
ghost use Rattle.pa_slot.specs.Titles.{IsWellFormed};
ghost use Rattle.pa_slot.specs.Links.{AreLinked};
ghost use Rattle.pa_layout.specs.Limits.{most_words};
ghost use Rattle.pa_record.specs.Spans.{name_of};
ghost use Rattle.pa_trace.specs.Limits.{register_count};
ghost use Rattle.pa_region.specs.Aware.{IsAware};
ghost use Rattle.pa_region.specs.Lending.{CanHost};
ghost use Rattle.pa_region.specs.Views.{HasTitle, stake_of};
ghost use Rattle.pa_region.specs.Shares.{byte_word_count};
ghost use Rattle.pa_link.specs.Chains.{slot_names};
ghost use Rattle.pa_cells.specs.Handles.{is_plain};
ghost use Rattle.pa_op_specs.specs.Stocks.{IsStock, HasHandleTo, register_in, titles_in};

use crate::lists::Lists;
use pa_cells::Handle;
use pa_region::{Name, Note, Seat};
use pa_rules::Register;
use pa_slot::{SlotName, Title};
use std::marker::{Model, PhantomData};

/// A worker's thread state: its seat, its registers and its lists of free slots, with the number of its thread and of the run's
/// partitions, and the first plain one. The lists are those that the words of its seat's view have. `N` names the region, and the
/// same first plain partition.
#[derive(Drop)]
pub struct Stock<N: Name> {
    pub(crate) thread: u32,
    pub(crate) partitions: u32,
    pub(crate) plain_from: u32,
    pub(crate) seat: Seat,
    pub(crate) registers: [Register<Handle>; 64],
    pub(crate) caches: Lists,
    pub(crate) of: PhantomData<N>,
}

impl<N: Name> Model for Stock<N> {
    ghost use Rattle.std.specs.Prelude.{◌≡◌, All};
    ghost use Rattle.pa_cache.specs.Chained.{HoldsList};
    ghost use Rattle.pa_op_specs.specs.Stocks.{StockValue, IsStock};
    ghost use Rattle.pa_thread_state.specs.Lists.{lists_in};

    ghost Value = { StockValue };

    ghost view = { λ s.
        record {
          thread = s.thread;
          partitions = s.partitions;
          plain_from = s.plain_from;
          view = s.seat.view;
          registers = s.registers;
          caches = lists_in s.seat.view s.caches;
        } };

    ghost invariant = { λ s. (s.seat.region ≡ N.region)
        × IsStock (record {
          thread = s.thread;
          partitions = s.partitions;
          plain_from = s.plain_from;
          view = s.seat.view;
          registers = s.registers;
          caches = lists_in s.seat.view s.caches;
        })
        × All (HoldsList s.seat.view) s.caches.parts
        × (s.plain_from ≡ N.plain_from) };
}

impl<N: Name> Stock<N> {
    /// What the thread state's type keeps, and the type of its seat. It costs nothing.
    pub fn kept(&self)
        ensures stock { IsStock self.now }
        ensures links { (p class : ℕ) → AreLinked self.now.view.words (slot_names (titles_in self.now.caches p class)) }
        ensures aware { IsAware self.now.view }
        ensures long { length self.now.view.words ≡ byte_word_count N.region }
        ensures plain { self.now.plain_from ≡ N.plain_from }
    {
        self.seat.aware();
    }

    /// The number of its thread.
    pub fn thread(&self) -> u32
        ensures { result ≡ self.now.thread }
    {
        self.thread
    }

    /// How many partitions the run has.
    pub fn partitions(&self) -> u32
        ensures { result ≡ self.now.partitions }
    {
        self.partitions
    }

    /// The first plain partition, whose Owns are sealed.
    pub fn plain_from(&self) -> u32
        ensures { result ≡ self.now.plain_from }
    {
        self.plain_from
    }

    /// Whether the handle's slot is in a plain partition.
    pub fn is_plain(&self, handle: &Handle) -> bool
        ensures { result ≡ is_plain self.now.plain_from handle.now }
    {
        self.plain_from <= handle.partition
    }

    /// The title of a register's handle is well formed, and the seat's list
    /// of words is as long as its region's. It costs nothing.
    pub fn placed(&self, handle: &Handle, reg: u32)
        requires reg { reg < register_count }
        requires handle { HasHandleTo handle.now (register_in self.now.registers reg) }
        ensures small { byte_word_count N.region ≤ most_words }
        ensures well { IsWellFormed (byte_word_count N.region) handle.now.title }
        ensures long { length self.now.view.words ≡ byte_word_count N.region }
    {
        let _ = reg;
        self.seat.placed(handle.title);
    }

    /// A title that the seat has is well formed. It costs nothing.
    pub fn lies(&self, title: Title)
        requires { HasTitle self.now.view title }
        ensures { IsWellFormed (byte_word_count N.region) title }
    {
        self.seat.placed(title);
    }

    /// The version of the run's trace.
    pub fn version(&self) -> u32
        ensures { result ≡ self.now.caches.version }
    {
        self.caches.version()
    }

    /// What a register has, by its number, 0 to 63.
    pub fn register(&self, reg: u32) -> Register<Handle>
        requires reg { reg < register_count }
        ensures { result ≡ register_in self.now.registers reg }
    {
        self.registers[reg as usize]
    }

    /// The thread state's seat, once its stake is handed over.
    pub fn into_note(self) -> Note
        requires { (k : ℕ) → stake_of self.view k ≡ 0 }
        ensures region { result.region ≡ N.region }
        ensures same { result.view ≡ self.view }
        ensures host { CanHost result.view }
    {
        let Stock {
            thread: _,
            partitions: _,
            plain_from: _,
            seat,
            registers: _,
            caches: _,
            of: _,
        } = self;
        seat.note()
    }
}

// The name of a handle's slot.
pub(crate) fn slot_name(handle: &Handle) -> SlotName
    ensures { result ≡ name_of handle.now.title }
{
    SlotName {
        start: handle.title.start,
        born: handle.title.born,
    }
}
