ghost use Rattle.std.specs.Prelude.{◌≡◌};
ghost use Rattle.pa_record.specs.Act.{act_of};

use crate::act::{Act, LentSlots};
use crate::lent_entry::LentEntry;
use crate::{Batch, Numbered};
use pa_buckets::Class;
use pa_slot::SlotName;

/// One entry of a root's journal: the line of the trace whose op made it, and what the root did.
#[derive(Debug, Drop, PartialEq, Eq)]
pub struct RootEntry {
    pub line: u32,
    pub act: RootAct,
}

impl RootEntry {
    /// The entry, lent.
    pub fn lent(&self) -> LentEntry<'_>
        ensures entry { result ≡ self.now }
    {
        LentEntry::of(self.line, self.act.lent())
    }
}

/// What a root did for one op. `pool` is the index of the pool's entry that was made for it.
#[derive(Debug, Drop, PartialEq, Eq)]
pub enum RootAct {
    /// Slots of a class went out to a thread's cache, 1 to 16, each at its number.
    Fill {
        class: Class,
        pool: Option<u32>,
        slots: Batch,
    },
    /// A direct map was made, whose slot has `len` bytes.
    Map {
        pool: u32,
        slot: SlotName,
        len: u32,
    },
    /// No room for a slot of the class, or, if no class is named, for a direct map.
    Full {
        class: Option<Class>,
        pool: u32,
    },
    /// Slots came back from a thread's cache, 1 to 16, each at its number.
    Give {
        slots: Batch,
    },
    /// A direct map came back.
    Unmap {
        pool: u32,
        slot: Numbered,
    },
    /// Every empty span was decommitted.
    Purge,
}

impl RootAct {
    // The act, lent.
    fn lent(&self) -> Act<'_>
        ensures act { act_of result ≡ self.now }
    {
        match self {
            RootAct::Fill { class, pool, slots } => Act::Fill {
                class: *class,
                pool: *pool,
                slots: LentSlots::of(slots.items()),
            },
            RootAct::Map { pool, slot, len } => Act::Map {
                pool: *pool,
                slot: *slot,
                len: *len,
            },
            RootAct::Full { class, pool } => Act::Full {
                class: *class,
                pool: *pool,
            },
            RootAct::Give { slots } => Act::Give {
                slots: LentSlots::of(slots.items()),
            },
            RootAct::Unmap { pool, slot } => Act::Unmap {
                pool: *pool,
                slot: *slot,
            },
            RootAct::Purge => Act::Purge,
        }
    }
}
