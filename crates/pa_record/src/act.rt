ghost use Rattle.std.specs.Prelude.{◌≡◌, ◌≤◌, length};

use crate::Numbered;
use pa_buckets::Class;
use pa_slot::SlotName;
use std::marker::Model;

/// At most 16 slots of an act, borrowed from where they are kept. They are seen as the list of them.
#[derive(Drop)]
pub struct LentSlots<'a> {
    of: &'a [Numbered],
}

impl<'a> Model for LentSlots<'a> {
    ghost use Rattle.std.specs.Prelude.{List, ◌≤◌, length};
    ghost use Rattle.pa_record.specs.declared.numbered.Numbered.{Numbered};

    ghost Value = { List Numbered };

    ghost view = { λ slots. slots.of.now };

    ghost invariant = { λ slots. length slots.of.now ≤ 16 };
}

impl<'a> LentSlots<'a> {
    /// At most 16 slots, lent.
    pub fn of(of: &'a [Numbered]) -> LentSlots<'a>
        requires few { length of.now ≤ 16 }
        ensures slots { result ≡ of.now }
    {
        LentSlots { of }
    }

    /// The slots in order.
    pub fn items(self) -> &'a [Numbered]
        ensures items { result.now ≡ self.entry }
        ensures few { length result.now ≤ 16 }
    {
        self.of
    }

    /// The slots, lent once more.
    pub fn lent(&self) -> LentSlots<'_>
        ensures slots { result ≡ self.now }
    {
        LentSlots { of: self.of }
    }
}

/// What a root did for one op, with its slots as `S` keeps them. `act_of` is the act that it is.
#[derive(Drop)]
pub enum ActWith<S> {
    /// Slots of a class went out to a thread's cache, each at its number.
    Fill {
        class: Class,
        pool: Option<u32>,
        slots: S,
    },
    /// A direct map was made, whose slot has `len` bytes.
    Map {
        pool: u32,
        slot: SlotName,
        len: u32,
    },
    /// No room for a slot of the class, or, if no class is named, for a direct map.
    Full {
        class: Option<Class>,
        pool: u32,
    },
    /// Slots came back from a thread's cache, each at its number.
    Give {
        slots: S,
    },
    /// A direct map came back.
    Unmap {
        pool: u32,
        slot: Numbered,
    },
    /// Every empty span was decommitted.
    Purge,
}

/// What a root did, with its slots lent.
pub type Act<'a> = ActWith<LentSlots<'a>>;
