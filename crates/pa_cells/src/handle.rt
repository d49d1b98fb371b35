ghost use Rattle.std.specs.Prelude.{◌≡◌};
ghost use Rattle.pa_cells.specs.Handles.{IsParked, held_as};

use pa_buckets::Class;
use pa_record::Held;
use pa_region::Note;
use pa_slot::{SlotName, Title};
use std::marker::Model;

/// Which slot a handle is of: its title, its partition, 0 to 3, and its class, or `None` for a direct map.
#[derive(Clone, Copy, Debug, PartialEq, Eq)]
pub struct Handle {
    pub title: Title,
    pub partition: u32,
    pub class: Option<Class>,
}

/// A handle on its way from one thread to another: the Own of its slot, or one Ref. The note holds it,
/// and has seen how the slot was made.
#[derive(Drop)]
pub struct Parked {
    pub handle: Handle,
    pub own: bool,
    pub note: Note,
}

impl Model for Parked {
    ghost use Rattle.pa_cells.specs.Handles.{ParkedHandle, IsParked};

    ghost Value = { ParkedHandle };

    ghost view = { λ p. record { handle = p.handle; own = p.own; note = p.note } };

    ghost invariant = { λ p. IsParked (record { handle = p.handle; own = p.own; note = p.note }) };
}

impl Parked {
    /// What the type keeps. It costs nothing.
    pub fn kept(&self)
        ensures { IsParked self.now }
    {
        // Naming the note hands the proof what its type keeps.
        let _ = &self.note;
    }
}

/// What histories name it.
pub(crate) fn held_name(parked: &Option<Parked>) -> Held
    ensures { result ≡ held_as parked.now }
{
    match parked {
        None => Held::Nothing,
        Some(parked) => named(parked),
    }
}

// The handle's kind and its slot's name.
fn named(parked: &Parked) -> Held
    ensures { result ≡ held_as (Some parked.now) }
{
    let title = parked.handle.title;
    let slot = SlotName {
        start: title.start,
        born: title.born,
    };
    if parked.own {
        Held::Own(slot)
    } else {
        Held::Ref(slot)
    }
}
