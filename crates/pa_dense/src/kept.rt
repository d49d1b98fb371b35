ghost use Rattle.std.specs.Prelude.{◌≡◌, ◌≤◌, IfOk, length};

use pa_record::{LentSlots, Numbered};
use pa_slot::OutOfMemory;
use smallvec::SmallVec;
use std::alloc::Global;
use std::marker::Model;

// The slots of an act, at most 16, in a list of their own. One slot needs no allocation. They are seen as the list of them.
#[derive(Drop)]
pub(crate) struct Kept {
    of: SmallVec<Numbered, 1>,
}

impl Model for Kept {
    ghost use Rattle.std.specs.Prelude.{List, ◌≤◌, length};
    ghost use Rattle.pa_record.specs.declared.numbered.Numbered.{Numbered};

    ghost Value = { List Numbered };

    ghost view = { λ kept. kept.of.items };

    ghost invariant = { λ kept. length kept.of.items ≤ 16 };
}

impl Kept {
    // These slots, at most 16, in a list of their own.
    pub(crate) fn of(alloc: Global, slots: &[Numbered]) -> Result<Kept, OutOfMemory>
        requires few { length slots.now ≤ 16 }
        ensures slots { IfOk result (λ kept. kept ≡ slots.now) }
    {
        Ok(Kept {
            of: SmallVec::from_slice(alloc, slots)?,
        })
    }

    // The slots, lent.
    pub(crate) fn lent(&self) -> LentSlots<'_>
        ensures slots { result ≡ self.now }
    {
        LentSlots::of(self.of.as_slice())
    }
}
