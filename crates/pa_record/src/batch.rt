ghost use Rattle.std.specs.Prelude.{◌≡◌, ◌<◌, ◌≤◌, [], ◌∷◌, ◌++◌, length};

use crate::Numbered;
use arrayvec::ArrayVec;
use std::marker::Model;

/// At most 16 slots, each with its number. It allocates nothing, and is seen as the list of them.
#[derive(Debug, Drop, PartialEq, Eq)]
pub struct Batch {
    items: ArrayVec<Numbered, 16>,
}

impl Model for Batch {
    ghost use Rattle.std.specs.Prelude.{List, ◌≤◌, length};
    ghost use Rattle.pa_record.specs.declared.numbered.Numbered.{Numbered};

    ghost Value = { List Numbered };

    ghost view = { λ batch. batch.items.items };

    ghost invariant = { λ batch. length batch.items.items ≤ 16 };

    ghost inverse = { λ items. record { items = record { items = items } } };
}

impl Batch {
    /// A batch of no slots.
    pub fn new() -> Batch
        ensures empty { result ≡ [] }
    {
        Batch {
            items: ArrayVec::new(),
        }
    }

    /// Appends a slot. The batch has fewer than 16.
    pub fn push(&mut self, item: Numbered)
        requires { length self.old < 16 }
        ensures pushed { self.new ≡ self.old ++ item ∷ [] }
    {
        self.items.push(item);
    }

    /// The slots in order, at most 16.
    pub fn items(&self) -> &[Numbered]
        ensures items { result.now ≡ self.now }
        ensures bound { length self.now ≤ 16 }
    {
        self.items.as_slice()
    }
}
