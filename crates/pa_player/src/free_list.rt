ghost use Rattle.std.specs.Prelude.{◌≡◌, ◌<◌, ◌≤◌, [], ◌∷◌, ◌++◌, ◌↔◌, IsTrue, IfSome, IfNone, length, take};

use arrayvec::ArrayVec;
use std::marker::Model;

// The free slots of one class that a thread's cache has, as their indices in the table, front first: at most 65. It needs no
// memory, and is seen as the list of them.
#[derive(Drop)]
pub(crate) struct FreeList {
    places: ArrayVec<u32, 65>,
}

impl Model for FreeList {
    ghost use Rattle.std.specs.Prelude.{ℕ, List, ◌≤◌, length};

    ghost Value = { List ℕ };

    ghost view = { λ l. l.places.items };

    ghost invariant = { λ l. length l.places.items ≤ 65 };
}

impl FreeList {
    // A list of no slots.
    pub(crate) fn new() -> FreeList
        ensures empty { result ≡ [] }
    {
        FreeList {
            places: ArrayVec::new(),
        }
    }

    // The slots, front first.
    pub(crate) fn places(&self) -> &[u32]
        ensures places { result.now ≡ self.now }
        ensures bound { length self.now ≤ 65 }
    {
        self.places.as_slice()
    }

    // Takes the front. `None` exactly when the list is empty.
    pub(crate) fn front(&mut self) -> Option<u32>
        ensures some { IfSome result (λ place. self.old ≡ place ∷ self.new) }
        ensures none { IfNone result (self.old ≡ []) }
        ensures same { IfNone result (self.new ≡ self.old) }
    {
        if self.places.is_empty() {
            None
        } else {
            Some(self.places.remove(0))
        }
    }

    // Puts a slot before the others.
    pub(crate) fn put(&mut self, place: u32)
        requires { length self.old < 65 }
        ensures { self.new ≡ place ∷ self.old }
    {
        self.places.insert(0, place);
    }

    // Appends a slot.
    pub(crate) fn push(&mut self, place: u32)
        requires { length self.old < 65 }
        ensures { self.new ≡ self.old ++ place ∷ [] }
    {
        self.places.push(place);
    }

    // Keeps the first `count` slots.
    pub(crate) fn keep(&mut self, count: usize)
        ensures { self.new ≡ take count self.old }
    {
        self.places.truncate(count);
    }
}
