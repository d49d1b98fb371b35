ghost use Rattle.std.specs.Prelude.{◌≡◌, ◌≢◌, ℕ, ◌*◌, ◌<◌, ◌≤◌, [], ◌∷◌, ◌++◌, IfOk, IfSome, IfNone, length, slice_index_or, slice_set, take};
ghost use Rattle.pa_player.specs.Begun.{AreEmpty};
ghost use Rattle.pa_player.specs.Lists.{IsFront};

use crate::free_list::FreeList;
use pa_slot::OutOfMemory;
use std::alloc::Global;
use std::marker::Model;

// The lists of all threads' caches, one after the other: rows of a list for each class, a row for each thread and partition. They
// are seen as lists of indices in the table, front first. Beside them is how many slots the lists of each row have together.
#[derive(Drop)]
pub(crate) struct Caches {
    lists: Vec<FreeList>,
    classes: u32,
    sums: Vec<usize>,
}

impl Model for Caches {
    ghost use Rattle.std.specs.Prelude.{ℕ, List};
    ghost use Rattle.pa_player.specs.Lists.{AreSummed};

    ghost Value = { List (List ℕ) };

    ghost view = { λ c. c.lists.items };

    ghost invariant = { λ c. AreSummed c.lists.items c.classes c.sums.items };
}

impl Caches {
    // That many rows of empty lists.
    pub(crate) fn new(alloc: Global, rows: u32, classes: u32) -> Result<Caches, OutOfMemory>
        ensures { IfOk result (AreEmpty (rows * classes)) }
    {
        let count = rows as usize * classes as usize;
        let mut lists = Vec::with_capacity(alloc, count)?;
        for _ in 0..count {
            lists.push(FreeList::new())?;
        }
        Ok(Caches {
            lists,
            classes,
            sums: vec![in alloc; 0; rows as usize]?,
        })
    }

    // The slots of a list, front first.
    pub(crate) fn places(&self, at: usize) -> &[u32]
        requires among { at < length self.now }
        ensures places { result.now ≡ slice_index_or self.now at [] }
    {
        self.lists[at].places()
    }

    // Takes the front of a list. `None` exactly when it is empty.
    pub(crate) fn front(&mut self, at: usize) -> Option<u32>
        requires among { at < length self.old }
        ensures some { IfSome result (λ place. IsFront at place self.old self.new) }
        ensures none { IfNone result (slice_index_or self.old at [] ≡ []) }
    {
        let place = self.lists[at].front()?;
        self.sums[at / self.classes as usize] -= 1;
        Some(place)
    }

    // Puts a slot at the front of a list.
    pub(crate) fn put(&mut self, at: usize, place: u32)
        requires among { at < length self.old }
        requires room { length (slice_index_or self.old at []) < 65 }
        ensures { self.new ≡ slice_set self.old at (place ∷ slice_index_or self.old at []) }
    {
        self.lists[at].put(place);
        self.sums[at / self.classes as usize] += 1;
    }

    // Puts a slot at the end of a list.
    pub(crate) fn push(&mut self, at: usize, place: u32)
        requires among { at < length self.old }
        requires room { length (slice_index_or self.old at []) < 65 }
        ensures { self.new ≡ slice_set self.old at (slice_index_or self.old at [] ++ place ∷ []) }
    {
        self.lists[at].push(place);
        self.sums[at / self.classes as usize] += 1;
    }

    // Keeps the first `count` slots of a list.
    pub(crate) fn keep(&mut self, at: usize, count: usize)
        requires among { at < length self.old }
        ensures { self.new ≡ slice_set self.old at (take count (slice_index_or self.old at [])) }
    {
        let list = &mut self.lists[at];
        let dropped = list.places().len().saturating_sub(count);
        list.keep(count);
        self.sums[at / self.classes as usize] -= dropped;
    }

    // The first list with slots from one list on and before another, which is returned if there is none.
    // A row with no slots is passed at once.
    pub(crate) fn next_with_slots(&self, from: usize, to: usize) -> usize
        requires order { from ≤ to }
        requires among { to ≤ length self.now }
        ensures from { from ≤ result }
        ensures to { result ≤ to }
        ensures empty { (k : ℕ) → from ≤ k → k < result → slice_index_or self.now k [] ≡ [] }
        ensures some { result < to → slice_index_or self.now result [] ≢ [] }
    {
        let classes = self.classes as usize;
        let mut at = from;
        'lists: while at < to {
            let row = at / classes;
            if self.sums[row] == 0 {
                at = to.min((row + 1) * classes);
            } else if self.places(at).is_empty() {
                at += 1;
            } else {
                break;
            }
        }
        at
    }
}
