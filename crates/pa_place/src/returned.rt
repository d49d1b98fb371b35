ghost use Rattle.std.specs.Prelude.{◌≡◌, ◌+◌, ◌-◌, ◌<◌, ◌≤◌, ◌↔◌, [], ◌∷◌, ◌++◌, Contains, IfNone, IfOk, IsTrue, length, option_to_list, slice_index_or, slice_set};

use pa_slot::OutOfMemory;
use std::alloc::Global;
use std::collections::VecDeque;
use std::marker::Model;

// The numbers of the slots that came back to a span, the last one first, and for each number how often it is
// among them: once or not at all.
#[derive(Drop)]
pub(crate) struct Returned {
    list: VecDeque<u32>,
    times: Vec<u16>,
}

impl Model for Returned {
    ghost use Rattle.std.specs.Prelude.{◌≤◌, length};
    ghost use Rattle.std.specs.VecDeque.{deque_capacity};
    ghost use Rattle.pa_place.specs.CameBack.{CameBack, AreTimes};

    ghost Value = { CameBack };

    ghost view = { λ r. record { items = r.list.items; room = length r.times.items } };

    ghost invariant = { λ r. (length r.times.items ≤ deque_capacity r.list) × AreTimes r.times.items r.list.items };
}

impl Returned {
    // No numbers, with room for `room` of them.
    pub(crate) fn new(alloc: Global, room: usize) -> Result<Returned, OutOfMemory>
        ensures { IfOk result (λ r. r ≡ record { items = []; room = room }) }
    {
        Ok(Returned {
            list: VecDeque::with_capacity(alloc, room)?,
            times: Vec::from_elem(alloc, 0, room)?,
        })
    }

    pub(crate) fn is_empty(&self) -> bool
        ensures { IsTrue result ↔ (self.now.items ≡ []) }
    {
        self.list.is_empty()
    }

    // Whether the number is among them.
    pub(crate) fn has(&self, number: u32) -> bool
        requires { number < self.now.room }
        ensures { IsTrue result ↔ Contains self.now.items number }
    {
        self.times[number as usize] > 0
    }

    // Puts a number at the front. There must be room for one.
    pub(crate) fn put_front(&mut self, number: u32)
        requires room { length self.old.items < self.old.room }
        requires few { length self.old.items < 1024 }
        ensures { self.new ≡ record { items = number ∷ self.old.items; room = self.old.room } }
    {
        self.list.push_front_reserved(number);
        count_more(&mut self.times, number);
    }

    // Takes the front, if there is one.
    pub(crate) fn take_front(&mut self) -> Option<u32>
        ensures items { self.old.items ≡ option_to_list result ++ self.new.items }
        ensures none { IfNone result (self.old.items ≡ []) }
        ensures room { self.new.room ≡ self.old.room }
    {
        match self.list.pop_front() {
            Some(number) => {
                count_less(&mut self.times, number);
                Some(number)
            }
            None => None,
        }
    }

    // Drops all numbers.
    pub(crate) fn clear(&mut self)
        ensures { self.new ≡ record { items = []; room = self.old.room } }
    {
        self.list.clear();
        self.times.fill(0);
    }
}

// Counts a number once more, if it has an entry.
fn count_more(times: &mut Vec<u16>, number: u32)
    requires { slice_index_or times.old.items number 0 < 1024 }
    ensures { times.new.items ≡ slice_set times.old.items number (slice_index_or times.old.items number 0 + 1) }
{
    let at = number as usize;
    if at < times.len() {
        times[at] += 1;
    }
}

// Counts a number once less, if it has an entry.
fn count_less(times: &mut Vec<u16>, number: u32)
    requires { number < length times.old.items → 1 ≤ slice_index_or times.old.items number 0 }
    ensures { times.new.items ≡ slice_set times.old.items number (slice_index_or times.old.items number 0 - 1) }
{
    let at = number as usize;
    if at < times.len() {
        times[at] -= 1;
    }
}
