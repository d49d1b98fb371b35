ghost use Rattle.std.specs.Prelude.{◌≡◌, ℕ, ◌+◌, ◌-◌, ◌*◌, ◌<◌, ◌≤◌, ◌^◌, ◌++◌, ◌∷◌, [], true, IfOk, IfSome, IfNone, IsTrue, ◌↔◌, length};
ghost use Rattle.pa_buckets.specs.Table.{slot_of, slots_of};
ghost use Rattle.pa_record.specs.Spans.{bytes_of, title_at, holds, number_in, provisioned_more, with_free, with_front, without_front, without_pages, state_in_use, state_back, is_in, is_of};
ghost use Rattle.pa_record.specs.Root.{in_state, turn_after, IsOutOf};
ghost use Rattle.pa_record.specs.Sound.{IsCounted};
ghost use Rattle.arrayvec.specs.ArrayVec.{array_vec_len};
ghost use Rattle.pa_place.specs.Made.{made_from};
ghost use Rattle.pa_place.specs.Order.{starts_after};
ghost use Rattle.pa_place.specs.Served.{blank_span, stands_at, IsServed, IsLow};
ghost use Rattle.pa_lists.specs.Numbers.{numbers};

use crate::placed::Made;
use crate::returned::Returned;
use arrayvec::ArrayVec;
use pa_buckets::{Class, State, slot_size, span_of};
use pa_layout::{PARTITION_PAGE, SYSTEM_PAGE};
use pa_slot::{OutOfMemory, SlotName, Title};
use std::alloc::Global;
use std::marker::Model;

// A slot span. Its free slots are those that came back, for all of which there is room, followed by those from a number
// on, which never left it since they were provisioned.
#[derive(Drop)]
pub(crate) struct PlainSpan {
    place: u32,
    born: u32,
    class: Class,
    state: State,
    turn: u64,
    allocated: u32,
    provisioned: u32,
    committed: u32,
    made: u32,
    returned: Returned,
    kept_from: u32,
}

impl Model for PlainSpan {
    ghost use Rattle.std.specs.Prelude.{◌-◌, ◌++◌};
    ghost use Rattle.pa_record.specs.Spans.{Span};
    ghost use Rattle.pa_lists.specs.Numbers.{numbers};
    ghost use Rattle.pa_place.specs.CameBack.{AreKept};

    ghost Value = { Span };

    ghost view = { λ s. record {
      place = s.place;
      born = s.born;
      class = s.class;
      state = s.state;
      turn = s.turn;
      allocated = s.allocated;
      provisioned = s.provisioned;
      committed = s.committed;
      made = s.made;
      free = s.returned.items ++ numbers s.kept_from (s.provisioned - s.kept_from);
    } };

    ghost invariant = { λ s. AreKept s.class s.provisioned s.kept_from s.returned };
}

impl PlainSpan {
    // A span of the class that has no place yet.
    pub(crate) fn blank(alloc: Global, class: Class) -> Result<PlainSpan, OutOfMemory>
        ensures { IfOk result (λ s. s ≡ blank_span class) }
    {
        let returned = Returned::new(alloc, span_of(class).slots as usize)?;
        Ok(PlainSpan {
            place: 0,
            born: 0,
            class,
            state: State::None,
            turn: 0,
            allocated: 0,
            provisioned: 0,
            committed: 0,
            made: 0,
            returned,
            kept_from: 0,
        })
    }

    // The same span at that byte of the region, in a super page that this entry of the pool took.
    pub(crate) fn at(self, place: u32, born: u32) -> PlainSpan
        ensures { result ≡ stands_at place born self }
    {
        PlainSpan {
            place,
            born,
            ..self
        }
    }

    pub(crate) fn class(&self) -> Class
        ensures { result ≡ self.now.class }
    {
        self.class
    }

    pub(crate) fn state(&self) -> State
        ensures { result ≡ self.now.state }
    {
        self.state
    }

    // The turn with which it entered its state.
    pub(crate) fn turn(&self) -> u64
        ensures { result ≡ self.now.turn }
    {
        self.turn
    }

    // The system pages that are committed.
    pub(crate) fn committed(&self) -> u32
        ensures { result ≡ self.now.committed }
    {
        self.committed
    }

    // The slots that were made and aren't out.
    pub(crate) fn kept(&self) -> u32
        ensures { result ≡ self.now.made - self.now.allocated }
    {
        self.made.saturating_sub(self.allocated)
    }

    pub(crate) fn is_in(&self, state: State) -> bool
        ensures { result ≡ is_in state self.now }
    {
        self.state == state
    }

    // Whether the slot of that name lies in it.
    pub(crate) fn holds(&self, name: SlotName) -> bool
        ensures { result ≡ holds name self.now }
    {
        let end = u64::from(self.place) + u64::from(self.bytes());
        self.born == name.born && (self.place <= name.start && u64::from(name.start) < end)
    }

    // Whether it starts after the slot of that name, or its super page was taken later.
    pub(crate) fn starts_after(&self, name: SlotName) -> bool
        ensures { result ≡ starts_after name self.now }
    {
        name.born < self.born || (name.born == self.born && name.start < self.place)
    }

    // The bytes of its partition pages.
    fn bytes(&self) -> u32
        ensures { result ≡ bytes_of self.now }
    {
        PARTITION_PAGE * span_of(self.class).pages
    }

    // The number of the slot of that name, which starts in the span or after it.
    fn number_of(&self, name: SlotName) -> u32
        requires { self.now.place ≤ name.start }
        ensures { result ≡ number_in self.now name }
    {
        (name.start - self.place) / slot_size(self.class)
    }

    // Its slot with that number.
    fn title(&self, number: u32) -> Title
        requires low { IsLow self.now }
        requires number { number < slots_of self.now.class }
        ensures { result ≡ title_at self.now number }
    {
        let len = slot_size(self.class);
        Title {
            start: self.place + len * number,
            len,
            born: self.born,
        }
    }

    // The slot of that name, which lies in the span; `None` exactly when it isn't out.
    pub(crate) fn out(&self, name: SlotName) -> Option<Title>
        requires counted { IsCounted self.now }
        requires low { IsLow self.now }
        requires held { holds name self.now ≡ true }
        ensures some { IfSome result
            (λ t. (t ≡ title_at self.now (number_in self.now name)) × IsOutOf self.now name (number_in self.now name)) }
        ensures none { IfNone result ((number : ℕ) → IsOutOf self.now name number → ⊥) }
    {
        let number = self.number_of(name);
        if number >= self.kept_from || self.returned.has(number) {
            return None;
        }
        let title = self.title(number);
        if title.start == name.start {
            Some(title)
        } else {
            None
        }
    }

    // Takes the front of the list, after provisioning the span if the list is empty. Not all of its slots are out.
    pub(crate) fn take_slot(&mut self) -> Title
        requires counted { IsCounted self.old }
        requires some { self.old.allocated < slots_of self.old.class }
        requires low { IsLow self.old }
        ensures { IsServed self.old self.new result }
    {
        self.make_front();
        let number = self.take_front();
        self.title(number)
    }

    // The slots that were ever made.
    pub(crate) fn made(&self) -> u32
        ensures { result ≡ self.now.made }
    {
        self.made
    }

    // Returns the batch of slots that were made beyond the first `before`, if some were. All lie in the region.
    pub(crate) fn tell_made(&self, before: u32, made: &mut ArrayVec<Made, 8>)
        requires low { IsLow self.now }
        requires most { self.now.made ≤ slots_of self.now.class }
        requires few { array_vec_len made.old < 8 }
        ensures batch { made.new.items ≡ made.old.items ++ made_from before self.now }
        ensures more { array_vec_len made.new ≤ array_vec_len made.old + 1 }
    {
        if before < self.made {
            made.push(Made {
                first: self.title(before),
                count: self.made - before,
            });
        }
    }

    // Provisions the span if its list is empty.
    fn make_front(&mut self)
        requires counted { IsCounted self.old }
        requires some { self.old.allocated < slots_of self.old.class }
        ensures { self.new ≡ with_free self.old }
    {
        if self.is_used_up() {
            self.provision();
        }
    }

    // Whether its list is empty.
    fn is_used_up(&self) -> bool
        ensures { IsTrue result ↔ (self.now.free ≡ []) }
    {
        self.returned.is_empty() && self.kept_from == self.provisioned
    }

    // Commits one page more, or as many as one slot more needs; the slots that fit into them are the list, in order.
    fn provision(&mut self)
        requires counted { IsCounted self.old }
        requires none { self.old.free ≡ [] }
        requires more { self.old.provisioned < slots_of self.old.class }
        ensures { self.new ≡ provisioned_more self.old }
    {
        let size = slot_size(self.class);
        let needed = (size * (self.provisioned + 1) + (SYSTEM_PAGE - 1)) / SYSTEM_PAGE;
        let pages = (self.committed + 1).max(needed);
        let slots = (SYSTEM_PAGE * pages / size).min(span_of(self.class).slots);
        self.committed = pages;
        self.provisioned = slots;
        self.made = self.made.max(slots);
    }

    // Takes the front of the list, which isn't empty.
    fn take_front(&mut self) -> u32
        requires some { 1 ≤ length self.old.free }
        requires fits { self.old.allocated < 1024 }
        ensures front { self.old.free ≡ result ∷ self.new.free }
        ensures after { self.new ≡ without_front self.new.free self.old }
    {
        self.allocated += 1;
        match self.returned.take_front() {
            Some(number) => number,
            None => {
                let number = self.kept_from;
                self.kept_from += 1;
                number
            }
        }
    }

    // Puts the slot of that name, which is one of its slots that are out, at the front of the list.
    pub(crate) fn put_back(&mut self, name: SlotName)
        requires counted { IsCounted self.old }
        requires some { 1 ≤ self.old.allocated }
        requires inside { self.old.place ≤ name.start }
        ensures { self.new ≡ with_front (number_in self.old name) self.old }
    {
        let number = self.number_of(name);
        self.allocated -= 1;
        self.returned.put_front(number);
    }

    // Empties the list: its pages go back to the system.
    pub(crate) fn drop_pages(&mut self)
        ensures { self.new ≡ without_pages self.old }
    {
        self.returned.clear();
        self.kept_from = 0;
        self.provisioned = 0;
        self.committed = 0;
    }

    // Enters the state; if it was in another one, it gets that turn. Returns the next turn.
    pub(crate) fn enter(&mut self, to: State, turn: u64) -> u64
        requires { turn < 2 ^ 63 }
        ensures state { self.new ≡ in_state to turn self.old }
        ensures turn { result ≡ turn_after to turn self.old }
    {
        if self.is_in(to) {
            return turn;
        }
        self.state = to;
        self.turn = turn;
        turn + 1
    }

    // The state after a take: full if all slots are out, and else active.
    pub(crate) fn state_in_use(&self) -> State
        ensures { result ≡ state_in_use self.now }
    {
        if self.allocated == span_of(self.class).slots {
            State::Full
        } else {
            State::Active
        }
    }

    // The state after a return: empty if no slot is out, and else active.
    pub(crate) fn state_back(&self) -> State
        ensures { result ≡ state_back self.now }
    {
        if self.allocated == 0 {
            State::Empty
        } else {
            State::Active
        }
    }
}
