ghost use Rattle.std.specs.Prelude.{◌≡◌, ◌≢◌, ◌↔◌, ℕ, ◌+◌, ◌^◌, ◌<◌, ◌≤◌, ◌==◌, if◌then◌else◌, length};
ghost use Rattle.pa_buckets.specs.declared.spans.State.TheVariants as state;
ghost use Rattle.pa_buckets.specs.Limits.{class_count};
ghost use Rattle.pa_record.specs.Spans.{same_state};
ghost use Rattle.pa_spans.specs.declared.span.Span.{Span};
ghost use Rattle.pa_spans.specs.Lists.{no_lists, list_head, with_head, top_of, Stand, StaysListed, without, in_front, with_next, with_previous, ring_without, ring_with, lists_without, lists_with, spans_entered, lists_entered, oldest_of, first_of_ring};

use crate::span::Span;
use crate::store::SpanStore;
use arrayvec::ArrayVec;
use pa_buckets::{CLASSES, Class, State};
use std::marker::Model;

// How many classes there are, for arrays.
const COUNT: usize = CLASSES as usize;

// The most empty spans at once: one more than stay empty.
const RING: usize = 17;

/// The heads of the lists of spans of one class and state, and the ring of the empty ones. The lists themselves go on in the
/// spans' records. Contracts see it as the record `SpanListParts`. `Stand` says of which spans they are the lists.
#[derive(Drop)]
pub struct SpanLists {
    active: [u32; COUNT],
    empty: [u32; COUNT],
    decommitted: [u32; COUNT],
    ring: ArrayVec<u32, RING>,
    turn: u64,
}

impl Model for SpanLists {
    ghost use Rattle.pa_spans.specs.Lists.{SpanListParts};

    ghost Value = { SpanListParts };

    ghost view = { λ l. record { active = l.active; empty = l.empty; decommitted = l.decommitted; ring = l.ring.items; turn = l.turn } };
}

impl SpanLists {
    /// Lists with no span. They are those of a store whose spans all have the state None (`lists_begin`).
    pub fn new() -> SpanLists
        ensures { result ≡ no_lists }
    {
        SpanLists {
            active: [0; COUNT],
            empty: [0; COUNT],
            decommitted: [0; COUNT],
            ring: ArrayVec::new(),
            turn: 0,
        }
    }

    /// The span of the class that entered the state last, by its offset in bytes. `None` exactly if there is none.
    pub fn top(&self, class: Class, state: State) -> Option<u32>
        ensures { result ≡ top_of self.now class state }
    {
        let head = self.head(class, state);
        if head == 0 { None } else { Some(head) }
    }

    /// Moves the span at this offset into the state, with the next turn, at the front of the list of its class and that state.
    /// Nothing changes if it is in the state. It answers the empty span of least turn exactly if 17 are empty then.
    pub fn enter<S: SpanStore>(&mut self, store: &mut S, at: u32, to: State) -> Option<u32>
        requires stand { Stand self.old (S.spans store.old) (S.has store.old) }
        requires has { S.has store.old at }
        requires used { to ≢ state.None }
        requires few { length (lists_entered at to self.old (S.spans store.old at)).ring ≤ 17 }
        requires turn { self.old.turn < 2 ^ 63 }
        ensures entered { (u : ℕ) → S.spans store.new u ≡ spans_entered at to self.old (S.spans store.old) u }
        ensures lists { self.new ≡ lists_entered at to self.old (S.spans store.old at) }
        ensures has { (u : ℕ) → S.has store.new u ↔ S.has store.old u }
        ensures stand { Stand self.new (S.spans store.new) (S.has store.new) }
        ensures oldest { result ≡ oldest_of self.new.ring }
        ensures follows { S.follows store.old store.new }
    {
        let span = store.get(at);
        if is_in(&span, to) {
            return self.oldest();
        }
        self.take_out(store, at, span);
        self.put_in(store, at, span, to);
        self.oldest()
    }

    /// How many spans are empty.
    pub fn empties(&self) -> u32
        ensures { result ≡ length self.now.ring }
    {
        self.ring.len() as u32
    }

    /// The empty span of least turn, which a purge decommits next. `None` exactly if no span is empty.
    pub fn first_empty(&self) -> Option<u32>
        ensures { result ≡ first_of_ring self.now.ring }
    {
        if self.ring.len() == 0 {
            None
        } else {
            Some(self.ring[0])
        }
    }

    /// Puts a span in the place of the one at this offset. It has the same state, turn and neighbours, and another class only
    /// if it isn't in use. So the lists are right as before.
    pub fn put<S: SpanStore>(&self, store: &mut S, at: u32, span: Span)
        requires stand { Stand self.now (S.spans store.old) (S.has store.old) }
        requires has { S.has store.old at }
        requires stays { StaysListed (S.spans store.old at) span }
        ensures span { (u : ℕ) → S.spans store.new u ≡ (if u == at then span else S.spans store.old u) }
        ensures has { (u : ℕ) → S.has store.new u ↔ S.has store.old u }
        ensures stand { Stand self.now (S.spans store.new) (S.has store.new) }
        ensures follows { S.follows store.old store.new }
    {
        store.set(at, span);
    }

    // Takes the span out of its list and the ring: its neighbours name each other.
    fn take_out<S: SpanStore>(&mut self, store: &mut S, at: u32, span: Span)
        requires previous { span.previous ≢ 0 → S.has store.old span.previous }
        requires next { span.next ≢ 0 → S.has store.old span.next }
        ensures spans { (u : ℕ) → S.spans store.new u ≡ without span (S.spans store.old) u }
        ensures lists { self.new ≡ lists_without at span self.old }
        ensures class { span.class < class_count }
        ensures has { (u : ℕ) → S.has store.new u ↔ S.has store.old u }
        ensures follows { S.follows store.old store.new }
    {
        if span.previous == 0 {
            self.set_head(span.class, span.state, span.next);
        }
        self.leave_ring(at, span.state);
        set_next(store, span.previous, span.next);
        set_previous(store, span.next, span.previous);
    }

    // Puts the span at the front of the list of a state.
    fn put_in<S: SpanStore>(&mut self, store: &mut S, at: u32, span: Span, to: State)
        requires has { S.has store.old at }
        requires head { list_head self.old span.class to ≢ 0 → S.has store.old (list_head self.old span.class to) }
        requires few { length (ring_with at to self.old.ring) ≤ 17 }
        requires turn { self.old.turn < 2 ^ 63 }
        ensures spans { (u : ℕ) →
            S.spans store.new u ≡ in_front at span to (list_head self.old span.class to) self.old.turn (S.spans store.old) u }
        ensures lists { self.new ≡ lists_with at span.class to self.old }
        ensures has { (u : ℕ) → S.has store.new u ↔ S.has store.old u }
        ensures follows { S.follows store.old store.new }
    {
        let head = self.head(span.class, to);
        let turn = self.turn;
        store.set(
            at,
            Span {
                state: to,
                turn,
                previous: 0,
                next: head,
                ..span
            },
        );
        set_previous(store, head, at);
        self.set_head(span.class, to, at);
        self.enter_ring(at, to);
    }

    // The head of the list of the class and the state, 0 if there is none.
    fn head(&self, class: Class, state: State) -> u32
        ensures { result ≡ list_head self.now class state }
    {
        let index = class.number() as usize;
        match state {
            State::Active => self.active[index],
            State::Empty => self.empty[index],
            State::Decommitted => self.decommitted[index],
            State::None | State::Full => 0,
        }
    }

    // Sets that head. Spans without a state, and full ones, have no list.
    fn set_head(&mut self, class: Class, state: State, at: u32)
        ensures { self.new ≡ with_head class state at self.old }
    {
        let index = class.number() as usize;
        match state {
            State::Active => self.active[index] = at,
            State::Empty => self.empty[index] = at,
            State::Decommitted => self.decommitted[index] = at,
            State::None | State::Full => {}
        }
    }

    // Takes a span that was in this state out of the ring.
    fn leave_ring(&mut self, at: u32, state: State)
        ensures { self.new ≡ record self.old { ring = ring_without at state self.old.ring } }
    {
        if let State::Empty = state {
            self.ring.retain(|u| *u != at);
        }
    }

    // Puts a span that is in this state at the ring's end, and goes on to the next turn.
    fn enter_ring(&mut self, at: u32, state: State)
        requires few { length (ring_with at state self.old.ring) ≤ 17 }
        requires turn { self.old.turn < 2 ^ 63 }
        ensures { self.new ≡ record self.old { ring = ring_with at state self.old.ring; turn = self.old.turn + 1 } }
    {
        if let State::Empty = state {
            self.ring.push(at);
        }
        self.turn += 1;
    }

    // The empty span of least turn, if 17 are empty.
    fn oldest(&self) -> Option<u32>
        ensures { result ≡ oldest_of self.now.ring }
    {
        if self.ring.len() == RING {
            Some(self.ring[0])
        } else {
            None
        }
    }
}

// Whether the span is in the state.
fn is_in(span: &Span, state: State) -> bool
    ensures { result ≡ same_state span.now.state state }
{
    span.state == state
}

// Another span follows the one at this offset. Offset 0 is none.
fn set_next<S: SpanStore>(store: &mut S, at: u32, next: u32)
    requires { at ≢ 0 → S.has store.old at }
    ensures spans { (u : ℕ) → S.spans store.new u ≡ with_next at next (S.spans store.old) u }
    ensures has { (u : ℕ) → S.has store.new u ↔ S.has store.old u }
    ensures follows { S.follows store.old store.new }
{
    if at != 0 {
        let span = store.get(at);
        store.set(at, Span { next, ..span });
    }
}

// Another span is before the one at this offset.
fn set_previous<S: SpanStore>(store: &mut S, at: u32, previous: u32)
    requires { at ≢ 0 → S.has store.old at }
    ensures spans { (u : ℕ) → S.spans store.new u ≡ with_previous at previous (S.spans store.old) u }
    ensures has { (u : ℕ) → S.has store.new u ↔ S.has store.old u }
    ensures follows { S.follows store.old store.new }
{
    if at != 0 {
        let span = store.get(at);
        store.set(at, Span { previous, ..span });
    }
}
