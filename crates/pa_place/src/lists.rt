ghost use Rattle.std.specs.Prelude.{◌≡◌, ◌≢◌, ◌<◌, ◌≤◌, [], ℕ, List, Some, AllPairs, IfOk, OnOk, length, slice_get, Vec as List_of};
ghost use Rattle.std.specs.Vec.{vec_capacity};
ghost use Rattle.std.specs.declared.alloc.Global.{Global as Heap};
ghost use Rattle.pa_buckets.specs.declared.spans.State.{State as SpanState};
ghost use Rattle.pa_buckets.specs.Limits.{class_count};
ghost use Rattle.pa_record.specs.Spans.{Span, same_state};
ghost use Rattle.pa_place.specs.Listing.{AreListed, HasListRoom, CanRefile, IsRefiled, IsInTurn, IsTurnCut, without_index};
ghost use Rattle.pa_place.specs.Filed.{AreFiled, HasClasses, HasRoomToList, CanRefileAt, IsRefiledAt, CanFile, IsFiledAnew, last_of};

use crate::plain_span::PlainSpan;
use pa_buckets::{Class, State};
use pa_slot::OutOfMemory;
use std::alloc::Global;

// The number of classes.
const CLASSES: usize = pa_buckets::CLASSES as usize;

// The most spans that are empty at once: 16 stay so, and one more may be until the oldest is decommitted.
const MOST_LISTED: usize = 17;

// The indices of the empty spans, and for each class those of the active spans and those of the
// decommitted ones. Each list is in the order in which its spans entered the state.
#[derive(Drop)]
pub(crate) struct Lists {
    pub(crate) empty: Vec<usize>,
    pub(crate) active: Vec<Vec<usize>>,
    pub(crate) decommitted: Vec<Vec<usize>>,
}

impl Lists {
    // No span is listed.
    pub(crate) fn new(alloc: Global) -> Result<Lists, OutOfMemory>
        ensures { IfOk result (λ lists. AreFiled [] lists) }
    {
        let empty = Vec::with_capacity(alloc, MOST_LISTED)?;
        let active = no_lists(alloc)?;
        let decommitted = no_lists(alloc)?;
        Ok(Lists {
            empty,
            active,
            decommitted,
        })
    }

    // Makes room for `most` spans of the class.
    pub(crate) fn reserve(&mut self, class: Class, most: usize) -> Result<(), OutOfMemory>
        requires { HasClasses self.old }
        ensures filed { (ss : List Span) → AreFiled ss self.old → AreFiled ss self.new }
        ensures room { OnOk result (HasRoomToList class most self.new) }
    {
        reserve_at(&mut self.active, class, most)?;
        reserve_at(&mut self.decommitted, class, most)
    }

    // The span of the class at this index goes from one state into another, or stays in it.
    pub(crate) fn refile(
        &mut self,
        spans: &[PlainSpan],
        class: Class,
        was: State,
        to: State,
        at: usize,
    )
        requires there { at < length spans.now }
        requires can { CanFile spans.now class was to self.old }
        ensures { IsFiledAnew class was to at self.old self.new }
    {
        let number = class.number() as usize;
        refile(&mut self.empty, spans, State::Empty, was, to, at);
        refile(&mut self.active[number], spans, State::Active, was, to, at);
        refile(
            &mut self.decommitted[number],
            spans,
            State::Decommitted,
            was,
            to,
            at,
        );
    }
}

// An empty list for each class.
fn no_lists(alloc: Global) -> Result<Vec<Vec<usize>>, OutOfMemory>
    ensures { IfOk result (λ lists. (a : SpanState) → AreListed a [] lists.items) }
{
    let mut lists = Vec::with_capacity(alloc, CLASSES)?;
    for _class in 0..CLASSES {
        lists.push_reserved(Vec::new(alloc));
    }
    Ok(lists)
}

// Makes room for `most` members in all in the list of the class.
fn reserve_at(lists: &mut Vec<Vec<usize>>, class: Class, most: usize) -> Result<(), OutOfMemory>
    requires { length lists.old.items ≡ class_count }
    ensures listed { (a : SpanState) (ss : List Span) → AreListed a ss lists.old.items → AreListed a ss lists.new.items }
    ensures room { OnOk result (HasListRoom class most lists.new.items) }
{
    reserve(&mut lists[class.number() as usize], most)
}

// Makes room for `most` members in all.
fn reserve(list: &mut Vec<usize>, most: usize) -> Result<(), OutOfMemory>
    ensures items { list.new.items ≡ list.old.items }
    ensures more { vec_capacity list.old ≤ vec_capacity list.new }
    ensures room { OnOk result (most ≤ vec_capacity list.new) }
{
    list.reserve(most.saturating_sub(list.len()))?;
    Ok(())
}

// The last member of the list of the class.
pub(crate) fn last_listed(lists: &[Vec<usize>], class: Class) -> Option<usize>
    requires { length lists.now ≡ class_count }
    ensures { (list : List_of ℕ Heap) → slice_get lists.now class ≡ Some list → result ≡ last_of list.items }
{
    lists[class.number() as usize].last().copied()
}

// The first member of the list.
pub(crate) fn first_listed(list: &[usize]) -> Option<usize>
    ensures { result ≡ slice_get list.now 0 }
{
    list.first().copied()
}

// Removes the index from the list of the spans in a state, or appends it, if the span there leaves the state or
// enters it.
fn refile(
    list: &mut Vec<usize>,
    spans: &[PlainSpan],
    state: State,
    was: State,
    to: State,
    at: usize,
)
    requires there { at < length spans.now }
    requires can { CanRefile spans.now (same_state was state) (same_state to state) list.old }
    ensures { IsRefiled (same_state was state) (same_state to state) at list.old list.new }
{
    let was_in = are_same(was, state);
    let is_in = are_same(to, state);
    if was_in && !is_in {
        take_off(list, spans, at);
    } else if is_in && !was_in {
        list.push_reserved(at);
    }
}

// Whether two states are one.
fn are_same(one: State, other: State) -> bool
    ensures { result ≡ same_state one other }
{
    one == other
}

// Removes the index from the list; as a rule it is the last.
fn take_off(list: &mut Vec<usize>, spans: &[PlainSpan], at: usize)
    requires there { at < length spans.now }
    requires order { IsInTurn spans.now list.old.items }
    ensures without { list.new.items ≡ without_index at list.old.items }
    ensures room { vec_capacity list.new ≡ vec_capacity list.old }
{
    let Some(last) = list.pop() else {
        return;
    };
    if last != at {
        list.push_reserved(last);
        remove_index(list, spans, at);
    }
}

// Removes the index, which is searched for by the turn of its span.
fn remove_index(list: &mut Vec<usize>, spans: &[PlainSpan], at: usize)
    requires there { at < length spans.now }
    requires order { IsInTurn spans.now list.old.items }
    ensures removed { list.new.items ≡ without_index at list.old.items }
    ensures room { vec_capacity list.new ≡ vec_capacity list.old }
{
    let place = count_before(list, spans, turn_at(spans, at));
    if place < list.len() && list[place] == at {
        list.remove(place);
    }
}

// How many of the listed spans have a lesser turn. They are in the order of their turns.
fn count_before(list: &[usize], spans: &[PlainSpan], turn: u64) -> usize
    requires order { IsInTurn spans.now list.now }
    ensures within { result ≤ length list.now }
    ensures cut { IsTurnCut spans.now turn list.now result }
{
    let mut low = 0;
    let mut high = list.len();
    'search: while low < high {
        let middle = low + (high - low) / 2;
        if turn_at(spans, list[middle]) < turn {
            low = middle + 1;
        } else {
            high = middle;
        }
    }
    low
}

// The turn of the span at this index.
fn turn_at(spans: &[PlainSpan], at: usize) -> u64
    requires { at < length spans.now }
    ensures { (s : Span) → slice_get spans.now at ≡ Some s → result ≡ s.turn }
{
    spans[at].turn()
}
