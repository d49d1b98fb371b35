//! Spans that enter drawn states, and their lists, kept by hand beside them.
ghost use Rattle.std.specs.Prelude.{◌≡◌, ◌≢◌, ◌+◌, ◌<◌, ◌≤◌, false, length};
ghost use Rattle.pa_buckets.specs.Limits.{class_count};
ghost use Rattle.pa_buckets.specs.declared.spans.State.TheVariants as state;
ghost use Rattle.pa_test_spans.specs.Table.{IsTableKept};

use crate::table::{Table, new_table};
use pa_buckets::{Class, State};
use pa_spans::{SpanLists, lists_begin};
use std::alloc::Global;
use std::test::Fail;

// A number drawn after another.
fn next_key(key: u64) -> u64 {
    key.wrapping_mul(6364136223846793005)
        .wrapping_add(1442695040888963407)
}

// The state of a number.
fn drawn_state(number: u64) -> State
    ensures { result ≢ state.None }
{
    match number % 8 {
        0 | 1 => State::Active,
        2 => State::Decommitted,
        3 => State::Full,
        _ => State::Empty,
    }
}

// A span enters a state, if there is one of this number and the ring has room for it.
fn enter(lists: &mut SpanLists, table: &mut Table, at: u32, to: State, moves: u32) -> Option<u32>
    requires kept { IsTableKept lists.old table.old.spans.items moves }
    requires used { to ≢ state.None }
    ensures kept { IsTableKept lists.new table.new.spans.items (moves + 1) }
{
    if at == 0 || at as usize >= table.spans.len() || is_crowded(lists, to) {
        return None;
    }
    lists.enter(table, at, to)
}

// Whether the state is that of empty spans, and no more of them have room.
fn is_crowded(lists: &SpanLists, to: State) -> bool
    ensures { result ≡ false → to ≡ state.Empty → length lists.now.ring < 17 }
{
    match to {
        State::Empty => lists.empties() >= 17,
        _ => false,
    }
}

// Whether the state is that of empty spans.
fn is_empty(state: State) -> bool {
    matches!(state, State::Empty)
}

// Whether the list of the class and the state is that of the spans in this order, latest first.
fn is_list(lists: &SpanLists, table: &Table, order: &[u32], class: Class, state: State) -> bool {
    let mut at = lists.top(class, state).unwrap_or(0);
    let mut before = 0;
    for u in order {
        let Some(span) = table.spans.get(*u as usize) else {
            return false;
        };
        if span.class == class && span.state == state {
            if at != *u || span.previous != before {
                return false;
            }
            before = *u;
            at = span.next;
        }
    }
    at == 0
}

// Whether each list of the five classes from this one on is that of the spans in this order.
fn are_lists(lists: &SpanLists, table: &Table, order: &[u32], first: u32) -> bool
    requires { first + 5 ≤ class_count }
{
    for number in 0..5 {
        let Some(class) = Class::of(first + number) else {
            return false;
        };
        if !is_list(lists, table, order, class, State::Active)
            || !is_list(lists, table, order, class, State::Empty)
            || !is_list(lists, table, order, class, State::Decommitted)
        {
            return false;
        }
    }
    true
}

// The last span in this order that is empty, 0 if none is.
fn last_empty(table: &Table, order: &[u32]) -> u32 {
    let mut last = 0;
    for u in order {
        if let Some(span) = table.spans.get(*u as usize) {
            if is_empty(span.state) {
                last = *u;
            }
        }
    }
    last
}

// Puts a number before the others.
fn to_front(order: &mut Vec<u32>, at: u32) -> Result<(), Fail> {
    order.retain(|u| *u != at);
    order.insert(0, at)?;
    Ok(())
}

// Whether 400 drawn moves of 40 spans, of five classes from this one on, leave each list in turn, and more than ten of them are of the span
// that was empty for the longest time.
fn are_in_turn(alloc: Global, first: u32) -> Result<bool, Fail>
    requires classes { first + 5 ≤ class_count }
{
    let mut table = new_table(alloc, 41, first)?;
    let mut lists = SpanLists::new();
    lists_begin(&table);
    let mut order: Vec<u32> = Vec::new(alloc);
    let mut key = u64::from(first);
    let mut decommits = 0_u32;
    for done in 0..400_u32 {
        key = next_key(key);
        let at = 1 + (key >> 33) as u32 % 40;
        let to = drawn_state(key >> 20);
        let stays = table
            .spans
            .get(at as usize)
            .is_none_or(|span| span.state == to);
        let oldest = enter(&mut lists, &mut table, at, to, 2 * done);
        if !stays {
            to_front(&mut order, at)?;
        }
        if let Some(oldest) = oldest {
            if oldest != last_empty(&table, &order) {
                return Ok(false);
            }
            decommits = decommits.wrapping_add(1);
            enter(
                &mut lists,
                &mut table,
                oldest,
                State::Decommitted,
                2 * done + 1,
            );
            to_front(&mut order, oldest)?;
        }
        if !are_lists(&lists, &table, &order, first) {
            return Ok(false);
        }
    }
    Ok(decommits > 10)
}

#[test]
fn drawn_moves_leave_each_list_in_turn(rt: HostRuntime) -> Result<(), Fail> {
    for group in 0..34 {
        let first = 5 * group;
        let in_turn = are_in_turn(rt.alloc(), first)?;
        assert!(rt; in_turn, "the classes from {first} on");
    }
    Ok(())
}
