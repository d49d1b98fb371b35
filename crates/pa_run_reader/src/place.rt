ghost use Rattle.std.specs.Prelude.{◌≡◌, ◌+◌, ◌<◌, ◌↔◌, IsTrue};
ghost use Rattle.pa_run_reader.specs.Order.{kind, item_place, Begins, IsNextOf, Continues, StandsBehind};

use crate::Item;

// The position of an item in a run's text: its kind, and its list and index if it has them.
#[derive(Clone, Copy, Debug, PartialEq, Eq)]
pub enum Place {
    Head,
    Record,
    Root { partition: u32, index: u32 },
    Pool { index: u32 },
    Cell { cell: u32, index: u32 },
    Report,
    End,
}

// The position of the item.
pub fn place_of(item: &Item) -> Place
    ensures { result ≡ item_place item.now }
{
    match item {
        Item::Head => Place::Head,
        Item::Record(_) => Place::Record,
        Item::Root {
            partition,
            index,
            ..
        } => Place::Root {
            partition: *partition,
            index: *index,
        },
        Item::Pool { index, .. } => Place::Pool { index: *index },
        Item::Cell { cell, index, .. } => Place::Cell {
            cell: *cell,
            index: *index,
        },
        Item::Report(_) => Place::Report,
        Item::End => Place::End,
    }
}

// The rank of the place's kind in the order of the kinds.
fn kind(place: Place) -> u32
    ensures { result ≡ kind place }
{
    match place {
        Place::Head => 0,
        Place::Record => 1,
        Place::Root { .. } => 2,
        Place::Pool { .. } => 3,
        Place::Cell { .. } => 4,
        Place::Report => 5,
        Place::End => 6,
    }
}

// Whether an item at this place may be the first of its kind.
fn begins(place: Place) -> bool
    ensures { IsTrue result ↔ Begins place }
{
    match place {
        Place::Root { index, .. } => index == 0,
        Place::Pool { index } => index == 0,
        Place::Cell { index, .. } => index == 0,
        _ => true,
    }
}

// Whether the second index is one more.
fn is_next(index: u32, next: u32) -> bool
    ensures { IsTrue result ↔ (next ≡ index + 1) }
{
    next > 0 && next - 1 == index
}

// Whether the second entry, of this list, comes right after the first.
fn is_next_of(list: u32, index: u32, later: u32, next: u32) -> bool
    ensures { IsTrue result ↔ IsNextOf list index later next }
{
    if later == list {
        is_next(index, next)
    } else {
        list < later && next == 0
    }
}

// Whether the second may come right after the first, which is of its kind.
fn continues(last: Place, next: Place) -> bool
    ensures { IsTrue result ↔ Continues last next }
{
    match (last, next) {
        (Place::Record, Place::Record) => true,
        (
            Place::Root { partition, index },
            Place::Root {
                partition: later,
                index: next,
            },
        ) => is_next_of(partition, index, later, next),
        (Place::Pool { index }, Place::Pool { index: next }) => is_next(index, next),
        (
            Place::Cell { cell, index },
            Place::Cell {
                cell: later,
                index: next,
            },
        ) => is_next_of(cell, index, later, next),
        (Place::Report, Place::Report) => true,
        _ => false,
    }
}

// Whether the second may come right after the first.
pub fn stands_behind(last: Place, next: Place) -> bool
    ensures { IsTrue result ↔ StandsBehind last next }
{
    if kind(last) < kind(next) {
        begins(next)
    } else {
        continues(last, next)
    }
}
