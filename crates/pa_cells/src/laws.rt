//! What handles and histories keep, as laws: calls that do nothing, but have proved clauses.
ghost use Rattle.pa_cells.specs.Handles.{HandedCanWait, GiversLackHandles, TakersHaveHandles, SlotsStaySeen};
ghost use Rattle.pa_cells.specs.Cells.{PlacesStay};

use pa_record::one_entry_for_its_numbers;
use pa_region::beginnings_join;

/// A note that was handed one handle, of a slot that its giver had seen made, can wait in a cell.
pub fn what_was_handed_can_wait()
    ensures { HandedCanWait }
{}

/// A seat that hands a handle over doesn't have it any more, and still has all else.
pub fn givers_lack_handles()
    ensures { GiversLackHandles }
{}

/// A view that takes in the note of a handle has this handle besides, and has seen how the slot was made.
pub fn takers_have_handles()
    ensures { TakersHaveHandles }
{
    beginnings_join();
    slots_stay_seen();
}

/// A view that has seen more of a root's list has seen as well how a slot was made.
pub fn slots_stay_seen()
    ensures { SlotsStaySeen }
{}

/// An exchange that is in the list is at its place in its cell's history, whatever comes later.
pub fn places_stay()
    ensures { PlacesStay }
{
    one_entry_for_its_numbers();
}
