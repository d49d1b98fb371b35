ghost use Rattle.std.specs.Prelude.{◌≡◌, ◌+◌, ◌<◌};
ghost use Rattle.pa_slot.specs.declared.title.OwnState.TheVariants.{Clean, Dirty};
ghost use Rattle.pa_slot.specs.declared.word.Step.TheVariants.{Issue, Free};
ghost use Rattle.pa_slot.specs.Run.{IsReturning};
ghost use Rattle.pa_region.specs.Views.{HasStake, free_of, own_as, sealed_of};
ghost use Rattle.pa_region.specs.Moves.{CanCount};
ghost use Rattle.pa_region.specs.Waiting.{poisoned_owns};
ghost use Rattle.pa_region.specs.Shares.{IsStepMade, IsSealedMade};
ghost use Rattle.pa_quarantine.specs.Filling.{poisoned_share};

use crate::leave::free_owned;
use pa_region::{Region, Seat, owns_are_sealed_or_not, owns_change};
use pa_slot::{Title, Word};

/// A heap gives a zeroed slot out whose Own is sealed: no copy of it can be made, so no `raw_ptr` ever points to the slot.
pub fn issue_sealed(region: &Region, seat: &mut Seat, title: Title) -> Word
    requires region { seat.old.region ≡ region.now }
    requires able { CanCount Issue title seat.old.view }
    ensures { IsSealedMade title result.0 seat.old seat.new }
{
    pa_count::issue_sealed(region, seat, title)
}

/// The owner frees a slot whose Own is sealed: its content is poisoned, and then it is freed in one step. No `raw_ptr` points
/// to it, so that step returns it, and the seat holds the title free. No Own of the seat is poisoned before.
pub fn free_sealed(region: &Region, seat: &mut Seat, title: Title) -> Word
    requires region { seat.old.region ≡ region.now }
    requires own { (0 < sealed_of seat.old.view title) × (0 < own_as seat.old.view title Clean + own_as seat.old.view title Dirty) }
    requires able { HasStake seat.old.view × (0 < seat.old.view.budget) }
    requires begins { poisoned_owns seat.old.view ≡ 0 }
    ensures made { IsStepMade Free title result.0 (poisoned_share title seat.old) seat.new }
    ensures returning { IsReturning Free result.0 }
    ensures free { free_of seat.new.view title ≡ 1 }
{
    owns_change();
    owns_are_sealed_or_not();
    let (found, _) = free_owned(region, seat, title);
    found
}
