ghost use Rattle.std.specs.Prelude.{◌≡◌, ◌↔◌, ℕ, ◌+◌, ◌<◌};
ghost use Rattle.pa_slot.specs.declared.title.OwnState.TheVariants.{Clean, Dirty};
ghost use Rattle.pa_slot.specs.declared.word.Step.TheVariants.{Reset, Free};
ghost use Rattle.pa_slot.specs.Count.{held_of};
ghost use Rattle.pa_slot.specs.Run.{IsReturning};
ghost use Rattle.pa_slot.specs.Titles.{content_count, content_at};
ghost use Rattle.pa_slot.specs.Titles.{poison as poison_word};
ghost use Rattle.pa_region.specs.Views.{HasStake, free_of, own_of, own_as};
ghost use Rattle.pa_region.specs.Moves.{CanCount, IsFound, after_look};
ghost use Rattle.pa_region.specs.Waiting.{poisoned_owns};
ghost use Rattle.pa_region.specs.Shares.{IsUser, IsStepMade};
ghost use Rattle.pa_region.specs.Loads.{after_read};
ghost use Rattle.pa_quarantine.specs.Filling.{poisoned_share};

use crate::fill::poison;
use pa_count::{Fate, free, look, reset};
use pa_region::{Region, Seat, looks_leave, owns_change, states_are_owns};
use pa_slot::{Title, Word};

/// The owner frees the slot: its content is poisoned, and then it is freed in one step. `Last` if and only if no
/// `raw_ptr` points to it: then the seat holds the title free. Else the slot is quarantined.
/// No Own of the seat is poisoned before.
pub fn free_owned(region: &Region, seat: &mut Seat, title: Title) -> (Word, Fate)
    requires region { seat.old.region ≡ region.now }
    requires able { (0 < own_as seat.old.view title Clean + own_as seat.old.view title Dirty) × HasStake seat.old.view ×
        (0 < seat.old.view.budget) }
    requires begins { poisoned_owns seat.old.view ≡ 0 }
    ensures made { IsStepMade Free title result.0.0 (poisoned_share title seat.old) seat.new }
    ensures fate { (result.1 ≡ Fate.Last) ↔ IsReturning Free result.0.0 }
    ensures last { result.1 ≡ Fate.Last → free_of seat.new.view title ≡ 1 }
    ensures kept { result.1 ≡ Fate.Kept → free_of seat.new.view title ≡ 0 }
{
    states_are_owns();
    owns_change();
    poison(region, seat, title);
    free(region, seat, title)
}

/// A `raw_ptr` is let go. `Last` if and only if the owner had freed the slot before and no other `raw_ptr` is left: then
/// the seat holds the title free.
pub fn release(region: &Region, seat: &mut Seat, title: Title) -> (Word, Fate)
    requires region { seat.old.region ≡ region.now }
    requires able { CanCount Reset title seat.old.view }
    ensures made { IsStepMade Reset title result.0.0 seat.old seat.new }
    ensures fate { (result.1 ≡ Fate.Last) ↔ IsReturning Reset result.0.0 }
    ensures last { result.1 ≡ Fate.Last → free_of seat.new.view title ≡ 1 }
    ensures kept { result.1 ≡ Fate.Kept → free_of seat.new.view title ≡ 0 }
{
    reset(region, seat, title)
}

/// Reads a content word, by its index from 0, right after a look at the count word. A slot that was freed gives poison. The
/// seat's own slot gives what the seat knows of it.
pub fn read(region: &Region, seat: &mut Seat, title: Title, place: u32) -> (Word, u64)
    requires region { seat.old.region ≡ region.now }
    requires able { IsUser title seat.old.view × HasStake seat.old.view }
    requires place { place < content_count title }
    ensures region { seat.new.region ≡ seat.old.region }
    ensures view { seat.new.view ≡ after_read title place result.1 (after_look title result.0.0 seat.old.view) }
    ensures found { IsFound title result.0.0 seat.old.view }
    ensures freed { held_of result.0.0 ≡ 0 → result.1 ≡ poison_word }
    ensures own { 0 < own_of seat.old.view title → result.1 ≡ content_at seat.old.view.words title place }
{
    looks_leave();
    let found = look(region, seat, title);
    seat.placed(title);
    (found, region.load(seat, title.start + 8 * place))
}
