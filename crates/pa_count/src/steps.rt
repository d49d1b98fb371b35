ghost use Rattle.std.specs.Prelude.{◌≡◌, ◌↔◌, ◌<◌, ◌⊎◌};
ghost use Rattle.pa_slot.specs.declared.word.Step.TheVariants.{Issue, Copy, Reset, Free, Write};
ghost use Rattle.pa_slot.specs.Run.{IsReturning};
ghost use Rattle.pa_region.specs.Views.{HasStake, free_of};
ghost use Rattle.pa_region.specs.Moves.{CanCount};
ghost use Rattle.pa_region.specs.Shares.{IsUser, IsStepMade, IsSealedMade, IsLooked};

use pa_region::{Region, Seat, releases_leave};
use pa_slot::{Step, Title, Word, returns};

/// What a release did to the slot: another owner or `raw_ptr` still holds it, or it was the last and the slot is free.
#[derive(Clone, Copy, Debug, PartialEq, Eq)]
pub enum Fate {
    Kept,
    Last,
}

/// A heap gives a free slot out: the seat's free title becomes its Own.
pub fn issue(region: &Region, seat: &mut Seat, title: Title) -> Word
    requires region { seat.old.region ≡ region.now }
    requires able { CanCount Issue title seat.old.view }
    ensures { IsStepMade Issue title result.0 seat.old seat.new }
{
    region.count_step(seat, title, Step::Issue)
}

/// A heap gives a free slot out whose Own is sealed: no copy of it can be made, so no `raw_ptr` ever points to the slot.
pub fn issue_sealed(region: &Region, seat: &mut Seat, title: Title) -> Word
    requires region { seat.old.region ≡ region.now }
    requires able { CanCount Issue title seat.old.view }
    ensures { IsSealedMade title result.0 seat.old seat.new }
{
    region.count_sealed(seat, title)
}

/// A `raw_ptr` is made, from the owner's pointer, if its Own isn't sealed, or from another `raw_ptr`: the seat gets one more Ref.
pub fn copy(region: &Region, seat: &mut Seat, title: Title) -> Word
    requires region { seat.old.region ≡ region.now }
    requires able { CanCount Copy title seat.old.view }
    ensures { IsStepMade Copy title result.0 seat.old seat.new }
{
    region.count_step(seat, title, Step::Copy)
}

/// The owner records that it has written the content. No `raw_ptr` points to the slot.
pub fn wrote(region: &Region, seat: &mut Seat, title: Title) -> Word
    requires region { seat.old.region ≡ region.now }
    requires able { CanCount Write title seat.old.view }
    ensures { IsStepMade Write title result.0 seat.old seat.new }
{
    region.count_step(seat, title, Step::Write)
}

/// A `raw_ptr` is let go. `Last` if and only if the owner had freed the slot before and no other `raw_ptr` is left: then
/// the seat holds the title free.
pub fn reset(region: &Region, seat: &mut Seat, title: Title) -> (Word, Fate)
    requires region { seat.old.region ≡ region.now }
    requires able { CanCount Reset title seat.old.view }
    ensures made { IsStepMade Reset title result.0.0 seat.old seat.new }
    ensures fate { (result.1 ≡ Fate.Last) ↔ IsReturning Reset result.0.0 }
    ensures last { result.1 ≡ Fate.Last → free_of seat.new.view title ≡ 1 }
    ensures kept { result.1 ≡ Fate.Kept → free_of seat.new.view title ≡ 0 }
{
    release(region, seat, title, Step::Reset)
}

/// The owner frees the slot. `Last` if and only if no `raw_ptr` points to it:
/// then the seat holds the title free. Else the slot is quarantined.
pub fn free(region: &Region, seat: &mut Seat, title: Title) -> (Word, Fate)
    requires region { seat.old.region ≡ region.now }
    requires able { CanCount Free title seat.old.view }
    ensures made { IsStepMade Free title result.0.0 seat.old seat.new }
    ensures fate { (result.1 ≡ Fate.Last) ↔ IsReturning Free result.0.0 }
    ensures last { result.1 ≡ Fate.Last → free_of seat.new.view title ≡ 1 }
    ensures kept { result.1 ≡ Fate.Kept → free_of seat.new.view title ≡ 0 }
{
    release(region, seat, title, Step::Free)
}

/// Reads the count word, and changes nothing of the slot.
pub fn look(region: &Region, seat: &mut Seat, title: Title) -> Word
    requires region { seat.old.region ≡ region.now }
    requires able { IsUser title seat.old.view × HasStake seat.old.view }
    ensures { IsLooked title result.0 seat.old seat.new }
{
    seat.placed(title);
    Word(region.load(seat, title.start + (title.len - 8)))
}

// A reset or a free, and whether it returned the slot.
fn release(region: &Region, seat: &mut Seat, title: Title, step: Step) -> (Word, Fate)
    requires release { (step ≡ Reset) ⊎ (step ≡ Free) }
    requires region { seat.old.region ≡ region.now }
    requires able { CanCount step title seat.old.view }
    ensures made { IsStepMade step title result.0.0 seat.old seat.new }
    ensures fate { (result.1 ≡ Fate.Last) ↔ IsReturning step result.0.0 }
    ensures last { result.1 ≡ Fate.Last → free_of seat.new.view title ≡ 1 }
    ensures kept { result.1 ≡ Fate.Kept → free_of seat.new.view title ≡ 0 }
{
    let found = region.count_step(seat, title, step);
    releases_leave();
    if returns(step, found) {
        (found, Fate::Last)
    } else {
        (found, Fate::Kept)
    }
}
