ghost use Rattle.std.specs.Prelude.{◌≡◌, ℕ, ◌+◌, ◌<◌};
ghost use Rattle.pa_slot.specs.declared.title.OwnState.TheVariants.{Clean, Dirty};
ghost use Rattle.pa_slot.specs.declared.word.Step.TheVariants.{Free, Write};
ghost use Rattle.pa_slot.specs.Titles.{HasContentFrom};
ghost use Rattle.pa_region.specs.Views.{HasStake, free_of, idle_of, own_as};
ghost use Rattle.pa_region.specs.Moves.{HasHandle};
ghost use Rattle.pa_region.specs.Waiting.{poisoned_owns};
ghost use Rattle.pa_region.specs.Shares.{IsStepMade};
ghost use Rattle.pa_quarantine.specs.Filling.{zeroed, poisoned, filled_share};

use pa_count::wrote;
use pa_region::{Region, Seat, filled_words_have_the_value, owns_change, states_are_owns};
use pa_slot::{Title, Word};

/// Sets every content word of a free slot to 0, in address order, so that it can be issued.
pub fn zero_fill(region: &Region, seat: &mut Seat, title: Title)
    requires region { seat.old.region ≡ region.now }
    requires able { 0 < free_of seat.old.view title }
    ensures region { seat.new.region ≡ seat.old.region }
    ensures view { seat.new.view ≡ zeroed title seat.old.view }
    ensures content { HasContentFrom seat.new.view.words title 0 0 }
{
    filled_words_have_the_value();
    seat.placed(title);
    for word in 0..title.len / 8 - 1 {
        region.store(seat, title.start + 8 * word, 0);
    }
}

/// Poisons every content word of the seat's Own, in address order, so that it can be freed.
/// It begins while no Own of the seat is poisoned.
pub fn poison(region: &Region, seat: &mut Seat, title: Title)
    requires region { seat.old.region ≡ region.now }
    requires able { (0 < own_as seat.old.view title Clean + own_as seat.old.view title Dirty) × HasStake seat.old.view }
    requires begins { poisoned_owns seat.old.view ≡ 0 }
    ensures region { seat.new.region ≡ seat.old.region }
    ensures view { seat.new.view ≡ poisoned title seat.old.view }
    ensures ready { HasHandle Free title seat.new.view }
{
    states_are_owns();
    owns_change();
    seat.placed(title);
    for word in 0..title.len / 8 - 1 {
        region.poison_next(seat, title, word);
    }
}

/// Writes the value to every content word of the seat's Own, in address order,
/// if no `raw_ptr` points to it, and then records the write.
pub fn write(region: &Region, seat: &mut Seat, title: Title, value: u64) -> Word
    requires region { seat.old.region ≡ region.now }
    requires own { (0 < idle_of seat.old.view title) × (0 < own_as seat.old.view title Clean + own_as seat.old.view title Dirty) }
    requires able { HasStake seat.old.view × (0 < seat.old.view.budget) }
    ensures { IsStepMade Write title result.0 (filled_share title value seat.old) seat.new }
{
    states_are_owns();
    owns_change();
    filled_words_have_the_value();
    seat.placed(title);
    for word in 0..title.len / 8 - 1 {
        region.store(seat, title.start + 8 * word, value);
    }
    wrote(region, seat, title)
}
