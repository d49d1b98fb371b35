ghost use Rattle.std.specs.Prelude.{◌≡◌, ℕ, ◌*◌, ◌<◌, length};
ghost use Rattle.pa_slot.specs.declared.title.Title.{Title};
ghost use Rattle.pa_slot.specs.Holdings.{RawByte};
ghost use Rattle.pa_region.specs.Views.{held_of_view, stake_of};
ghost use Rattle.pa_region.specs.Waiting.{poisoned_of, unclean_of};
ghost use Rattle.pa_region.specs.Hands.{CanHand, IsParted, left_after, given_after, united};
ghost use Rattle.pa_region.specs.Aware.{IsAware};
ghost use Rattle.pa_region.specs.Entries.{CanEnter, after_enter};
ghost use Rattle.pa_region.specs.Marks.{parcel_of};
ghost use Rattle.pa_region.specs.Shares.{Share, byte_word_count};

use crate::marks::{Mark, both, marked, unmarked};
use crate::region::{Region, Seat};
use crate::rule::{enter_as, hand_as, take_as, tell_as};
use pa_machine::Item;
use std::marker::{Brand, Model};

/// A share of a region that was split off to be handed over. Each Own of it is clean.
/// Contracts see which region it is of, and its view.
#[derive(Drop)]
pub struct Note {
    seat: Seat,
}

impl Model for Note {
    ghost Value = { Share };

    ghost view = { λ n. n.seat };

    ghost invariant = { λ n. unclean_of n.seat.view ≡ 0 };
}

impl Note {
    /// The note's share as a seat, which can make steps.
    pub fn seat(self) -> Seat
        ensures same { result ≡ self }
        ensures clean { unclean_of result.view ≡ 0 }
    {
        let Note { seat } = self;
        seat
    }

    /// What the rule says of the note's view. Its list of words is as long as the region's, and its raw bytes lie in the
    /// region. It costs nothing: it hands on what the note's type keeps.
    pub fn aware(&self)
        ensures aware { IsAware self.now.view }
        ensures long { length self.now.view.words ≡ byte_word_count self.now.region }
        ensures raw { (b : ℕ) → 0 < held_of_view self.now.view (RawByte b) → b < 8 * byte_word_count self.now.region }
    {
        self.seat.aware();
    }
}

impl Seat {
    /// The seat's share as a note, which can be taken: each Own of it is clean.
    pub fn note(self) -> Note
        requires { unclean_of self.view ≡ 0 }
        ensures { result ≡ self }
    {
        Note { seat: self }
    }
}

impl Region {
    /// Hands over these items, this many counted steps, and what is marked: a stake goes with its log and a keeper with
    /// its list. The note has seen what the seat has seen.
    pub fn hand(&self, seat: &mut Seat, items: &[Item], budget: u32, marks: &[Mark]) -> Note
        requires region { seat.old.region ≡ self.now }
        requires able { CanHand (parcel_of items.now budget marks.now) seat.old.view }
        ensures regions { (seat.new.region ≡ seat.old.region) × (result.region ≡ seat.old.region) }
        ensures left { seat.new.view ≡ left_after (parcel_of items.now budget marks.now) seat.old.view }
        ensures given { result.view ≡ given_after (parcel_of items.now budget marks.now) seat.old.view }
        ensures parted { IsParted seat.old.view seat.new.view result.view }
    {
        let _ = &seat.seat;
        let other = hand_as::<Brand>(&self.table, &mut seat.seat, items, budget, marks);
        let given = marked(&seat.stakes, marks);
        seat.stakes = unmarked(&seat.stakes, marks);
        Note {
            seat: Seat {
                seat: other,
                stakes: given,
            },
        }
    }

    /// Takes in a note: the seat has then all that both had, and has seen what either has seen. If the note has a
    /// stake, the seat has no poisoned Own. A second load changes nothing, and returns what the rule says of the view.
    pub fn take(&self, seat: &mut Seat, note: Note)
        requires region { (seat.old.region ≡ self.now) × (note.region ≡ self.now) }
        requires able { (k : ℕ) (t : Title) → 0 < stake_of note.view k → poisoned_of seat.old.view t ≡ 0 }
        ensures region { seat.new.region ≡ seat.old.region }
        ensures view { seat.new.view ≡ united seat.old.view note.view }
        ensures parted { IsParted seat.new.view seat.old.view note.view }
    {
        let Note { seat: other } = note;
        let Seat {
            seat: other,
            stakes,
        } = other;
        let _ = &seat.seat;
        take_as::<Brand>(&self.table, &mut seat.seat, other);
        tell_as::<Brand>(&self.table, &mut seat.seat);
        seat.stakes = both(&seat.stakes, &stakes);
    }

    /// Makes an entry in the list of this keeper, which the seat has, with its least stake: the numbers, and in proofs
    /// only, what the seat has seen. The list, the stake's log and what the seat has seen get it at once.
    pub fn enter(&self, seat: &mut Seat, keeper: u32, entry: &[u64])
        requires region { seat.old.region ≡ self.now }
        requires able { CanEnter keeper seat.old.view }
        ensures region { seat.new.region ≡ seat.old.region }
        ensures view { seat.new.view ≡ after_enter keeper entry.now seat.old.view }
    {
        let _ = &seat.seat;
        enter_as::<Brand>(&self.table, &mut seat.seat, keeper, entry)
    }
}
