ghost use Rattle.std.specs.Prelude.{◌≡◌, ℕ, ◌≤◌};
ghost use Rattle.pa_slot.specs.Titles.{IsWellFormed};
ghost use Rattle.pa_layout.specs.Limits.{most_words};
ghost use Rattle.pa_region.specs.Views.{seen_of};
ghost use Rattle.pa_region.specs.Shares.{count_offset};
ghost use Rattle.pa_region.specs.Cuts.{CanCut, after_cut, CanUncut, after_uncut};

use crate::region::{Region, Seat};
use crate::rule::title_as;
use pa_slot::Title;
use std::marker::Brand;

impl Region {
    /// Cuts a title out of raw bytes: stores 0 in its count word, and makes the range a free title.
    /// No seat has seen a step on it.
    pub fn cut(&self, seat: &mut Seat, title: Title)
        requires region { seat.old.region ≡ self.now }
        requires able { CanCut title seat.old.view }
        ensures region { seat.new.region ≡ seat.old.region }
        ensures view { seat.new.view ≡ after_cut title seat.old.view }
        ensures new { seen_of seat.new.view title ≡ 0 }
    {
        let _ = &seat.seat;
        let at = count_byte(title);
        self.store(seat, at, 0);
        let _ = &seat.seat;
        title_as::<Brand>(&self.table, &mut seat.seat, (at / 8) as usize, title)
    }

    /// Uncuts a free title: its bytes are raw again, and only titles that are born later can be cut out of them. The log of the
    /// seat's least stake says so.
    pub fn uncut(&self, seat: &mut Seat, title: Title)
        requires region { seat.old.region ≡ self.now }
        requires able { CanUncut title seat.old.view }
        ensures region { seat.new.region ≡ seat.old.region }
        ensures view { seat.new.view ≡ after_uncut title seat.old.view }
    {
        let _ = &seat.seat;
        let at = count_byte(title);
        title_as::<Brand>(&self.table, &mut seat.seat, (at / 8) as usize, title)
    }
}

// The offset of the title's count word, in bytes.
fn count_byte(title: Title) -> u32
    requires { (words : ℕ) × (words ≤ most_words) × IsWellFormed words title }
    ensures { result ≡ count_offset title }
{
    title.start + (title.len - 8)
}
