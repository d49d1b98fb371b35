//! What a root does with a direct map that comes back, by steps on seats.
ghost use Rattle.std.specs.Prelude.{◌≡◌, ℕ, ◌+◌, ◌≤◌, [], ◌∷◌, ◌*◌};
ghost use Rattle.pa_layout.specs.Limits.{most_words};
ghost use Rattle.pa_layout.specs.Pages.{super_page_at, supers_for, page_place};
ghost use Rattle.pa_region.specs.Views.{least_stake};
ghost use Rattle.pa_region.specs.Aware.{IsAware};
ghost use Rattle.pa_region.specs.Hands.{CanHand, left_after, given_after};
ghost use Rattle.pa_region.specs.Lending.{CanLend, CanHost};
ghost use Rattle.pa_pool.specs.Calls.{ComesBack, run_parcel};
ghost use Rattle.pa_root.specs.Handing.{HasOnly};
ghost use Rattle.pa_root.specs.BringingBack.{IsTitleBack, IsGivenFor};

use crate::asks::Asking;
use crate::lends::{show_seen, uncut_with};
use crate::numbers::number_seen;
use pa_layout::{PARTITION_PAGE, SUPER_PAGE, supers_for};
use pa_machine::Item;
use pa_pool::Pool;
use pa_region::{Mark, Name, Note, Region, Seat};
use pa_slot::Title;

// Shows the seat what the root's has seen, takes in the note, and uncuts its title with the seat's least stake.
// It returns the title's number.
pub(crate) fn take_title(
    region: &Region,
    seat: &mut Seat,
    root: &mut Seat,
    note: Note,
    title: Title,
) -> u64
    requires regions { (seat.old.region ≡ region.now) × (root.old.region ≡ region.now) × (note.region ≡ region.now) }
    requires lender { CanLend seat.old.view }
    requires host { CanHost root.old.view }
    requires has { HasOnly (title ∷ []) note.view }
    ensures regions { (seat.new.region ≡ seat.old.region) × (root.new.region ≡ root.old.region) }
    ensures again { CanLend seat.new.view }
    ensures back { IsTitleBack (least_stake seat.old.view.stakes) title result
        seat.old.view seat.new.view root.old.view root.new.view note.view }
    ensures aware { IsAware root.new.view }
{
    show_seen(region, root, seat);
    root.aware();
    note.aware();
    region.take(root, note);
    root.aware();
    root.placed(title);
    let number = number_seen(region, root, title);
    uncut_with(region, seat, root, title);
    root.aware();
    number
}

// Hands over the super pages of a direct map after its title was uncut, as raw bytes,
// with the lease of the entry of the pool that took them.
pub(crate) fn hand_map(region: &Region, seat: &mut Seat, title: Title) -> Note
    requires region { seat.old.region ≡ region.now }
    requires stands { title.start ≡ page_place (super_page_at title.start) 1 }
    requires inside { title.start + title.len ≤ 8 * most_words }
    requires able { CanHand (run_parcel (super_page_at title.start) (supers_for title.len) title.born) seat.old.view }
    ensures regions { (seat.new.region ≡ seat.old.region) × (result.region ≡ seat.old.region) }
    ensures left { seat.new.view ≡ left_after (run_parcel (super_page_at title.start) (supers_for title.len) title.born) seat.old.view }
    ensures given { result.view ≡ given_after (run_parcel (super_page_at title.start) (supers_for title.len) title.born) seat.old.view }
    ensures aware { IsAware seat.new.view }
{
    let run = Item::Raw {
        start: title.start - PARTITION_PAGE,
        len: SUPER_PAGE * supers_for(title.len),
    };
    let note = region.hand(seat, &[run], 0, &[Mark::Lease(title.born)]);
    seat.aware();
    note
}

impl<N: Name> Asking<'_, N> {
    // Gives super pages back to the pool, which its entry `taken` took for the partition, by the op of the line with the seat's
    // least stake. It shows the root's seat the new entry, and returns its index.
    pub(crate) fn give_run(
        &mut self,
        root: &mut Seat,
        pool: &mut Pool<N>,
        partition: u32,
        taken: u32,
        run: Note,
    ) -> u32
        requires regions { (root.old.region ≡ N.region) × (run.region ≡ N.region) }
        requires lender { CanLend self.old.seat.now.view }
        requires spare { 1 ≤ pool.old.spare }
        requires back { (first count : ℕ) × ComesBack partition taken first count self.old.seat.now.view run.view }
        ensures same_reference { self.new.seat.ghost_name ≡ self.old.seat.ghost_name }
        ensures region { root.new.region ≡ N.region }
        ensures again { CanLend self.new.seat.now.view }
        ensures gave { (first count : ℕ) → ComesBack partition taken first count self.old.seat.now.view run.view →
            IsGivenFor (least_stake self.old.seat.now.view.stakes) self.old.line partition first count result
            self.old.seat.now.view self.new.seat.now.view root.old.view root.new.view }
    {
        self.seat.aware();
        pool.kept();
        let Ok(index) = pool.give(self.region, self.seat, self.line, partition, taken, run) else {
            unreachable!()
        };
        self.seat.aware();
        show_seen(self.region, self.seat, root);
        index
    }
}
