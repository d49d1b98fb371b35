//! Slots that are taken from a root's spans, cut if they are new, and handed over.
ghost use Rattle.std.specs.Prelude.{◌≡◌, ℕ, ◌+◌, ◌<◌, ◌≤◌, ◌^◌, Option};
ghost use Rattle.pa_buckets.specs.Bands.{fill_of};
ghost use Rattle.pa_record.specs.Root.{Root};
ghost use Rattle.pa_region.specs.Aware.{IsAware};
ghost use Rattle.pa_shelf.specs.Shelves.{ShowsRoot};
ghost use Rattle.pa_root.specs.Keeping.{RootState};
ghost use Rattle.pa_root.specs.Filling.{IsReadyFor, ready_root, fill_taken};
ghost use Rattle.pa_root.specs.Steps.{IsTakenOut};
ghost use Rattle.pa_root.specs.Taking.{CanTakeOne, IsOneTaken, CanTakeSlots, AreSlotsTaken};

use crate::cuts::cut_beside;
use crate::numbers::numbers_seen;
use crate::slots::free_items;
use arrayvec::ArrayVec;
use pa_buckets::Class;
use pa_record::Batch;
use pa_region::{Note, Region, Seat};
use pa_shelf::Shelf;
use pa_slot::Title;

// Takes a slot of the class, and cuts before it those of its span that are new. `None` if the pool has to be asked.
fn take_one(shelf: &mut Shelf, region: &Region, own: &mut Seat, class: Class) -> Option<Title>
    requires region { own.old.region ≡ region.now }
    requires turn { shelf.old.lists.turn < 2 ^ 63 }
    requires able { (r : Root) × CanTakeOne class own.old.view shelf.old r }
    ensures region { own.new.region ≡ own.old.region }
    ensures taken { (r : Root) → CanTakeOne class own.old.view shelf.old r →
        IsOneTaken class r own.old.view own.new.view shelf.new result }
{
    let _ = class.number();
    if let Some(at) = shelf.span_for(region, own, class) {
        own.aware();
        let new = shelf.to_cut(region, own, at);
        cut_beside(region, own, new.first, new.count);
        return shelf.take_at(region, own, at);
    }
    None
}

// Takes this many slots of the class, at most 16, or those that there are without asking the pool, and cuts those that are new.
pub(crate) fn take_slots(
    shelf: &mut Shelf,
    region: &Region,
    own: &mut Seat,
    class: Class,
    want: u32,
) -> ArrayVec<Title, 16>
    requires region { own.old.region ≡ region.now }
    requires few { want ≤ 16 }
    requires turn { shelf.old.lists.turn + 16 < 2 ^ 63 }
    requires able { (r : Root) × CanTakeSlots own.old.view shelf.old r }
    ensures region { own.new.region ≡ own.old.region }
    ensures turn { shelf.new.lists.turn ≤ shelf.old.lists.turn + want }
    ensures taken { (r : Root) → CanTakeSlots own.old.view shelf.old r →
        AreSlotsTaken class want r own.old.view own.new.view shelf.new result.items }
{
    let _ = class.number();
    let mut titles = ArrayVec::new();
    for done in 0..want {
        let _ = done;
        let Some(title) = take_one(shelf, region, own, class) else {
            return titles;
        };
        titles.push(title);
    }
    titles
}

// Takes slots of the class from a root that is ready for a fill, cuts those that are new, and hands all of them over in a note.
// It returns the titles too, and the slots with the numbers at which they go.
pub(crate) fn take_out(
    region: &Region,
    own: &mut Seat,
    shelf: &mut Shelf,
    class: Class,
    want: u32,
) -> (Note, ArrayVec<Title, 16>, Batch)
    requires region { own.old.region ≡ region.now }
    requires want { want ≡ fill_of class }
    requires turn { shelf.old.lists.turn < 2 ^ 62 }
    requires ready { (p : ℕ) × (asked : Option ℕ) × (s : RootState) × IsReadyFor p class asked s own.old.view
        × ShowsRoot own.old.view shelf.old (ready_root asked s own.old.view) }
    ensures regions { (own.new.region ≡ own.old.region) × (result.0.region ≡ own.old.region) }
    ensures aware { IsAware own.new.view }
    ensures turn { shelf.new.lists.turn ≤ shelf.old.lists.turn + 32 }
    ensures out { (p : ℕ) (asked : Option ℕ) (s : RootState) → IsReadyFor p class asked s own.old.view →
        ShowsRoot own.old.view shelf.old (ready_root asked s own.old.view) →
        IsTakenOut p class asked s own.old.view own.new.view result.0.view result.1.items result.2
        (fill_taken class asked s own.old.view).root }
    ensures shown { (p : ℕ) (asked : Option ℕ) (s : RootState) → IsReadyFor p class asked s own.old.view →
        ShowsRoot own.old.view shelf.old (ready_root asked s own.old.view) →
        ShowsRoot own.new.view shelf.new (fill_taken class asked s own.old.view).root }
{
    let titles = take_slots(shelf, region, own, class, want);
    own.aware();
    let slots = numbers_seen(region, own, titles.as_slice());
    let items = free_items(titles.as_slice());
    let note = region.hand(own, &items[..titles.len()], 0, &[]);
    own.aware();
    (note, titles, slots)
}
