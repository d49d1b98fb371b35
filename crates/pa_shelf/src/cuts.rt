//! Slots that are cut before one is taken.
ghost use Rattle.std.specs.Prelude.{◌≡◌};
ghost use Rattle.pa_slot.specs.declared.title.Title.{Title};
ghost use Rattle.pa_record.specs.Spans.{Span as RootSpan};
ghost use Rattle.pa_record.specs.Root.{Root};
ghost use Rattle.pa_region.specs.declared.view.View.{View};
ghost use Rattle.pa_records.specs.Words.{spans_in};
ghost use Rattle.pa_shelf.specs.Cutting.{cut_before};
ghost use Rattle.pa_shelf.specs.Shelves.{ShelfParts};
ghost use Rattle.pa_shelf.specs.Taking.{first_title, HasSlotAt, HasSlotOf};

use crate::shelf::Shelf;
use crate::takes::{born_in, has_list, with_more};
use pa_buckets::slot_size;
use pa_layout::super_page_of;
use pa_meta::read_meta;
use pa_region::{Region, Seat};
use pa_slot::Title;
use pa_spans::Span;

/// Slots of a span that lie side by side: this many, from this one on.
#[derive(Clone, Copy)]
pub struct NewSlots {
    pub first: Title,
    pub count: u32,
}

impl Shelf {
    /// The slots that have to be cut before a slot is taken from the span that starts at this offset, of which not all slots are
    /// out: if its list is empty, those that are provisioned then and were never made. Else there are none.
    pub fn to_cut(&self, region: &Region, own: &mut Seat, at: u32) -> NewSlots
        requires region { own.old.region ≡ region.now }
        requires able { (r : Root) × (s : RootSpan) × HasSlotAt own.old.view self.now at r s }
        ensures seat { own.new ≡ own.old }
        ensures cut { (r : Root) (s : RootSpan) → HasSlotAt own.old.view self.now at r s → result ≡ cut_before s }
    {
        let span = read_meta(region, own, at);
        let first = self.first_of(&span, at);
        new_slots(span, first)
    }

    // The first slot of the span that starts at this offset, and has this record.
    pub(crate) fn first_of(&self, span: &Span, at: u32) -> Title
        ensures { (v : View) (r : Root) (s : RootSpan) → HasSlotAt v self.now at r s → span.now ≡ spans_in v.words at →
            result ≡ first_title s }
    {
        Title {
            start: at,
            len: slot_size(span.class),
            born: born_in(&self.supers, super_page_of(at)),
        }
    }
}

// The slots that are cut before one is taken from the span that has this record and this first slot.
fn new_slots(span: Span, first: Title) -> NewSlots
    requires { (v : View) × (l : ShelfParts) × (r : Root) × (s : RootSpan) × HasSlotOf v l span first r s }
    ensures { (v : View) (l : ShelfParts) (r : Root) (s : RootSpan) → HasSlotOf v l span first r s → result ≡ cut_before s }
{
    let made = span.made;
    let start = first.start + first.len * made;
    let new = Title { start, ..first };
    if has_list(&span) {
        return NewSlots {
            first: new,
            count: 0,
        };
    }
    let more = with_more(span, first.start);
    NewSlots {
        first: new,
        count: more.made - made,
    }
}
