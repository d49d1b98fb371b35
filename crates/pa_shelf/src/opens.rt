//! Super pages that join.
ghost use Rattle.std.specs.Prelude.{◌≡◌, ◌<◌, ◌≤◌, [], ◌∷◌, length};
ghost use Rattle.pa_layout.specs.Limits.{region_supers};
ghost use Rattle.pa_record.specs.Root.{Root, opened};
ghost use Rattle.pa_record.specs.Sound.{IsSound};
ghost use Rattle.pa_records.specs.Words.{unused_span};
ghost use Rattle.pa_meta.specs.Stores.{Rerecorded};
ghost use Rattle.pa_shelf.specs.Shelves.{ShowsRoot};
ghost use Rattle.pa_shelf.specs.Opening.{HasRawRecords, AreBlankBelow, IsNewNumber};

use crate::adds::END;
use crate::shelf::Shelf;
use pa_buckets::{Class, State};
use pa_layout::page_start;
use pa_meta::write_meta;
use pa_record::SuperPage;
use pa_region::{Region, Seat};
use pa_spans::Span;

impl Shelf {
    /// A super page that the pool gave joins, and is the current one: each of its payload pages gets the record of no span. The pages that
    /// are left in the old one stay unused. It allocates nothing.
    pub fn open(&mut self, region: &Region, own: &mut Seat, number: u32, born: u32)
        requires region { own.old.region ≡ region.now }
        requires number { number < region_supers }
        requires raw { HasRawRecords own.old.view number }
        requires new { IsNewNumber number self.old.supers }
        requires few { length self.old.supers < region_supers }
        ensures region { own.new.region ≡ own.old.region }
        ensures view { Rerecorded (record { number = number; born = born } ∷ []) own.old.view own.new.view }
        ensures shown { (r : Root) → IsSound r → ShowsRoot own.old.view self.old r →
            ShowsRoot own.new.view self.new (opened number born r) }
    {
        own.aware();
        let at = SuperPage { number, born };
        clear(region, own, at);
        self.supers.push_reserved(at);
        self.page = 1;
    }
}

// Writes the record of no span for each payload page of the super page.
fn clear(region: &Region, own: &mut Seat, at: SuperPage)
    requires region { own.old.region ≡ region.now }
    requires number { at.number < region_supers }
    requires raw { HasRawRecords own.old.view at.number }
    ensures region { own.new.region ≡ own.old.region }
    ensures view { Rerecorded (at ∷ []) own.old.view own.new.view }
    ensures blank { AreBlankBelow own.new.view.words at.number 127 }
{
    for page in 1..END {
        write_meta(region, own, page_start(at.number, page), unused());
    }
}

// The record of no span.
fn unused() -> Span
    ensures { result ≡ unused_span }
{
    Span {
        class: Class::of(0).unwrap(),
        state: State::None,
        allocated: 0,
        provisioned: 0,
        committed: 0,
        made: 0,
        head: 0,
        previous: 0,
        next: 0,
        turn: 0,
    }
}
