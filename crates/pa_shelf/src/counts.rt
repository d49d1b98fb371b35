//! What a root has, by its records.
ghost use Rattle.std.specs.Prelude.{◌≡◌, ℕ, ◌+◌, ◌<◌, ◌≤◌, length, All, Contains};
ghost use Rattle.pa_layout.specs.Limits.{region_supers};
ghost use Rattle.pa_record.specs.declared.taken.SuperPage.{SuperPage as Super};
ghost use Rattle.pa_record.specs.Root.{Root};
ghost use Rattle.pa_record.specs.Sound.{IsSound};
ghost use Rattle.pa_record.specs.Laws.{IsUsed};
ghost use Rattle.pa_record.specs.Census.{census};
ghost use Rattle.pa_shelf.specs.Counting.{IsSmall, HasPagesOf, one_if, sum_of_pages, sum_of_supers, no_sums, AreAdded, AreSumsOf};
ghost use Rattle.pa_shelf.specs.Shelves.{ShowsRoot};

use crate::adds::END;
use crate::finds::starts_none;
use crate::shelf::Shelf;
use pa_buckets::{State, slot_size, span_of};
use pa_layout::{SUPER_PAGE, SYSTEM_PAGE, page_start};
use pa_meta::read_meta;
use pa_record::{Census, SuperPage, Tally, mapped_of};
use pa_region::{Region, Seat};
use pa_spans::Span;

// How many slots of spans were made and aren't out, and their bytes, the committed system pages,
// and how many spans are in each state.
#[derive(Clone, Copy)]
pub(crate) struct Sums {
    slots: u64,
    bytes: u64,
    pages: u64,
    full: u32,
    active: u32,
    empty: u32,
    decommitted: u32,
}

impl Shelf {
    /// What the root has: its free slots, its bytes, and its spans by their states. It goes over the spans' records once,
    /// from each to the page after its span.
    pub fn census(&self, region: &Region, own: &mut Seat) -> Census
        requires region { own.old.region ≡ region.now }
        requires shown { (r : Root) × IsSound r × IsUsed r × ShowsRoot own.old.view self.now r }
        ensures seat { own.new ≡ own.old }
        ensures census { (r : Root) → IsSound r → IsUsed r → ShowsRoot own.old.view self.now r → result ≡ census r }
    {
        let sums = sums_of(region, own, &self.supers);
        let mapped = mapped_of(&self.maps);
        Census {
            root: Tally {
                slots: sums.slots,
                bytes: sums.bytes,
            },
            committed: u64::from(SYSTEM_PAGE) * sums.pages + mapped.bytes,
            reserved: u64::from(SUPER_PAGE) * (self.supers.len() as u64 + mapped.supers),
            full: sums.full,
            active: sums.active,
            empty: sums.empty,
            decommitted: sums.decommitted,
        }
    }
}

// No span was counted yet.
fn none_counted() -> Sums
    ensures { result ≡ no_sums }
{
    Sums {
        slots: 0,
        bytes: 0,
        pages: 0,
        full: 0,
        active: 0,
        empty: 0,
        decommitted: 0,
    }
}

// The spans of these super pages are counted, page by page.
fn sums_of(region: &Region, own: &mut Seat, supers: &[SuperPage]) -> Sums
    requires region { own.old.region ≡ region.now }
    requires few { length supers.now ≤ region_supers }
    requires numbers { All (λ (at : Super). at.number < region_supers) supers.now }
    requires pages { (at : Super) → Contains supers.now at → HasPagesOf own.old.view at.number }
    ensures seat { own.new ≡ own.old }
    ensures added { AreAdded (λ f. sum_of_supers f own.old.view.words supers.now) no_sums result }
    ensures below { AreSumsOf 8064 result }
{
    let mut sums = none_counted();
    for at in supers {
        sums = with_super_page(region, own, at.number, sums);
    }
    sums
}

// With the spans of a super page. After a span's record that of the page after it is next.
fn with_super_page(region: &Region, own: &mut Seat, number: u32, sums: Sums) -> Sums
    requires region { own.old.region ≡ region.now }
    requires number { number < region_supers }
    requires pages { HasPagesOf own.old.view number }
    requires below { (n : ℕ) × (n ≤ 7938) × AreSumsOf n sums }
    ensures seat { own.new ≡ own.old }
    ensures added { AreAdded (λ f. sum_of_pages f own.old.view.words number 126) sums result }
    ensures below { (n : ℕ) → AreSumsOf n sums → AreSumsOf (n + 126) result }
{
    let mut sums = sums;
    let mut page = 1;
    while page < END {
        let place = page_start(number, page);
        if starts_none(region, own, place) {
            page += 1;
        } else {
            let span = read_meta(region, own, place);
            sums = with_span(sums, &span);
            page += span_of(span.class).pages;
        }
    }
    sums
}

// With one span.
fn with_span(sums: Sums, span: &Span) -> Sums
    requires small { IsSmall span.now }
    requires below { (n : ℕ) × (n ≤ 8064) × AreSumsOf n sums }
    ensures added { AreAdded (λ f. f span.now) sums result }
    ensures below { (n : ℕ) → AreSumsOf n sums → AreSumsOf (n + 1) result }
{
    let kept = u64::from(span.made - u32::from(span.allocated));
    Sums {
        slots: sums.slots + kept,
        bytes: sums.bytes + u64::from(slot_size(span.class)) * kept,
        pages: sums.pages + u64::from(span.committed),
        full: sums.full + count_of(span, State::Full),
        active: sums.active + count_of(span, State::Active),
        empty: sums.empty + count_of(span, State::Empty),
        decommitted: sums.decommitted + count_of(span, State::Decommitted),
    }
}

// 1 if the span is in the state.
fn count_of(span: &Span, is: State) -> u32
    ensures { result ≡ one_if is span.now }
{
    u32::from(span.state == is)
}
