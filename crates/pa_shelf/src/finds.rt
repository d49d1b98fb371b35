//! Where spans start.
ghost use Rattle.std.specs.Prelude.{◌≡◌, ℕ};
ghost use Rattle.pa_slot.specs.declared.title.Title.{Title};
ghost use Rattle.pa_buckets.specs.declared.spans.State.TheVariants as state;
ghost use Rattle.pa_record.specs.Spans.{Span as RootSpan, same_state, listed};
ghost use Rattle.pa_record.specs.Root.{Root};
ghost use Rattle.pa_record.specs.Sound.{IsSound};
ghost use Rattle.pa_region.specs.declared.view.View.{View};
ghost use Rattle.pa_spans.specs.declared.span.Span.{Span};
ghost use Rattle.pa_records.specs.Words.{record_word, IsRecordAt};
ghost use Rattle.pa_meta.specs.Meta.{HasRawRecord};
ghost use Rattle.pa_shelf.specs.Shelves.{RecordsRoot, IsBackAt};
ghost use Rattle.pa_shelf.specs.Taking.{start_of, first_some};

use crate::shelf::Shelf;
use pa_buckets::{Class, State};
use pa_layout::PARTITION_PAGE;
use pa_meta::read_state;
use pa_region::{Region, Seat};
use pa_slot::Title;

impl Shelf {
    /// Where the span starts in which the slot lies, which is out of the root. From the page on which the slot starts it goes back, at
    /// most three pages, to the first one at which a span starts.
    pub fn span_at(&self, region: &Region, own: &mut Seat, title: Title) -> u32
        requires region { own.old.region ≡ region.now }
        requires back { (r : Root) × (s : RootSpan) × (n : ℕ) × IsBackAt own.old.view self.now s.place title r s n }
        ensures seat { own.new ≡ own.old }
        ensures start { (r : Root) (s : RootSpan) (n : ℕ) → IsBackAt own.old.view self.now s.place title r s n → result ≡ s.place }
    {
        let mut at = title.start / PARTITION_PAGE * PARTITION_PAGE;
        for back in 0..3u32 {
            let _ = back;
            if !starts_none(region, own, at) {
                return at;
            }
            at -= PARTITION_PAGE;
        }
        at
    }

    /// Where the span starts from which a slot of the class is taken: of its active spans the one that became so last, else of the
    /// empty ones, else of the decommitted ones. `None` exactly if there is none of these.
    pub fn listed(&self, class: Class) -> Option<u32>
        ensures { (v : View) (r : Root) → IsSound r → RecordsRoot v self.now r → result ≡ start_of (listed class r.spans) }
    {
        let _ = class.number();
        let active = self.lists.top(class, State::Active);
        let empty = self.lists.top(class, State::Empty);
        let decommitted = self.lists.top(class, State::Decommitted);
        first_some(active, first_some(empty, decommitted))
    }
}

// The first of two, or the second if there is no first one.
fn first_some(first: Option<u32>, second: Option<u32>) -> Option<u32>
    ensures { result ≡ first_some first second }
{
    match first {
        Some(at) => Some(at),
        None => second,
    }
}

// Whether no span starts at the page at this offset.
pub(crate) fn starts_none(region: &Region, own: &mut Seat, at: u32) -> bool
    requires region { own.old.region ≡ region.now }
    requires raw { HasRawRecord own.old.view at }
    requires record { (x : Span) × IsRecordAt own.old.view.words (record_word at) x }
    ensures seat { own.new ≡ own.old }
    ensures none { (x : Span) → IsRecordAt own.old.view.words (record_word at) x → result ≡ same_state x.state state.None }
{
    read_state(region, own, at) == State::None
}
