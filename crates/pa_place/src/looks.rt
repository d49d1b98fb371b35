ghost use Rattle.std.specs.Prelude.{◌≡◌, ◌<◌, ◌≤◌, ◌^◌, IfSome, IfNone, length, sum_by, count_by};
ghost use Rattle.pa_buckets.specs.declared.spans.State.TheVariants as state;
ghost use Rattle.pa_record.specs.Spans.{Span, is_in, name_of};
ghost use Rattle.pa_record.specs.Root.{IsOut, IsTitleOut};
ghost use Rattle.pa_record.specs.Census.{kept_of, census};
ghost use Rattle.pa_place.specs.Order.{IsOrdered};
ghost use Rattle.pa_place.specs.Out.{IsOutAs, IsNotOut};
ghost use Rattle.pa_place.specs.Scans.{bytes_kept};
ghost use Rattle.pa_place.specs.Store.{root_of, IsReady, IsStoreSound};

use crate::placed::Out;
use crate::plain_span::PlainSpan;
use crate::scans::index_holding;
use crate::store::{Store, place_named};
use pa_buckets::{State, slot_size};
use pa_layout::{SUPER_PAGE, SYSTEM_PAGE};
use pa_record::{Census, Tally, mapped_of};
use pa_slot::{SlotName, Title};

impl Store {
    // The slot or direct map of that name, if it is out.
    pub(crate) fn out(&self, name: SlotName) -> Option<Out>
        requires ready { IsReady (root_of self.now) }
        requires ordered { IsOrdered (root_of self.now) }
        ensures some { IfSome result (IsOutAs (root_of self.now) name) }
        ensures none { IfNone result (IsNotOut (root_of self.now) name) }
    {
        if let Some(slot) = self.slot_out(name) {
            return Some(Out::Slot(slot));
        }
        let at = place_named(&self.maps, name)?;
        Some(Out::Map(self.maps[at]))
    }

    // The slot of that name, if it is a slot of a span, and out.
    fn slot_out(&self, name: SlotName) -> Option<Title>
        requires ready { IsReady (root_of self.now) }
        requires ordered { IsOrdered (root_of self.now) }
        ensures some { IfSome result (λ t. IsOut (root_of self.now) name × IsTitleOut (root_of self.now) t × (name_of t ≡ name)) }
        ensures none { IfNone result (IsOut (root_of self.now) name → ⊥) }
    {
        let at = index_holding(&self.spans, &self.homes, name)?;
        self.spans[at].out(name)
    }

    // What the root has.
    pub(crate) fn census(&self) -> Census
        requires { IsStoreSound self.now }
        ensures { result ≡ census (root_of self.now) }
    {
        let sums = sums_of(&self.spans);
        let mapped = mapped_of(&self.maps);
        Census {
            root: sums.kept,
            committed: u64::from(SYSTEM_PAGE) * sums.pages + mapped.bytes,
            reserved: u64::from(SUPER_PAGE) * (self.supers.len() as u64 + mapped.supers),
            full: sums.full,
            active: sums.active,
            empty: sums.empty,
            decommitted: sums.decommitted,
        }
    }
}

// The slots of spans that were made and aren't out, their committed system pages, and how many are in each state.
#[derive(Clone, Copy)]
struct Sums {
    kept: Tally,
    pages: u64,
    full: u32,
    active: u32,
    empty: u32,
    decommitted: u32,
}

// What these spans have together, counted in one pass.
fn sums_of(spans: &[PlainSpan]) -> Sums
    requires few { length spans.now ≤ 2147483647 }
    requires bytes { sum_by bytes_kept spans.now < 2 ^ 64 }
    ensures slots { result.kept.slots ≡ sum_by kept_of spans.now }
    ensures bytes { result.kept.bytes ≡ sum_by bytes_kept spans.now }
    ensures pages { result.pages ≡ sum_by (λ (s : Span). s.committed) spans.now }
    ensures full { result.full ≡ count_by (is_in state.Full) spans.now }
    ensures active { result.active ≡ count_by (is_in state.Active) spans.now }
    ensures empty { result.empty ≡ count_by (is_in state.Empty) spans.now }
    ensures decommitted { result.decommitted ≡ count_by (is_in state.Decommitted) spans.now }
{
    let mut slots = 0;
    let mut bytes = 0;
    let mut pages = 0;
    let mut full = 0;
    let mut active = 0;
    let mut empty = 0;
    let mut decommitted = 0;
    for span in spans {
        let kept = u64::from(span.kept());
        slots += kept;
        bytes += u64::from(slot_size(span.class())) * kept;
        pages += u64::from(span.committed());
        full += u32::from(span.is_in(State::Full));
        active += u32::from(span.is_in(State::Active));
        empty += u32::from(span.is_in(State::Empty));
        decommitted += u32::from(span.is_in(State::Decommitted));
    }
    Sums {
        kept: Tally { slots, bytes },
        pages,
        full,
        active,
        empty,
        decommitted,
    }
}
