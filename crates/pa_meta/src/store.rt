ghost use Rattle.std.specs.Prelude.{◌≡◌, refl};
ghost use Rattle.std.proofs.Common.{◌∙◌};
ghost use Rattle.pa_records.specs.Words.{spans_in};
ghost use Rattle.pa_meta.specs.Stores.{HasSpanAt, Rerecorded, rerecorded_none, rerecorded_on};

use crate::meta::{read_meta, write_meta};
use pa_record::SuperPage;
use pa_region::{Region, Seat};
use pa_spans::{Span, SpanStore};

/// The records of the payload pages of super pages, as a store of spans: that of the page which starts at an offset. The
/// seat holds their bytes as raw. Other offsets have no span.
#[derive(Drop)]
pub struct MetaStore<'a> {
    region: &'a Region,
    seat: &'a mut Seat,
    supers: &'a [SuperPage],
}

impl<'a> MetaStore<'a> {
    /// The records of these super pages. What it has a span of, `has` of its `SpanStore` says.
    pub fn new(region: &'a Region, seat: &'a mut Seat, supers: &'a [SuperPage]) -> MetaStore<'a>
        ensures same_reference { result.seat.ghost_name ≡ seat.entry.ghost_name }
        ensures seat { result.seat.now ≡ seat.old }
        ensures region { result.region.now ≡ region.now }
        ensures supers { result.supers.now ≡ supers.now }
    {
        MetaStore {
            region,
            seat,
            supers,
        }
    }
}

impl<'a> SpanStore for MetaStore<'a> {
    ghost spans = { λ s u. spans_in s.seat.now.view.words u };

    ghost has = { λ s u. (s.seat.now.region ≡ s.region.now) × HasSpanAt s.seat.now.view s.supers.now u };

    ghost follows = { λ a b. (b.seat.ghost_name ≡ a.seat.ghost_name) × (b.region.now ≡ a.region.now) × (b.supers.now ≡ a.supers.now)
        × (b.seat.now.region ≡ a.seat.now.region) × Rerecorded a.supers.now a.seat.now.view b.seat.now.view };

    fn get(&mut self, at: u32) -> Span {
        read_meta(self.region, self.seat, at)
    }

    fn set(&mut self, at: u32, span: Span) {
        write_meta(self.region, self.seat, at, span);
    }

    ghost follows_same = { λ a. (refl, refl, refl, refl, rerecorded_none a.supers.now a.seat.now.view) };

    ghost follows_on = { λ a b c p q. (
      q.0 ∙ p.0,
      q.1 ∙ p.1,
      q.2 ∙ p.2,
      q.3 ∙ p.3,
      rerecorded_on a.supers.now b.supers.now a.seat.now.view b.seat.now.view c.seat.now.view p.2 p.4 q.4,
    ) };
}
