ghost use Rattle.std.specs.Prelude.{◌≡◌, ◌<◌, ◌≤◌, Some, IfSome, AllPairs, length, slice_get, find};
ghost use Rattle.pa_record.specs.Spans.{Span, holds, is_of, latest, listed, later};
ghost use Rattle.pa_place.specs.Order.{IsBefore, IsCut};
ghost use Rattle.pa_place.specs.Scans.{span_at};

use crate::homes::Homes;
use crate::plain_span::PlainSpan;
use pa_buckets::{Class, State};
use pa_slot::SlotName;

// The index of the span that contains the slot of that name. The spans are in order. They are searched only if the span
// isn't the one that was last made over the slot's page.
#[inline]
pub(crate) fn index_holding(spans: &[PlainSpan], homes: &Homes, name: SlotName) -> Option<usize>
    requires order { AllPairs IsBefore spans.now }
    ensures holding { span_at spans.now result ≡ find (holds name) spans.now }
    ensures within { IfSome result (λ at. at < length spans.now) }
{
    let home = homes.guess(name.start);
    if home < spans.len() && spans[home].holds(name) {
        Some(home)
    } else {
        search(spans, name)
    }
}

// The index of the span that contains the slot of that name, by a binary search.
fn search(spans: &[PlainSpan], name: SlotName) -> Option<usize>
    requires order { AllPairs IsBefore spans.now }
    ensures holding { span_at spans.now result ≡ find (holds name) spans.now }
    ensures within { IfSome result (λ at. at < length spans.now) }
{
    let count = count_up_to(spans, name);
    if count > 0 && spans[count - 1].holds(name) {
        Some(count - 1)
    } else {
        None
    }
}

// How many spans don't start after the slot of that name. The spans are in order.
fn count_up_to(spans: &[PlainSpan], name: SlotName) -> usize
    requires order { AllPairs IsBefore spans.now }
    ensures within { result ≤ length spans.now }
    ensures cut { IsCut name spans.now result }
{
    let mut low = 0;
    let mut high = spans.len();
    'search: while low < high {
        let middle = low + (high - low) / 2;
        if spans[middle].starts_after(name) {
            high = middle;
        } else {
            low = middle + 1;
        }
    }
    low
}
