ghost use Rattle.std.specs.Prelude.{◌≡◌, ◌≢◌, ◌↔◌, ℕ, ◌^◌, ◌<◌, ◌≤◌, List, Contains, length};
ghost use Rattle.pa_buckets.specs.declared.spans.State.TheVariants as state;
ghost use Rattle.pa_record.specs.Spans.{Span as RootSpan, put};
ghost use Rattle.pa_record.specs.Root.{in_state};
ghost use Rattle.pa_spans.specs.Lists.{Stand, StaysListed, lists_entered, oldest_of};
ghost use Rattle.pa_records.specs.Stored.{AreStored};
ghost use Rattle.pa_shelf.specs.Moving.{IsRecordFor};
ghost use Rattle.pa_shelf.specs.Shelves.{StartsAtZero};

use pa_buckets::State;
use pa_spans::{Span, SpanLists, SpanStore};

// Puts a span in the place of the one at this offset, in the same list, and moves it into the state. It answers the empty span of
// least turn exactly if 17 are empty then.
pub(crate) fn change_in<S: SpanStore>(
    lists: &mut SpanLists,
    store: &mut S,
    at: u32,
    span: Span,
    to: State,
) -> Option<u32>
    requires stand { Stand lists.old (S.spans store.old) (S.has store.old) }
    requires has { S.has store.old at }
    requires stays { StaysListed (S.spans store.old at) span }
    requires used { to ≢ state.None }
    requires few { length (lists_entered at to lists.old span).ring ≤ 17 }
    requires turn { lists.old.turn < 2 ^ 63 }
    ensures stored { (ss : List RootSpan) (s t : RootSpan) → AreStored (S.spans store.old) (S.has store.old) ss → Contains ss s →
        IsRecordFor at span s t → AreStored (S.spans store.new) (S.has store.new) (put (in_state to lists.old.turn t) ss) }
    ensures unused { (ss : List RootSpan) (s t : RootSpan) → AreStored (S.spans store.old) (S.has store.old) ss → Contains ss s →
        IsRecordFor at span s t → ((u : ℕ) → S.has store.old u → StartsAtZero (S.spans store.old u)) →
        (u : ℕ) → S.has store.new u → StartsAtZero (S.spans store.new u) }
    ensures lists { lists.new ≡ lists_entered at to lists.old span }
    ensures has { (u : ℕ) → S.has store.new u ↔ S.has store.old u }
    ensures stand { Stand lists.new (S.spans store.new) (S.has store.new) }
    ensures oldest { result ≡ oldest_of lists.new.ring }
    ensures follows { S.follows store.old store.new }
{
    lists.put(store, at, span);
    lists.enter(store, at, to)
}
