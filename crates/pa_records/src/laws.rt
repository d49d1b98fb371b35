//! What words say of a root, as laws: calls that do nothing, and whose clauses are proved.
ghost use Rattle.std.specs.Prelude.{◌≡◌, ◌↔◌, ℕ, List, Contains};
ghost use Rattle.pa_slot.specs.Links.{AreLinked};
ghost use Rattle.pa_buckets.specs.declared.spans.State.{State};
ghost use Rattle.pa_record.specs.Spans.{Span, put};
ghost use Rattle.pa_record.specs.Root.{Root, in_state, new_root, root_replayed};
ghost use Rattle.pa_record.specs.Worked.{short_fill_pool, short_fill_journal, full_region_pool, full_region_journal, cache_overflow_pool, cache_overflow_journal, empty_ring_pool, empty_ring_journal, purge_pool, purge_journal};
ghost use Rattle.pa_spans.specs.Lists.{Stand, spans_entered};
ghost use Rattle.pa_records.specs.Records.{span_record, names_free, HasSpans, SpansStay};
ghost use Rattle.pa_records.specs.Rows.{record_rows, short_fill_rows, full_region_rows, cache_overflow_rows, empty_ring_rows, purge_rows};
ghost use Rattle.pa_records.specs.Stored.{AreReadable, AreStored, IsStoredFor};
ghost use Rattle.pa_records.specs.Words.{spans_in};

use pa_spans::{SpanLists, SpanStore};

/// The records of roots that were worked out elsewhere are those that the definition gives.
pub fn worked_records()
    ensures short_fill { record_rows (root_replayed short_fill_pool short_fill_journal new_root) ≡ short_fill_rows }
    ensures full_region { record_rows (root_replayed full_region_pool full_region_journal new_root) ≡ full_region_rows }
    ensures cache_overflow { record_rows (root_replayed cache_overflow_pool cache_overflow_journal new_root) ≡ cache_overflow_rows }
    ensures empty_ring { record_rows (root_replayed empty_ring_pool empty_ring_journal new_root) ≡ empty_ring_rows }
    ensures purge { record_rows (root_replayed purge_pool purge_journal new_root) ≡ purge_rows }
{}

/// The law that words which are the same in the records of a root's spans, and in the first words of their free slots, have
/// the root too.
pub fn spans_stay()
    ensures { SpansStay }
{}

/// The law that the neighbours which records name are those by turn: if lists are those of a store's spans, and it has a
/// root's spans but for neighbours, each record is that of its span.
pub fn stored_is_recorded<S: SpanStore>(store: &S, lists: &SpanLists)
    requires { Stand lists.now (S.spans store.now) (S.has store.now) }
    ensures { (ss : List Span) → AreStored (S.spans store.now) (S.has store.now) ss → (s : Span) → Contains ss s →
        S.spans store.now s.place ≡ span_record ss s }
{
    let _ = store;
    let _ = lists;
}

/// The law that words have a root if the store's spans are those of the words, it has the root's spans, lists are those of
/// them, and their free slots are chained.
pub fn stored_is_in_words<S: SpanStore>(store: &S, lists: &SpanLists)
    ensures { (words : List ℕ) (r : Root) → AreReadable words (S.has store.now) → Stand lists.now (spans_in words) (S.has store.now) →
        AreStored (spans_in words) (S.has store.now) r.spans →
        ((s : Span) → Contains r.spans s → AreLinked words (names_free s)) → HasSpans words r }
{
    let _ = store;
    let _ = lists;
}

/// The law that if one record alone became that of another span in its place, but for neighbours, the store has the spans
/// with that one.
pub fn changed_is_stored<S: SpanStore>(before: &S, after: &S)
    requires { (u : ℕ) → S.has after.now u ↔ S.has before.now u }
    ensures { (ss : List Span) (s t : Span) → AreStored (S.spans before.now) (S.has before.now) ss → Contains ss s →
        IsStoredFor (S.spans before.now) (S.spans after.now) s t → AreStored (S.spans after.now) (S.has after.now) (put t ss) }
{
    let _ = before;
    let _ = after;
}

/// The law that after a span entered a state the store has the spans of the root in which this span has that state and turn.
pub fn entered_is_stored<S: SpanStore>(before: &S, after: &S, lists: &SpanLists)
    requires { (u : ℕ) → S.has after.now u ↔ S.has before.now u }
    ensures { (ss : List Span) (s : Span) (to : State) → AreStored (S.spans before.now) (S.has before.now) ss → Contains ss s →
        ((u : ℕ) → S.spans after.now u ≡ spans_entered s.place to lists.now (S.spans before.now) u) →
        AreStored (S.spans after.now) (S.has after.now) (put (in_state to lists.now.turn s) ss) }
{
    let _ = before;
    let _ = after;
    let _ = lists;
}
