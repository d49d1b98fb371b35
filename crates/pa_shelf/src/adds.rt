//! Spans that start on the next free page.
ghost use Rattle.std.specs.Prelude.{◌≡◌, ◌↔◌, ℕ, ◌+◌, ◌-◌, ◌≤◌, List, ◌++◌, [], ◌∷◌, length, Contains, Some, slice_get, is_some};
ghost use Rattle.pa_layout.specs.Pages.{page_place};
ghost use Rattle.pa_buckets.specs.declared.spans.State.TheVariants as state;
ghost use Rattle.pa_buckets.specs.Table.{pages_of};
ghost use Rattle.pa_record.specs.declared.taken.SuperPage.{SuperPage};
ghost use Rattle.pa_record.specs.Spans.{Span as RootSpan};
ghost use Rattle.pa_record.specs.Root.{Root, current, at_page, span_for, new_span, with_span};
ghost use Rattle.pa_record.specs.Sound.{IsSound};
ghost use Rattle.pa_region.specs.declared.view.View.{View};
ghost use Rattle.pa_spans.specs.Lists.{Stand, IsOutside};
ghost use Rattle.pa_records.specs.Words.{spans_in};
ghost use Rattle.pa_records.specs.Stored.{AreStored};
ghost use Rattle.pa_meta.specs.Stores.{HasSpanAt, Rerecorded};
ghost use Rattle.pa_shelf.specs.Adding.{found_start, found_root, room_in, record_of_class, IsAddedAs};
ghost use Rattle.pa_shelf.specs.Moving.{Rewritten};
ghost use Rattle.pa_shelf.specs.Shelves.{StartsAtZero, RecordsRoot, ShowsRoot};

use crate::shelf::Shelf;
use pa_buckets::{Class, State, span_of};
use pa_layout::page_start;
use pa_meta::MetaStore;
use pa_record::SuperPage;
use pa_region::{Region, Seat};
use pa_spans::{Span, SpanLists, SpanStore};

// The most pages at which spans end: the last page of a super page is a guard.
pub(crate) const END: u32 = 127;

impl Shelf {
    /// Where the span starts from which a slot of the class is taken: the one that is listed, and else a new one, if the current super
    /// page has room for it. `None` exactly if the pool has to be asked. It allocates nothing.
    pub fn span_for(&mut self, region: &Region, own: &mut Seat, class: Class) -> Option<u32>
        requires region { own.old.region ≡ region.now }
        requires able { (r : Root) × IsSound r × ShowsRoot own.old.view self.old r }
        ensures region { own.new.region ≡ own.old.region }
        ensures start { (r : Root) → IsSound r → ShowsRoot own.old.view self.old r → result ≡ found_start (span_for class r) }
        ensures shown { (r : Root) → IsSound r → ShowsRoot own.old.view self.old r →
            ShowsRoot own.new.view self.new (found_root (span_for class r) r) }
        ensures rest { Rewritten own.old.view own.new.view }
    {
        if let Some(at) = self.listed(class) {
            return Some(at);
        }
        self.add_span(region, own, class)
    }

    /// Starts a span of the class on the next free page of the current super page: none of its slots is provisioned. It returns
    /// the offset at which the span starts, `None` exactly if there is no room for it. It allocates nothing.
    pub fn add_span(&mut self, region: &Region, own: &mut Seat, class: Class) -> Option<u32>
        requires region { own.old.region ≡ region.now }
        requires able { (r : Root) × IsSound r × ShowsRoot own.old.view self.old r }
        ensures region { own.new.region ≡ own.old.region }
        ensures start { (r : Root) → IsSound r → ShowsRoot own.old.view self.old r → result ≡ found_start (at_page class r (current r)) }
        ensures shown { (r : Root) → IsSound r → ShowsRoot own.old.view self.old r →
            ShowsRoot own.new.view self.new (found_root (at_page class r (current r)) r) }
        ensures rest { Rewritten own.old.view own.new.view }
    {
        if let Some(at) = self.room_for(class) {
            return Some(self.start_span(region, own, class, at));
        }
        None
    }

    /// Whether a slot of the class can be taken without asking the pool: a span is listed, or the current super page has room for a new
    /// one. It changes nothing, reads no word, and allocates nothing.
    pub fn has_room_for(&self, class: Class) -> bool
        requires able { (v : View) × (r : Root) × IsSound r × RecordsRoot v self.now r }
        ensures { (v : View) (r : Root) → IsSound r → RecordsRoot v self.now r → result ≡ is_some (span_for class r) }
    {
        self.listed(class).is_some() || self.room_for(class).is_some()
    }

    // The current super page, if it has room for a span of the class.
    fn room_for(&self, class: Class) -> Option<SuperPage>
        requires { (a : SuperPage) → slice_get self.now.supers (length self.now.supers - 1) ≡ Some a → self.now.page ≤ 127 }
        ensures { result ≡ room_in class self.now.page (slice_get self.now.supers (length self.now.supers - 1)) }
    {
        let at = *self.supers.last()?;
        if self.page + span_of(class).pages <= END {
            Some(at)
        } else {
            None
        }
    }

    // Starts a span of the class on the next free page of the current super page, which has room for it.
    fn start_span(&mut self, region: &Region, own: &mut Seat, class: Class, at: SuperPage) -> u32
        requires region { own.old.region ≡ region.now }
        requires able { (r : Root) × IsSound r × ShowsRoot own.old.view self.old r × (current r ≡ Some at) ×
            (r.page + pages_of class ≤ 127) }
        ensures region { own.new.region ≡ own.old.region }
        ensures start { result ≡ page_place at.number self.old.page }
        ensures shown { (r : Root) → IsSound r → ShowsRoot own.old.view self.old r → current r ≡ Some at → r.page + pages_of class ≤ 127 →
            ShowsRoot own.new.view self.new (with_span (new_span class at r.page) r) }
        ensures rest { Rewritten own.old.view own.new.view }
    {
        own.aware();
        let pages = span_of(class).pages;
        let start = page_start(at.number, self.page);
        self.record_new(region, own, class, start);
        self.page += pages;
        start
    }

    // Puts the record of a span of the class, which isn't in use, at a page whose record isn't in use.
    fn record_new(&self, region: &Region, own: &mut Seat, class: Class, at: u32)
        requires region { own.old.region ≡ region.now }
        requires stand { Stand self.now.lists (spans_in own.old.view.words) (HasSpanAt own.old.view self.now.supers) }
        requires has { HasSpanAt own.old.view self.now.supers at }
        requires outside { IsOutside (spans_in own.old.view.words at) }
        requires zero { StartsAtZero (spans_in own.old.view.words at) }
        ensures region { own.new.region ≡ own.old.region }
        ensures view { Rerecorded self.now.supers own.old.view own.new.view }
        ensures kept { (r : Root) (t : RootSpan) → RecordsRoot own.old.view self.now r → IsAddedAs at class r.spans t →
            RecordsRoot own.new.view self.now (record r { spans = r.spans ++ t ∷ [] }) }
    {
        let mut store = MetaStore::new(region, own, &self.supers);
        record_in(&self.lists, &mut store, class, at);
    }
}

// Puts the record of a span of the class, which isn't in use, at a page whose record isn't in use. The lists are right as before.
fn record_in<S: SpanStore>(lists: &SpanLists, store: &mut S, class: Class, at: u32)
    requires stand { Stand lists.now (S.spans store.old) (S.has store.old) }
    requires has { S.has store.old at }
    requires outside { IsOutside (S.spans store.old at) }
    requires zero { StartsAtZero (S.spans store.old at) }
    ensures stored { (ss : List RootSpan) (t : RootSpan) → AreStored (S.spans store.old) (S.has store.old) ss →
        IsAddedAs at class ss t → AreStored (S.spans store.new) (S.has store.new) (ss ++ t ∷ []) }
    ensures unused { ((u : ℕ) → S.has store.old u → StartsAtZero (S.spans store.old u)) → (u : ℕ) → S.has store.new u →
        StartsAtZero (S.spans store.new u) }
    ensures has { (u : ℕ) → S.has store.new u ↔ S.has store.old u }
    ensures stand { Stand lists.now (S.spans store.new) (S.has store.new) }
    ensures follows { S.follows store.old store.new }
{
    lists.put(store, at, new_record(class));
}

// The record of a span of the class that isn't in use.
fn new_record(class: Class) -> Span
    ensures { result ≡ record_of_class class }
{
    Span {
        class,
        state: State::None,
        allocated: 0,
        provisioned: 0,
        committed: 0,
        made: 0,
        head: 0,
        previous: 0,
        next: 0,
        turn: 0,
    }
}
