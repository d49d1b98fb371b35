ghost use Rattle.std.specs.Prelude.{◌≡◌, ◌≢◌, ◌+◌, ◌^◌, ◌<◌, ◌≤◌, All, Contains, IfOk, length};
ghost use Rattle.pa_buckets.specs.declared.spans.State.TheVariants as state;
ghost use Rattle.pa_layout.specs.Limits.{region_supers};
ghost use Rattle.pa_record.specs.declared.taken.SuperPage.{SuperPage as Super};
ghost use Rattle.pa_record.specs.Spans.{Span as RootSpan};
ghost use Rattle.pa_record.specs.Root.{Root, entered, oldest_decommitted, purged};
ghost use Rattle.pa_record.specs.Sound.{IsSound};
ghost use Rattle.pa_spans.specs.Lists.{Stand, StaysListed, lists_entered, oldest_of};
ghost use Rattle.pa_records.specs.Words.{spans_in};
ghost use Rattle.pa_meta.specs.Stores.{HasSpanAt, Rerecorded};
ghost use Rattle.pa_shelf.specs.Moving.{IsRecordFor, without_pages_of, Rewritten};
ghost use Rattle.pa_shelf.specs.Shelves.{no_shelf, RecordsRoot, ShowsRoot};

use crate::changes::change_in;
use pa_buckets::State;
use pa_meta::{MetaStore, read_meta};
use pa_record::SuperPage;
use pa_region::{Region, Seat};
use pa_slot::{OutOfMemory, Title};
use pa_spans::{Span, SpanLists};
use std::alloc::Global;
use std::marker::Model;

// The most super pages of a region, and so the most direct maps.
const SUPERS: usize = 64;

/// The super pages of a root, its direct maps and the heads of its lists of spans. The spans' records are in the metadata
/// pages, and their free slots in chains: the root's seat has both. Contracts see it as the record `ShelfParts`.
/// Which root it shows, `ShowsRoot` says.
#[derive(Drop)]
pub struct Shelf {
    pub(crate) supers: Vec<SuperPage>,
    pub(crate) maps: Vec<Title>,
    pub(crate) page: u32,
    pub(crate) lists: SpanLists,
}

impl Model for Shelf {
    ghost use Rattle.std.specs.Prelude.{◌≡◌, ◌<◌, ◌≤◌, All, length};
    ghost use Rattle.std.specs.Vec.{vec_capacity};
    ghost use Rattle.pa_layout.specs.Limits.{region_supers};
    ghost use Rattle.pa_record.specs.declared.taken.SuperPage.{SuperPage};
    ghost use Rattle.pa_shelf.specs.Shelves.{ShelfParts};

    ghost Value = { ShelfParts };

    ghost view = { λ s. record { supers = s.supers.items; maps = s.maps.items; page = s.page; lists = s.lists } };

    ghost invariant = { λ s. (vec_capacity s.supers ≡ region_supers) × (length s.supers.items ≤ region_supers)
        × All (λ (a : SuperPage). a.number < region_supers) s.supers.items
        × (vec_capacity s.maps ≡ region_supers) × (length s.maps.items ≤ region_supers) };
}

impl Shelf {
    /// A shelf without super pages, with memory for as many as a region has, and for as many direct maps.
    pub fn new(alloc: Global) -> Result<Shelf, OutOfMemory>
        ensures { IfOk result (λ l. l ≡ no_shelf) }
    {
        let supers = Vec::with_capacity(alloc, SUPERS)?;
        let maps = Vec::with_capacity(alloc, SUPERS)?;
        Ok(Shelf {
            supers,
            maps,
            page: 0,
            lists: SpanLists::new(),
        })
    }

    /// Each of its super pages lies in a region. It costs nothing: it hands on what the type keeps.
    pub fn placed(&self)
        ensures { All (λ (a : Super). a.number < region_supers) self.now.supers }
    {
        let _ = &self.supers;
    }

    /// Decommits the empty span of least turn: its free list is emptied, and its pages go back to the system. Nothing changes if
    /// no span is empty. It allocates nothing.
    pub fn decommit_oldest(&mut self, region: &Region, own: &mut Seat)
        requires region { own.old.region ≡ region.now }
        requires shown { (r : Root) × ShowsRoot own.old.view self.old r }
        requires turn { self.old.lists.turn < 2 ^ 63 }
        ensures region { own.new.region ≡ own.old.region }
        ensures view { Rerecorded self.old.supers own.old.view own.new.view }
        ensures shown { (r : Root) → IsSound r → ShowsRoot own.old.view self.old r →
            ShowsRoot own.new.view self.new (oldest_decommitted r) }
    {
        own.aware();
        if let Some(at) = self.lists.first_empty() {
            let span = read_meta(region, own, at);
            let _ = self.change(region, own, at, without_pages(span), State::Decommitted);
        }
    }

    /// Decommits every empty span, the one with the least turn first. It allocates nothing.
    pub fn purge(&mut self, region: &Region, own: &mut Seat)
        requires region { own.old.region ≡ region.now }
        requires shown { (r : Root) × IsSound r × ShowsRoot own.old.view self.old r }
        requires few { length self.old.lists.ring ≤ 16 }
        requires turn { self.old.lists.turn + 16 < 2 ^ 63 }
        ensures region { own.new.region ≡ own.old.region }
        ensures shown { (r : Root) → IsSound r → ShowsRoot own.old.view self.old r → ShowsRoot own.new.view self.new (purged r) }
        ensures rest { Rewritten own.old.view own.new.view }
    {
        let count = self.lists.empties();
        for done in 0..count {
            let _ = done;
            self.decommit_oldest(region, own);
        }
    }

    // Puts a span in the place of the one at this offset, in the same list, and moves it into the state. It answers the empty span of
    // least turn exactly if 17 are empty then.
    pub(crate) fn change(
        &mut self,
        region: &Region,
        own: &mut Seat,
        at: u32,
        span: Span,
        to: State,
    ) -> Option<u32>
        requires region { own.old.region ≡ region.now }
        requires stand { Stand self.old.lists (spans_in own.old.view.words) (HasSpanAt own.old.view self.old.supers) }
        requires has { HasSpanAt own.old.view self.old.supers at }
        requires stays { StaysListed (spans_in own.old.view.words at) span }
        requires used { to ≢ state.None }
        requires few { length (lists_entered at to self.old.lists span).ring ≤ 17 }
        requires turn { self.old.lists.turn < 2 ^ 63 }
        ensures region { own.new.region ≡ own.old.region }
        ensures view { Rerecorded self.old.supers own.old.view own.new.view }
        ensures lists { self.new ≡ record self.old { lists = lists_entered at to self.old.lists span } }
        ensures kept { (r : Root) (s t : RootSpan) → RecordsRoot own.old.view self.old r → Contains r.spans s →
            IsRecordFor at span s t → RecordsRoot own.new.view self.new (entered to t r) }
        ensures oldest { result ≡ oldest_of self.new.lists.ring }
    {
        let mut store = MetaStore::new(region, own, &self.supers);
        change_in(&mut self.lists, &mut store, at, span, to)
    }
}

// The span without its list and its pages.
fn without_pages(span: Span) -> Span
    ensures { result ≡ without_pages_of span }
{
    Span {
        provisioned: 0,
        committed: 0,
        head: 0,
        ..span
    }
}
