//! Slots that come back.
ghost use Rattle.std.specs.Prelude.{◌≡◌, ◌↔◌, ℕ, ◌+◌, ◌-◌, ◌^◌, ◌<◌, ◌≤◌, List, ◌∷◌, length, Contains, Some, IsNone};
ghost use Rattle.pa_slot.specs.declared.title.Title.{Title};
ghost use Rattle.pa_slot.specs.Links.{link_to};
ghost use Rattle.pa_record.specs.Spans.{Span as RootSpan, name_of};
ghost use Rattle.pa_record.specs.Root.{Root, put_back, returned, all_returned};
ghost use Rattle.pa_region.specs.Views.{free_of};
ghost use Rattle.pa_spans.specs.Lists.{oldest_of};
ghost use Rattle.pa_link.specs.Chains.{IsChain, slot_names, after_link};
ghost use Rattle.pa_shelf.specs.Moving.{parts_of_record, pushed_parts, with_front_of, state_with, Rewritten};
ghost use Rattle.pa_shelf.specs.Shelves.{ShowsRoot, IsBackAt, AreBack};

use crate::shelf::Shelf;
use pa_buckets::State;
use pa_link::{Chain, ChainParts};
use pa_meta::read_meta;
use pa_region::{Region, Seat};
use pa_slot::{SlotName, Title};
use pa_spans::Span;

impl Shelf {
    /// Puts a slot at the front of the list of its span, which starts at this offset. The span is empty then if no slot of it is out,
    /// and active else. It answers the empty span of least turn exactly if 17 are empty then. It allocates nothing.
    pub fn put_back(
        &mut self,
        region: &Region,
        own: &mut Seat,
        at: u32,
        title: Title,
    ) -> Option<u32>
        requires region { own.old.region ≡ region.now }
        requires able { 0 < free_of own.old.view title }
        requires back { (r : Root) × (s : RootSpan) × (n : ℕ) × IsBackAt own.old.view self.old at title r s n }
        requires few { length self.old.lists.ring ≤ 16 }
        requires turn { self.old.lists.turn < 2 ^ 63 }
        ensures region { own.new.region ≡ own.old.region }
        ensures shown { (r : Root) (s : RootSpan) (n : ℕ) → IsBackAt own.old.view self.old at title r s n →
            ShowsRoot own.new.view self.new (put_back (name_of title) (Some s) r) }
        ensures oldest { result ≡ oldest_of self.new.lists.ring }
        ensures rest { Rewritten own.old.view own.new.view }
    {
        own.aware();
        own.placed(title);
        let span = read_meta(region, own, at);
        let allocated = span.allocated;
        let start = title.start;
        push_onto(region, own, &span, title);
        own.aware();
        let to = state_back(allocated);
        self.change(region, own, at, with_front(span, start), to)
    }

    /// Takes a slot back to its span, which starts at this offset: it is at the front of the span's list then, and of 17 empty spans
    /// the one of least turn is decommitted. It allocates nothing.
    pub fn give_back(&mut self, region: &Region, own: &mut Seat, at: u32, title: Title)
        requires region { own.old.region ≡ region.now }
        requires able { 0 < free_of own.old.view title }
        requires back { (r : Root) × (s : RootSpan) × (n : ℕ) × IsBackAt own.old.view self.old at title r s n }
        requires few { length self.old.lists.ring ≤ 16 }
        requires turn { self.old.lists.turn + 1 < 2 ^ 63 }
        ensures region { own.new.region ≡ own.old.region }
        ensures shown { (r : Root) (s : RootSpan) (n : ℕ) → IsBackAt own.old.view self.old at title r s n →
            ShowsRoot own.new.view self.new (returned (name_of title) r) }
        ensures rest { Rewritten own.old.view own.new.view }
    {
        if let Some(oldest) = self.put_back(region, own, at, title) {
            let _ = oldest;
            self.decommit_oldest(region, own);
        }
    }

    /// Takes slots back to their spans, one by one in this order, as `give_back` does. It allocates nothing.
    pub fn give_all(&mut self, region: &Region, own: &mut Seat, titles: &[Title])
        requires region { own.old.region ≡ region.now }
        requires back { (r : Root) × AreBack own.old.view self.old titles.now r }
        requires few { length titles.now ≤ 16 }
        requires turn { self.old.lists.turn + 32 < 2 ^ 63 }
        ensures region { own.new.region ≡ own.old.region }
        ensures shown { (r : Root) → AreBack own.old.view self.old titles.now r →
            ShowsRoot own.new.view self.new (all_returned (slot_names titles.now) r) }
        ensures rest { Rewritten own.old.view own.new.view }
    {
        for title in titles {
            let at = self.span_at(region, own, *title);
            self.give_back(region, own, at, *title);
        }
    }
}

// Puts a slot at the front of the chain of the span that has this record.
fn push_onto(region: &Region, own: &mut Seat, span: &Span, title: Title)
    requires region { own.old.region ≡ region.now }
    requires able { 0 < free_of own.old.view title }
    requires counted { span.now.allocated ≤ span.now.provisioned }
    ensures region { own.new.region ≡ own.old.region }
    ensures view { own.new.view ≡ after_link title (link_to (parts_of_record span.now title).head) own.old.view }
    ensures chain { (ts : List Title) → IsChain own.old.view (parts_of_record span.now title) ts → (Contains ts title → ⊥) →
        IsChain own.new.view (pushed_parts title (parts_of_record span.now title)) (title ∷ ts) }
{
    let mut chain = Chain::of_parts(parts_in(span, title));
    chain.push(region, own, title);
}

// The chain of the span that has this record, and such slots.
pub(crate) fn parts_in(span: &Span, title: Title) -> ChainParts
    requires { span.now.allocated ≤ span.now.provisioned }
    ensures same { result ≡ parts_of_record span.now title }
    ensures none { IsNone result.head ↔ (result.len ≡ 0) }
    ensures few { result.len < 65536 }
{
    let len = u32::from(span.provisioned - span.allocated);
    let name = SlotName {
        start: span.head,
        born: title.born,
    };
    ChainParts {
        slot_len: title.len,
        head: if len == 0 { None } else { Some(name) },
        len,
    }
}

// The span after a slot came back that starts there.
fn with_front(span: Span, start: u32) -> Span
    requires { 1 ≤ span.allocated }
    ensures { result ≡ with_front_of start span }
{
    Span {
        allocated: span.allocated - 1,
        head: start,
        ..span
    }
}

// The state of a span with this many slots out, once one of them came back.
fn state_back(allocated: u16) -> State
    requires { 1 ≤ allocated }
    ensures { result ≡ state_with (allocated - 1) }
{
    if allocated == 1 {
        State::Empty
    } else {
        State::Active
    }
}
