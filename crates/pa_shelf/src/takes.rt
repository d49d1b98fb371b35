//! Slots that are taken from a span.
ghost use Rattle.std.specs.Prelude.{◌≡◌, ℕ, ◌+◌, ◌*◌, ◌^◌, ◌<◌, ◌≤◌, nat_lt, List, ◌∷◌, Some, AllPairs, Contains, ◌≢◌};
ghost use Rattle.pa_slot.specs.declared.title.Title.{Title};
ghost use Rattle.pa_slot.specs.Links.{front_of};
ghost use Rattle.pa_buckets.specs.Table.{slot_of, slots_of};
ghost use Rattle.pa_record.specs.declared.taken.SuperPage.{SuperPage};
ghost use Rattle.pa_record.specs.Spans.{Span as RootSpan};
ghost use Rattle.pa_record.specs.Root.{Root};
ghost use Rattle.pa_region.specs.Views.{free_of};
ghost use Rattle.pa_link.specs.Chains.{IsChain, Relinked, SameBeside, slot_names};
ghost use Rattle.pa_shelf.specs.Moving.{parts_of_record, Rewritten};
ghost use Rattle.pa_shelf.specs.Shelves.{ShelfParts, ShowsRoot};
ghost use Rattle.pa_shelf.specs.Taking.{name_start, first_title, slot_beside, slots_beside, without_front_of, state_out, with_more, IsTakeAt, IsTakeOf, IsReadyAt, take_of};

use crate::backs::parts_in;
use crate::shelf::Shelf;
use pa_buckets::{Class, State, slot_size, span_of};
use pa_layout::SYSTEM_PAGE;
use pa_link::Chain;
use pa_meta::read_meta;
use pa_record::SuperPage;
use pa_region::{Region, Seat};
use pa_slot::Title;
use pa_spans::Span;

impl Shelf {
    /// Takes a slot from the span that starts at this offset, of which not all slots are out: the front of its list. If the list is
    /// empty, more of its slots are provisioned first, and the seat holds these free. It allocates nothing.
    pub fn take_at(&mut self, region: &Region, own: &mut Seat, at: u32) -> Option<Title>
        requires region { own.old.region ≡ region.now }
        requires able { (r : Root) × (s : RootSpan) × IsTakeAt own.old.view self.old at r s }
        requires turn { self.old.lists.turn < 2 ^ 63 }
        ensures region { own.new.region ≡ own.old.region }
        ensures title { (r : Root) (s : RootSpan) → IsTakeAt own.old.view self.old at r s → result ≡ (take_of s r).title }
        ensures shown { (r : Root) (s : RootSpan) → IsTakeAt own.old.view self.old at r s →
            ShowsRoot own.new.view self.new (take_of s r).root }
        ensures rest { Rewritten own.old.view own.new.view }
    {
        let span = read_meta(region, own, at);
        let first = self.first_of(&span, at);
        let ready = provided(region, own, span, first);
        self.take_off(region, own, ready, first)
    }

    // Takes the front of the list of a span, which isn't empty. The record is that of the span with this list.
    fn take_off(
        &mut self,
        region: &Region,
        own: &mut Seat,
        span: Span,
        first: Title,
    ) -> Option<Title>
        requires region { own.old.region ≡ region.now }
        requires ready { (r : Root) × (s : RootSpan) × IsReadyAt own.old.view self.old span first r s }
        requires turn { self.old.lists.turn < 2 ^ 63 }
        ensures region { own.new.region ≡ own.old.region }
        ensures title { (r : Root) (s : RootSpan) → IsReadyAt own.old.view self.old span first r s → result ≡ (take_of s r).title }
        ensures shown { (r : Root) (s : RootSpan) → IsReadyAt own.old.view self.old span first r s →
            ShowsRoot own.new.view self.new (take_of s r).root }
        ensures rest { Rewritten own.old.view own.new.view }
    {
        own.aware();
        let front = front_off(region, own, &span, first);
        let next = without_front(span, front.next);
        let to = state_out(next.class, next.allocated);
        let _ = self.change(region, own, first.start, next, to);
        front.title
    }
}

// The front of a list, and where the next slot starts, 0 for none.
#[derive(Drop)]
struct Front {
    title: Option<Title>,
    next: u32,
}

// The front of the chain of the span that has this record, and where the next one starts.
fn front_off(region: &Region, own: &mut Seat, span: &Span, first: Title) -> Front
    requires region { own.old.region ≡ region.now }
    requires chain { (ts : List Title) × IsChain own.old.view (parts_of_record span.now first) ts }
    requires counted { span.now.allocated ≤ span.now.provisioned }
    ensures seat { own.new ≡ own.old }
    ensures front { (t : Title) (ts : List Title) → IsChain own.old.view (parts_of_record span.now first) (t ∷ ts) →
        (result.title ≡ Some t) × (result.next ≡ name_start (front_of (slot_names ts))) }
{
    let mut chain = Chain::of_parts(parts_in(span, first));
    let title = chain.pop(region, own);
    Front {
        title,
        next: start_in(&chain),
    }
}

// Where the front of a chain starts, 0 for none.
fn start_in(chain: &Chain) -> u32
    ensures { result ≡ name_start chain.now.head }
{
    match chain.parts().head {
        Some(name) => name.start,
        None => 0,
    }
}

// The span once the front of its list was taken. The next slot starts at `next`.
fn without_front(span: Span, next: u32) -> Span
    requires { span.allocated < 1024 }
    ensures { result ≡ without_front_of next span }
{
    Span {
        allocated: span.allocated + 1,
        head: next,
        ..span
    }
}

// The state of a span of this class with this many slots out, once one of them was taken.
fn state_out(class: Class, allocated: u16) -> State
    ensures { result ≡ state_out class allocated }
{
    if u32::from(allocated) == span_of(class).slots {
        State::Full
    } else {
        State::Active
    }
}

// The record of the span with a slot in its list. If the list is empty, more slots are provisioned, and they are put on it.
fn provided(region: &Region, own: &mut Seat, span: Span, first: Title) -> Span
    requires region { own.old.region ≡ region.now }
    requires able { (l : ShelfParts) × (r : Root) × (s : RootSpan) × IsTakeOf own.old.view l span first r s }
    ensures region { own.new.region ≡ own.old.region }
    ensures ready { (l : ShelfParts) (r : Root) (s : RootSpan) → IsTakeOf own.old.view l span first r s →
        IsReadyAt own.new.view l result first r s }
    ensures rest { Rewritten own.old.view own.new.view }
{
    if has_list(&span) {
        let _ = &own;
        return span;
    }
    own.aware();
    let more = with_more(span, first.start);
    let from = u32::from(span.provisioned);
    let count = u32::from(more.provisioned) - from;
    push_all(region, own, first, from, count);
    more
}

// Whether the list of the span that has this record has a slot.
pub(crate) fn has_list(span: &Span) -> bool
    ensures { result ≡ nat_lt span.now.allocated span.now.provisioned }
{
    span.allocated < span.provisioned
}

// The record of the span that starts there, once more of its slots were provisioned.
pub(crate) fn with_more(span: Span, at: u32) -> Span
    requires committed { span.committed ≤ 240 }
    requires more { span.provisioned < slots_of span.class }
    requires inside { at + slot_of span.class * slots_of span.class < 2 ^ 32 }
    ensures { result ≡ with_more at span }
{
    let size = slot_size(span.class);
    let provisioned = u32::from(span.provisioned);
    let needed = (size * (provisioned + 1) + (SYSTEM_PAGE - 1)) / SYSTEM_PAGE;
    let pages = (u32::from(span.committed) + 1).max(needed);
    let slots = (SYSTEM_PAGE * pages / size).min(span_of(span.class).slots);
    Span {
        provisioned: slots as u16,
        committed: pages as u16,
        made: span.made.max(slots),
        head: at + size * provisioned,
        ..span
    }
}

// Puts slots that are side by side on a new chain, from the last to the first: this many, from the one with this number on.
fn push_all(region: &Region, own: &mut Seat, first: Title, from: u32, count: u32)
    requires region { own.old.region ≡ region.now }
    requires able { (n : ℕ) → from ≤ n → n < from + count → 0 < free_of own.old.view (slot_beside first n) }
    requires some { 0 < first.len }
    requires inside { first.start + first.len * (from + count) < 2 ^ 32 }
    ensures region { own.new.region ≡ own.old.region }
    ensures chain { IsChain own.new.view
        (record { slot_len = first.len; head = front_of (slot_names (slots_beside first from count)); len = count })
        (slots_beside first from count) }
    ensures relinked { Relinked own.old.view own.new.view }
    ensures beside { SameBeside (slots_beside first from count) own.old.view.words own.new.view.words }
{
    let mut chain = Chain::new(first.len);
    for done in 0..count {
        let number = from + (count - 1 - done);
        let title = Title {
            start: first.start + first.len * number,
            ..first
        };
        chain.push(region, own, title);
    }
}

// The `born` of the super page with this number.
pub(crate) fn born_in(supers: &[SuperPage], number: u32) -> u32
    ensures { (a : SuperPage) → AllPairs (λ (x y : SuperPage). x.number ≢ y.number) supers.now → Contains supers.now a →
        a.number ≡ number → result ≡ a.born }
{
    for taken in supers {
        if taken.number == number {
            return taken.born;
        }
    }
    0
}
