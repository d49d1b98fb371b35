ghost use Rattle.std.specs.Prelude.{◌≡◌, ◌↔◌, ◌+◌, ◌-◌, ◌<◌, ◌≤◌, List, ◌∷◌, ◌++◌, take, drop, Contains, IsNone, Some, None};
ghost use Rattle.std.specs.Option.{option_to_list};
ghost use Rattle.pa_slot.specs.declared.title.Title.{Title};
ghost use Rattle.pa_slot.specs.Links.{link_to, linked_name, first_word};
ghost use Rattle.pa_record.specs.Spans.{name_of};
ghost use Rattle.pa_region.specs.Views.{free_of};
ghost use Rattle.pa_link.specs.Chains.{IsChain, IsSkipped, Relinked, SameBeside, after_link};

use crate::link::{link_of, load_link, store_link};
use arrayvec::ArrayVec;
use pa_region::{Region, Seat};
use pa_slot::{SlotName, Title};
use std::marker::Model;

// How many titles go back to a root at once.
const BATCH: usize = 16;

/// What a chain keeps beside the region: how many bytes each of its slots has, its front, and how many slots there are.
#[derive(Clone, Copy)]
pub struct ChainParts {
    pub slot_len: u32,
    pub head: Option<SlotName>,
    pub len: u32,
}

/// A list of free slots of one size, each of which has the link to the next one in its first content word. Contracts see it as
/// its parts. Which titles it has, a view says (`IsChain`). The seat that is given to its calls holds these free.
#[derive(Drop)]
pub struct Chain {
    parts: ChainParts,
}

impl Model for Chain {
    ghost use Rattle.std.specs.Prelude.{◌≡◌, ◌↔◌, IsNone};
    ghost use Rattle.pa_link.specs.declared.chain.ChainParts.{ChainParts};

    ghost Value = { ChainParts };

    ghost view = { λ c. c.parts };

    ghost invariant = { λ c. IsNone c.parts.head ↔ (c.parts.len ≡ 0) };
}

impl Chain {
    /// A chain without slots, for slots of this many bytes.
    pub fn new(slot_len: u32) -> Chain
        ensures { result ≡ record { slot_len = slot_len; head = None; len = 0 } }
    {
        Chain {
            parts: ChainParts {
                slot_len,
                head: None,
                len: 0,
            },
        }
    }

    /// How many slots it has.
    pub fn len(&self) -> u32
        ensures { result ≡ self.now.len }
    {
        self.parts.len
    }

    /// The parts of the chain. It has no front exactly if its length is 0.
    pub fn parts(&self) -> ChainParts
        ensures same { result ≡ self.now }
        ensures none { IsNone result.head ↔ (result.len ≡ 0) }
    {
        self.parts
    }

    /// The chain of these parts. What is made of another chain's parts has the same titles.
    pub fn of_parts(parts: ChainParts) -> Chain
        requires { IsNone parts.head ↔ (parts.len ≡ 0) }
        ensures { result ≡ parts }
    {
        Chain { parts }
    }

    /// Puts a free title at the front: the link to the former front is stored in its first content word.
    pub fn push(&mut self, region: &Region, seat: &mut Seat, title: Title)
        requires region { seat.old.region ≡ region.now }
        requires able { 0 < free_of seat.old.view title }
        requires size { title.len ≡ self.old.slot_len }
        requires few { self.old.len < 4294967295 }
        ensures region { seat.new.region ≡ seat.old.region }
        ensures view { seat.new.view ≡ after_link title (link_to self.old.head) seat.old.view }
        ensures chain { (ts : List Title) → IsChain seat.old.view self.old ts → (Contains ts title → ⊥) →
            IsChain seat.new.view self.new (title ∷ ts) }
        ensures front { self.new.head ≡ Some (name_of title) }
        ensures len { self.new.len ≡ self.old.len + 1 }
        ensures slot_len { self.new.slot_len ≡ self.old.slot_len }
    {
        seat.aware();
        seat.placed(title);
        store_link(region, seat, title, link_of(self.parts.head));
        self.parts = ChainParts {
            slot_len: self.parts.slot_len,
            head: Some(SlotName {
                start: title.start,
                born: title.born,
            }),
            len: self.parts.len + 1,
        };
    }

    /// Takes the front. `None` exactly if there is none.
    pub fn pop(&mut self, region: &Region, seat: &mut Seat) -> Option<Title>
        requires region { seat.old.region ≡ region.now }
        requires chain { (ts : List Title) × IsChain seat.old.view self.old ts }
        ensures seat { seat.new ≡ seat.old }
        ensures none { IsNone result ↔ (self.old.len ≡ 0) }
        ensures chain { (ts : List Title) → IsChain seat.old.view self.old ts →
            (rest : List Title) × (ts ≡ option_to_list result ++ rest) × IsChain seat.old.view self.new rest }
        ensures slot_len { self.new.slot_len ≡ self.old.slot_len }
        ensures len { self.new.len ≡ self.old.len - 1 }
    {
        let slot_len = self.parts.slot_len;
        match self.parts.head {
            Some(name) => {
                let title = Title {
                    start: name.start,
                    len: slot_len,
                    born: name.born,
                };
                let len = self.parts.len - 1;
                let head = next_front(region, seat, title, len);
                self.parts = ChainParts {
                    slot_len,
                    head,
                    len,
                };
                Some(title)
            }
            None => None,
        }
    }

    /// Takes out the titles after the first `keep`, in order, at most 16. They are none if it has no more than `keep`. It
    /// goes along `keep` links and at most 16 more, and stores one.
    pub fn take_after(&mut self, region: &Region, seat: &mut Seat, keep: u32) -> ArrayVec<Title, 16>
        requires region { seat.old.region ≡ region.now }
        requires chain { (ts : List Title) × IsChain seat.old.view self.old ts }
        ensures region { seat.new.region ≡ seat.old.region }
        ensures relinked { Relinked seat.old.view seat.new.view }
        ensures beside { (ts : List Title) → IsChain seat.old.view self.old ts →
            SameBeside (take keep ts) seat.old.view.words seat.new.view.words }
        ensures chain { (ts : List Title) → IsChain seat.old.view self.old ts →
            (result.items ≡ take 16 (drop keep ts)) × IsChain seat.new.view self.new (take keep ts ++ drop (keep + 16) ts) }
        ensures slot_len { self.new.slot_len ≡ self.old.slot_len }
    {
        if self.parts.len <= keep {
            let _ = &seat;
            return ArrayVec::new();
        }
        let mut rest = Chain::of_parts(self.parts);
        let last = skip(&mut rest, region, seat, keep);
        let batch = take_front(&mut rest, region, seat);
        match last {
            Some(last) => {
                seat.aware();
                seat.placed(last);
                store_link(region, seat, last, link_of(rest.parts.head));
                self.parts = ChainParts {
                    slot_len: self.parts.slot_len,
                    head: self.parts.head,
                    len: keep + rest.parts.len,
                };
            }
            None => self.parts = rest.parts,
        }
        batch
    }
}

// The front of a chain that has this many slots after this one.
fn next_front(region: &Region, seat: &mut Seat, title: Title, rest: u32) -> Option<SlotName>
    requires region { seat.old.region ≡ region.now }
    requires able { 0 < free_of seat.old.view title }
    ensures seat { seat.new ≡ seat.old }
    ensures none { IsNone result ↔ (rest ≡ 0) }
    ensures next { 0 < rest → result ≡ Some (linked_name (first_word seat.old.view.words (name_of title))) }
{
    if rest == 0 {
        None
    } else {
        Some(load_link(region, seat, title))
    }
}

// Takes this many titles off the front of a chain that has as many, and answers the last of them.
fn skip(chain: &mut Chain, region: &Region, seat: &mut Seat, count: u32) -> Option<Title>
    requires region { seat.old.region ≡ region.now }
    requires chain { (ts : List Title) × IsChain seat.old.view chain.old ts }
    requires enough { count ≤ chain.old.len }
    ensures seat { seat.new ≡ seat.old }
    ensures chain { (ts : List Title) → IsChain seat.old.view chain.old ts → IsSkipped seat.old.view chain.new count result ts }
    ensures slot_len { chain.new.slot_len ≡ chain.old.slot_len }
    ensures len { chain.new.len + count ≡ chain.old.len }
{
    let mut last = None;
    for done in 0..count {
        let _ = done;
        last = chain.pop(region, seat);
    }
    last
}

// Takes at most 16 titles off the front.
fn take_front(chain: &mut Chain, region: &Region, seat: &mut Seat) -> ArrayVec<Title, 16>
    requires region { seat.old.region ≡ region.now }
    requires chain { (ts : List Title) × IsChain seat.old.view chain.old ts }
    ensures seat { seat.new ≡ seat.old }
    ensures chain { (ts : List Title) → IsChain seat.old.view chain.old ts → (result.items ≡ take 16 ts) ×
        IsChain seat.old.view chain.new (drop 16 ts) }
    ensures slot_len { chain.new.slot_len ≡ chain.old.slot_len }
    ensures len { chain.new.len ≤ chain.old.len }
{
    let mut batch = ArrayVec::new();
    for taken in 0..BATCH {
        let _ = taken;
        if let Some(title) = chain.pop(region, seat) {
            batch.push(title);
        }
    }
    batch
}
