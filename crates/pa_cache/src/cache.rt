ghost use Rattle.std.specs.Prelude.{◌≡◌, ◌≢◌, ◌↔◌, ℕ, ◌+◌, ◌<◌, ◌≤◌, List, [], ◌∷◌, ◌++◌, length, take, drop, All, AllPairs, Contains, IfSome, IsNone, IsTrue};
ghost use Rattle.std.specs.Option.{option_to_list};
ghost use Rattle.pa_slot.specs.declared.title.Title.{Title};
ghost use Rattle.pa_buckets.specs.Table.{slot_of};
ghost use Rattle.pa_buckets.specs.Bands.{limit_of};
ghost use Rattle.pa_region.specs.declared.view.View.{View};
ghost use Rattle.pa_region.specs.Views.{free_of};
ghost use Rattle.pa_link.specs.Chains.{IsChain, Relinked, SameBeside};
ghost use Rattle.pa_cache.specs.Caches.{HoldsFree, IsFreeAtItsNumber, batch_after, rest_after};
ghost use Rattle.pa_cache.specs.Chained.{HoldsList, list_in};

use arrayvec::ArrayVec;
use pa_buckets::{Class, cache_limit, rows_have_bounds, slot_size};
use pa_link::Chain;
use pa_region::{Region, Seat};
use pa_slot::Title;
use std::marker::Model;

/// A thread's cache of one class. Contracts see it as its class and the parts of its chain. Which list it has, a view says
/// (`list_in`). The seat of its thread, which is given to its calls, holds the titles free.
#[derive(Drop)]
pub struct Cache {
    class: Class,
    chain: Chain,
}

impl Model for Cache {
    ghost use Rattle.pa_cache.specs.Chained.{CacheParts, KeepsBounds};

    ghost Value = { CacheParts };

    ghost view = { λ c. record { class = c.class; chain = c.chain } };

    ghost invariant = { λ c. KeepsBounds (record { class = c.class; chain = c.chain }) };
}

impl Cache {
    /// An empty cache of the class. Neither this nor any other call takes memory.
    pub fn new(class: Class) -> Cache
        ensures list { (v : View) → list_in v result ≡ record { class = class; titles = [] } }
        ensures holds { (v : View) → HoldsList v result }
    {
        Cache {
            class,
            chain: Chain::new(slot_size(class)),
        }
    }

    /// How many titles it has, whatever the words are.
    pub fn len(&self) -> u32
        ensures { (v : View) → result ≡ length (list_in v self.now).titles }
    {
        self.chain.parts().len
    }

    /// Whether it is longer than its class's limit.
    pub fn over(&self) -> bool
        ensures { (v : View) → IsTrue result ↔ (limit_of self.now.class < length (list_in v self.now).titles) }
    {
        self.len() > cache_limit(self.class)
    }

    /// Takes the front title, or `None` if and only if the cache is empty.
    pub fn pop(&mut self, region: &Region, seat: &mut Seat) -> Option<Title>
        requires region { seat.old.region ≡ region.now }
        requires list { HoldsList seat.old.view self.old }
        ensures class { self.new.class ≡ self.old.class }
        ensures none { IsNone result ↔ ((list_in seat.old.view self.old).titles ≡ []) }
        ensures front { (list_in seat.old.view self.old).titles ≡ option_to_list result ++ (list_in seat.new.view self.new).titles }
        ensures size { IfSome result (λ t. t.len ≡ slot_of self.old.class) }
        ensures number { IfSome result (IsFreeAtItsNumber seat.new.view) }
        ensures list { HoldsList seat.new.view self.new }
        ensures seat { seat.new ≡ seat.old }
    {
        seat.aware();
        self.chain.pop(region, seat)
    }

    /// Puts a free title at the front. A link is stored in its first content word.
    pub fn push(&mut self, region: &Region, seat: &mut Seat, title: Title)
        requires region { seat.old.region ≡ region.now }
        requires list { HoldsList seat.old.view self.old }
        requires few { length (list_in seat.old.view self.old).titles ≤ limit_of self.old.class }
        requires able { 0 < free_of seat.old.view title }
        requires size { title.len ≡ slot_of self.old.class }
        requires new { Contains (list_in seat.old.view self.old).titles title → ⊥ }
        ensures class { self.new.class ≡ self.old.class }
        ensures front { (list_in seat.new.view self.new).titles ≡ title ∷ (list_in seat.old.view self.old).titles }
        ensures list { HoldsList seat.new.view self.new }
        ensures region { seat.new.region ≡ seat.old.region }
        ensures relinked { Relinked seat.old.view seat.new.view }
        ensures beside { SameBeside (list_in seat.new.view self.new).titles seat.old.view.words seat.new.view.words }
    {
        rows_have_bounds();
        self.chain.push(region, seat, title);
    }

    /// Puts at most 8 free titles into an empty cache. The first becomes the front.
    pub fn load(&mut self, region: &Region, seat: &mut Seat, titles: &[Title])
        requires region { seat.old.region ≡ region.now }
        requires empty { (list_in seat.old.view self.old).titles ≡ [] }
        requires few { length titles.now ≤ 8 }
        requires free { HoldsFree seat.old.view titles.now }
        requires size { All (λ t. t.len ≡ slot_of self.old.class) titles.now }
        requires different { AllPairs ◌≢◌ titles.now }
        ensures class { self.new.class ≡ self.old.class }
        ensures titles { (list_in seat.new.view self.new).titles ≡ titles.now }
        ensures list { HoldsList seat.new.view self.new }
        ensures region { seat.new.region ≡ seat.old.region }
        ensures relinked { Relinked seat.old.view seat.new.view }
        ensures beside { SameBeside (list_in seat.new.view self.new).titles seat.old.view.words seat.new.view.words }
    {
        // What a chain without titles is.
        let _ = self.chain.parts();
        push_all(&mut self.chain, region, seat, titles);
    }

    /// Takes out the titles after the first `keep`, in order, at most 16. There are none if and only if the cache has no
    /// more than `keep`. The next call takes those after them.
    pub fn spill(&mut self, region: &Region, seat: &mut Seat, keep: u32) -> ArrayVec<Title, 16>
        requires region { seat.old.region ≡ region.now }
        requires list { HoldsList seat.old.view self.old }
        ensures class { self.new.class ≡ self.old.class }
        ensures batch { result.items ≡ batch_after keep (list_in seat.old.view self.old).titles }
        ensures rest { (list_in seat.new.view self.new).titles ≡ rest_after keep (list_in seat.old.view self.old).titles }
        ensures first { take keep (list_in seat.new.view self.new).titles ≡ take keep (list_in seat.old.view self.old).titles }
        ensures later { drop keep (list_in seat.new.view self.new).titles ≡ drop 16 (drop keep (list_in seat.old.view self.old).titles) }
        ensures none { (result.items ≡ []) ↔ (length (list_in seat.old.view self.old).titles ≤ keep) }
        ensures size { All (λ t. t.len ≡ slot_of self.old.class) result.items }
        ensures different { AllPairs ◌≢◌ result.items }
        ensures number { All (IsFreeAtItsNumber seat.new.view) result.items }
        ensures list { HoldsList seat.new.view self.new }
        ensures region { seat.new.region ≡ seat.old.region }
        ensures relinked { Relinked seat.old.view seat.new.view }
        ensures beside { SameBeside (list_in seat.new.view self.new).titles seat.old.view.words seat.new.view.words }
    {
        let batch = self.chain.take_after(region, seat, keep);
        seat.aware();
        batch
    }
}

// Pushes these titles on an empty chain, from the last to the first.
fn push_all(chain: &mut Chain, region: &Region, seat: &mut Seat, titles: &[Title])
    requires region { seat.old.region ≡ region.now }
    requires empty { IsChain seat.old.view chain.old [] }
    requires few { length titles.now ≤ 8 }
    requires free { HoldsFree seat.old.view titles.now }
    requires size { All (λ t. t.len ≡ chain.old.slot_len) titles.now }
    requires different { AllPairs ◌≢◌ titles.now }
    ensures region { seat.new.region ≡ seat.old.region }
    ensures relinked { Relinked seat.old.view seat.new.view }
    ensures beside { SameBeside titles.now seat.old.view.words seat.new.view.words }
    ensures chain { IsChain seat.new.view chain.new titles.now }
    ensures slot_len { chain.new.slot_len ≡ chain.old.slot_len }
{
    for done in 0..titles.len() {
        chain.push(region, seat, titles[titles.len() - 1 - done]);
    }
}
