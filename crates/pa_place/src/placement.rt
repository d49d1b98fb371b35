ghost use Rattle.std.specs.Prelude.{◌≡◌, ◌≢◌, true, [], ℕ, ◌+◌, ◌-◌, ◌%◌, ◌<◌, ◌≤◌, ◌^◌, IfOk, IfSome, IfNone, OnErr, All, AllPairs, Contains, length, map};
ghost use Rattle.pa_layout.specs.Limits.{most_supers};
ghost use Rattle.pa_layout.specs.Pages.{super_page_at, supers_for};
ghost use Rattle.pa_record.specs.declared.taken.Taken.{Taken};
ghost use Rattle.pa_record.specs.Pool.{IsOneTake, gave};
ghost use Rattle.pa_record.specs.Spans.{name_of};
ghost use Rattle.pa_record.specs.Root.{new_root, all_returned, purged, unmapped, IsOut};
ghost use Rattle.pa_record.specs.Census.{census};
ghost use Rattle.pa_record.specs.Sound.{IsSound, IsSettled, IsBornBelow};
ghost use Rattle.pa_place.specs.Roomy.{HasTakes};
ghost use Rattle.pa_place.specs.Store.{AsksWhere};
ghost use Rattle.pa_place.specs.Out.{IsOutAs, IsNotOut};
ghost use Rattle.pa_place.specs.Placed.{FillDid, MapDid, IsEmptyIfRefused, IsStep, mapped_by};

use crate::placed::{Out, Placed};
use crate::plain_root::PlainRoot;
use crate::pool_plan::PoolPlan;
use arrayvec::ArrayVec;
use pa_buckets::Class;
use pa_layout::{super_page_of, supers_for};
use pa_record::Census;
use pa_slot::{OutOfMemory, SlotName, Title};
use std::alloc::Global;
use std::marker::Model;

/// The root of one partition, as lists. It is seen as that root, which is sound and has at most 16 empty spans.
/// A list that would have more than 2,147,483,647 members is refused as out of memory.
#[derive(Drop)]
pub struct Placement {
    root: PlainRoot,
}

impl Model for Placement {
    ghost use Rattle.pa_record.specs.Root.{Root};

    ghost Value = { Root };

    ghost view = { λ p. p.root.root };
}

impl Placement {
    /// The placement of a new root, which has no super page.
    pub fn new(alloc: Global) -> Result<Placement, OutOfMemory>
        ensures start { IfOk result (λ p. p ≡ new_root) }
    {
        let root = PlainRoot::new(alloc)?;
        Ok(Placement { root })
    }

    /// What is known of every placement: its root is sound, and at most 16 of its spans are empty.
    pub fn is_sound(&self)
        ensures sound { IsSound self.now }
        ensures settled { IsSettled self.now }
    {
        self.root.is_sound();
    }

    /// Takes `want` slots of the class, 1 to 8, or as many as there are. Only the first take may ask the pool, for one super
    /// page. If memory runs out, the placement and the pool are unchanged.
    #[inline(always)]
    pub fn fill(
        &mut self,
        pool: &mut PoolPlan,
        class: Class,
        want: u32,
    ) -> Result<Placed, OutOfMemory>
        requires some { 1 ≤ want }
        requires few { want ≤ 8 }
        requires turn { self.old.turn < 2 ^ 62 }
        requires entries { pool.old.entries < 2 ^ 32 - 1 }
        requires born { IsBornBelow pool.old.entries self.old }
        ensures filled { IfOk result (FillDid class want pool.old pool.new self.old self.new) }
        ensures empty { IfOk result (IsEmptyIfRefused 1 pool.old) }
        ensures pool { OnErr result (pool.new ≡ pool.old) }
        ensures root { OnErr result (self.new ≡ self.old) }
        ensures step { IsStep pool.old.entries pool.new.entries self.old self.new }
        ensures maps { self.new.maps ≡ self.old.maps }
    {
        let mut titles = ArrayVec::new();
        let asked = self.fill_into(pool, class, want, &mut titles)?;
        Ok(Placed {
            pool: asked,
            titles,
        })
    }

    /// Takes slots as `fill` does, but puts them into `titles`, which has none. Returns the index of the pool's entry that it
    /// made, if it asked the pool. If memory runs out, the placement, the pool and `titles` are unchanged.
    #[inline(always)]
    pub fn fill_into(
        &mut self,
        pool: &mut PoolPlan,
        class: Class,
        want: u32,
        titles: &mut ArrayVec<Title, 16>,
    ) -> Result<Option<u32>, OutOfMemory>
        requires some { 1 ≤ want }
        requires few { want ≤ 8 }
        requires turn { self.old.turn < 2 ^ 62 }
        requires entries { pool.old.entries < 2 ^ 32 - 1 }
        requires born { IsBornBelow pool.old.entries self.old }
        requires none { titles.old.items ≡ [] }
        ensures filled { IfOk result (λ asked.
            FillDid class want pool.old pool.new self.old self.new (record { pool = asked; titles = titles.new })) }
        ensures empty { IfOk result (λ asked. IsEmptyIfRefused 1 pool.old (record { pool = asked; titles = titles.new })) }
        ensures pool { OnErr result (pool.new ≡ pool.old) }
        ensures root { OnErr result (self.new ≡ self.old) }
        ensures titles { OnErr result (titles.new ≡ titles.old) }
        ensures step { IsStep pool.old.entries pool.new.entries self.old self.new }
        ensures maps { self.new.maps ≡ self.old.maps }
    {
        self.root.is_sound();
        self.root.ready(class, want)?;
        let entry = ask(&mut self.root, pool, class);
        self.root.take(class, want, titles);
        Ok(entry)
    }

    /// Makes a direct map whose slot has `slot` bytes, a multiple of 4,096, in `supers` super pages requested from the
    /// pool: 1 to 16, which the slot and 32,768 bytes need. If memory runs out, the placement and the pool are unchanged.
    #[inline(always)]
    pub fn map(
        &mut self,
        pool: &mut PoolPlan,
        slot: u32,
        supers: u32,
    ) -> Result<Placed, OutOfMemory>
        requires whole { slot % 4096 ≡ 0 }
        requires some { 0 < slot }
        requires supers { supers ≡ supers_for slot }
        requires few { supers ≤ most_supers }
        requires entries { pool.old.entries < 2 ^ 32 - 1 }
        requires born { IsBornBelow pool.old.entries self.old }
        ensures mapped { IfOk result (MapDid slot pool.old pool.new self.old self.new) }
        ensures empty { IfOk result (IsEmptyIfRefused supers pool.old) }
        ensures pool { OnErr result (pool.new ≡ pool.old) }
        ensures root { OnErr result (self.new ≡ self.old) }
        ensures turn { self.new.turn ≡ self.old.turn }
        ensures step { IsStep pool.old.entries pool.new.entries self.old self.new }
    {
        self.root.ready_map()?;
        let entry = pool.entries();
        let found = pool.take(supers);
        let titles = map_found(&mut self.root, found, entry, slot);
        Ok(Placed {
            pool: Some(entry),
            titles,
        })
    }

    /// Returns the slots one by one: at most 16, each of which is out of this root and is listed once. It allocates nothing.
    pub fn give(&mut self, titles: &[Title])
        requires few { length titles.now ≤ 16 }
        requires out { All (IsOut self.old) (map name_of titles.now) }
        requires once { AllPairs ◌≢◌ (map name_of titles.now) }
        requires turn { self.old.turn < 2 ^ 62 }
        ensures returned { self.new ≡ all_returned (map name_of titles.now) self.old }
        ensures step { (n : ℕ) → IsStep n n self.old self.new }
        ensures maps { self.new.maps ≡ self.old.maps }
    {
        self.root.give(titles);
    }

    /// Gives the super pages of a direct map back to the pool, and returns the pool's entry. The map is one of this root, and
    /// its super pages are one take that wasn't given back. It allocates nothing.
    pub fn unmap(&mut self, pool: &mut PoolPlan, title: Title) -> u32
        requires mapped { Contains self.old.maps title }
        requires one_take { (t : Taken) × IsOneTake pool.old (super_page_at title.start) (supers_for title.len) t }
        requires entries { pool.old.entries < 2 ^ 32 - 1 }
        ensures entry { result ≡ pool.old.entries }
        ensures unmapped { self.new ≡ unmapped (name_of title) self.old }
        ensures pool { pool.new ≡ gave (super_page_at title.start) pool.old }
        ensures step { IsStep pool.old.entries pool.new.entries self.old self.new }
    {
        let entry = pool.entries();
        pool.give(super_page_of(title.start), supers_for(title.len));
        self.root.unmap(title);
        entry
    }

    /// Decommits every empty span, the one that became empty first before the others. It allocates nothing.
    pub fn purge(&mut self)
        requires turn { self.old.turn < 2 ^ 62 }
        ensures purged { self.new ≡ purged self.old }
        ensures step { (n : ℕ) → IsStep n n self.old self.new }
        ensures maps { self.new.maps ≡ self.old.maps }
    {
        self.root.purge();
    }

    /// The slot of a span, or the direct map, that has that name and is out of this root. `None` exactly when there is none.
    pub fn out(&self, slot: SlotName) -> Option<Out>
        ensures some { IfSome result (IsOutAs self.now slot) }
        ensures none { IfNone result (IsNotOut self.now slot) }
    {
        self.root.out(slot)
    }

    /// What the root has: its free slots, its bytes, and its spans by their states.
    pub fn census(&self) -> Census
        ensures { result ≡ census self.now }
    {
        self.root.census()
    }
}

/// Asks the pool for a super page if no span has a slot of the class left and the current super page has no room for a new
/// one. What the pool gives becomes the current one. Returns the pool's entry, if it was asked.
pub fn ask(root: &mut PlainRoot, pool: &mut PoolPlan, class: Class) -> Option<u32>
    requires room { root.old.room.super_page ≡ true }
    requires entries { pool.old.entries < 2 ^ 32 - 1 }
    requires born { IsBornBelow pool.old.entries root.old.root }
    ensures asks { AsksWhere class pool.old pool.new root.old.root root.new.root result }
    ensures takes { (want : ℕ) → HasTakes class want root.old.room → HasTakes class want root.new.room }
    ensures step { IsStep pool.old.entries pool.new.entries root.old.root root.new.root }
    ensures turn { root.new.root.turn ≡ root.old.root.turn }
    ensures maps { root.new.root.maps ≡ root.old.root.maps }
{
    if !root.asks(class) {
        return None;
    }
    let entry = pool.entries();
    if let Some(first) = pool.take(1) {
        root.open(first, entry);
    }
    Some(entry)
}

// Makes the direct map in the super pages that this entry of the pool found, if it found some.
fn map_found(root: &mut PlainRoot, found: Option<u32>, entry: u32, slot: u32) -> ArrayVec<Title, 16>
    requires room { root.old.room.map ≡ true }
    requires low { IfSome found (λ first. first < 64) }
    requires born { IsBornBelow entry root.old.root }
    ensures mapped { mapped_by slot entry found root.old.root ≡ record { root = root.new.root; titles = result.items } }
    ensures turn { root.new.root.turn ≡ root.old.root.turn }
    ensures step { IsStep entry (entry + 1) root.old.root root.new.root }
{
    let mut titles = ArrayVec::new();
    if let Some(first) = found {
        titles.push(root.map(first, slot, entry));
    }
    titles
}
