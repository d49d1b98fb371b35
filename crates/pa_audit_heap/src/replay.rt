ghost use Rattle.std.specs.Prelude.{◌≡◌, ◌≢◌, ℕ, ◌-◌, ◌%◌, ◌<◌, ◌≤◌, ◌^◌, ◌↔◌, IfNone, IfOk, IfSome, IsTrue, OnErr, All, AllPairs, Contains, length, map, take};
ghost use Rattle.pa_layout.specs.Limits.{most_supers};
ghost use Rattle.pa_dense.specs.Act.{act_of};
ghost use Rattle.pa_layout.specs.Pages.{supers_for};
ghost use Rattle.pa_slot.specs.declared.title.Title.{Title as Slice};
ghost use Rattle.pa_record.specs.declared.root.RootAct.{RootAct};
ghost use Rattle.pa_record.specs.Pool.{new_pool, pool_replayed};
ghost use Rattle.pa_record.specs.Root.{IsOut, asked_by, names, new_root};
ghost use Rattle.pa_record.specs.Spans.{name_of};
ghost use Rattle.pa_record.specs.Sound.{AsksFrom, IsSound};
ghost use Rattle.pa_audit_heap.specs.Replayed.{DoAllFit, HasMapSize, IsInStep, TellsPlay};

use crate::pool::act_fits;
use crate::pool_acts::{found_none, found_nothing, found_run, gave_run};
use arrayvec::ArrayVec;
use pa_buckets::{Class, fill_count};
use pa_dense::Act;
use pa_layout::{super_page_of, supers_for};
use pa_place::{Out, Placement, PoolPlan};
use pa_record::{Numbered, PoolEntry};
use pa_slot::{OutOfMemory, SlotName, Title};
use std::alloc::Global;

// A root and the pool that it asks, as the entries of its journal so far have left them.
#[derive(Drop)]
pub(crate) struct Replay {
    pub(crate) root: Placement,
    pub(crate) plan: PoolPlan,
}

impl Replay {
    // A root with no super page, and a pool of this many super pages, at most 64, of which none is taken.
    pub(crate) fn new(alloc: Global, supers: u32) -> Result<Replay, OutOfMemory>
        requires { supers ≤ 64 }
        ensures root { IfOk result (λ r. r.root ≡ new_root) }
        ensures plan { IfOk result (λ r. r.plan ≡ new_pool supers) }
    {
        let root = Placement::new(alloc)?;
        let plan = PoolPlan::new(alloc, supers)?;
        Ok(Replay { root, plan })
    }

    // Whether the entry fits. If it does, it is played. The entry of the pool that it names, if any, comes no earlier than
    // those that the plan has. If memory runs out, the root is as before.
    pub(crate) fn play(&mut self, pools: &[PoolEntry], act: Act<'_>) -> Result<bool, OutOfMemory>
        requires pool { DoAllFit self.old.plan.supers pools.now }
        requires few { length pools.now < 2 ^ 32 - 1 }
        requires step { IsInStep pools.now self.old.plan self.old.root }
        requires turn { self.old.root.turn < 2 ^ 62 }
        requires size { HasMapSize (act_of act) }
        requires asks { AsksFrom self.old.plan.entries (asked_by (act_of act)) }
        ensures plays { IfOk result (TellsPlay pools.now (act_of act.entry) self.old.plan self.old.root self.new.plan self.new.root) }
        ensures root { OnErr result (self.new.root ≡ self.old.root) }
    {
        match act {
            Act::Fill { class, pool, slots } => match pool {
                None => self.fill(pools, class, slots.items()),
                Some(pool) => self.fill_from(pools, class, pool, slots.items()),
            },
            Act::Map { pool, slot, len } => self.map(pools, pool, slot, len),
            Act::Full { class, pool } => match class {
                None => Ok(found_nothing(pools, pool)),
                Some(class) => self.full(pools, class, pool),
            },
            Act::Give { slots } => Ok(self.give(pools, slots.items())),
            Act::Unmap { pool, slot } => Ok(self.unmap(pools, pool, slot)),
            Act::Purge => {
                self.root.purge();
                Ok(true)
            }
        }
    }

    // Plays the pool's entries before this one.
    fn play_to(&mut self, pools: &[PoolEntry], to: u32)
        requires pool { DoAllFit self.old.plan.supers pools.now }
        requires few { length pools.now < 2 ^ 32 - 1 }
        requires step { IsInStep pools.now self.old.plan self.old.root }
        requires ahead { self.old.plan.entries ≤ to }
        requires within { to ≤ length pools.now }
        ensures plan { self.new.plan ≡ pool_replayed (take to pools.now) (new_pool self.old.plan.supers) }
        ensures root { self.new.root ≡ self.old.root }
    {
        for at in self.plan.entries()..to {
            act_fits(&mut self.plan, pools, pools[at as usize]);
        }
    }

    // Plays a fill that asked for no super page.
    fn fill(
        &mut self,
        pools: &[PoolEntry],
        class: Class,
        slots: &[Numbered],
    ) -> Result<bool, OutOfMemory>
        requires few { length pools.now < 2 ^ 32 - 1 }
        requires step { IsInStep pools.now self.old.plan self.old.root }
        requires turn { self.old.root.turn < 2 ^ 62 }
        ensures plays { IfOk result
            (TellsPlay pools.now (RootAct.Fill class None slots.now) self.old.plan self.old.root self.new.plan self.new.root) }
        ensures root { OnErr result (self.new.root ≡ self.old.root) }
    {
        let placed = self.root.fill(&mut self.plan, class, fill_count(class))?;
        Ok(placed.pool.is_none() && are_named(placed.titles.as_slice(), slots))
    }

    // Plays a fill that got a super page by this entry of the pool.
    fn fill_from(
        &mut self,
        pools: &[PoolEntry],
        class: Class,
        asked: u32,
        slots: &[Numbered],
    ) -> Result<bool, OutOfMemory>
        requires pool { DoAllFit self.old.plan.supers pools.now }
        requires few { length pools.now < 2 ^ 32 - 1 }
        requires step { IsInStep pools.now self.old.plan self.old.root }
        requires turn { self.old.root.turn < 2 ^ 62 }
        requires ahead { self.old.plan.entries ≤ asked }
        ensures plays { IfOk result
            (TellsPlay pools.now (RootAct.Fill class (Some asked) slots.now) self.old.plan self.old.root self.new.plan self.new.root) }
        ensures root { OnErr result (self.new.root ≡ self.old.root) }
    {
        if found_run(pools, asked, 1).is_none() {
            return Ok(false);
        }
        self.play_to(pools, asked);
        let placed = self.root.fill(&mut self.plan, class, fill_count(class))?;
        Ok(placed.pool.is_some() && are_named(placed.titles.as_slice(), slots))
    }

    // Plays a direct map.
    fn map(
        &mut self,
        pools: &[PoolEntry],
        asked: u32,
        slot: SlotName,
        len: u32,
    ) -> Result<bool, OutOfMemory>
        requires pool { DoAllFit self.old.plan.supers pools.now }
        requires few { length pools.now < 2 ^ 32 - 1 }
        requires step { IsInStep pools.now self.old.plan self.old.root }
        requires whole { len % 4096 ≡ 0 }
        requires some { 0 < len }
        requires supers { supers_for len ≤ most_supers }
        requires ahead { self.old.plan.entries ≤ asked }
        ensures plays { IfOk result
            (TellsPlay pools.now (RootAct.Map asked slot len) self.old.plan self.old.root self.new.plan self.new.root) }
        ensures root { OnErr result (self.new.root ≡ self.old.root) }
    {
        let supers = supers_for(len);
        let Some(first) = found_run(pools, asked, supers) else {
            return Ok(false);
        };
        let start = 2097152 * u64::from(first) + 16384;
        if u64::from(slot.start) != start || slot.born != asked {
            return Ok(false);
        }
        self.play_to(pools, asked);
        self.root.map(&mut self.plan, len, supers)?;
        Ok(true)
    }

    // Plays a refusal: the entry of the pool found no room for a slot of the class.
    fn full(&mut self, pools: &[PoolEntry], class: Class, asked: u32) -> Result<bool, OutOfMemory>
        requires pool { DoAllFit self.old.plan.supers pools.now }
        requires few { length pools.now < 2 ^ 32 - 1 }
        requires step { IsInStep pools.now self.old.plan self.old.root }
        requires turn { self.old.root.turn < 2 ^ 62 }
        requires ahead { self.old.plan.entries ≤ asked }
        ensures plays { IfOk result
            (TellsPlay pools.now (RootAct.Full (Some class) asked) self.old.plan self.old.root self.new.plan self.new.root) }
        ensures root { OnErr result (self.new.root ≡ self.old.root) }
    {
        if !found_none(pools, asked, 1) {
            return Ok(false);
        }
        self.play_to(pools, asked);
        let placed = self.root.fill(&mut self.plan, class, fill_count(class))?;
        Ok(placed.pool.is_some())
    }

    // Plays slots that come back.
    fn give(&mut self, pools: &[PoolEntry], slots: &[Numbered]) -> bool
        requires few { length slots.now ≤ 16 }
        requires step { IsInStep pools.now self.old.plan self.old.root }
        requires turn { self.old.root.turn < 2 ^ 62 }
        ensures { TellsPlay pools.now (RootAct.Give slots.now) self.old.plan self.old.root self.new.plan self.new.root result }
    {
        let mut titles: ArrayVec<Title, 16> = ArrayVec::new();
        for slot in slots {
            match self.slot_out(slot.slot) {
                Some(title) => titles.push(title),
                None => return false,
            }
        }
        if !are_different(slots) {
            return false;
        }
        self.root.give(titles.as_slice());
        true
    }

    // Plays a direct map that comes back.
    fn unmap(&mut self, pools: &[PoolEntry], asked: u32, slot: Numbered) -> bool
        requires pool { DoAllFit self.old.plan.supers pools.now }
        requires few { length pools.now < 2 ^ 32 - 1 }
        requires step { IsInStep pools.now self.old.plan self.old.root }
        requires ahead { self.old.plan.entries ≤ asked }
        ensures { TellsPlay pools.now (RootAct.Unmap asked slot) self.old.plan self.old.root self.new.plan self.new.root result }
    {
        let Some(title) = self.map_out(slot.slot) else {
            return false;
        };
        let first = super_page_of(title.start);
        if title.start % 2097152 != 16384 {
            return false;
        }
        if !gave_run(pools, asked, supers_for(title.len), first) {
            return false;
        }
        self.play_to(pools, asked);
        self.root.unmap(&mut self.plan, title);
        true
    }

    // The slot of a span that has that name and is out.
    fn slot_out(&self, name: SlotName) -> Option<Title>
        ensures some { IfSome result (λ t. IsOut self.now.root name × (name_of t ≡ name)) }
        ensures none { IfNone result (IsOut self.now.root name → ⊥) }
    {
        self.root.is_sound();
        match self.root.out(name) {
            Some(Out::Slot(title)) => Some(title),
            Some(Out::Map(_map)) => None,
            None => None,
        }
    }

    // The direct map that has that name.
    fn map_out(&self, name: SlotName) -> Option<Title>
        ensures some { IfSome result (λ t. Contains self.now.root.maps t × (name_of t ≡ name)) }
        ensures none { IfNone result ((t : Slice) → Contains self.now.root.maps t → name_of t ≡ name → ⊥) }
        ensures sound { IsSound self.now.root }
    {
        self.root.is_sound();
        match self.root.out(name) {
            Some(Out::Map(title)) => Some(title),
            Some(Out::Slot(_slot)) => None,
            None => None,
        }
    }
}

// Whether these are the slots' names, in order.
fn are_named(titles: &[Title], slots: &[Numbered]) -> bool
    ensures { IsTrue result ↔ (map name_of titles.now ≡ names slots.now) }
{
    if titles.len() != slots.len() {
        return false;
    }
    for at in 0..titles.len() {
        if !is_named(titles[at], slots[at].slot) {
            return false;
        }
    }
    true
}

// Whether this is the title's name.
fn is_named(title: Title, name: SlotName) -> bool
    ensures { IsTrue result ↔ (name_of title ≡ name) }
{
    title.start == name.start && title.born == name.born
}

// Whether no slot is listed twice.
fn are_different(slots: &[Numbered]) -> bool
    ensures { IsTrue result ↔ AllPairs ◌≢◌ (names slots.now) }
{
    for at in 0..slots.len() {
        if stands_before(slots, at, slots[at].slot) {
            return false;
        }
    }
    true
}

// Whether the slot is one of the first ones.
fn stands_before(slots: &[Numbered], end: usize, name: SlotName) -> bool
    requires { end ≤ length slots.now }
    ensures { IsTrue result ↔ Contains (take end (names slots.now)) name }
{
    for at in 0..end {
        if is_same(slots[at].slot, name) {
            return true;
        }
    }
    false
}

// Whether these are one name.
fn is_same(a: SlotName, b: SlotName) -> bool
    ensures { IsTrue result ↔ (a ≡ b) }
{
    a.start == b.start && a.born == b.born
}
