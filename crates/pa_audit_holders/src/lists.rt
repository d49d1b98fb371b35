ghost use Rattle.std.specs.Prelude.{◌≡◌, ℕ, ◌+◌, ◌<◌, ◌≤◌, [], ◌∷◌, ◌↔◌, All, IfOk, IsTrue, OnErr, OnOk, drop, length, slice_index_or, take};
ghost use Rattle.pa_trace.specs.Limits.{most_partitions};
ghost use Rattle.pa_rules.specs.Caches.{listed_slots, with_list};
ghost use Rattle.pa_rules.specs.Lists.{IsTallyOf};
ghost use Rattle.pa_rules.specs.Sizes.{HasClass};
ghost use Rattle.pa_audit_holders.specs.Lists.{AreSummed, cache_in};

use pa_buckets::Class;
use pa_record::{Numbered, Tally};
use pa_rules::{cache_place, changed_by, class_total, no_sums};
use pa_slot::OutOfMemory;
use pa_trace::MOST_PARTITIONS;
use std::alloc::Global;
use std::marker::Model;
use std::mem;

const PARTITIONS: usize = MOST_PARTITIONS as usize;

// The least number of unused entries that are put before the free slots.
const LEAST_UNUSED: usize = 4;

// Free slots, front first. They are seen as the list of them. They come after some entries that are unused.
#[derive(Drop)]
pub(crate) struct FreeSlots {
    slots: Vec<Numbered>,
    unused: usize,
}

impl Model for FreeSlots {
    ghost use Rattle.std.specs.Prelude.{◌≤◌, List, drop, length};
    ghost use Rattle.pa_record.specs.declared.numbered.Numbered.{Numbered};

    ghost Value = { List Numbered };

    ghost view = { λ f. drop f.unused f.slots.items };

    ghost invariant = { λ f. f.unused ≤ length f.slots.items };
}

impl FreeSlots {
    // No slots.
    pub(crate) fn new(alloc: Global) -> FreeSlots
        ensures { result ≡ [] }
    {
        FreeSlots {
            slots: Vec::new(alloc),
            unused: 0,
        }
    }

    // Replaces these slots by others.
    pub(crate) fn refill(&mut self, slots: &[Numbered]) -> Result<(), OutOfMemory>
        ensures slots { OnOk result (self.new ≡ slots.now) }
        ensures none { OnErr result (self.new ≡ []) }
    {
        self.clear();
        self.slots.extend_from_slice(slots)?;
        Ok(())
    }

    // Puts a slot at the front.
    pub(crate) fn put_front(&mut self, slot: Numbered) -> Result<(), OutOfMemory>
        ensures put { OnOk result (self.new ≡ slot ∷ self.old) }
        ensures same { OnErr result (self.new ≡ self.old) }
    {
        if self.unused == 0 {
            self.unused = put_unused(&mut self.slots)?;
        }
        self.unused -= 1;
        self.slots[self.unused] = slot;
        Ok(())
    }

    // Drops the front, if there is one.
    pub(crate) fn drop_front(&mut self)
        ensures { self.new ≡ drop 1 self.old }
    {
        if self.unused < self.slots.len() {
            self.unused += 1;
        }
    }

    pub(crate) fn items(&self) -> &[Numbered]
        ensures { result.now ≡ self.now }
    {
        &self.slots[self.unused..]
    }

    pub(crate) fn is_empty(&self) -> bool
        ensures { IsTrue result ↔ (self.now ≡ []) }
    {
        self.len() == 0
    }

    fn len(&self) -> usize
        ensures { result ≡ length self.now }
    {
        self.slots.len() - self.unused
    }

    fn clear(&mut self)
        ensures { self.new ≡ [] }
    {
        self.slots.clear();
        self.unused = 0;
    }

    // Keeps the first `count` slots.
    pub(crate) fn keep(&mut self, count: usize)
        ensures { self.new ≡ take count self.old }
    {
        if count < self.len() {
            self.slots.truncate(self.unused + count);
        }
    }
}

// A thread's lists of free slots, at most 64 each: of each of four partitions one of each class of the version. Beside them is what those
// of each partition have together.
#[derive(Drop)]
pub(crate) struct ThreadLists {
    version: u32,
    lists: Vec<FreeSlots>,
    sums: [Tally; MOST_PARTITIONS as usize],
}

impl Model for ThreadLists {
    ghost use Rattle.pa_audit_holders.specs.Lists.{AreSummed, VersionLists};

    ghost Value = { VersionLists };

    ghost view = { λ t. record { version = t.version; lists = t.lists.items } };

    ghost invariant = { λ t. AreSummed (record { version = t.version; lists = t.lists.items }) t.sums };
}

impl ThreadLists {
    // Lists that are all empty.
    pub(crate) fn new(alloc: Global, version: u32) -> Result<ThreadLists, OutOfMemory>
        ensures version { IfOk result (λ t. t.version ≡ version) }
        ensures empty { IfOk result (λ t. cache_in t ≡ (λ p class. [])) }
    {
        let mut lists = Vec::new(alloc);
        for _ in 0..MOST_PARTITIONS * class_total(version) {
            lists.push(FreeSlots::new(alloc))?;
        }
        Ok(ThreadLists {
            version,
            lists,
            sums: no_sums(),
        })
    }

    // The version of the run.
    pub(crate) fn version(&self) -> u32
        ensures { result ≡ self.now.version }
    {
        self.version
    }

    // Empties all lists.
    pub(crate) fn clear(&mut self)
        ensures version { self.new.version ≡ self.old.version }
        ensures empty { cache_in self.new ≡ (λ p class. []) }
    {
        clear_all(&mut self.lists, self.version, &self.sums);
        self.sums = no_sums();
    }

    // The slots of a partition's list, front first.
    pub(crate) fn list(&self, partition: u32, class: Class) -> &[Numbered]
        requires partition { partition < most_partitions }
        requires class { HasClass self.now.version class }
        ensures slots { result.now ≡ cache_in self.now partition class }
        ensures few { length result.now ≤ 64 }
    {
        self.lists[cache_place(self.version, partition, class)].items()
    }

    // Replaces the slots of a partition's list by others, at most 64, and returns the old ones.
    pub(crate) fn replace(&mut self, partition: u32, class: Class, slots: FreeSlots) -> FreeSlots
        requires partition { partition < most_partitions }
        requires class { HasClass self.old.version class }
        requires few { length slots ≤ 64 }
        ensures version { self.new.version ≡ self.old.version }
        ensures slots { result ≡ cache_in self.old partition class }
        ensures few { length result ≤ 64 }
        ensures after { cache_in self.new ≡ with_list (cache_in self.old) partition class slots }
    {
        let at = cache_place(self.version, partition, class);
        let after = slots.len() as u32;
        let replaced = mem::replace(&mut self.lists[at], slots);
        let before = replaced.len() as u32;
        let sum = changed_by(self.sums[partition as usize], class, before, after);
        self.sums[partition as usize] = sum;
        replaced
    }

    // What the lists of a partition have together.
    pub(crate) fn sum(&self, partition: u32) -> Tally
        requires partition { partition < most_partitions }
        ensures listed { IsTallyOf (cache_in self.now partition) result }
        ensures few { result.slots ≤ 10880 }
        ensures small { result.bytes ≤ 10695475200 }
    {
        self.sums[partition as usize]
    }
}

// Puts unused entries before the slots, more than there are slots. Returns how many.
fn put_unused(slots: &mut Vec<Numbered>) -> Result<usize, OutOfMemory>
    ensures many { IfOk result (λ unused. 1 ≤ unused) }
    ensures within { IfOk result (λ unused. unused ≤ length slots.new.items) }
    ensures slots { IfOk result (λ unused. drop unused slots.new.items ≡ slots.old.items) }
    ensures same { OnErr result (slots.new.items ≡ slots.old.items) }
{
    let len = slots.len();
    let unused = len.saturating_add(LEAST_UNUSED);
    let nothing = Numbered::default();
    slots.resize(len.saturating_add(unused), nothing)?;
    slots.rotate_right(unused);
    Ok(unused)
}

// Empties the lists of a version, of which each partition's have this sum.
fn clear_all(lists: &mut Vec<FreeSlots>, version: u32, sums: &[Tally; MOST_PARTITIONS as usize])
    requires { AreSummed (record { version = version; lists = lists.old.items }) sums.now }
    ensures many { length lists.new.items ≡ length lists.old.items }
    ensures empty { All (λ slots. slots ≡ []) lists.new.items }
{
    for partition in 0..PARTITIONS {
        let count = class_total(version) as usize;
        clear_from(lists, partition * count, count, sums[partition].slots);
    }
}

// Empties a partition's lists, which begin at this index, are so many, and have this many slots.
// Those after the last of them that has some are left alone.
fn clear_from(lists: &mut Vec<FreeSlots>, first: usize, count: usize, slots: u64)
    requires few { count ≤ 111 }
    requires within { first + count ≤ length lists.old.items }
    requires slots { slots ≡ listed_slots (λ at. slice_index_or lists.old.items (first + at) []) 0 count }
    ensures many { length lists.new.items ≡ length lists.old.items }
    ensures these { (at : ℕ) → first ≤ at → at < first + count → slice_index_or lists.new.items at [] ≡ [] }
    ensures others { (at : ℕ) → (first ≤ at → first + count ≤ at)
        → slice_index_or lists.new.items at [] ≡ slice_index_or lists.old.items at [] }
{
    let mut rest = slots as usize;
    let mut at = first;
    'lists: while rest > 0 {
        rest -= lists[at].len();
        lists[at].clear();
        at += 1;
    }
}
