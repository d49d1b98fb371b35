ghost use Rattle.std.specs.Prelude.{◌≡◌, ℕ, ◌-◌, ◌<◌, ◌≤◌, ◌^◌, ◌↔◌, min, IfOk, IsTrue, List, OnErr, length};
ghost use Rattle.pa_record.specs.declared.pool.PoolEntry.{PoolEntry as Taken};
ghost use Rattle.pa_record.specs.declared.root.RootEntry.{RootEntry as Entry};
ghost use Rattle.pa_record.specs.Sound.{AsksFrom, least_after};
ghost use Rattle.pa_rules.specs.declared.played.Played.{Played as Record};
ghost use Rattle.pa_rules.specs.Rising.{RiseByLine};
ghost use Rattle.pa_audit_heap.specs.Ordered.{AreOfThreads16};
ghost use Rattle.pa_audit_heap.specs.Replayed.{DoAllFit};
ghost use Rattle.pa_audit_heap.specs.Walking.{IsWalked, TellsWalk};

use crate::censuses::Censuses;
use crate::lookup::record_of;
use crate::made::makes_entry;
use crate::namings::asked_by;
use crate::order::Order;
use crate::replay::Replay;
use pa_dense::DenseEntry;
use pa_record::PoolEntry;
use pa_rules::Played;
use pa_slot::OutOfMemory;
use std::alloc::Global;

// A partition's journal, as far as its entries have met the clause `roots`: their order, the root and its pool, the
// first entry of the pool that the next one may name, and what the root had at the end of each phase that is over.
#[derive(Drop)]
pub(crate) struct Walk {
    pub(crate) order: Order,
    pub(crate) replay: Replay,
    pub(crate) least: u64,
    pub(crate) censuses: Censuses,
}

impl Walk {
    // The walk before the first entry.
    pub(crate) fn new(alloc: Global, supers: u32) -> Result<Walk, OutOfMemory>
        requires { supers ≤ 64 }
        ensures { IfOk result (λ w.
            (phases : ℕ) (ps : List Record) (pools : List Taken) (es : List Entry) → IsWalked supers phases ps pools es 0 w) }
    {
        let replay = Replay::new(alloc, supers)?;
        Ok(Walk {
            order: Order::new(),
            replay,
            least: 0,
            censuses: Censuses::new(alloc),
        })
    }

    // Whether the entry at this index, the next one, meets its clause. If it does, it is played.
    pub(crate) fn meets_next(
        &mut self,
        supers: u32,
        partitions: u32,
        phases: u32,
        records: &[Played],
        pools: &[PoolEntry],
        partition: u32,
        journal: &[DenseEntry],
        at: usize,
    ) -> Result<bool, OutOfMemory>
        requires records { length records.now < 2 ^ 32 }
        requires rising { RiseByLine records.now }
        requires threads { AreOfThreads16 records.now }
        requires pool { DoAllFit supers pools.now }
        requires few { length pools.now < 2 ^ 32 - 1 }
        requires entries { length journal.now < 2 ^ 32 }
        requires within { at < length journal.now }
        requires walked { IsWalked supers phases records.now pools.now journal.now at self.old }
        ensures walks { IfOk result (TellsWalk supers partitions phases records.now pools.now partition journal.now at self.new) }
        ensures root { OnErr result (self.new.replay.root ≡ self.old.replay.root) }
        ensures least { OnErr result (self.new.least ≡ self.old.least) }
    {
        let entry = &journal[at];
        let Some(found) = record_of(records, entry.line()) else {
            return Ok(false);
        };
        if partition >= partitions || !makes_entry(pools, partition, entry.act(), found) {
            return Ok(false);
        }
        let asked = asked_by(entry.act());
        if !rises(self.least, asked) {
            return Ok(false);
        }
        if !self.order.enter(found) {
            return Ok(false);
        }
        let over = phases_before(found.phase, phases);
        self.censuses.fill_up(&self.replay.root, over)?;
        let played = self.replay.play(pools, entry.act())?;
        if !played {
            return Ok(false);
        }
        self.least = least_after(self.least, asked);
        Ok(true)
    }
}

// How many of the phases are over before an entry of this one.
fn phases_before(phase: u32, phases: u32) -> u32
    ensures { result ≡ min phases (phase - 1) }
{
    phases.min(phase.saturating_sub(1))
}

// Whether the entry of the pool that is named, if any, is this one or a later one.
fn rises(least: u64, asked: Option<u32>) -> bool
    ensures { IsTrue result ↔ AsksFrom least asked }
{
    match asked {
        Some(pool) => u64::from(pool) >= least,
        None => true,
    }
}

// The first entry of the pool that the next one may name.
fn least_after(least: u64, asked: Option<u32>) -> u64
    requires { least ≤ 2 ^ 32 }
    ensures next { result ≡ least_after least asked }
    ensures bound { result ≤ 2 ^ 32 }
{
    match asked {
        Some(pool) => u64::from(pool) + 1,
        None => least,
    }
}
