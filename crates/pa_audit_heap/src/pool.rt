ghost use Rattle.std.specs.Prelude.{◌≡◌, ℕ, ◌-◌, ◌<◌, ◌≤◌, ◌^◌, ◌↔◌, IfOk, IsTrue, Contains, length};
ghost use Rattle.pa_record.specs.Pool.{IsOneTake, IsPartitions, PoolActFits, pool_next};
ghost use Rattle.pa_record.specs.declared.taken.Taken.{Taken as Run};
ghost use Rattle.pa_rules.specs.declared.verdict.Place.TheVariants as places;
ghost use Rattle.pa_rules.specs.Roots.{journal_at};
ghost use Rattle.pa_rules.specs.HeapDemands.{PoolDemand};
ghost use Rattle.pa_audit_heap.specs.Namings.{IsNaming, IsNamed};
ghost use Rattle.pa_audit_heap.specs.Ordered.{AreOfThreads16};
ghost use Rattle.pa_rules.specs.Rising.{RiseByLine};
ghost use Rattle.pa_audit_heap.specs.Parts.{ComesAt, FitsPool, IsNamedAt};
ghost use Rattle.pa_rules.specs.Tells.{TellsFirst};

use crate::first::earlier;
use crate::namings::{Naming, namings_of};
use crate::order::Order;
use pa_dense::DenseJournal;
use pa_place::PoolPlan;
use pa_record::{PoolAct, PoolEntry, Taken};
use pa_rules::Played;
use pa_slot::OutOfMemory;
use std::alloc::Global;

/// The first entry of the pool that doesn't meet what the clause `pool` requires of it, by its index. The records are in the order of
/// their lines, and `supers` is the number of the region's super pages.
pub fn pool_meets(
    alloc: Global,
    supers: u32,
    records: &[Played],
    pools: &[PoolEntry],
    roots: &[DenseJournal],
) -> Result<Option<u32>, OutOfMemory>
    requires supers { supers ≤ 64 }
    requires records { length records.now < 2 ^ 32 }
    requires rising { RiseByLine records.now }
    requires threads { AreOfThreads16 records.now }
    requires few { length pools.now < 2 ^ 32 - 1 }
    requires partitions { length roots.now < 2 ^ 32 }
    ensures { IfOk result (TellsFirst (λ j. PoolDemand supers records.now pools.now (journal_at roots.now) (places.Pool j))) }
{
    let fits = acts_fit(alloc, supers, pools)?;
    let named = are_named(alloc, pools, roots)?;
    let comes = come_in_order(records, pools);
    Ok(earlier(fits, earlier(named, comes)))
}

// The first entry that doesn't fit the pool after those before it.
fn acts_fit(alloc: Global, supers: u32, pools: &[PoolEntry]) -> Result<Option<u32>, OutOfMemory>
    requires supers { supers ≤ 64 }
    requires few { length pools.now < 2 ^ 32 - 1 }
    ensures { IfOk result (TellsFirst (FitsPool supers pools.now)) }
{
    let mut plan = PoolPlan::new(alloc, supers)?;
    let mut at = 0;
    for entry in pools {
        if !act_fits(&mut plan, pools, *entry) {
            return Ok(Some(at));
        }
        at += 1;
    }
    Ok(None)
}

// Whether the entry fits the pool. If it does, the pool makes it.
pub(crate) fn act_fits(plan: &mut PoolPlan, pools: &[PoolEntry], entry: PoolEntry) -> bool
    requires { plan.old.entries < 2 ^ 32 - 1 }
    ensures fits { IsTrue result ↔ PoolActFits pools.now entry.partition entry.act plan.old }
    ensures next { IsTrue result → plan.new ≡ pool_next entry.act plan.old }
{
    match entry.act {
        PoolAct::Take { count, first } => count >= 1 && plan.take(count) == first,
        PoolAct::Give { count, first } => {
            let taken = is_taken(plan.runs(), pools, entry.partition, first, count);
            if taken {
                plan.give(first, count);
            }
            taken
        }
    }
}

// Whether one of the runs has exactly these super pages, and an entry of the pool took it for the partition.
fn is_taken(runs: &[Taken], pools: &[PoolEntry], partition: u32, first: u32, count: u32) -> bool
    ensures { IsTrue result ↔
        ((t : Run) × Contains runs.now t × (t.first ≡ first) × (t.count ≡ count) × IsPartitions pools.now partition t) }
{
    runs.iter().any(|run| run.first == first
        && run.count == count
        && is_partitions(pools, partition, *run))
}

// Whether the run of super pages was taken for the partition, as its entry says.
fn is_partitions(pools: &[PoolEntry], partition: u32, run: Taken) -> bool
    ensures { IsTrue result ↔ IsPartitions pools.now partition run }
{
    match pools.get(run.entry as usize) {
        Some(entry) => entry.partition == partition,
        None => false,
    }
}

// The first entry that the journals don't name exactly once, with its partition and line.
fn are_named(
    alloc: Global,
    pools: &[PoolEntry],
    roots: &[DenseJournal],
) -> Result<Option<u32>, OutOfMemory>
    requires few { length pools.now < 2 ^ 32 - 1 }
    requires partitions { length roots.now < 2 ^ 32 }
    ensures { IfOk result (TellsFirst (IsNamedAt pools.now (journal_at roots.now))) }
{
    let namings = namings_of(alloc, pools.len(), roots)?;
    let mut at = 0;
    for entry in pools {
        if !is_named(namings[at as usize], *entry) {
            return Ok(Some(at));
        }
        at += 1;
    }
    Ok(None)
}

// Whether the naming is the only one, and is of the entry's partition and line.
fn is_named(naming: Naming, entry: PoolEntry) -> bool
    ensures { IsTrue result ↔ (naming ≡ Naming.Once entry.partition entry.line) }
{
    match naming {
        Naming::Once { partition, line } => partition == entry.partition && line == entry.line,
        _ => false,
    }
}

// The first entry before which one comes that should come after it.
fn come_in_order(records: &[Played], pools: &[PoolEntry]) -> Option<u32>
    requires records { length records.now < 2 ^ 32 }
    requires rising { RiseByLine records.now }
    requires threads { AreOfThreads16 records.now }
    requires few { length pools.now < 2 ^ 32 - 1 }
    ensures { TellsFirst (ComesAt records.now pools.now) result }
{
    let mut order = Order::new();
    let mut at = 0;
    for entry in pools {
        if !order.admits(records, entry.line) {
            return Some(at);
        }
        at += 1;
    }
    None
}
