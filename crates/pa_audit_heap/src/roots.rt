ghost use Rattle.std.specs.Prelude.{◌≡◌, ℕ, ◌-◌, ◌<◌, ◌≤◌, ◌^◌, IfOk, None, length};
ghost use Rattle.pa_rules.specs.declared.verdict.Place.TheVariants as places;
ghost use Rattle.pa_rules.specs.Roots.{journal_at};
ghost use Rattle.pa_rules.specs.HeapDemands.{RootsDemand};
ghost use Rattle.pa_rules.specs.Rising.{RiseByLine};
ghost use Rattle.pa_audit_heap.specs.Ordered.{AreOfThreads16};
ghost use Rattle.pa_audit_heap.specs.Replayed.{DoAllFit};
ghost use Rattle.pa_audit_heap.specs.Tells.{TellsEntry};
ghost use Rattle.pa_audit_heap.specs.Censuses.{HaveAllCensuses};
ghost use Rattle.pa_audit_heap.specs.Found.{TellsJournal};

use crate::censuses::Censuses;
use crate::walk::Walk;
use pa_dense::{DenseEntry, DenseJournal};
use pa_record::PoolEntry;
use pa_rules::Played;
use pa_slot::OutOfMemory;
use std::alloc::Global;

/// What the walk over the journals found: the first entry that doesn't meet its clause, by its partition and its index, or, if each does,
/// what each partition's root has at the end of each phase.
#[derive(Drop)]
pub struct JournalsFound {
    pub misfit: Option<(u32, u32)>,
    pub censuses: Vec<Censuses>,
}

// What the walk over one journal found: the index of the first entry that doesn't meet its clause, or the root's censuses.
#[derive(Drop)]
pub(crate) enum JournalFound {
    Misfit(u32),
    Meets(Censuses),
}

/// The first entry of the journals that doesn't meet what the clause `roots` requires of it, and the censuses if each does. Each entry of
/// the pool meets its clause, and the records are in the order of their lines. `supers` is the number of the region's super pages.
pub fn journals_meet(
    alloc: Global,
    supers: u32,
    partitions: u32,
    phases: u32,
    records: &[Played],
    pools: &[PoolEntry],
    roots: &[DenseJournal],
) -> Result<JournalsFound, OutOfMemory>
    requires supers { supers ≤ 64 }
    requires phases { phases < 2 ^ 32 - 1 }
    requires records { length records.now < 2 ^ 32 }
    requires rising { RiseByLine records.now }
    requires threads { AreOfThreads16 records.now }
    requires pool { DoAllFit supers pools.now }
    requires few { length pools.now < 2 ^ 32 - 1 }
    requires journals { length roots.now < 2 ^ 32 }
    requires entries { (p : ℕ) → length (journal_at roots.now p) < 2 ^ 32 }
    ensures misfit { IfOk result (λ found.
        TellsEntry (λ p j. RootsDemand partitions records.now pools.now (journal_at roots.now) (places.Root p j)) found.misfit) }
    ensures censuses { IfOk result (λ found. found.misfit ≡ None
        → HaveAllCensuses partitions phases records.now pools.now (journal_at roots.now) found.censuses.items) }
{
    let mut censuses = Vec::new(alloc);
    for partition in 0..partitions.max(roots.len() as u32) {
        let found = journal_meets(
            alloc, supers, partitions, phases, records, pools, roots, partition,
        )?;
        match found {
            JournalFound::Misfit(at) => {
                let misfit = Some((partition, at));
                return Ok(JournalsFound { misfit, censuses });
            }
            JournalFound::Meets(found) => censuses.push(found)?,
        }
    }
    Ok(JournalsFound {
        misfit: None,
        censuses,
    })
}

// The first entry of a partition's journal that doesn't meet the demand, or the censuses.
fn journal_meets(
    alloc: Global,
    supers: u32,
    partitions: u32,
    phases: u32,
    records: &[Played],
    pools: &[PoolEntry],
    roots: &[DenseJournal],
    partition: u32,
) -> Result<JournalFound, OutOfMemory>
    requires supers { supers ≤ 64 }
    requires records { length records.now < 2 ^ 32 }
    requires rising { RiseByLine records.now }
    requires threads { AreOfThreads16 records.now }
    requires pool { DoAllFit supers pools.now }
    requires few { length pools.now < 2 ^ 32 - 1 }
    requires entries { length (journal_at roots.now partition) < 2 ^ 32 }
    ensures { IfOk result (TellsJournal partitions phases records.now pools.now (journal_at roots.now) partition) }
{
    let journal = journal_of(roots, partition);
    let mut walk = Walk::new(alloc, supers)?;
    for at in 0..journal.len() {
        let meets = walk.meets_next(
            supers, partitions, phases, records, pools, partition, journal, at,
        )?;
        if !meets {
            return Ok(JournalFound::Misfit(at as u32));
        }
    }
    let mut censuses = walk.censuses;
    censuses.fill_up(&walk.replay.root, phases)?;
    Ok(JournalFound::Meets(censuses))
}

// The entries of a partition's journal, and none if it has no journal.
fn journal_of(roots: &[DenseJournal], partition: u32) -> &[DenseEntry]
    ensures { result.now ≡ journal_at roots.now partition }
{
    match roots.get(partition as usize) {
        Some(journal) => journal.entries(),
        None => &[],
    }
}
