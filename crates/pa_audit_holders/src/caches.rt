ghost use Rattle.std.specs.Prelude.{◌≡◌, ◌≤◌, All, IfOk, None, OnOk, length};
ghost use Rattle.pa_trace.specs.Limits.{most_threads};
ghost use Rattle.pa_audit_records.specs.Cuts.{AreRecordCuts};
ghost use Rattle.pa_rules.specs.declared.verdict.Place.TheVariants as places;
ghost use Rattle.pa_rules.specs.Roots.{journal_at};
ghost use Rattle.pa_rules.specs.Caches.{no_caches};
ghost use Rattle.pa_rules.specs.HeapDemands.{CachesDemand};
ghost use Rattle.pa_rules.specs.Tells.{TellsFirst};
ghost use Rattle.pa_audit_holders.specs.Cached.{CachesSoFar, HaveCached, HaveListed, TellsPlayed};
ghost use Rattle.pa_audit_holders.specs.Lists.{caches_in};
ghost use Rattle.pa_audit_holders.specs.Rows.{TellsNext};

use crate::books::{Books, Page};
use crate::cached::all_listed;
use crate::lists::ThreadLists;
use crate::rows::plays;
use pa_record::Tally;
use pa_slot::OutOfMemory;
use pa_trace::{MOST_PARTITIONS, MOST_THREADS};
use std::alloc::Global;

/// What the walk over the records found: the first that doesn't fit, and, if each fits, what the threads' lists had of each of four
/// partitions at the end of each phase.
#[derive(Drop)]
pub struct CachesFound {
    pub misfit: Option<u32>,
    pub cached: Vec<[Tally; MOST_PARTITIONS as usize]>,
}

/// The index of the first record whose line's entries, or whose answer, aren't those that its thread's lists of free slots require. If
/// there is none, what the lists of the first threads had at the end of each phase is beside it:
/// the records of the first phases end at these indices.
pub fn caches_meet(
    alloc: Global,
    books: &Books<'_>,
    threads: u32,
    ends: &[usize],
) -> Result<CachesFound, OutOfMemory>
    requires threads { threads ≤ most_threads }
    requires ends { AreRecordCuts books.now.records ends.now }
    ensures misfit { IfOk result (λ found.
        TellsFirst (λ i. CachesDemand books.now.partitions (journal_at books.now.roots) books.now.records (places.Record i)) found.misfit) }
    ensures many { IfOk result (λ found. found.misfit ≡ None → length found.cached.items ≡ length ends.now) }
    ensures cached { IfOk result (λ found. found.misfit ≡ None
        → HaveCached books.now.partitions threads (journal_at books.now.roots) books.now.records found.cached.items) }
{
    let mut caches = no_lists(alloc, books.version())?;
    let mut listed = all_listed(threads, caches.as_slice());
    let mut cached = Vec::new(alloc);
    let mut from = 0;
    for end in ends {
        if from < *end {
            let misfit = play_phase(alloc, books, &mut caches, from, *end)?;
            if misfit.is_some() {
                return Ok(CachesFound { misfit, cached });
            }
            listed = all_listed(threads, caches.as_slice());
            from = *end;
        }
        cached.push(listed)?;
    }
    let misfit = play_phase(alloc, books, &mut caches, from, books.count())?;
    Ok(CachesFound { misfit, cached })
}

// Plays the records at these indices. Returns the first that doesn't fit.
fn play_phase(
    alloc: Global,
    books: &Books<'_>,
    caches: &mut Vec<ThreadLists>,
    from: usize,
    end: usize,
) -> Result<Option<u32>, OutOfMemory>
    requires order { from ≤ end }
    requires end { end ≤ length books.now.records }
    requires sixteen { length caches.old.items ≡ most_threads }
    requires version { All (λ x. x.version ≡ books.now.version) caches.old.items }
    requires before { CachesSoFar books.now.partitions (journal_at books.now.roots) books.now.records (caches_in caches.old.items) from }
    ensures sixteen { OnOk result (length caches.new.items ≡ most_threads) }
    ensures version { OnOk result (All (λ x. x.version ≡ books.now.version) caches.new.items) }
    ensures played { IfOk result
        (TellsPlayed books.now.partitions (journal_at books.now.roots) books.now.records (caches_in caches.new.items) end) }
{
    for at in from..end {
        let page = books.page(at);
        let fits = play(alloc, &page, caches)?;
        if !fits {
            return Ok(Some(at as u32));
        }
    }
    Ok(None)
}

// The lists of 16 threads of a run of the version, which are empty.
fn no_lists(alloc: Global, version: u32) -> Result<Vec<ThreadLists>, OutOfMemory>
    ensures version { IfOk result (λ lists. All (λ x. x.version ≡ version) lists.items) }
    ensures many { IfOk result (λ lists. length lists.items ≡ most_threads) }
    ensures none { IfOk result (λ lists. caches_in lists.items ≡ no_caches) }
{
    let mut lists = Vec::new(alloc);
    for _ in 0..MOST_THREADS {
        let empty = ThreadLists::new(alloc, version)?;
        lists.push(empty)?;
    }
    Ok(lists)
}

// Whether a record's row leads on from the lists. If it does, they are the next ones.
fn play(alloc: Global, page: &Page<'_>, caches: &mut Vec<ThreadLists>) -> Result<bool, OutOfMemory>
    requires threads { length caches.old.items ≡ most_threads }
    requires version { All (λ x. x.version ≡ page.now.version) caches.old.items }
    ensures next { IfOk result (TellsNext page.now.partitions (journal_at page.now.roots) page.now.told
        (caches_in caches.old.items) (caches_in caches.new.items)) }
    ensures threads { length caches.new.items ≡ most_threads }
    ensures version { All (λ x. x.version ≡ page.now.version) caches.new.items }
{
    let cache = &mut caches[page.thread() as usize];
    let fits = plays(alloc, page, cache)?;
    Ok(fits)
}
