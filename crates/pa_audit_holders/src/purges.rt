ghost use Rattle.std.specs.Prelude.{◌≡◌, ◌<◌, ◌≤◌, ◌↔◌, All, IsTrue, length, map};
ghost use Rattle.pa_trace.specs.Limits.{most_partitions};
ghost use Rattle.pa_rules.specs.Roots.{journal_at};
ghost use Rattle.pa_rules.specs.Caches.{PurgedRow, acts_of};
ghost use Rattle.pa_audit_holders.specs.Gives.{PurgesAll, TellsPurge};
ghost use Rattle.pa_audit_holders.specs.Lines.{did_at};
ghost use Rattle.pa_audit_holders.specs.Lists.{cache_in};
ghost use Rattle.pa_audit_holders.specs.Rows.{TellsRow};

use crate::books::Page;
use crate::gives::{ends_with_purge, gives_from};
use crate::lists::ThreadLists;
use pa_buckets::{Class, first_class};
use pa_dense::DenseEntry;

// A purge gave all lists back, and its answer says how many slots they had.
pub(crate) fn purged(page: &Page<'_>, slots: u32, cache: &mut ThreadLists) -> bool
    ensures version { cache.new.version ≡ cache.old.version }
    ensures row { TellsRow (PurgedRow page.now.partitions (journal_at page.now.roots) page.now.told slots (cache_in cache.old))
        (cache_in cache.new) result }
{
    if !purges_all(page, slots, cache) {
        return false;
    }
    cache.clear();
    true
}

// Whether the line's entries purge all partitions, and their lists have that many slots.
fn purges_all(page: &Page<'_>, slots: u32, cache: &ThreadLists) -> bool
    ensures { IsTrue result ↔ PurgesAll page.now.partitions (journal_at page.now.roots) page.now.told.line slots (cache_in cache.now) }
{
    let mut left = slots as usize;
    for partition in 0..page.partitions() {
        let Some(rest) = purges_one(page, partition, left, cache) else {
            return false;
        };
        left = rest;
    }
    left == 0
}

// How many slots are left to be counted after the line's entries purged this partition. None if they don't purge it,
// or if its lists have more slots.
fn purges_one(page: &Page<'_>, partition: u32, slots: usize, cache: &ThreadLists) -> Option<usize>
    requires partition { partition < most_partitions }
    ensures { TellsPurge (acts_of (journal_at page.now.roots) page.now.told.line partition) (cache_in cache.now partition) slots result }
{
    let places = page.places(partition);
    purges_lists(page.journal(partition), places, partition, slots, cache)
}

// How many slots are left to be counted after the entries at these indices purged this partition. None if they don't purge it,
// or if its lists have more slots.
fn purges_lists(
    journal: &[DenseEntry],
    places: &[u32],
    partition: u32,
    slots: usize,
    cache: &ThreadLists,
) -> Option<usize>
    requires among { All (λ j. j < length journal.now) places.now }
    requires partition { partition < most_partitions }
    ensures { TellsPurge (map (did_at journal.now) places.now) (cache_in cache.now partition) slots result }
{
    let mut left = slots;
    let mut rest = cache.sum(partition).slots as usize;
    let mut number = first_class(cache.version());
    let mut at = 0;
    'lists: while rest > 0 {
        let list = cache.list(partition, Class::of(number).unwrap());
        if list.len() > left {
            return None;
        }
        let Some(next) = gives_from(journal, places, at, list) else {
            return None;
        };
        left -= list.len();
        rest -= list.len();
        number += 1;
        at = next;
    }
    if ends_with_purge(journal, places, at) {
        Some(left)
    } else {
        None
    }
}
