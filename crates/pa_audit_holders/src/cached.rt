ghost use Rattle.std.specs.Prelude.{◌≡◌, ◌+◌, ◌<◌, ◌≤◌, ◌^◌, length};
ghost use Rattle.pa_trace.specs.Limits.{most_partitions, most_threads};
ghost use Rattle.pa_audit_holders.specs.Cached.{HaveListed, IsListed};
ghost use Rattle.pa_audit_holders.specs.Lists.{caches_in};

use crate::lists::ThreadLists;
use pa_record::Tally;
use pa_trace::MOST_PARTITIONS;

// What the lists of the first threads have of each partition.
pub(crate) fn all_listed(threads: u32, caches: &[ThreadLists]) -> [Tally; MOST_PARTITIONS as usize]
    requires threads { threads ≤ most_threads }
    requires many { length caches.now ≡ most_threads }
    ensures { HaveListed threads (caches_in caches.now) result }
{
    [
        listed(threads, 0, caches),
        listed(threads, 1, caches),
        listed(threads, 2, caches),
        listed(threads, 3, caches),
    ]
}

fn listed(threads: u32, partition: u32, caches: &[ThreadLists]) -> Tally
    requires partition { partition < most_partitions }
    requires threads { threads ≤ most_threads }
    requires many { length caches.now ≡ most_threads }
    ensures { IsListed threads (caches_in caches.now) partition result }
{
    let mut sum = Tally { slots: 0, bytes: 0 };
    for thread in 0..threads {
        sum = sum.and(caches[thread as usize].sum(partition));
    }
    sum
}
