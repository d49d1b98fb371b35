//! A purge of one partition: its lists go back, and its root decommits its empty spans.
ghost use Rattle.std.specs.Prelude.{◌≡◌, ◌<◌, ◌≤◌, IfOk, OnOk, OnErr};
ghost use Rattle.pa_trace.specs.Limits.{most_partitions};
ghost use Rattle.pa_region.specs.Views.{least_stake};
ghost use Rattle.pa_region.specs.Lending.{CanLend};
ghost use Rattle.pa_root.specs.Handing.{PurgeEnters};
ghost use Rattle.pa_op_specs.specs.Workers.{HasItsStake};
ghost use Rattle.pa_thread_state.specs.Purging.{PurgesRoot};
ghost use Rattle.pa_thread_state.specs.Stopping.{KeepsItsStake, StopsPartition};

use crate::heap::Heap;
use crate::lists::class_numbered;
use crate::roots::with_root;
use crate::stock::Stock;
use pa_buckets::first_class;
use pa_cells::slots_stay_seen;
use pa_region::{Name, Seat, kept_numbers_stay};
use pa_root::Root;
use pa_slot::OutOfMemory;
use std::sync::{Mutex, Wait};

impl<N: Name> Stock<N> {
    /// Gives all lists of a partition back, on this line, and purges its root. It goes through them while one that is left has a slot,
    /// and returns how many slots went back. If it runs out of memory, what was given back stays so, and the seat has the batch that the
    /// root refused, which is on no list.
    pub fn purge_partition<R: Wait>(
        &mut self,
        rt: &R,
        heap: &Heap<N>,
        line: u32,
        partition: u32,
    ) -> Result<u32, OutOfMemory>
        requires stake { HasItsStake self.old }
        requires partition { partition < most_partitions }
        ensures purges { IfOk result (λ slots. PurgesRoot line partition slots self.old self.new) }
        ensures few { IfOk result (λ slots. slots ≤ 10880) }
        ensures stake { OnErr result (KeepsItsStake self.old self.new) }
        ensures stops { OnErr result (StopsPartition line partition self.old self.new) }
        ensures budget { self.new.view.budget ≡ self.old.view.budget }
    {
        kept_numbers_stay();
        slots_stay_seen();
        self.kept();
        let slots = self.cached(partition).slots as u32;
        let mut left = slots;
        let mut number = first_class(self.version());
        'lists: while left > 0 {
            let class = class_numbered(number);
            self.kept();
            left -= self.count_listed(partition, class);
            self.give_tail(rt, heap, line, partition, class, 0)?;
            number += 1;
        }
        self.kept();
        purge_root(rt, heap, &mut self.seat, line, partition)?;
        self.seat.aware();
        Ok(slots)
    }
}

// Purges the root of this partition. If it runs out of memory, nothing changed.
fn purge_root<N: Name, R: Wait>(
    rt: &R,
    heap: &Heap<N>,
    seat: &mut Seat,
    line: u32,
    partition: u32,
) -> Result<(), OutOfMemory>
    requires region { seat.old.region ≡ N.region }
    requires partition { partition < most_partitions }
    requires lender { CanLend seat.old.view }
    ensures region { seat.new.region ≡ N.region }
    ensures entered { OnOk result (PurgeEnters (least_stake seat.old.view.stakes) partition line seat.old.view seat.new.view) }
    ensures err { OnErr result (seat.new ≡ seat.old) }
{
    with_root!(heap, partition, root => purge_in(rt, heap, root, seat, line))
}

// Purges the root behind this lock.
fn purge_in<N: Name, R: Wait, const P: u32>(
    rt: &R,
    heap: &Heap<N>,
    root: &Mutex<Root<N, P>>,
    seat: &mut Seat,
    line: u32,
) -> Result<(), OutOfMemory>
    requires region { seat.old.region ≡ N.region }
    requires lender { CanLend seat.old.view }
    ensures region { seat.new.region ≡ N.region }
    ensures entered { OnOk result (PurgeEnters (least_stake seat.old.view.stakes) P line seat.old.view seat.new.view) }
    ensures err { OnErr result (seat.new ≡ seat.old) }
{
    let mut locked = root.lock(rt);
    let root = &mut *locked;
    root.purge(heap.region(), seat, line)
}
