//! What the roots of a heap have, as the report of a run counts it.
ghost use Rattle.std.specs.Prelude.{◌≡◌, ◌<◌, []};
ghost use Rattle.pa_trace.specs.Limits.{most_partitions};
ghost use Rattle.pa_region.specs.Views.{HasEveryStake, least_stake};
ghost use Rattle.pa_region.specs.Lending.{Lends};
ghost use Rattle.pa_thread_state.specs.Censuses.{TellsCensus, HasSameLists};

use crate::heap::Heap;
use crate::roots::with_root;
use pa_record::Census;
use pa_region::{Name, Seat};
use pa_root::{Root, pools_are_read};
use std::sync::{Mutex, Wait};

impl<N: Name> Heap<N> {
    /// What the root of a partition has, by its journal so far, all of which the seat has seen then. It makes no entry. A seat
    /// that has every stake sees nothing new by it.
    pub fn census<R: Wait>(&self, rt: &R, seat: &mut Seat, partition: u32) -> Census
        requires region { seat.old.region ≡ N.region }
        requires partition { partition < most_partitions }
        ensures region { seat.new.region ≡ N.region }
        ensures keeps { Lends (least_stake seat.old.view.stakes) [] seat.old.view seat.new.view }
        ensures taken { TellsCensus partition seat.new.view result }
        ensures same { HasEveryStake seat.old.view → HasSameLists seat.old.view seat.new.view }
    {
        with_root!(self, partition, root => ask(rt, self, seat, root))
    }
}

// The census of the root, which is behind the lock.
fn ask<N: Name, R: Wait, const P: u32>(
    rt: &R,
    heap: &Heap<N>,
    seat: &mut Seat,
    root: &Mutex<Root<N, P>>,
) -> Census
    requires region { seat.old.region ≡ N.region }
    ensures region { seat.new.region ≡ N.region }
    ensures keeps { Lends (least_stake seat.old.view.stakes) [] seat.old.view seat.new.view }
    ensures taken { TellsCensus P seat.new.view result }
    ensures same { HasEveryStake seat.old.view → HasSameLists seat.old.view seat.new.view }
{
    pools_are_read();
    let mut guard = root.lock(rt);
    let root = &mut *guard;
    root.kept();
    seat.aware();
    let census = root.census(heap.region(), seat);
    seat.aware();
    census
}
