//! What a thread owes to the totals words is added to them, and what these say of a partition.
ghost use Rattle.std.specs.Prelude.{◌≡◌, ◌+◌, ◌-◌, ◌*◌, ◌<◌};
ghost use Rattle.pa_trace.specs.Limits.{most_partitions};
ghost use Rattle.pa_region.specs.Views.{HasEveryStake};
ghost use Rattle.pa_totals.specs.Settled.{added_in, after_settle_all, none_owed};
ghost use Rattle.pa_op_specs.specs.Workers.{HasItsStake, IsCovered};

use crate::heap::Heap;
use crate::stock::Stock;
use pa_region::{Name, Region, Seat};
use pa_totals::{Owed, settle_all, whole_settlings_leave};
use pa_trace::MOST_PARTITIONS;

impl<N: Name> Stock<N> {
    /// Adds what the thread owes to the totals words of each partition, in bytes. It owes nothing then.
    pub fn settle_totals(&mut self, region: &Region, owed: &mut [Owed; MOST_PARTITIONS as usize])
        requires region { region.now ≡ N.region }
        requires stake { HasItsStake self.old }
        requires covered { IsCovered owed.old self.old }
        ensures settled { owed.new ≡ none_owed }
        ensures view { self.new ≡ record self.old { view = after_settle_all owed.old self.old.view } }
        ensures stake { HasItsStake self.new }
        ensures covered { IsCovered owed.new self.new }
    {
        whole_settlings_leave();
        settle_all(region, &mut self.seat, owed);
    }
}

impl<N: Name> Heap<N> {
    /// The bytes of a partition's live slots, and of its quarantined ones, by its totals words: what was issued and not freed, and
    /// what entered the quarantine and didn't leave it. If more had gone out than in, 0.
    pub fn balance(&self, seat: &mut Seat, partition: u32) -> (u64, u64)
        requires region { seat.old.region ≡ N.region }
        requires stakes { HasEveryStake seat.old.view }
        requires partition { partition < most_partitions }
        ensures seat { seat.new ≡ seat.old }
        ensures live { result.0 ≡ added_in seat.old.view (4 * partition) - added_in seat.old.view (4 * partition + 1) }
        ensures quarantined { result.1 ≡ added_in seat.old.view (4 * partition + 2) - added_in seat.old.view (4 * partition + 3) }
    {
        pa_totals::balance(&self.region, seat, partition)
    }
}
