ghost use Rattle.std.specs.Prelude.{◌≡◌, ◌-◌, ◌*◌, ◌+◌, ◌<◌};
ghost use Rattle.pa_region.specs.Views.{HasEveryStake};
ghost use Rattle.pa_totals.specs.Settled.{added_in};

use pa_region::{Region, Seat};

/// The bytes of the partition's live slots, and of its quarantined ones, by its totals words: what was issued and not freed, and what
/// entered the quarantine and didn't leave it. If more had gone out than in, 0.
pub fn balance(region: &Region, seat: &mut Seat, partition: u32) -> (u64, u64)
    requires region { seat.old.region ≡ region.now }
    requires stakes { HasEveryStake seat.old.view }
    requires partition { partition < 4 }
    ensures seat { seat.new ≡ seat.old }
    ensures live { result.0 ≡ added_in seat.old.view (4 * partition) - added_in seat.old.view (4 * partition + 1) }
    ensures quarantined { result.1 ≡ added_in seat.old.view (4 * partition + 2) - added_in seat.old.view (4 * partition + 3) }
{
    let issued = region.read_total(seat, 4 * partition);
    let freed = region.read_total(seat, 4 * partition + 1);
    let entered = region.read_total(seat, 4 * partition + 2);
    let left = region.read_total(seat, 4 * partition + 3);
    (issued.saturating_sub(freed), entered.saturating_sub(left))
}
