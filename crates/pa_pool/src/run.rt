ghost use Rattle.std.specs.Prelude.{◌≡◌, ◌+◌, ◌≤◌};
ghost use Rattle.pa_layout.specs.Limits.{region_supers};
ghost use Rattle.pa_region.specs.Hands.{CanHand, IsParted, left_after, given_after};
ghost use Rattle.pa_pool.specs.Calls.{run_parcel};

use pa_layout::SUPER_PAGE;
use pa_machine::Item;
use pa_region::{Mark, Note, Region, Seat};

/// Hands over `count` super pages from `first` on as raw bytes, with a lease, and nothing else.
pub fn hand_run(region: &Region, seat: &mut Seat, first: u32, count: u32, lease: u32) -> Note
    requires region { seat.old.region ≡ region.now }
    requires few { first + count ≤ region_supers }
    requires able { CanHand (run_parcel first count lease) seat.old.view }
    ensures regions { (seat.new.region ≡ seat.old.region) × (result.region ≡ seat.old.region) }
    ensures left { seat.new.view ≡ left_after (run_parcel first count lease) seat.old.view }
    ensures given { result.view ≡ given_after (run_parcel first count lease) seat.old.view }
    ensures parted { IsParted seat.old.view seat.new.view result.view }
{
    let run = Item::Raw {
        start: SUPER_PAGE * first,
        len: SUPER_PAGE * count,
    };
    region.hand(seat, &[run], 0, &[Mark::Lease(lease)])
}
