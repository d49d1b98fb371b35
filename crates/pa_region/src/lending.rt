//! Lending: a seat hands its stake to another that has a keeper, which makes an entry and hands the stake back.
ghost use Rattle.std.specs.Prelude.{◌≡◌};
ghost use Rattle.pa_region.specs.Views.{least_stake};
ghost use Rattle.pa_region.specs.Hands.{CanHand, left_after, given_after};
ghost use Rattle.pa_region.specs.Lending.{stake_parcel, CanLend, HostsKeeper, MakesEntry, MakesBoth};

use crate::marks::Mark;
use crate::note::Note;
use crate::region::{Region, Seat};

/// Hands over the seat's least stake, and nothing else.
pub fn lend_stake(region: &Region, seat: &mut Seat) -> Note
    requires region { seat.old.region ≡ region.now }
    requires able { CanLend seat.old.view }
    ensures regions { (seat.new.region ≡ seat.old.region) × (result.region ≡ seat.old.region) }
    ensures could { CanHand (stake_parcel (least_stake seat.old.view.stakes)) seat.old.view }
    ensures left { seat.new.view ≡ left_after (stake_parcel (least_stake seat.old.view.stakes)) seat.old.view }
    ensures given { result.view ≡ given_after (stake_parcel (least_stake seat.old.view.stakes)) seat.old.view }
{
    let stake = seat.stake();
    region.hand(seat, &[], 0, &[Mark::Stake(stake)])
}

/// Makes an entry in the list of this keeper, which the host has, with the lender's least stake.
/// The stake is lent to the host and comes back.
pub fn enter_with(region: &Region, lender: &mut Seat, host: &mut Seat, keeper: u32, entry: &[u64])
    requires regions { (lender.old.region ≡ region.now) × (host.old.region ≡ region.now) }
    requires lender { CanLend lender.old.view }
    requires host { HostsKeeper keeper host.old.view }
    ensures regions { (lender.new.region ≡ lender.old.region) × (host.new.region ≡ host.old.region) }
    ensures again { CanLend lender.new.view × HostsKeeper keeper host.new.view }
    ensures noted { MakesEntry keeper entry.now lender.old lender.new host.old host.new }
{
    lender.aware();
    host.aware();
    let lent = lend_stake(region, lender);
    region.take(host, lent);
    host.aware();
    region.enter(host, keeper, entry);
    host.aware();
    let back = lend_stake(region, host);
    region.take(lender, back);
    lender.aware();
}

/// Makes two entries with the lender's least stake: the first in the list of keeper `inner`, which the host has, and the
/// second in that of keeper `outer`, which the middle seat has. The stake is lent to the middle seat, which lends it on.
pub fn enter_both(
    region: &Region,
    lender: &mut Seat,
    middle: &mut Seat,
    host: &mut Seat,
    inner: u32,
    first: &[u64],
    outer: u32,
    second: &[u64],
)
    requires regions { (lender.old.region ≡ region.now) × (middle.old.region ≡ region.now) × (host.old.region ≡ region.now) }
    requires lender { CanLend lender.old.view }
    requires middle { HostsKeeper outer middle.old.view }
    requires host { HostsKeeper inner host.old.view }
    ensures regions { (lender.new.region ≡ region.now) × (middle.new.region ≡ region.now) × (host.new.region ≡ region.now) }
    ensures again { CanLend lender.new.view × HostsKeeper outer middle.new.view × HostsKeeper inner host.new.view }
    ensures noted { MakesBoth inner first.now outer second.now lender.old lender.new middle.old middle.new host.old host.new }
{
    lender.aware();
    middle.aware();
    let lent = lend_stake(region, lender);
    region.take(middle, lent);
    middle.aware();
    enter_with(region, middle, host, inner, first);
    region.enter(middle, outer, second);
    middle.aware();
    let back = lend_stake(region, middle);
    region.take(lender, back);
    lender.aware();
}
