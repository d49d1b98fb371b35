//! A stake is lent on one thread, makes entries and comes back.
ghost use Rattle.std.specs.Prelude.{◌≡◌, ◌<◌, [], ◌∷◌};
ghost use Rattle.pa_region.specs.Views.{stake_of};
ghost use Rattle.pa_region.specs.Lists.{list_of, made_with, entered_in};
ghost use Rattle.pa_region.specs.Takes.{log_of};
ghost use Rattle.pa_region.specs.Lending.{CanLend, CanHost, HostsKeeper, Keeps, MakesAll};

use pa_region::{Mark, Region, Seat, enter_both, enter_with, stakes_made_theirs};
use std::test::Fail;

// Two entries in the pool's list, with a stake that is lent twice: they are at the list's end and in the stake's log.
fn two_entries(region: &Region, lender: &mut Seat, pool: &mut Seat)
    requires regions { (lender.old.region ≡ region.now) × (pool.old.region ≡ region.now) }
    requires lender { CanLend lender.old.view }
    requires pool { HostsKeeper 4 pool.old.view }
    ensures regions { (lender.new.region ≡ lender.old.region) × (pool.new.region ≡ pool.old.region) }
    ensures entries { MakesAll 4 ((7 ∷ 8 ∷ []) ∷ (9 ∷ []) ∷ []) lender.old lender.new pool.old pool.new }
    ensures lender { Keeps lender.old.view lender.new.view }
    ensures able { CanLend lender.new.view × CanHost pool.new.view }
{
    enter_with(region, lender, pool, 4, &[7, 8]);
    enter_with(region, lender, pool, 4, &[9]);
}

// What the stake made of the list is, in order, what its log entered there.
fn list_and_log_meet(seat: &Seat, stake: u32, keeper: u32)
    requires { 0 < stake_of seat.now.view stake }
    ensures { made_with stake (list_of keeper seat.now.view) ≡ entered_in keeper (log_of stake seat.now.view) }
{
    seat.aware();
    stakes_made_theirs();
}

#[test]
fn a_lent_stake_makes_entries(rt: HostRuntime) -> Result<(), Fail> {
    let (region, mut seat) = Region::new(rt.alloc(), 1, 16)?;
    let keeper = region.hand(&mut seat, &[], 0, &[Mark::Keeper(4)]);
    let mut pool = keeper.seat();
    two_entries(&region, &mut seat, &mut pool);
    assert!(rt; seat.stake() == 0);
    let note = pool.note();
    region.take(&mut seat, note);
    list_and_log_meet(&seat, 0, 4);
    let closed = region.close(seat);
    assert!(rt; closed.word(0) == 0);
    Ok(())
}

#[test]
fn a_stake_is_lent_on(rt: HostRuntime) -> Result<(), Fail> {
    let (region, mut seat) = Region::new(rt.alloc(), 1, 16)?;
    let mut root = region.hand(&mut seat, &[], 0, &[Mark::Keeper(2)]).seat();
    let mut pool = region.hand(&mut seat, &[], 0, &[Mark::Keeper(4)]).seat();
    enter_both(
        &region,
        &mut seat,
        &mut root,
        &mut pool,
        4,
        &[1],
        2,
        &[2, 0],
    );
    assert!(rt; seat.stake() == 0);
    Ok(())
}
