//! A cache that runs over, and one that is loaded.
ghost use Rattle.std.specs.Prelude.{◌≡◌, ◌+◌, ◌<◌, ◌≤◌, [], length};
ghost use Rattle.pa_cache.specs.Chained.{HoldsList, list_in};
ghost use Rattle.pa_test_region.specs.ChainRows.{IsRowOf};
ghost use Rattle.pa_test_region.specs.CacheRows.{IsRowCached};

use crate::link::{cut_row, slot};
use pa_buckets::Class;
use pa_cache::Cache;
use pa_region::{Region, Seat};
use pa_slot::Title;
use std::test::Fail;

// Puts the row's slot of this number at the front.
fn put_next(region: &Region, seat: &mut Seat, cache: &mut Cache, number: u32)
    requires region { seat.old.region ≡ region.now }
    requires row { IsRowCached number seat.old.view cache.old }
    requires few { number < 65 }
    ensures region { seat.new.region ≡ region.now }
    ensures row { IsRowCached (number + 1) seat.new.view cache.new }
{
    cache.push(region, seat, slot(0, number));
}

// Puts the row's first slots into an empty cache, so that the last one is the front.
fn fill(region: &Region, seat: &mut Seat, cache: &mut Cache, count: u32)
    requires region { seat.old.region ≡ region.now }
    requires row { IsRowOf 0 65 seat.old.view }
    requires has { HoldsList seat.old.view cache.old }
    requires empty { list_in seat.old.view cache.old ≡ record { class = 0; titles = [] } }
    requires few { count ≤ 65 }
    ensures region { seat.new.region ≡ region.now }
    ensures row { IsRowCached count seat.new.view cache.new }
{
    for number in 0..count {
        put_next(region, seat, cache, number);
    }
}

// Spills all titles of a cache, which are few, and loads them again.
fn reload(region: &Region, seat: &mut Seat, cache: &mut Cache)
    requires region { seat.old.region ≡ region.now }
    requires has { HoldsList seat.old.view cache.old }
    requires few { length (list_in seat.old.view cache.old).titles ≤ 8 }
    ensures region { seat.new.region ≡ region.now }
    ensures has { HoldsList seat.new.view cache.new }
{
    let titles = cache.spill(region, seat, 0);
    cache.load(region, seat, titles.as_slice());
}

// Whether the titles are those of the row from the one at this byte on, each 16 bytes before the last one.
fn go_down_from(start: u32, titles: &[Title]) -> bool {
    let mut next = start;
    for title in titles {
        if title.start != next {
            return false;
        }
        next = next.wrapping_sub(16);
    }
    true
}

#[test]
fn sixty_five_slots_spill_16_16_and_1(rt: HostRuntime) -> Result<(), Fail> {
    let class = Class::of(0).unwrap();
    let (region, mut seat) = Region::new(rt.alloc(), 1, 0)?;
    cut_row(&region, &mut seat, 0, 65);
    let mut cache = Cache::new(class);
    fill(&region, &mut seat, &mut cache, 64);
    assert!(rt; cache.len() == 64);
    assert!(rt; !cache.over());
    put_next(&region, &mut seat, &mut cache, 64);
    assert!(rt; cache.len() == 65);
    assert!(rt; cache.over());
    // The front is the slot put last, at 0x4400. 32 stay, and the next one is 32 slots below it.
    let first = cache.spill(&region, &mut seat, 32);
    assert!(rt; first.len() == 16);
    assert!(rt; go_down_from(0x4200, first.as_slice()));
    let second = cache.spill(&region, &mut seat, 32);
    assert!(rt; second.len() == 16);
    assert!(rt; go_down_from(0x4100, second.as_slice()));
    let third = cache.spill(&region, &mut seat, 32);
    assert!(rt; third.len() == 1);
    assert!(rt; go_down_from(0x4000, third.as_slice()));
    assert!(rt; cache.spill(&region, &mut seat, 32).len() == 0);
    assert!(rt; cache.len() == 32);
    assert!(rt; !cache.over());
    assert!(rt; cache.pop(&region, &mut seat).map(|title| title.start) == Some(0x4400));
    assert!(rt; cache.pop(&region, &mut seat).map(|title| title.start) == Some(0x43f0));
    let behind = cache.spill(&region, &mut seat, 20);
    assert!(rt; behind.len() == 10);
    assert!(rt; go_down_from(0x42a0, behind.as_slice()));
    assert!(rt; cache.len() == 20);
    let last = cache.spill(&region, &mut seat, 4);
    assert!(rt; last.len() == 16);
    assert!(rt; go_down_from(0x43a0, last.as_slice()));
    Ok(())
}

#[test]
fn loaded_slots_come_out_in_their_order(rt: HostRuntime) -> Result<(), Fail> {
    let class = Class::of(0).unwrap();
    let (region, mut seat) = Region::new(rt.alloc(), 1, 0)?;
    cut_row(&region, &mut seat, 0, 65);
    let mut cache = Cache::new(class);
    assert!(rt; cache.pop(&region, &mut seat) == None);
    let mut other = Cache::new(class);
    fill(&region, &mut seat, &mut other, 3);
    reload(&region, &mut seat, &mut other);
    assert!(rt; other.len() == 3);
    assert!(rt; other.pop(&region, &mut seat).map(|title| title.start) == Some(0x4020));
    assert!(rt; other.pop(&region, &mut seat).map(|title| title.start) == Some(0x4010));
    assert!(rt; other.pop(&region, &mut seat).map(|title| title.start) == Some(0x4000));
    assert!(rt; other.pop(&region, &mut seat) == None);
    Ok(())
}
