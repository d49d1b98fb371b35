//! Super pages are taken and given back, on one thread.
ghost use Rattle.std.specs.Prelude.{◌≡◌, ℕ, ◌*◌, ◌≤◌, IfSome};
ghost use Rattle.pa_region.specs.Lists.{list_of, IsBeginning};
ghost use Rattle.pa_region.specs.Lending.{CanLend};
ghost use Rattle.pa_region.specs.Shares.{byte_word_count};
ghost use Rattle.pa_pool.specs.Pools.{CanOpen};
ghost use Rattle.pa_pool.specs.Calls.{ComesBack};

use pa_pool::{Pool, PoolFault};
use pa_record::{PoolAct, PoolEntry};
use pa_region::{Mark, Name, Note, Region, Seat};
use pa_slot::OutOfMemory;
use std::alloc::Global;
use std::marker::Brand;
use std::sync::Mutex;
use std::test::Fail;

// All that a pool's seat doesn't have: the stakes, and the keepers but for the pool's.
const OTHERS: [Mark; 21] = [
    Mark::Stake(0),
    Mark::Stake(1),
    Mark::Stake(2),
    Mark::Stake(3),
    Mark::Stake(4),
    Mark::Stake(5),
    Mark::Stake(6),
    Mark::Stake(7),
    Mark::Stake(8),
    Mark::Stake(9),
    Mark::Stake(10),
    Mark::Stake(11),
    Mark::Stake(12),
    Mark::Stake(13),
    Mark::Stake(14),
    Mark::Stake(15),
    Mark::Keeper(0),
    Mark::Keeper(1),
    Mark::Keeper(2),
    Mark::Keeper(3),
    Mark::Keeper(5),
];

// What a series of calls returned: the entries and first super pages of its takes, and the entries that gave or refused.
#[derive(Clone, Copy)]
struct Answers {
    one: (u32, u32),
    two: (u32, u32),
    full: u32,
    gave: u32,
    again: (u32, u32),
    gave_two: u32,
}

// A take by line 2 of partition 1, and what can come back with its note.
fn take<N: Name>(
    pool: &mut Pool<N>,
    region: &Region,
    seat: &mut Seat,
    count: u32,
) -> Option<(u32, u32, Note)>
    requires regions { (region.now ≡ N.region) × (seat.old.region ≡ N.region) }
    requires lender { CanLend seat.old.view }
    requires count { (1 ≤ count) × (count ≤ 16) }
    ensures region { seat.new.region ≡ N.region }
    ensures again { CanLend seat.new.view }
    ensures more { IsBeginning (list_of 4 seat.old.view) (list_of 4 seat.new.view) }
    ensures back { IfSome result (λ r. (r.2.region ≡ N.region) × ComesBack 1 r.0 r.1 count seat.new.view r.2.view) }
{
    pool.take(region, seat, 2, 1, count).ok()
}

// A take for which there is no room: the entry that says so.
fn find_none<N: Name>(
    pool: &mut Pool<N>,
    region: &Region,
    seat: &mut Seat,
    count: u32,
) -> Option<u32>
    requires regions { (region.now ≡ N.region) × (seat.old.region ≡ N.region) }
    requires lender { CanLend seat.old.view }
    requires count { (1 ≤ count) × (count ≤ 16) }
    ensures region { seat.new.region ≡ N.region }
    ensures again { CanLend seat.new.view }
    ensures more { IsBeginning (list_of 4 seat.old.view) (list_of 4 seat.new.view) }
{
    match pool.take(region, seat, 2, 1, count) {
        Err(PoolFault::NoRoom(entry)) => Some(entry),
        _ => None,
    }
}

// A give by line 3 of partition 1.
fn give<N: Name>(
    pool: &mut Pool<N>,
    region: &Region,
    seat: &mut Seat,
    taken: u32,
    note: Note,
) -> Option<u32>
    requires regions { (region.now ≡ N.region) × (seat.old.region ≡ N.region) × (note.region ≡ N.region) }
    requires lender { CanLend seat.old.view }
    requires back { (first count : ℕ) × ComesBack 1 taken first count seat.old.view note.view }
    ensures region { seat.new.region ≡ N.region }
    ensures again { CanLend seat.new.view }
    ensures more { IsBeginning (list_of 4 seat.old.view) (list_of 4 seat.new.view) }
{
    pool.give(region, seat, 3, 1, taken, note).ok()
}

// Takes one super page of four and two more, and asks for two more, but there are none. Then it gives the first back and takes
// it again, and gives the two back, with room for the entry.
fn play<N: Name>(
    alloc: Global,
    region: &Region,
    seat: &mut Seat,
    note: Note,
) -> Option<(Answers, Vec<PoolEntry>)>
    requires regions { (region.now ≡ N.region) × (seat.old.region ≡ N.region) × (note.region ≡ N.region) }
    requires lender { CanLend seat.old.view }
    requires whole { byte_word_count N.region ≡ 262144 * 4 }
    requires able { CanOpen 4 note.view }
{
    let mut pool = Pool::<N>::open(alloc, note, 4).ok()?;
    let (one, first, one_note) = take(&mut pool, region, seat, 1)?;
    let (two, second, two_note) = take(&mut pool, region, seat, 2)?;
    let full = find_none(&mut pool, region, seat, 2)?;
    let gave = give(&mut pool, region, seat, one, one_note)?;
    let (again, third, _note) = take(&mut pool, region, seat, 1)?;
    pool.room().ok()?;
    let gave_two = give(&mut pool, region, seat, two, two_note)?;
    let (entries, _note) = pool.close();
    let answers = Answers {
        one: (one, first),
        two: (two, second),
        full,
        gave,
        again: (again, third),
        gave_two,
    };
    Some((answers, entries))
}

// What threads may share.
fn may_be_shared<T: Sync>(_value: &T) {}

// Threads may share a pool behind a lock.
fn pools_may_be_shared<N: Name + Send + Sync>(pool: Pool<N>) {
    let lock = Mutex::new(pool);
    may_be_shared(&lock);
}

fn took(count: u32, first: Option<u32>) -> PoolEntry {
    PoolEntry {
        line: 2,
        partition: 1,
        act: PoolAct::Take { count, first },
    }
}

fn gave(count: u32, first: u32) -> PoolEntry {
    PoolEntry {
        line: 3,
        partition: 1,
        act: PoolAct::Give { count, first },
    }
}

#[test]
fn the_lowest_super_pages_come_first(rt: HostRuntime) -> Result<(), Fail> {
    let (region, mut seat) = Region::new(rt.alloc(), 4, 0)?;
    let mut others = region.hand(&mut seat, &[], 0, &OTHERS).seat();
    let note = seat.note();
    let played = play::<Brand>(rt.alloc(), &region, &mut others, note);
    let (answers, entries) = played.ok_or(OutOfMemory)?;
    assert!(rt; [answers.one, answers.two, answers.again] == [(0, 0), (1, 1), (4, 0)]);
    assert!(rt; [answers.full, answers.gave, answers.gave_two] == [2, 3, 5]);
    let due = [
        took(1, Some(0)),
        took(2, Some(1)),
        took(2, None),
        gave(1, 0),
        took(1, Some(0)),
        gave(2, 1),
    ];
    assert!(rt; entries.as_slice() == due.as_slice());
    Ok(())
}
