ghost use Rattle.std.specs.Prelude.{◌≡◌, ℕ, ◌+◌, ◌*◌, ◌<◌, ◌≤◌, [], OnOk};
ghost use Rattle.pa_test_base.specs.Placing.{IsYoung, HasOnlyMaps};

use arrayvec::ArrayVec;
use pa_buckets::Class;
use pa_place::{Made, Out, Placed, Placement, PlainRoot, PoolPlan, ask};
use pa_record::{Census, Tally};
use pa_slot::{SlotName, Title};
use std::process::Abort;
use std::test::Fail;

// What a fill must do: the entry of the pool that it makes, and where its slots start.
#[derive(Clone, Copy)]
struct Expected<'a> {
    pool: Option<u32>,
    starts: &'a [u32],
}

// Whether a fill did what is expected, with no slot that was born later.
fn is_filled(placed: &Placed, expected: Expected<'_>) -> bool {
    let titles = placed.titles.as_slice();
    if placed.pool != expected.pool || titles.len() != expected.starts.len() {
        return false;
    }
    for (title, start) in titles.iter().zip(expected.starts) {
        if title.start != *start || title.born != 0 {
            return false;
        }
    }
    true
}

// A fill of `want` slots of the class. At most that many steps were made before.
fn filled(
    placement: &mut Placement,
    pool: &mut PoolPlan,
    steps: u32,
    class: u32,
    want: u32,
) -> Result<Placed, Fail>
    requires young { IsYoung steps pool.old.entries placement.old }
    requires few { steps < 10000 }
    ensures young { OnOk result (IsYoung (steps + 1) pool.new.entries placement.new) }
{
    if want == 0 || want > 8 {
        return Err(Fail::new("no such fill"));
    }
    let class = Class::of(class).ok_or("no such class")?;
    let placed = placement.fill(pool, class, want)?;
    Ok(placed)
}

// Fills `want` slots of the class, which must do what is expected.
fn fill(
    rt: &impl Abort,
    placement: &mut Placement,
    pool: &mut PoolPlan,
    steps: u32,
    class: u32,
    want: u32,
    expected: Expected<'_>,
) -> Result<(), Fail>
    requires young { IsYoung steps pool.old.entries placement.old }
    requires few { steps < 10000 }
    ensures young { OnOk result (IsYoung (steps + 1) pool.new.entries placement.new) }
{
    let placed = filled(placement, pool, steps, class, want)?;
    assert!(rt; is_filled(&placed, expected));
    Ok(())
}

// Whether a slot or a direct map has this name and is out.
fn is_out(placement: &Placement, name: SlotName) -> bool {
    placement.out(name) != None
}

// The slot that starts there is returned. At most that many steps were made before.
fn give(rt: &impl Abort, placement: &mut Placement, steps: u32, start: u32) -> Result<(), Fail>
    requires turn { placement.old.turn ≤ 32 * steps }
    requires maps { placement.old.maps ≡ [] }
    requires few { steps < 10000 }
    ensures young { OnOk result ((n : ℕ) → IsYoung steps n placement.old → IsYoung (steps + 1) n placement.new) }
{
    let name = SlotName { start, born: 0 };
    let Some(Out::Slot(title)) = placement.out(name) else {
        return Err(Fail::new("the slot isn't out"));
    };
    placement.give(&[title]);
    assert!(rt; !is_out(placement, name));
    Ok(())
}

// Whether this entry of the pool was made, and a direct map of 2,002,944 bytes at
// the start of the region, or none if there is no room.
fn is_mapped(placed: &Placed, entry: u32, room: bool) -> bool {
    let title = Title {
        start: 16384,
        len: 2002944,
        born: entry,
    };
    let titles = placed.titles.as_slice();
    let as_due = if room {
        titles == [title].as_slice()
    } else {
        titles.is_empty()
    };
    as_due && placed.pool == Some(entry)
}

// A direct map of 2,002,944 bytes. At most that many steps were made before.
fn mapped(placement: &mut Placement, pool: &mut PoolPlan, steps: u32) -> Result<Placed, Fail>
    requires few { steps < 10000 }
    requires maps { HasOnlyMaps steps pool.old placement.old }
    ensures maps { OnOk result (HasOnlyMaps (steps + 1) pool.new placement.new) }
{
    let placed = placement.map(pool, 2002944, 1)?;
    Ok(placed)
}

// Makes a direct map at the start of the region by this entry of the pool, or none if there is no room.
fn map(
    rt: &impl Abort,
    placement: &mut Placement,
    pool: &mut PoolPlan,
    steps: u32,
    entry: u32,
    room: bool,
) -> Result<(), Fail>
    requires few { steps < 10000 }
    requires maps { HasOnlyMaps steps pool.old placement.old }
    ensures maps { OnOk result (HasOnlyMaps (steps + 1) pool.new placement.new) }
{
    let placed = mapped(placement, pool, steps)?;
    assert!(rt; is_mapped(&placed, entry, room));
    Ok(())
}

// Gives the direct map at the start of the region back, by this entry of the pool.
fn unmap(
    rt: &impl Abort,
    placement: &mut Placement,
    pool: &mut PoolPlan,
    steps: u32,
    born: u32,
    entry: u32,
) -> Result<(), Fail>
    requires few { steps < 10000 }
    requires maps { HasOnlyMaps steps pool.old placement.old }
    ensures maps { OnOk result (HasOnlyMaps (steps + 1) pool.new placement.new) }
{
    let name = SlotName { start: 16384, born };
    let Some(Out::Map(title)) = placement.out(name) else {
        return Err(Fail::new("the map isn't out"));
    };
    assert!(rt; title.len == 2002944);
    assert!(rt; pool.taken(0, 1));
    let went = placement.unmap(pool, title);
    assert!(rt; went == entry);
    assert!(rt; !is_out(placement, name));
    Ok(())
}

// Whether the census has these numbers, in the report's order.
fn has_census(
    placement: &Placement,
    slots: u64,
    bytes: u64,
    committed: u64,
    states: [u32; 4],
) -> bool {
    let due = Census {
        root: Tally { slots, bytes },
        committed,
        reserved: 2097152,
        full: states[0],
        active: states[1],
        empty: states[2],
        decommitted: states[3],
    };
    placement.census() == due
}

// Whether this many spans are full, and this many bytes committed and reserved.
fn has_bytes(placement: &Placement, full: u32, committed: u64, reserved: u64) -> bool {
    let census = placement.census();
    census.full == full && census.committed == committed && census.reserved == reserved
}

#[test]
fn a_short_fill(rt: HostRuntime) -> Result<(), Fail> {
    let mut pool = PoolPlan::new(rt.alloc(), 1)?;
    let mut placement = Placement::new(rt.alloc())?;
    let rows: [(u32, u32, Option<u32>, &[u32]); 5] = [
        (58, 1, Some(0), &[16384]),
        (58, 1, None, &[933888]),
        (49, 1, None, &[1851392]),
        (37, 2, None, &[2048000]),
        (38, 2, Some(1), &[]),
    ];
    'fills: for at in 0..5 {
        let (class, want, made, starts) = rows[at as usize];
        let expected = Expected { pool: made, starts };
        fill(&rt, &mut placement, &mut pool, at, class, want, expected)?;
    }
    assert!(rt; has_census(&placement, 0, 0, 2056192, [4, 0, 0, 0]));
    assert!(rt; pool.entries() == 2);
    assert!(rt; pool.taken(0, 1));
    assert!(rt; !pool.taken(0, 2));
    Ok(())
}

#[test]
fn the_ring_of_empty_spans(rt: HostRuntime) -> Result<(), Fail> {
    let mut pool = PoolPlan::new(rt.alloc(), 1)?;
    let mut placement = Placement::new(rt.alloc())?;
    'fills: for at in 0..17 {
        let pool_entry = if at == 0 { Some(0) } else { None };
        let expected = Expected {
            pool: pool_entry,
            starts: &[16384 + 65536 * at],
        };
        fill(&rt, &mut placement, &mut pool, at, 43, 1, expected)?;
    }
    'gives: for at in 0..17 {
        give(&rt, &mut placement, 17 + at, 16384 + 65536 * at)?;
    }
    let last = Expected {
        pool: None,
        starts: &[1064960],
    };
    fill(&rt, &mut placement, &mut pool, 34, 43, 1, last)?;
    assert!(rt; has_census(&placement, 16, 1048576, 1048576, [1, 0, 15, 1]));
    Ok(())
}

#[test]
fn a_purge(rt: HostRuntime) -> Result<(), Fail> {
    let mut pool = PoolPlan::new(rt.alloc(), 1)?;
    let mut placement = Placement::new(rt.alloc())?;
    let starts = [16384, 16400, 16416, 16432, 16448, 16464, 16480, 16496];
    let first = Expected {
        pool: Some(0),
        starts: &starts,
    };
    fill(&rt, &mut placement, &mut pool, 0, 0, 8, first)?;
    'gives: for at in 0..8 {
        give(&rt, &mut placement, 1 + at, 16384 + 16 * at)?;
    }
    placement.purge();
    assert!(rt; has_census(&placement, 256, 4096, 0, [0, 0, 0, 1]));
    let second = Expected {
        pool: None,
        starts: &starts,
    };
    fill(&rt, &mut placement, &mut pool, 10, 0, 8, second)?;
    assert!(rt; has_census(&placement, 248, 3968, 4096, [0, 1, 0, 0]));
    Ok(())
}

#[test]
fn a_direct_map_again(rt: HostRuntime) -> Result<(), Fail> {
    let mut pool = PoolPlan::new(rt.alloc(), 1)?;
    let mut placement = Placement::new(rt.alloc())?;
    map(&rt, &mut placement, &mut pool, 0, 0, true)?;
    unmap(&rt, &mut placement, &mut pool, 1, 0, 1)?;
    map(&rt, &mut placement, &mut pool, 2, 2, true)?;
    map(&rt, &mut placement, &mut pool, 3, 3, false)?;
    unmap(&rt, &mut placement, &mut pool, 4, 2, 4)?;
    map(&rt, &mut placement, &mut pool, 5, 5, true)?;
    assert!(rt; has_census(&placement, 0, 0, 2002944, [0, 0, 0, 0]));
    assert!(rt; pool.entries() == 6);
    Ok(())
}

// Whether that many slots were taken.
fn has_slots(placed: &Placed, slots: usize) -> bool {
    placed.titles.as_slice().len() == slots
}

// A fill of seven slots of 16,384 bytes, which has that many to give. At most that many steps were made before.
fn fill_pages(
    rt: &impl Abort,
    placement: &mut Placement,
    pool: &mut PoolPlan,
    steps: u32,
    slots: usize,
) -> Result<Option<u32>, Fail>
    requires young { IsYoung steps pool.old.entries placement.old }
    requires few { steps < 10000 }
    ensures young { OnOk result (IsYoung (steps + 1) pool.new.entries placement.new) }
{
    let placed = filled(placement, pool, steps, 35, 7)?;
    assert!(rt; has_slots(&placed, slots));
    Ok(placed.pool)
}

// 64 super pages of spans of one page, and no room for one more.
#[test]
fn as_many_spans_as_there_are(rt: HostRuntime) -> Result<(), Fail> {
    let mut pool = PoolPlan::new(rt.alloc(), 64)?;
    let mut placement = Placement::new(rt.alloc())?;
    'fills: for at in 0..1152 {
        fill_pages(&rt, &mut placement, &mut pool, at, 7)?;
    }
    let asked = fill_pages(&rt, &mut placement, &mut pool, 1152, 0)?;
    assert!(rt; asked == Some(64));
    assert!(rt; has_bytes(&placement, 8064, 132120576, 134217728));
    Ok(())
}

// A direct map in a super page of its own, or none if there is no room.
fn map_one(
    rt: &impl Abort,
    placement: &mut Placement,
    pool: &mut PoolPlan,
    steps: u32,
    slots: usize,
) -> Result<(), Fail>
    requires few { steps < 10000 }
    requires maps { HasOnlyMaps steps pool.old placement.old }
    ensures maps { OnOk result (HasOnlyMaps (steps + 1) pool.new placement.new) }
{
    let placed = mapped(placement, pool, steps)?;
    assert!(rt; has_slots(&placed, slots));
    Ok(())
}

// 64 direct maps, and no room for one more.
#[test]
fn as_many_direct_maps_as_there_are(rt: HostRuntime) -> Result<(), Fail> {
    let mut pool = PoolPlan::new(rt.alloc(), 64)?;
    let mut placement = Placement::new(rt.alloc())?;
    'maps: for at in 0..64 {
        map_one(&rt, &mut placement, &mut pool, at, 1)?;
    }
    map_one(&rt, &mut placement, &mut pool, 64, 0)?;
    assert!(rt; has_bytes(&placement, 0, 128188416, 134217728));
    Ok(())
}

// Whether that many slots were taken, and these made, each row given by its first byte and the count.
fn are_made(
    titles: &ArrayVec<Title, 16>,
    want: u32,
    batches: &ArrayVec<Made, 8>,
    made: &[(u32, u32)],
) -> bool {
    let batches = batches.as_slice();
    if titles.as_slice().len() != want as usize || batches.len() != made.len() {
        return false;
    }
    for (batch, told) in batches.iter().zip(made) {
        if batch.first.start != told.0 || batch.count != told.1 {
            return false;
        }
    }
    true
}

// A take of `want` slots of the class, all of which exist, with room that is made before. What it makes begins at these
// bytes, that many slots each. At most that many steps were made before.
fn take(
    rt: &impl Abort,
    root: &mut PlainRoot,
    pool: &mut PoolPlan,
    steps: u32,
    class: u32,
    want: u32,
    made: &[(u32, u32)],
) -> Result<(), Fail>
    requires young { IsYoung steps pool.old.entries root.old.root }
    requires few { steps < 10000 }
    requires some { 1 ≤ want }
    requires most { want ≤ 8 }
    ensures young { OnOk result (IsYoung (steps + 1) pool.new.entries root.new.root) }
{
    let class = Class::of(class).ok_or("no such class")?;
    root.ready(class, want)?;
    ask(root, pool, class);
    let mut titles = ArrayVec::new();
    let batches = root.take(class, want, &mut titles);
    assert!(rt; are_made(&titles, want, &batches, made));
    Ok(())
}

// The slots of a span are found by each of its pages. None is found under the name of another super page's slot.
#[test]
fn slots_by_their_pages(rt: HostRuntime) -> Result<(), Fail> {
    let mut pool = PoolPlan::new(rt.alloc(), 1)?;
    let mut placement = Placement::new(rt.alloc())?;
    let first = Expected {
        pool: Some(0),
        starts: &[16384],
    };
    fill(&rt, &mut placement, &mut pool, 0, 0, 1, first)?;
    let second = Expected {
        pool: None,
        starts: &[32768, 43008, 53248, 63488, 73728, 83968],
    };
    fill(&rt, &mut placement, &mut pool, 1, 32, 6, second)?;
    let later = SlotName {
        start: 53248,
        born: 1,
    };
    assert!(rt; !is_out(&placement, later));
    let behind = SlotName {
        start: 2150400,
        born: 0,
    };
    assert!(rt; !is_out(&placement, behind));
    let starts = [83968, 53248, 16384];
    'gives: for at in 0..3 {
        give(&rt, &mut placement, 2 + at, starts[at as usize])?;
    }
    assert!(rt; has_census(&placement, 258, 24576, 65536, [0, 1, 1, 0]));
    Ok(())
}

// A class of many slots in a page makes those of a page at once, and a class of one slot in a span one with each take.
#[test]
fn what_takes_make(rt: HostRuntime) -> Result<(), Fail> {
    let mut pool = PoolPlan::new(rt.alloc(), 1)?;
    let mut root = PlainRoot::new(rt.alloc())?;
    take(&rt, &mut root, &mut pool, 0, 0, 8, &[(16384, 256)])?;
    take(&rt, &mut root, &mut pool, 1, 0, 8, &[])?;
    take(
        &rt,
        &mut root,
        &mut pool,
        2,
        35,
        2,
        &[(32768, 1), (49152, 1)],
    )?;
    Ok(())
}
