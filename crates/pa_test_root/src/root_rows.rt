//! Worked runs: the journals that the player prints for them, but that no step is made on a slot here, so each number is 0.
ghost use Rattle.std.specs.Prelude.{◌+◌, ◌*◌, ◌<◌, ◌≤◌, ◌^◌};

use crate::root_scripts::{Call, Line, play};
use pa_buckets::Class;
use pa_record::{Batch, Numbered, RootAct, RootEntry};
use pa_slot::{OutOfMemory, SlotName};
use std::test::Fail;

fn class(number: u32) -> Result<Class, OutOfMemory> {
    Class::of(number).ok_or(OutOfMemory)
}

fn filling(line: u32, number: u32) -> Line {
    at(line, Call::Fill(number))
}

fn at(line: u32, call: Call) -> Line {
    Line { line, call }
}

fn name(start: u32, born: u32) -> SlotName {
    SlotName { start, born }
}

// Slots of one span, `count` of them, 1 to 16, `step` bytes apart.
fn row(start: u32, step: u32, count: u32) -> Batch
    requires few { count ≤ 16 }
    requires small { start + step * count < 2 ^ 32 }
{
    let mut slots = Batch::new();
    for i in 0..count {
        let slot = name(start + step * i, 0);
        slots.push(Numbered { slot, number: 0 });
    }
    slots
}

fn fill(line: u32, number: u32, pool: Option<u32>, slots: Batch) -> Result<RootEntry, OutOfMemory> {
    let class = class(number)?;
    let act = RootAct::Fill { class, pool, slots };
    Ok(RootEntry { line, act })
}

fn give(line: u32, slots: Batch) -> RootEntry {
    RootEntry {
        line,
        act: RootAct::Give { slots },
    }
}

fn full(line: u32, class: Option<Class>, pool: u32) -> RootEntry {
    RootEntry {
        line,
        act: RootAct::Full { class, pool },
    }
}

// A direct map of 2,000,000 bytes at the start of the region, which this entry of the pool took.
fn map(line: u32, pool: u32) -> RootEntry {
    let act = RootAct::Map {
        pool,
        slot: name(0x4000, pool),
        len: 2_002_944,
    };
    RootEntry { line, act }
}

// The direct map went back by this entry of the pool.
fn unmap(line: u32, pool: u32, born: u32) -> RootEntry {
    let slot = Numbered {
        slot: name(0x4000, born),
        number: 0,
    };
    RootEntry {
        line,
        act: RootAct::Unmap { pool, slot },
    }
}

#[test]
fn a_full_region(rt: HostRuntime) -> Result<(), Fail> {
    let script = [
        filling(2, 58),
        filling(3, 58),
        filling(4, 58),
        filling(5, 0),
    ];
    let left = play(&rt, rt.alloc(), 1, &script)?;
    let due = [
        fill(2, 58, Some(0), row(0x4000, 16, 1))?,
        fill(3, 58, None, row(0xe4000, 16, 1))?,
        full(4, Some(class(58)?), 1),
        fill(5, 0, None, row(0x1c4000, 16, 8))?,
    ];
    assert!(rt; left.journal.as_slice() == due.as_slice());
    assert!(rt; left.census.root.slots == 248);
    Ok(())
}

#[test]
fn a_purge(rt: HostRuntime) -> Result<(), Fail> {
    let script = [
        filling(2, 0),
        at(4, Call::Give(0)),
        at(4, Call::Purge),
        filling(5, 0),
    ];
    let left = play(&rt, rt.alloc(), 1, &script)?;
    let due = [
        fill(2, 0, Some(0), row(0x4000, 16, 8))?,
        give(4, row(0x4000, 16, 8)),
        RootEntry {
            line: 4,
            act: RootAct::Purge,
        },
        fill(5, 0, None, row(0x4000, 16, 8))?,
    ];
    assert!(rt; left.journal.as_slice() == due.as_slice());
    Ok(())
}

#[test]
fn a_direct_map_again(rt: HostRuntime) -> Result<(), Fail> {
    let script = [
        at(2, Call::Map(2_000_000)),
        at(3, Call::Unmap(0)),
        at(4, Call::Map(2_000_000)),
        at(7, Call::Map(2_000_000)),
        at(8, Call::Unmap(0)),
        at(9, Call::Map(2_000_000)),
    ];
    let left = play(&rt, rt.alloc(), 1, &script)?;
    let due = [
        map(2, 0),
        unmap(3, 1, 0),
        map(4, 2),
        full(7, None, 3),
        unmap(8, 4, 2),
        map(9, 5),
    ];
    assert!(rt; left.journal.as_slice() == due.as_slice());
    assert!(rt; left.census.reserved == 2_097_152);
    Ok(())
}

// The nine fills with which a cache overflows later.
#[test]
fn nine_fills(rt: HostRuntime) -> Result<(), Fail> {
    let lines = [2, 10, 18, 26, 34, 42, 50, 58, 67];
    let mut script = Vec::new(rt.alloc());
    let mut due = Vec::new(rt.alloc());
    for i in 0..9u32 {
        let line = lines[i as usize];
        script.push(filling(line, 0))?;
        let pool = if i == 0 { Some(0) } else { None };
        due.push(fill(line, 0, pool, row(0x4000 + 128 * i, 16, 8))?)?;
    }
    let left = play(&rt, rt.alloc(), 1, &script)?;
    assert!(rt; left.journal.as_slice() == due.as_slice());
    assert!(rt; left.census.root.slots == 184);
    Ok(())
}

#[test]
fn the_ring_of_empty_spans(rt: HostRuntime) -> Result<(), Fail> {
    let mut script = Vec::new(rt.alloc());
    let mut due = Vec::new(rt.alloc());
    for i in 0..17u32 {
        script.push(filling(i + 2, 43))?;
        let pool = if i == 0 { Some(0) } else { None };
        due.push(fill(i + 2, 43, pool, row(0x4000 + 65536 * i, 16, 1))?)?;
    }
    for i in 0..17u32 {
        script.push(at(i + 19, Call::Give(0)))?;
        due.push(give(i + 19, row(0x4000 + 65536 * i, 16, 1)))?;
    }
    script.push(filling(36, 43))?;
    due.push(fill(36, 43, None, row(0x104000, 16, 1))?)?;
    let left = play(&rt, rt.alloc(), 1, &script)?;
    assert!(rt; left.journal.as_slice() == due.as_slice());
    assert!(rt; left.census.empty == 15);
    assert!(rt; left.census.decommitted == 1);
    Ok(())
}
