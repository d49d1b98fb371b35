ghost use Rattle.std.specs.Prelude.{◌≡◌, ℕ, ◌<◌, ◌≤◌, ◌^◌, IsTrue, length};
ghost use Rattle.pa_rules.specs.Roots.{journal_at};
ghost use Rattle.pa_audit_heap.specs.Ordered.{AreOfThreads16};
ghost use Rattle.pa_rules.specs.Rising.{RiseByLine};

use crate::contents::RULES;
use pa_audit_heap::{JournalsFound, journals_meet, pool_meets, refusals_meet};
use pa_dense::DenseJournal;
use pa_record::{
    Answer, Census, Journal, Numbered, PoolAct, PoolEntry, RootAct, RootEntry, Seen, Tally,
};
use pa_rules::Played;
use pa_slot::{OutOfMemory, SlotName, Word};
use pa_trace::Op;
use std::alloc::Global;
use std::test::Fail;

// What the checkers return, one clause after another: the first place that doesn't meet its demand.
#[derive(Clone, Copy, Debug, PartialEq, Eq)]
pub(crate) enum First {
    Nowhere,
    Pool(u32),
    Record(u32),
    Root(u32, u32),
    // The checkers don't take these lists.
    Unfit,
}

pub(crate) fn first_of(
    alloc: Global,
    supers: u32,
    partitions: u32,
    records: &[Played],
    pools: &[PoolEntry],
    roots: &[DenseJournal],
) -> Result<First, OutOfMemory> {
    match journals_of(alloc, supers, partitions, 1, records, pools, roots)? {
        Ok(found) => match found.misfit {
            Some((partition, at)) => Ok(First::Root(partition, at)),
            None => Ok(First::Nowhere),
        },
        Err(first) => Ok(first),
    }
}

// What the walk over the journals finds, if the clauses before it hold.
fn journals_of(
    alloc: Global,
    supers: u32,
    partitions: u32,
    phases: u32,
    records: &[Played],
    pools: &[PoolEntry],
    roots: &[DenseJournal],
) -> Result<Result<JournalsFound, First>, OutOfMemory> {
    let few = supers <= 64 && records.len() < 1000 && pools.len() < 1000 && roots.len() < 1000;
    if !few || phases >= 1000 || !are_rising(records) || !are_short(roots) {
        return Ok(Err(First::Unfit));
    }
    if let Some(at) = pool_meets(alloc, supers, records, pools, roots)? {
        return Ok(Err(First::Pool(at)));
    }
    if let Some(at) = refusals_meet(records, roots) {
        return Ok(Err(First::Record(at)));
    }
    let found = journals_meet(alloc, supers, partitions, phases, records, pools, roots)?;
    Ok(Ok(found))
}

// Whether the lines of the records rise, and their threads are below 16.
fn are_rising(records: &[Played]) -> bool
    ensures rising { IsTrue result → RiseByLine records.now }
    ensures threads { IsTrue result → AreOfThreads16 records.now }
{
    let mut least: u64 = 0;
    for found in records {
        if u64::from(found.line) < least || found.thread >= 16 {
            return false;
        }
        least = u64::from(found.line) + 1;
    }
    true
}

// Whether each journal has fewer than 1,000 entries.
fn are_short(roots: &[DenseJournal]) -> bool
    ensures { IsTrue result → (p : ℕ) → length (journal_at roots.now p) < 2 ^ 32 }
{
    for journal in roots {
        if journal.entries().len() >= 1000 {
            return false;
        }
    }
    true
}

fn name(start: u32, born: u32) -> SlotName {
    SlotName { start, born }
}

pub(crate) fn numbered(start: u32, born: u32, number: u64) -> Numbered {
    let slot = name(start, born);
    Numbered { slot, number }
}

// A record of thread 0 in phase 1.
pub(crate) fn record(line: u32, op: Op, answer: Answer) -> Played {
    Played {
        line,
        thread: 0,
        phase: 1,
        rules: RULES,
        op,
        answer,
    }
}

pub(crate) fn seen(start: u32, born: u32, word: u64) -> Seen {
    let slot = name(start, born);
    let found = Word(word);
    Seen { slot, found }
}

// An entry of partition 0's pool.
fn pool(line: u32, act: PoolAct) -> PoolEntry {
    let partition = 0;
    PoolEntry {
        line,
        partition,
        act,
    }
}

pub(crate) fn took(line: u32, first: Option<u32>) -> PoolEntry {
    pool(line, PoolAct::Take { count: 1, first })
}

fn gave(line: u32) -> PoolEntry {
    pool(line, PoolAct::Give { count: 1, first: 0 })
}

const MAP: Op = Op::Alloc {
    reg: 0,
    partition: 0,
    size: 2000000,
};

pub(crate) const FREE: Op = Op::Free { reg: 0 };

// The worked run of direct maps in one super page: a map that is freed,
// one that a raw_ptr holds while another finds no room, and one after that.
fn map_records() -> [Played; 8] {
    let made = |born: u32| Answer::Made {
        seen: seen(0x4000, born, 0),
        usable: 2002936,
    };
    let done = |born: u32, word: u64| Answer::Done {
        seen: seen(0x4000, born, word),
    };
    [
        record(2, MAP, made(0)),
        record(3, FREE, done(0, 0x1000001)),
        record(4, MAP, made(2)),
        record(5, Op::Copy { from: 0, to: 1 }, done(2, 0x1000001)),
        record(6, FREE, done(2, 0x2000003)),
        record(7, MAP, Answer::Full { entry: 3 }),
        record(8, Op::Reset { reg: 1 }, done(2, 0x3000002)),
        record(9, MAP, made(5)),
    ]
}

fn map_pools() -> [PoolEntry; 6] {
    [
        took(2, Some(0)),
        gave(3),
        took(4, Some(0)),
        took(7, None),
        gave(8),
        took(9, Some(0)),
    ]
}

fn mapped(line: u32, pool: u32, slot: SlotName) -> RootEntry {
    let len = 2002944;
    RootEntry {
        line,
        act: RootAct::Map { pool, slot, len },
    }
}

fn unmapped(line: u32, pool: u32, slot: Numbered) -> RootEntry {
    RootEntry {
        line,
        act: RootAct::Unmap { pool, slot },
    }
}

// The journals of one partition, whose root did this.
pub(crate) fn roots_of(
    alloc: Global,
    entries: Vec<RootEntry>,
) -> Result<Vec<DenseJournal>, OutOfMemory> {
    let mut roots = Vec::new(alloc);
    roots.push(DenseJournal::of(alloc, &Journal::of(entries))?)?;
    Ok(roots)
}

// The journal of the worked run of direct maps, in which the third entry's slot starts at
// `start` and the last one names this entry of the pool.
fn map_roots(alloc: Global, start: u32, last: u32) -> Result<Vec<DenseJournal>, OutOfMemory> {
    let mut entries = Vec::new(alloc);
    entries.push(mapped(2, 0, name(0x4000, 0)))?;
    entries.push(unmapped(3, 1, numbered(0x4000, 0, 2)))?;
    entries.push(mapped(4, 2, name(start, 2)))?;
    entries.push(RootEntry {
        line: 7,
        act: RootAct::Full {
            class: None,
            pool: 3,
        },
    })?;
    entries.push(unmapped(8, 4, numbered(0x4000, 2, 4)))?;
    entries.push(mapped(9, last, name(0x4000, last)))?;
    roots_of(alloc, entries)
}

#[test]
fn direct_maps_meet_all(rt: HostRuntime) -> Result<(), Fail> {
    let alloc = rt.alloc();
    let roots = map_roots(alloc, 0x4000, 5)?;
    let first = first_of(alloc, 1, 1, &map_records(), &map_pools(), &roots)?;
    assert!(rt; first == First::Nowhere);
    Ok(())
}

// What a root has with that many direct maps of the worked run.
fn with_maps(maps: u64) -> Census
    requires { maps ≤ 1 }
{
    Census {
        root: Tally { slots: 0, bytes: 0 },
        committed: 2002944 * maps,
        reserved: 2097152 * maps,
        full: 0,
        active: 0,
        empty: 0,
        decommitted: 0,
    }
}

// The censuses of the worked run of direct maps, if the phases end after the lines 3, 7, 8 and 9, and one more has no op.
// The journal of partition 1 isn't there.
#[test]
fn the_censuses_of_direct_maps(rt: HostRuntime) -> Result<(), Fail> {
    let alloc = rt.alloc();
    let roots = map_roots(alloc, 0x4000, 5)?;
    let mut records = map_records();
    for at in 2..6 {
        records[at].phase = 2;
    }
    records[6].phase = 3;
    records[7].phase = 4;
    let found = journals_of(alloc, 1, 2, 5, &records, &map_pools(), &roots)?
        .ok()
        .ok_or("unfit")?;
    assert!(rt; found.misfit == None);
    assert_eq!(rt; found.censuses.len(), 2);
    let none = with_maps(0);
    let one = with_maps(1);
    let first = found.censuses[0].items();
    assert_eq!(rt; first, [none, one, none, one, one].as_slice());
    let second = found.censuses[1].items();
    assert_eq!(rt; second, [none, none, none, none, none].as_slice());
    Ok(())
}

// A take that finds none when there is one.
#[test]
fn a_take_that_is_no_lowest_one(rt: HostRuntime) -> Result<(), Fail> {
    let alloc = rt.alloc();
    let roots = map_roots(alloc, 0x4000, 5)?;
    let mut pools = map_pools();
    pools[2] = took(4, None);
    let first = first_of(alloc, 1, 1, &map_records(), &pools, &roots)?;
    assert!(rt; first == First::Pool(2));
    Ok(())
}

// An entry that gives back what another partition took.
#[test]
fn a_give_of_another_partition(rt: HostRuntime) -> Result<(), Fail> {
    let alloc = rt.alloc();
    let roots = map_roots(alloc, 0x4000, 5)?;
    let mut pools = map_pools();
    pools[4].partition = 1;
    let first = first_of(alloc, 1, 2, &map_records(), &pools, &roots)?;
    assert!(rt; first == First::Pool(4));
    Ok(())
}

// An entry that two of the journal name, and one after it that none does.
#[test]
fn an_entry_that_is_named_twice(rt: HostRuntime) -> Result<(), Fail> {
    let alloc = rt.alloc();
    let roots = map_roots(alloc, 0x4000, 2)?;
    let first = first_of(alloc, 1, 1, &map_records(), &map_pools(), &roots)?;
    assert!(rt; first == First::Pool(2));
    Ok(())
}

// An entry of a line that comes before that of the entry before it.
#[test]
fn an_entry_that_comes_too_late(rt: HostRuntime) -> Result<(), Fail> {
    let alloc = rt.alloc();
    let roots = map_roots(alloc, 0x4000, 5)?;
    let mut records = map_records();
    records[0].phase = 2;
    let first = first_of(alloc, 1, 1, &records, &map_pools(), &roots)?;
    assert!(rt; first == First::Pool(1));
    Ok(())
}

// A record that was refused, and names an entry of another line.
#[test]
fn a_refusal_that_names_no_full(rt: HostRuntime) -> Result<(), Fail> {
    let alloc = rt.alloc();
    let roots = map_roots(alloc, 0x4000, 5)?;
    let mut records = map_records();
    records[5].answer = Answer::Full { entry: 2 };
    let first = first_of(alloc, 1, 1, &records, &map_pools(), &roots)?;
    assert!(rt; first == First::Record(5));
    Ok(())
}

// A direct map that doesn't lie in what the pool gave.
#[test]
fn a_map_in_another_place(rt: HostRuntime) -> Result<(), Fail> {
    let alloc = rt.alloc();
    let roots = map_roots(alloc, 0x8000, 5)?;
    let first = first_of(alloc, 1, 1, &map_records(), &map_pools(), &roots)?;
    assert!(rt; first == First::Root(0, 2));
    Ok(())
}
