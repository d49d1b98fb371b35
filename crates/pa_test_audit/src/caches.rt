use crate::contents::rules_of;
use crate::homed::{are_homed, are_short, are_within};
use pa_audit_holders::{Books, caches_meet, homes_of};
use pa_audit_records::Salt;
use pa_buckets::Class;
use pa_dense::DenseJournal;
use pa_record::{Answer, Batch, Journal, Numbered, RootAct, RootEntry, Seen};
use pa_rules::Played;
use pa_slot::{OutOfMemory, SlotName, Word};
use pa_trace::Op;
use std::alloc::Global;
use std::test::Fail;

// What the checker returns: the first record that doesn't meet its demand.
#[derive(Clone, Copy, Debug, PartialEq, Eq)]
pub(crate) enum First {
    Nowhere,
    Record(u32),
    // The checker doesn't take these lists.
    Unfit,
}

pub(crate) fn first_of(
    alloc: Global,
    version: u32,
    records: &[Played],
    roots: &[DenseJournal],
) -> Result<First, OutOfMemory> {
    if records.len() >= 1000
        || roots.len() > 4
        || !are_short(roots)
        || !are_within(version, records)
    {
        return Ok(First::Unfit);
    }
    let salt = Salt::of(records, roots);
    let homes = homes_of(alloc, salt, roots)?;
    if !are_homed(version, &homes, roots) {
        return Ok(First::Unfit);
    }
    let books = Books::of(alloc, version, 1, records, roots, &homes)?;
    let found = caches_meet(alloc, &books, 16, &[])?;
    match found.misfit {
        Some(at) => Ok(First::Record(at)),
        None => Ok(First::Nowhere),
    }
}

fn name(start: u32, born: u32) -> SlotName {
    SlotName { start, born }
}

pub(crate) fn numbered(start: u32, born: u32, number: u64) -> Numbered {
    let slot = name(start, born);
    Numbered { slot, number }
}

fn seen(start: u32, born: u32, word: u64) -> Seen {
    let slot = name(start, born);
    let found = Word(word);
    Seen { slot, found }
}

// A record of thread 0 in phase 1.
fn record(line: u32, op: Op, answer: Answer) -> Played {
    Played {
        line,
        thread: 0,
        phase: 1,
        rules: rules_of(1),
        op,
        answer,
    }
}

pub(crate) fn alloc_of(size: u32) -> Op {
    let reg = 0;
    let partition = 0;
    Op::Alloc {
        reg,
        partition,
        size,
    }
}

pub(crate) fn made(start: u32, born: u32, word: u64) -> Answer {
    let seen = seen(start, born, word);
    let usable = 8;
    Answer::Made { seen, usable }
}

pub(crate) fn done(start: u32, born: u32, word: u64) -> Answer {
    let seen = seen(start, born, word);
    Answer::Done { seen }
}

pub(crate) const FREE: Op = Op::Free { reg: 0 };

pub(crate) fn fill(line: u32, class: Class, pool: Option<u32>, slots: Batch) -> RootEntry {
    RootEntry {
        line,
        act: RootAct::Fill { class, pool, slots },
    }
}

pub(crate) fn give(line: u32, slots: Batch) -> RootEntry {
    RootEntry {
        line,
        act: RootAct::Give { slots },
    }
}

pub(crate) fn purge(line: u32) -> RootEntry {
    RootEntry {
        line,
        act: RootAct::Purge,
    }
}

// The journal of these entries.
pub(crate) fn dense_of(
    alloc: Global,
    entries: Vec<RootEntry>,
) -> Result<DenseJournal, OutOfMemory> {
    DenseJournal::of(alloc, &Journal::of(entries))
}

// Eight slots of 16 bytes. The first is at this number, and the second starts at this byte.
pub(crate) fn row(number: u64, second: u32) -> Batch {
    let mut batch = Batch::new();
    batch.push(numbered(0x4000, 0, number));
    batch.push(numbered(second, 0, 0));
    batch.push(numbered(0x4020, 0, 0));
    batch.push(numbered(0x4030, 0, 0));
    batch.push(numbered(0x4040, 0, 0));
    batch.push(numbered(0x4050, 0, 0));
    batch.push(numbered(0x4060, 0, 0));
    batch.push(numbered(0x4070, 0, 0));
    batch
}

// A slot of a fill of eight of this class is made, freed and goes back with the others in a purge, and the next allocation fills again.
// The second slot that goes back starts at `second`, and one more entry is on line `more`.
pub(crate) fn purge_roots(
    alloc: Global,
    class: u32,
    second: u32,
    more: u32,
) -> Result<Vec<DenseJournal>, Fail> {
    let class = Class::of(class).ok_or("no such class")?;
    let mut entries = Vec::new(alloc);
    entries.push(fill(2, class, Some(0), row(0, 0x4010)))?;
    entries.push(give(4, row(2, second)))?;
    entries.push(purge(4))?;
    entries.push(fill(5, class, None, row(2, 0x4010)))?;
    entries.push(purge(more))?;
    let mut roots = Vec::new(alloc);
    roots.push(dense_of(alloc, entries)?)?;
    Ok(roots)
}

pub(crate) fn purge_records(slots: u32, thread: u32, start: u32) -> [Played; 4] {
    let mut records = [
        record(2, alloc_of(8), made(0x4000, 0, 0)),
        record(3, FREE, done(0x4000, 0, 0x1000001)),
        record(4, Op::Purge, Answer::Purged { slots }),
        record(5, alloc_of(8), made(start, 0, 0x2000000)),
    ];
    records[2].thread = thread;
    records
}

#[test]
fn a_purge_gives_all_back(rt: HostRuntime) -> Result<(), Fail> {
    let alloc = rt.alloc();
    let roots = purge_roots(alloc, 0, 0x4010, 9)?;
    let first = first_of(alloc, 1, &purge_records(8, 0, 0x4000), &roots)?;
    assert!(rt; first == First::Nowhere);
    Ok(())
}

// A purge that reports one slot less than its lists had.
#[test]
fn a_purge_of_seven(rt: HostRuntime) -> Result<(), Fail> {
    let alloc = rt.alloc();
    let roots = purge_roots(alloc, 0, 0x4010, 9)?;
    let first = first_of(alloc, 1, &purge_records(7, 0, 0x4000), &roots)?;
    assert!(rt; first == First::Record(2));
    Ok(())
}

// In one run a slot goes back that isn't the second of its list, and in another a thread with empty lists purges.
#[test]
fn a_purge_of_other_lists(rt: HostRuntime) -> Result<(), Fail> {
    let alloc = rt.alloc();
    let other = purge_roots(alloc, 0, 0x4020, 9)?;
    let first = first_of(alloc, 1, &purge_records(8, 0, 0x4000), &other)?;
    assert!(rt; first == First::Record(2));
    let roots = purge_roots(alloc, 0, 0x4010, 9)?;
    let first = first_of(alloc, 1, &purge_records(8, 1, 0x4000), &roots)?;
    assert!(rt; first == First::Record(2));
    Ok(())
}

// The slot that was made isn't the front of what was filled.
#[test]
fn a_slot_that_is_not_the_front(rt: HostRuntime) -> Result<(), Fail> {
    let alloc = rt.alloc();
    let roots = purge_roots(alloc, 0, 0x4010, 9)?;
    let first = first_of(alloc, 1, &purge_records(8, 0, 0x4010), &roots)?;
    assert!(rt; first == First::Record(3));
    Ok(())
}

// A free whose list keeps its slot has an entry.
#[test]
fn an_entry_too_many(rt: HostRuntime) -> Result<(), Fail> {
    let alloc = rt.alloc();
    let roots = purge_roots(alloc, 0, 0x4010, 3)?;
    let first = first_of(alloc, 1, &purge_records(8, 0, 0x4000), &roots)?;
    assert!(rt; first == First::Record(1));
    Ok(())
}

// One slot, at this number.
pub(crate) fn single(number: u64) -> Batch {
    let mut batch = Batch::new();
    batch.push(numbered(0x4000, 0, number));
    batch
}

// A slot of this class, of which a thread keeps none, is made and freed twice. The second time it goes back on line `back`.
pub(crate) fn large_roots(alloc: Global, class: u32, back: u32) -> Result<Vec<DenseJournal>, Fail> {
    let class = Class::of(class).ok_or("no such class")?;
    let mut entries = Vec::new(alloc);
    entries.push(fill(2, class, Some(0), single(0)))?;
    entries.push(give(3, single(2)))?;
    entries.push(fill(4, class, None, single(2)))?;
    entries.push(give(back, single(4)))?;
    let mut roots = Vec::new(alloc);
    roots.push(dense_of(alloc, entries)?)?;
    Ok(roots)
}

pub(crate) fn large_records(size: u32) -> [Played; 4] {
    [
        record(2, alloc_of(size), made(0x4000, 0, 0)),
        record(3, FREE, done(0x4000, 0, 0x1000001)),
        record(4, alloc_of(size), made(0x4000, 0, 0x2000000)),
        record(5, FREE, done(0x4000, 0, 0x3000001)),
    ]
}

#[test]
fn a_large_slot_goes_back_at_once(rt: HostRuntime) -> Result<(), Fail> {
    let alloc = rt.alloc();
    let roots = large_roots(alloc, 40, 5)?;
    let first = first_of(alloc, 1, &large_records(40000), &roots)?;
    assert!(rt; first == First::Nowhere);
    Ok(())
}

// The large slot stays in its list after its second free.
#[test]
fn a_large_slot_that_stays(rt: HostRuntime) -> Result<(), Fail> {
    let alloc = rt.alloc();
    let roots = large_roots(alloc, 40, 9)?;
    let first = first_of(alloc, 1, &large_records(40000), &roots)?;
    assert!(rt; first == First::Record(3));
    Ok(())
}
