ghost use Rattle.std.specs.Prelude.{◌-◌, ◌<◌, ◌^◌, length};

use crate::caches::{FREE, alloc_of, dense_of, done, fill, give, made, numbered, purge, row};
use crate::contents::RULES;
use crate::homed::{are_homed, are_short, are_within};
use pa_audit_holders::{Books, CachesFound, caches_meet, homes_of};
use pa_audit_records::{Salt, record_ends, records_of};
use pa_buckets::Class;
use pa_dense::DenseJournal;
use pa_record::{Answer, Batch, Entry, Tally};
use pa_slot::OutOfMemory;
use pa_trace::{Line, Op};
use std::alloc::Global;
use std::test::Fail;

// What the checker finds of the lists of two threads in two partitions, and none if it doesn't take the lists.
fn found_in(
    alloc: Global,
    lines: &[Line],
    entries: &[Entry],
    phases: u32,
    roots: &[DenseJournal],
) -> Result<Option<CachesFound>, OutOfMemory>
    requires lines { length lines.now < 2 ^ 32 - 2 }
    requires phases { phases < 2 ^ 32 - 1 }
{
    let told = records_of(alloc, RULES, lines, entries)?;
    let records = told.as_slice();
    if records.len() >= 1000
        || roots.len() > 4
        || !are_short(roots)
        || !are_within(RULES.version, records)
    {
        return Ok(None);
    }
    let homes = homes_of(alloc, Salt::of(records, roots), roots)?;
    if !are_homed(RULES.version, &homes, roots) {
        return Ok(None);
    }
    let ends = record_ends(alloc, records, phases)?;
    let books = Books::of(alloc, RULES.version, 2, records, roots, &homes)?;
    let found = caches_meet(alloc, &books, 2, ends.as_slice())?;
    Ok(Some(found))
}

// Two slots of 16 bytes.
fn pair() -> Batch {
    let mut batch = Batch::new();
    batch.push(numbered(0x8000, 0, 0));
    batch.push(numbered(0x8010, 0, 0));
    batch
}

// Thread 0 makes a slot of partition 0, for which eight go out, and thread 1 one of partition 1, for which two do. Two phases
// on, thread 0 frees its slot, and in the phase after that it purges, which gives the eight back.
fn journals(alloc: Global) -> Result<Vec<DenseJournal>, Fail> {
    let class = Class::of(0).ok_or("no such class")?;
    let mut first = Vec::new(alloc);
    first.push(fill(2, class, Some(0), row(0, 0x4010)))?;
    first.push(give(8, row(2, 0x4010)))?;
    first.push(purge(8))?;
    let mut second = Vec::new(alloc);
    second.push(fill(3, class, Some(1), pair()))?;
    second.push(purge(8))?;
    let mut roots = Vec::new(alloc);
    roots.push(dense_of(alloc, first)?)?;
    roots.push(dense_of(alloc, second)?)?;
    Ok(roots)
}

fn lines() -> [Line; 7] {
    let alloc = Op::Alloc {
        reg: 0,
        partition: 1,
        size: 8,
    };
    [
        line(0, alloc_of(8)),
        line(1, alloc),
        Line::Phase,
        Line::Phase,
        line(0, FREE),
        Line::Phase,
        line(0, Op::Purge),
    ]
}

fn line(thread: u32, op: Op) -> Line {
    Line::Do { thread, op }
}

// The purge says that this many slots went back.
fn entries(slots: u32) -> [Entry; 4] {
    [
        entry(2, 0, made(0x4000, 0, 0)),
        entry(3, 1, made(0x8000, 0, 0)),
        entry(6, 0, done(0x4000, 0, 0x1000001)),
        entry(8, 0, Answer::Purged { slots }),
    ]
}

fn entry(line: u32, thread: u32, answer: Answer) -> Entry {
    Entry {
        line,
        thread,
        answer,
    }
}

// That many slots of 16 bytes of partition 0, and of partition 1.
fn listed(first: u64, second: u64) -> [Tally; 4]
    requires first { first < 65 }
    requires second { second < 65 }
{
    [tally(first), tally(second), tally(0), tally(0)]
}

fn tally(slots: u64) -> Tally
    requires { slots < 65 }
{
    let bytes = 16 * slots;
    Tally { slots, bytes }
}

#[test]
fn what_the_lists_have_at_the_end_of_each_phase(rt: HostRuntime) -> Result<(), Fail> {
    let alloc = rt.alloc();
    let roots = journals(alloc)?;
    let found = found_in(alloc, &lines(), &entries(8), 4, roots.as_slice())?;
    let found = found.ok_or("no lists of the checker's")?;
    assert!(rt; found.misfit.is_none());
    assert_eq!(rt; found.cached.len(), 4);
    assert!(rt; found.cached[0] == listed(7, 1));
    assert!(rt; found.cached[1] == listed(7, 1));
    assert!(rt; found.cached[2] == listed(8, 1));
    assert!(rt; found.cached[3] == listed(0, 1));
    Ok(())
}

// Only the first two phases are asked for: the records after them are played all the same, and the purge reports one slot less.
#[test]
fn a_record_behind_the_last_phase_that_is_asked_for(rt: HostRuntime) -> Result<(), Fail> {
    let alloc = rt.alloc();
    let roots = journals(alloc)?;
    let found = found_in(alloc, &lines(), &entries(7), 2, roots.as_slice())?;
    let found = found.ok_or("no lists of the checker's")?;
    assert_eq!(rt; found.misfit, Some(3));
    Ok(())
}
