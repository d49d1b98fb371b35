ghost use Rattle.std.specs.Prelude.{◌-◌, ◌<◌, ◌^◌, length};

use crate::caches::{FREE, alloc_of, dense_of, done, fill, give, made, numbered, row, single};
use crate::contents::RULES;
use crate::homed::are_short;
use pa_audit_holders::holders_meet;
use pa_audit_records::{Salt, records_of, slots_meet};
use pa_buckets::Class;
use pa_dense::DenseJournal;
use pa_record::{Answer, Entry, RootAct, RootEntry};
use pa_rules::Place;
use pa_slot::OutOfMemory;
use pa_trace::{Line, Op};
use std::alloc::Global;
use std::test::Fail;

// What the checker returns: the first place that doesn't meet its demand.
#[derive(Clone, Copy, Debug, PartialEq, Eq)]
enum First {
    Nowhere,
    At(Place),
    // The checker doesn't take these lists.
    Unfit,
}

fn first_of(
    alloc: Global,
    lines: &[Line],
    entries: &[Entry],
    roots: &[DenseJournal],
) -> Result<First, OutOfMemory>
    requires lines { length lines.now < 2 ^ 32 - 2 }
{
    let told = records_of(alloc, RULES, lines, entries)?;
    let records = told.as_slice();
    if roots.len() > 4 || !are_short(roots) {
        return Ok(First::Unfit);
    }
    let salt = Salt::of(records, roots);
    let slots = slots_meet(alloc, salt, records)?;
    match slots {
        Some(_at) => Ok(First::Unfit),
        None => {
            let place = holders_meet(alloc, salt, records, roots)?;
            match place {
                Some(place) => Ok(First::At(place)),
                None => Ok(First::Nowhere),
            }
        }
    }
}

fn line(thread: u32, op: Op) -> Line {
    Line::Do { thread, op }
}

fn entry(line: u32, thread: u32, answer: Answer) -> Entry {
    Entry {
        line,
        thread,
        answer,
    }
}

// A slot is made, freed and made again, the second time on line 4 by this thread.
fn again_lines(thread: u32) -> [Line; 3] {
    [
        line(0, alloc_of(8)),
        line(0, FREE),
        line(thread, alloc_of(8)),
    ]
}

fn again_entries(thread: u32) -> [Entry; 3] {
    [
        entry(2, 0, made(0x4000, 0, 0)),
        entry(3, 0, done(0x4000, 0, 0x1000001)),
        entry(4, thread, made(0x4000, 0, 0x2000000)),
    ]
}

// One journal, with a fill on line 2 of slots of which the first has this number, and one more entry.
fn filled(alloc: Global, number: u64, more: Option<RootEntry>) -> Result<Vec<DenseJournal>, Fail> {
    let class = Class::of(0).ok_or("no such class")?;
    let mut entries = Vec::new(alloc);
    entries.push(fill(2, class, Some(0), row(number, 0x4010)))?;
    match more {
        Some(entry) => entries.push(entry)?,
        None => {}
    }
    let mut roots = Vec::new(alloc);
    roots.push(dense_of(alloc, entries)?)?;
    Ok(roots)
}

// What is returned if line 4 is this thread's and the journal has this entry more.
fn again(alloc: Global, thread: u32, more: Option<RootEntry>) -> Result<First, Fail> {
    let roots = filled(alloc, 0, more)?;
    let first = first_of(alloc, &again_lines(thread), &again_entries(thread), &roots)?;
    Ok(first)
}

#[test]
fn a_thread_makes_again_what_it_freed(rt: HostRuntime) -> Result<(), Fail> {
    let first = again(rt.alloc(), 0, None)?;
    assert!(rt; first == First::Nowhere);
    Ok(())
}

// Thread 1 makes what thread 0 freed, with no entry between.
#[test]
fn another_thread_makes_it_again(rt: HostRuntime) -> Result<(), Fail> {
    let first = again(rt.alloc(), 1, None)?;
    assert!(rt; first == First::At(Place::Record(2)));
    Ok(())
}

// A fill of a slot that its thread has. It makes the thread of its line the holder all the same, so that the record fits.
#[test]
fn a_fill_of_a_slot_that_a_thread_has(rt: HostRuntime) -> Result<(), Fail> {
    let alloc = rt.alloc();
    let class = Class::of(0).ok_or("no such class")?;
    let first = again(alloc, 1, Some(fill(4, class, None, single(2))))?;
    assert!(rt; first == First::At(Place::Root(0, 1)));
    Ok(())
}

// A thread gives back what another one has: the slot is the root's from then on, and the record comes above the entry.
#[test]
fn a_give_by_another_thread(rt: HostRuntime) -> Result<(), Fail> {
    let first = again(rt.alloc(), 1, Some(give(4, single(2))))?;
    assert!(rt; first == First::At(Place::Record(2)));
    Ok(())
}

// A thread gives back another slot, at a number at which it isn't free.
#[test]
fn a_give_of_a_slot_that_is_not_free(rt: HostRuntime) -> Result<(), Fail> {
    let first = again(rt.alloc(), 0, Some(give(4, single(1))))?;
    assert!(rt; first == First::At(Place::Root(0, 1)));
    Ok(())
}

// A fill names its first slot at a number that no step left.
#[test]
fn a_fill_at_another_number(rt: HostRuntime) -> Result<(), Fail> {
    let alloc = rt.alloc();
    let roots = filled(alloc, 1, None)?;
    let first = first_of(
        alloc,
        &[line(0, Op::Purge)],
        &[entry(2, 0, Answer::Purged { slots: 0 })],
        &roots,
    )?;
    assert!(rt; first == First::At(Place::Root(0, 0)));
    Ok(())
}

fn map(line: u32) -> RootEntry {
    RootEntry {
        line,
        act: RootAct::Map {
            pool: 0,
            slot: numbered(0x4000, 0, 0).slot,
            len: 2_002_944,
        },
    }
}

fn unmap(line: u32, number: u64) -> RootEntry {
    RootEntry {
        line,
        act: RootAct::Unmap {
            pool: 1,
            slot: numbered(0x4000, 0, number),
        },
    }
}

// A direct map is made and goes back on line 3, and the journal has this entry after it.
fn mapped(alloc: Global, more: Option<RootEntry>) -> Result<Vec<DenseJournal>, Fail> {
    let mut entries = Vec::new(alloc);
    entries.push(map(2))?;
    entries.push(unmap(3, 2))?;
    match more {
        Some(entry) => entries.push(entry)?,
        None => {}
    }
    let mut roots = Vec::new(alloc);
    roots.push(dense_of(alloc, entries)?)?;
    Ok(roots)
}

// A direct map is made and freed once.
#[test]
fn a_direct_map_goes_back(rt: HostRuntime) -> Result<(), Fail> {
    let alloc = rt.alloc();
    let roots = mapped(alloc, None)?;
    let lines = [line(0, alloc_of(2_000_000)), line(0, FREE)];
    let entries = [
        entry(2, 0, made(0x4000, 0, 0)),
        entry(3, 0, done(0x4000, 0, 0x1000001)),
    ];
    let first = first_of(alloc, &lines, &entries, &roots)?;
    assert!(rt; first == First::Nowhere);
    Ok(())
}

// A direct map is made again after it was gone for good.
#[test]
fn a_direct_map_that_comes_again(rt: HostRuntime) -> Result<(), Fail> {
    let alloc = rt.alloc();
    let roots = mapped(alloc, None)?;
    let first = first_of(alloc, &again_lines(0), &again_entries(0), &roots)?;
    assert!(rt; first == First::At(Place::Record(2)));
    Ok(())
}

// An entry names a direct map once more, though the root has it at that number.
#[test]
fn a_direct_map_that_is_named_again(rt: HostRuntime) -> Result<(), Fail> {
    let alloc = rt.alloc();
    let class = Class::of(0).ok_or("no such class")?;
    let roots = mapped(alloc, Some(fill(3, class, None, single(2))))?;
    let lines = [line(0, alloc_of(2_000_000)), line(0, FREE)];
    let entries = [
        entry(2, 0, made(0x4000, 0, 0)),
        entry(3, 0, done(0x4000, 0, 0x1000001)),
    ];
    let first = first_of(alloc, &lines, &entries, &roots)?;
    assert!(rt; first == First::At(Place::Root(0, 2)));
    Ok(())
}
