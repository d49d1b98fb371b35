ghost use Rattle.std.specs.Prelude.{◌-◌, ◌<◌, ◌^◌, length};

use crate::contents::{
    ALLOC, FIRST, READ, RULES, all_within, done, entry, gave, history, line, made, value,
};
use pa_audit_order::seen_meets;
use pa_audit_records::{Salt, exchanges_meet, records_of, swaps_meet};
use pa_record::{Answer, Entry, Held, History};
use pa_slot::OutOfMemory;
use pa_trace::{Line, Op};
use std::alloc::Global;
use std::test::Fail;

// The first record that is before itself, or finds too low a number. The greatest number if the cells don't hold.
fn seen_of(
    alloc: Global,
    lines: &[Line],
    entries: &[Entry],
    cells: &[History],
) -> Result<Option<u32>, OutOfMemory>
    requires lines { length lines.now < 2 ^ 32 - 2 }
    requires cells { length cells.now < 2 ^ 32 }
{
    let told = records_of(alloc, RULES, lines, entries)?;
    let records = told.as_slice();
    if !all_within(records) {
        return Ok(Some(u32::MAX));
    }
    if let Some(_at) = swaps_meet(records, cells) {
        return Ok(Some(u32::MAX));
    }
    let salt = Salt::of(records, &[]);
    let place = exchanges_meet(alloc, salt, records, cells)?;
    match place {
        Some(_) => Ok(Some(u32::MAX)),
        None => seen_meets(alloc, salt, records, cells),
    }
}

fn swap(cell: u32, reg: u32) -> Op {
    Op::Swap { cell, reg }
}

fn swapped(entry: u32) -> Answer {
    Answer::Swapped { entry }
}

// A thread makes an object and reads it, and found this word.
#[test]
fn a_thread_finds_what_it_left(rt: HostRuntime) {
    let lines = [line(0, ALLOC), line(0, READ)];
    let entries = [entry(2, 0, made(0)), entry(3, 0, value(0x100_0001, 0))];
    assert!(rt; seen_of(rt.alloc(), &lines, &entries, &[]) == Ok(None));
}

#[test]
fn seen_tells_a_thread_that_finds_less_than_it_left(rt: HostRuntime) {
    let lines = [line(0, ALLOC), line(0, READ), line(0, READ)];
    let entries = [
        entry(2, 0, made(0)),
        entry(3, 0, value(0x100_0001, 0)),
        entry(4, 0, value(1, 0)),
    ];
    assert!(rt; seen_of(rt.alloc(), &lines, &entries, &[]) == Ok(Some(2)));
}

// Thread 1 finds the number 0 of a slot that thread 0 issued, with this line between them.
fn apart_told(alloc: Global, between: Line) -> Result<Option<u32>, OutOfMemory> {
    let lines = [line(0, ALLOC), between, line(1, READ)];
    let read = entry(4, 1, value(1, 0));
    match between {
        Line::Phase => seen_of(alloc, &lines, &[entry(2, 0, made(0)), read], &[]),
        Line::Do { .. } => {
            let purge = entry(3, 1, Answer::Purged { slots: 0 });
            seen_of(alloc, &lines, &[entry(2, 0, made(0)), purge, read], &[])
        }
    }
}

#[test]
fn threads_of_one_phase_see_nothing_of_each_other(rt: HostRuntime) {
    let told = apart_told(rt.alloc(), line(1, Op::Purge));
    assert!(rt; told == Ok(None));
}

#[test]
fn seen_tells_less_than_an_earlier_phase_left(rt: HostRuntime) {
    let told = apart_told(rt.alloc(), Line::Phase);
    assert!(rt; told == Ok(Some(1)));
}

// Thread 0 makes an object and gives it to thread 1, which gives it to thread 2, which reads and found this word.
fn chain_lines() -> [Line; 6] {
    [
        line(0, ALLOC),
        line(0, swap(0, 0)),
        line(1, swap(0, 0)),
        line(1, swap(1, 0)),
        line(2, swap(1, 0)),
        line(2, READ),
    ]
}

fn chain_entries(word: u64) -> [Entry; 6] {
    [
        entry(2, 0, made(0)),
        entry(3, 0, swapped(0)),
        entry(4, 1, swapped(1)),
        entry(5, 1, swapped(0)),
        entry(6, 2, swapped(1)),
        entry(7, 2, value(word, 0)),
    ]
}

// What is returned of the chain of three threads, if the first exchange gives this.
fn chain_told(alloc: Global, given: Held, word: u64) -> Result<Option<u32>, OutOfMemory> {
    let first = [gave(3, given, Held::Nothing), gave(4, Held::Nothing, given)];
    let second = [
        gave(5, Held::Own(FIRST), Held::Nothing),
        gave(6, Held::Nothing, Held::Own(FIRST)),
    ];
    let cells = [history(alloc, &first)?, history(alloc, &second)?];
    seen_of(alloc, &chain_lines(), &chain_entries(word), &cells)
}

#[test]
fn a_handle_carries_what_its_givers_saw(rt: HostRuntime) {
    let told = chain_told(rt.alloc(), Held::Own(FIRST), 0x100_0001);
    assert!(rt; told == Ok(None));
}

#[test]
fn seen_tells_less_than_a_giver_of_a_giver_left(rt: HostRuntime) {
    let told = chain_told(rt.alloc(), Held::Own(FIRST), 1);
    assert!(rt; told == Ok(Some(5)));
}

#[test]
fn an_exchange_that_gives_nothing_tells_nothing(rt: HostRuntime) {
    let told = chain_told(rt.alloc(), Held::Nothing, 1);
    assert!(rt; told == Ok(None));
}

// Two threads that each got a handle by an exchange which they made before the other's: a ring.
#[test]
fn seen_tells_a_record_that_is_before_itself(rt: HostRuntime) -> Result<(), Fail> {
    let lines = [
        line(0, ALLOC),
        line(0, swap(0, 0)),
        line(0, swap(1, 0)),
        line(1, swap(1, 0)),
        line(1, swap(0, 0)),
    ];
    let entries = [
        entry(2, 0, made(0)),
        entry(3, 0, swapped(1)),
        entry(4, 0, swapped(0)),
        entry(5, 1, swapped(1)),
        entry(6, 1, swapped(0)),
    ];
    let handle = Held::Own(FIRST);
    let first = [gave(6, handle, Held::Nothing), gave(3, handle, handle)];
    let second = [gave(4, handle, Held::Nothing), gave(5, handle, handle)];
    let cells = [history(rt.alloc(), &first)?, history(rt.alloc(), &second)?];
    assert!(rt; seen_of(rt.alloc(), &lines, &entries, &cells) == Ok(Some(1)));
    Ok(())
}

#[test]
fn a_free_of_the_other_thread_is_seen_after_its_phase(rt: HostRuntime) {
    let lines = [
        line(0, ALLOC),
        line(0, Op::Free { reg: 0 }),
        Line::Phase,
        line(1, ALLOC),
        line(1, READ),
    ];
    let entries = [
        entry(2, 0, made(0)),
        entry(3, 0, done(0x100_0001)),
        entry(5, 1, made(0x200_0000)),
        entry(6, 1, value(0x300_0001, 0)),
    ];
    assert!(rt; seen_of(rt.alloc(), &lines, &entries, &[]) == Ok(None));
    let mut early = entries;
    early[2].answer = made(0x100_0000);
    assert!(rt; seen_of(rt.alloc(), &lines, &early, &[]) == Ok(Some(2)));
}
