ghost use Rattle.std.specs.Prelude.{◌≡◌, ◌↔◌, ◌<◌, ◌-◌, ◌^◌, All, IsTrue, length};
ghost use Rattle.std.specs.Bool.{OnTrue};
ghost use Rattle.pa_audit_records.specs.Rows.{NamesRegisters, IsPlayedWithin};

use pa_audit_order::contents_meet;
use pa_audit_records::{Salt, records_of, registers_meet, slots_meet};
use pa_record::{Answer, CellEntry, Entry, Held, History, Seen};
use pa_rules::Played;
use pa_slot::{OutOfMemory, SlotName, Word};
use pa_trace::{Line, Op, Rules};
use std::alloc::Global;
use std::test::Fail;

// The first slot of a class of 16 bytes.
pub(crate) const FIRST: SlotName = SlotName {
    start: 16384,
    born: 0,
};

// The rules of version 1 in a trace of four partitions.
pub(crate) const RULES: Rules = Rules {
    version: 1,
    plain_from: 4,
};

// The rules of a version in a trace of four partitions.
pub(crate) fn rules_of(version: u32) -> Rules {
    let plain_from = 4;
    Rules {
        version,
        plain_from,
    }
}

const POISON: u64 = 0xefef_efef_efef_efef;

pub(crate) const ALLOC: Op = Op::Alloc {
    reg: 0,
    partition: 0,
    size: 8,
};

// An op of a thread.
pub(crate) fn line(thread: u32, op: Op) -> Line {
    Line::Do { thread, op }
}

// A record of a thread.
pub(crate) fn entry(line: u32, thread: u32, answer: Answer) -> Entry {
    Entry {
        line,
        thread,
        answer,
    }
}

// The slot at a count word.
pub(crate) fn seen(word: u64) -> Seen {
    Seen {
        slot: FIRST,
        found: Word(word),
    }
}

pub(crate) fn made(word: u64) -> Answer {
    Answer::Made {
        seen: seen(word),
        usable: 8,
    }
}

pub(crate) fn done(word: u64) -> Answer {
    Answer::Done { seen: seen(word) }
}

pub(crate) fn value(word: u64, value: u64) -> Answer {
    Answer::Value {
        seen: seen(word),
        value,
    }
}

pub(crate) const READ: Op = Op::Read { reg: 0, place: 0 };

// Whether the op names registers below 64.
fn names_registers(op: Op) -> bool
    ensures { IsTrue result ↔ NamesRegisters op }
{
    match op {
        Op::Alloc { reg, .. }
        | Op::Reset { reg }
        | Op::Free { reg }
        | Op::Write { reg, .. }
        | Op::Read { reg, .. }
        | Op::Swap { reg, .. } => reg < 64,
        Op::Copy { from, to } => from < 64 && to < 64,
        Op::Purge => true,
    }
}

// Whether each record is of a thread and of registers that exist.
pub(crate) fn all_within(records: &[Played]) -> bool
    ensures { OnTrue result (All IsPlayedWithin records.now) }
{
    for record in records {
        if record.thread >= 16 || !names_registers(record.op) {
            return false;
        }
    }
    true
}

// The first record that read what it may not report. The greatest number if a clause before contents isn't met.
fn contents_of(
    alloc: Global,
    lines: &[Line],
    entries: &[Entry],
    cells: &[History],
) -> Result<Option<u32>, OutOfMemory>
    requires { length lines.now < 2 ^ 32 - 2 }
{
    let told = records_of(alloc, RULES, lines, entries)?;
    let records = told.as_slice();
    if !all_within(records) {
        return Ok(Some(u32::MAX));
    }
    let salt = Salt::of(records, &[]);
    if let Some(_at) = registers_meet(alloc, salt, RULES.version, records, cells)? {
        return Ok(Some(u32::MAX));
    }
    if let Some(_at) = slots_meet(alloc, salt, records)? {
        return Ok(Some(u32::MAX));
    }
    contents_meet(alloc, records, cells)
}

// The history of a cell.
pub(crate) fn history(alloc: Global, exchanges: &[CellEntry]) -> Result<History, OutOfMemory> {
    let mut history = History::new(alloc);
    for exchange in exchanges {
        history.push(*exchange)?;
    }
    Ok(history)
}

pub(crate) fn gave(line: u32, gave: Held, found: Held) -> CellEntry {
    CellEntry { line, gave, found }
}

// An object is read, written, read, freed, made again and read.
fn filled_lines() -> [Line; 7] {
    [
        line(0, ALLOC),
        line(0, READ),
        line(0, Op::Write { reg: 0, value: 42 }),
        line(0, READ),
        line(0, Op::Free { reg: 0 }),
        line(0, ALLOC),
        line(0, READ),
    ]
}

// What was read before the write, after it, and from the object that was made again.
fn filled_entries(first: u64, written: u64, again: u64) -> [Entry; 7] {
    [
        entry(2, 0, made(0)),
        entry(3, 0, value(0x100_0001, first)),
        entry(4, 0, done(0x100_0001)),
        entry(5, 0, value(0x200_0001, written)),
        entry(6, 0, done(0x200_0001)),
        entry(7, 0, made(0x300_0000)),
        entry(8, 0, value(0x400_0001, again)),
    ]
}

#[test]
fn a_read_gives_what_was_written_last(rt: HostRuntime) {
    let lines = filled_lines();
    let told = contents_of(rt.alloc(), &lines, &filled_entries(0, 42, 0), &[]);
    assert!(rt; told == Ok(None));
}

#[test]
fn contents_tell_a_read_of_what_is_not_written_yet(rt: HostRuntime) {
    let lines = filled_lines();
    let told = contents_of(rt.alloc(), &lines, &filled_entries(42, 42, 0), &[]);
    assert!(rt; told == Ok(Some(1)));
}

#[test]
fn contents_tell_a_read_that_misses_a_write(rt: HostRuntime) {
    let lines = filled_lines();
    let told = contents_of(rt.alloc(), &lines, &filled_entries(0, 0, 42), &[]);
    assert!(rt; told == Ok(Some(3)));
}

#[test]
fn contents_tell_a_content_that_outlived_its_object(rt: HostRuntime) {
    let lines = filled_lines();
    let told = contents_of(rt.alloc(), &lines, &filled_entries(0, 42, 42), &[]);
    assert!(rt; told == Ok(Some(6)));
}

// An object is read through a raw_ptr before and after its owner freed it, all on one thread.
fn freed_lines() -> [Line; 5] {
    [
        line(0, ALLOC),
        line(0, Op::Copy { from: 0, to: 1 }),
        line(0, Op::Read { reg: 1, place: 0 }),
        line(0, Op::Free { reg: 0 }),
        line(0, Op::Read { reg: 1, place: 0 }),
    ]
}

fn freed_entries(held: u64, freed: u64) -> [Entry; 5] {
    [
        entry(2, 0, made(0)),
        entry(3, 0, done(0x100_0001)),
        entry(4, 0, value(0x200_0003, held)),
        entry(5, 0, done(0x200_0003)),
        entry(
            6,
            0,
            Answer::Dangling {
                seen: seen(0x300_0002),
                value: freed,
            },
        ),
    ]
}

#[test]
fn a_read_of_what_is_freed_gives_poison(rt: HostRuntime) {
    let lines = freed_lines();
    let told = contents_of(rt.alloc(), &lines, &freed_entries(0, POISON), &[]);
    assert!(rt; told == Ok(None));
}

#[test]
fn contents_tell_a_freed_slot_that_was_not_poisoned(rt: HostRuntime) {
    let lines = freed_lines();
    let told = contents_of(rt.alloc(), &lines, &freed_entries(0, 0), &[]);
    assert!(rt; told == Ok(Some(4)));
}

#[test]
fn contents_tell_poison_where_the_same_thread_frees(rt: HostRuntime) {
    let lines = freed_lines();
    let told = contents_of(rt.alloc(), &lines, &freed_entries(POISON, POISON), &[]);
    assert!(rt; told == Ok(Some(2)));
}

// Thread 1 gets a raw_ptr through a cell and reads, and thread 0, which owns the object, frees it:
// before that a new phase may begin.
fn shared_lines(before_free: Line) -> [Line; 7] {
    [
        line(0, ALLOC),
        line(0, Op::Copy { from: 0, to: 1 }),
        line(0, Op::Swap { cell: 0, reg: 1 }),
        line(1, Op::Swap { cell: 0, reg: 0 }),
        line(1, READ),
        before_free,
        line(0, Op::Free { reg: 0 }),
    ]
}

fn shared_exchanges() -> [CellEntry; 2] {
    [
        gave(4, Held::Ref(FIRST), Held::Nothing),
        gave(5, Held::Nothing, Held::Ref(FIRST)),
    ]
}

// The records up to the read, which gave this value.
fn shared_entries(read: u64) -> [Entry; 5] {
    [
        entry(2, 0, made(0)),
        entry(3, 0, done(0x100_0001)),
        entry(4, 0, Answer::Swapped { entry: 0 }),
        entry(5, 1, Answer::Swapped { entry: 1 }),
        entry(6, 1, value(0x200_0003, read)),
    ]
}

// What a run with these lines reports, in which thread 1 read poison: the record of the line before the free is this one.
fn shared_told(
    alloc: Global,
    before_free: Line,
    record: Option<Entry>,
) -> Result<Option<u32>, OutOfMemory> {
    let lines = shared_lines(before_free);
    let mut entries = Vec::new(alloc);
    for told in &shared_entries(POISON) {
        entries.push(*told)?;
    }
    if let Some(told) = record {
        entries.push(told)?;
    }
    entries.push(entry(8, 0, done(0x200_0003)))?;
    let cells = [history(alloc, &shared_exchanges())?];
    contents_of(alloc, &lines, &entries, &cells)
}

#[test]
fn a_read_may_find_poison_while_another_thread_frees(rt: HostRuntime) {
    let purge = entry(7, 1, Answer::Purged { slots: 0 });
    let told = shared_told(rt.alloc(), line(1, Op::Purge), Some(purge));
    assert!(rt; told == Ok(None));
}

#[test]
fn contents_tell_poison_of_a_free_of_the_next_phase(rt: HostRuntime) {
    let told = shared_told(rt.alloc(), Line::Phase, None);
    assert!(rt; told == Ok(Some(4)));
}

#[test]
fn contents_tell_poison_that_an_owner_read(rt: HostRuntime) -> Result<(), Fail> {
    let lines = [
        line(0, ALLOC),
        line(0, READ),
        line(0, Op::Swap { cell: 0, reg: 0 }),
        line(1, Op::Swap { cell: 0, reg: 0 }),
        line(1, Op::Free { reg: 0 }),
    ];
    let entries = [
        entry(2, 0, made(0)),
        entry(3, 0, value(0x100_0001, POISON)),
        entry(4, 0, Answer::Swapped { entry: 0 }),
        entry(5, 1, Answer::Swapped { entry: 1 }),
        entry(6, 1, done(0x100_0001)),
    ];
    let exchanges = [
        gave(4, Held::Own(FIRST), Held::Nothing),
        gave(5, Held::Nothing, Held::Own(FIRST)),
    ];
    let cells = [history(rt.alloc(), &exchanges)?];
    let told = contents_of(rt.alloc(), &lines, &entries, &cells);
    assert!(rt; told == Ok(Some(1)));
    Ok(())
}
