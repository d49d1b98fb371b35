ghost use Rattle.std.specs.Prelude.{◌<◌, ◌-◌, ◌^◌, length};

use crate::contents::{
    ALLOC, FIRST, RULES, all_within, done, entry, gave, history, line, made, seen, value,
};
use pa_audit_records::{
    Salt, exchanges_meet, lines_meet, records_of, registers_meet, slots_meet, swaps_meet,
};
use pa_record::{Answer, CellEntry, Entry, Held, History};
use pa_slot::OutOfMemory;
use pa_trace::{Line, Op, Rules};
use std::alloc::Global;
use std::test::Fail;

// The first record whose answer its registers don't require by the rules.
pub(crate) fn registers_of(
    alloc: Global,
    rules: Rules,
    lines: &[Line],
    entries: &[Entry],
    cells: &[History],
) -> Result<Option<u32>, OutOfMemory>
    requires { length lines.now < 2 ^ 32 - 2 }
{
    let records = records_of(alloc, rules, lines, entries)?;
    if all_within(&records) {
        let salt = Salt::of(&records, &[]);
        registers_meet(alloc, salt, rules.version, &records, cells)
    } else {
        Ok(Some(u32::MAX))
    }
}

// The first record that found no word of its slot's run.
fn slots_of(alloc: Global, lines: &[Line], entries: &[Entry]) -> Result<Option<u32>, OutOfMemory>
    requires { length lines.now < 2 ^ 32 - 2 }
{
    let records = records_of(alloc, RULES, lines, entries)?;
    slots_meet(alloc, Salt::of(&records, &[]), &records)
}

// An object is made, freed, its slot given back, and made again.
fn purge_lines() -> [Line; 4] {
    [
        line(0, ALLOC),
        line(0, Op::Free { reg: 0 }),
        line(0, Op::Purge),
        line(
            0,
            Op::Alloc {
                reg: 1,
                partition: 0,
                size: 8,
            },
        ),
    ]
}

fn purge_entries() -> [Entry; 4] {
    [
        entry(2, 0, made(0)),
        entry(3, 0, done(0x100_0001)),
        entry(4, 0, Answer::Purged { slots: 8 }),
        entry(5, 0, made(0x200_0000)),
    ]
}

#[test]
fn a_worked_run_meets_all(rt: HostRuntime) {
    let lines = purge_lines();
    let entries = purge_entries();
    assert!(rt; lines_meet(&lines, &entries) == None);
    assert!(rt; registers_of(rt.alloc(), RULES, &lines, &entries, &[]) == Ok(None));
    assert!(rt; slots_of(rt.alloc(), &lines, &entries) == Ok(None));
}

#[test]
fn lines_tell_the_first_record_that_is_not_due(rt: HostRuntime) {
    let lines = purge_lines();
    let entries = purge_entries();
    assert!(rt; lines_meet(&lines, &entries[..3]) == Some(3));
    assert!(rt; lines_meet(&lines[..2], &entries) == Some(2));
    let mut other = entries;
    other[1].thread = 1;
    other[2].line = 9;
    assert!(rt; lines_meet(&lines, &other) == Some(1));
}

#[test]
fn registers_tell_a_free_of_nothing(rt: HostRuntime) {
    let mut lines = purge_lines();
    lines[1] = line(0, Op::Free { reg: 7 });
    let entries = purge_entries();
    assert!(rt; registers_of(rt.alloc(), RULES, &lines, &entries, &[]) == Ok(Some(1)));
}

#[test]
fn registers_tell_a_read_past_the_first_usable_number(rt: HostRuntime) {
    let lines = [
        line(0, ALLOC),
        line(0, Op::Read { reg: 0, place: 1 }),
        line(0, Op::Free { reg: 0 }),
        line(
            0,
            Op::Alloc {
                reg: 1,
                partition: 0,
                size: 20,
            },
        ),
    ];
    let entries = [
        entry(2, 0, made(0)),
        entry(3, 0, value(0x100_0001, 0)),
        entry(4, 0, done(0x100_0001)),
        entry(
            5,
            0,
            Answer::Made {
                seen: seen(0x200_0000),
                usable: 24,
            },
        ),
    ];
    assert!(rt; registers_of(rt.alloc(), RULES, &lines, &entries, &[]) == Ok(Some(1)));
}

#[test]
fn slots_tell_a_word_that_is_not_of_the_run(rt: HostRuntime) {
    let lines = purge_lines();
    let mut entries = purge_entries();
    entries[3].answer = made(0x300_0000);
    assert!(rt; slots_of(rt.alloc(), &lines, &entries) == Ok(Some(3)));
}

#[test]
fn slots_tell_the_later_of_two_steps_at_a_word(rt: HostRuntime) {
    let lines = [
        line(0, ALLOC),
        line(0, Op::Copy { from: 0, to: 1 }),
        line(0, Op::Copy { from: 0, to: 2 }),
    ];
    let entries = [
        entry(2, 0, made(0)),
        entry(3, 0, done(0x100_0001)),
        entry(4, 0, done(0x100_0001)),
    ];
    assert!(rt; slots_of(rt.alloc(), &lines, &entries) == Ok(Some(2)));
}

// The first exchange with cell 0, of this history, that doesn't fit.
fn exchanges_of(
    alloc: Global,
    lines: &[Line],
    entries: &[Entry],
    exchanges: &[CellEntry],
) -> Result<Option<(u32, usize)>, OutOfMemory>
    requires { length lines.now < 2 ^ 32 - 2 }
{
    let records = records_of(alloc, RULES, lines, entries)?;
    exchanges_meet(
        alloc,
        Salt::of(&records, &[]),
        &records,
        &[history(alloc, exchanges)?],
    )
}

// The first record that names no exchange of its cell.
fn swaps_of(
    alloc: Global,
    lines: &[Line],
    entries: &[Entry],
    exchanges: &[CellEntry],
) -> Result<Option<u32>, OutOfMemory>
    requires { length lines.now < 2 ^ 32 - 2 }
{
    let records = records_of(alloc, RULES, lines, entries)?;
    Ok(swaps_meet(&records, &[history(alloc, exchanges)?]))
}

// A thread hands an object to another through a cell.
fn hand_lines() -> [Line; 4] {
    [
        line(0, ALLOC),
        line(0, Op::Swap { cell: 0, reg: 0 }),
        line(1, Op::Swap { cell: 0, reg: 1 }),
        line(1, Op::Free { reg: 1 }),
    ]
}

fn hand_entries() -> [Entry; 4] {
    [
        entry(2, 0, made(0)),
        entry(3, 0, Answer::Swapped { entry: 0 }),
        entry(4, 1, Answer::Swapped { entry: 1 }),
        entry(5, 1, done(0x100_0001)),
    ]
}

fn hand_exchanges() -> [CellEntry; 2] {
    [
        gave(3, Held::Own(FIRST), Held::Nothing),
        gave(4, Held::Nothing, Held::Own(FIRST)),
    ]
}

#[test]
fn a_hand_over_meets_all(rt: HostRuntime) -> Result<(), Fail> {
    let lines = hand_lines();
    let entries = hand_entries();
    let exchanges = hand_exchanges();
    let cells = [history(rt.alloc(), &exchanges)?];
    assert!(rt; lines_meet(&lines, &entries) == None);
    assert!(rt; swaps_of(rt.alloc(), &lines, &entries, &exchanges) == Ok(None));
    assert!(rt; exchanges_of(rt.alloc(), &lines, &entries, &exchanges) == Ok(None));
    assert!(rt; registers_of(rt.alloc(), RULES, &lines, &entries, &cells) == Ok(None));
    assert!(rt; slots_of(rt.alloc(), &lines, &entries) == Ok(None));
    Ok(())
}

#[test]
fn cells_tell_a_record_that_names_another_exchange(rt: HostRuntime) {
    let mut entries = hand_entries();
    entries[2].answer = Answer::Swapped { entry: 0 };
    let told = swaps_of(rt.alloc(), &hand_lines(), &entries, &hand_exchanges());
    assert!(rt; told == Ok(Some(2)));
}

#[test]
fn cells_tell_an_exchange_that_found_what_was_not_given(rt: HostRuntime) {
    let mut exchanges = hand_exchanges();
    exchanges[1].found = Held::Nothing;
    let told = exchanges_of(rt.alloc(), &hand_lines(), &hand_entries(), &exchanges);
    assert!(rt; told == Ok(Some((0, 1))));
}

#[test]
fn cells_tell_an_exchange_behind_a_later_one_of_its_thread(rt: HostRuntime) {
    let mut lines = hand_lines();
    lines[2] = line(0, Op::Swap { cell: 0, reg: 1 });
    let exchanges = [
        gave(4, Held::Nothing, Held::Nothing),
        gave(3, Held::Own(FIRST), Held::Nothing),
    ];
    let told = exchanges_of(rt.alloc(), &lines, &hand_entries(), &exchanges);
    assert!(rt; told == Ok(Some((0, 1))));
}

#[test]
fn cells_tell_the_second_exchange_of_a_line(rt: HostRuntime) {
    let exchanges = [
        gave(3, Held::Nothing, Held::Nothing),
        gave(3, Held::Nothing, Held::Nothing),
    ];
    let told = exchanges_of(rt.alloc(), &hand_lines(), &hand_entries(), &exchanges);
    assert!(rt; told == Ok(Some((0, 1))));
}
