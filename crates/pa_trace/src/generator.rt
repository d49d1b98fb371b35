ghost use Rattle.std.specs.Prelude.{◌≡◌, ◌++◌, ◌≤◌, ◌+◌, ◌*◌, ◌<◌, length, IfOk, OnOk};
ghost use Rattle.pa_trace.specs.Limits.{IsWithinLimits};
ghost use Rattle.pa_trace.specs.Generated.{IsGenerated, drawn_words, object_lines, pointer_lines, thread_lines, round_lines, phase_before};

use crate::script::{Line, Lines, Op, Trace};
use pa_slot::OutOfMemory;
use rand_core::utils::NextWord;
use rand_pcg::Lcg64Xsh32;
use std::alloc::Global;

// The threads of a round. Each allocates as many objects as `OBJECTS` says.
const THREADS: u32 = 4;

const OBJECTS: u32 = 4;

// The words that a round draws.
const WORDS: usize = 32;

// The lines of a round, with the head or the `phase` before it.
const LINES: usize = 81;

// The number of the random numbers' stream.
const STREAM: u64 = 1;

/// The generated trace of that many rounds, by the random numbers of this key. In a round each of four threads allocates four
/// objects, points to one of them, passes a `raw_ptr` on through a cell, reads what it freed, and frees all.
pub fn generate(alloc: Global, rounds: u32, key: u64) -> Result<Trace, OutOfMemory>
    requires some { 1 ≤ rounds }
    requires few { rounds ≤ 800 }
    ensures trace { IfOk result (IsGenerated rounds key) }
    ensures limits { IfOk result IsWithinLimits }
{
    let words = draw(alloc, key, WORDS * rounds as usize)?;
    let mut lines = Vec::with_capacity(alloc, LINES * rounds as usize)?;
    for round in 0..rounds {
        push_phase(&mut lines, round)?;
        push_round(&mut lines, words.as_slice(), round)?;
    }
    Ok(Trace {
        version: 1,
        region: 8,
        partitions: THREADS,
        threads: THREADS,
        plain: 0,
        lines: Lines::of(lines),
    })
}

// The first `count` words that the random numbers of this key give.
fn draw(alloc: Global, key: u64, count: usize) -> Result<Vec<u32>, OutOfMemory>
    ensures { IfOk result (λ words. words.items ≡ drawn_words key count) }
{
    let mut numbers = Lcg64Xsh32::new(key, STREAM);
    let mut words = Vec::with_capacity(alloc, count)?;
    for _ in 0..count {
        words.push(numbers.next_word())?;
    }
    Ok(words)
}

// Appends `phase` before every round but the first.
fn push_phase(lines: &mut Vec<Line>, round: u32) -> Result<(), OutOfMemory>
    ensures { OnOk result (lines.new.items ≡ lines.old.items ++ phase_before round) }
{
    if round > 0 {
        lines.push(Line::Phase)?;
    }
    Ok(())
}

// Appends a round: each thread's lines, in their order.
fn push_round(lines: &mut Vec<Line>, words: &[u32], round: u32) -> Result<(), OutOfMemory>
    requires drawn { 32 * round + 32 ≤ length words.now }
    requires few { round < 800 }
    ensures { OnOk result (lines.new.items ≡ lines.old.items ++ round_lines words.now round) }
{
    for thread in 0..THREADS {
        push_thread(lines, words, round, thread)?;
    }
    Ok(())
}

// Appends a thread's lines of a round: its objects, and what it does with them.
fn push_thread(
    lines: &mut Vec<Line>,
    words: &[u32],
    round: u32,
    thread: u32,
) -> Result<(), OutOfMemory>
    requires drawn { 32 * round + 32 ≤ length words.now }
    requires few { round < 800 }
    requires one_of_four { thread < 4 }
    ensures { OnOk result (lines.new.items ≡ lines.old.items ++ thread_lines words.now round thread) }
{
    for object in 0..OBJECTS {
        let at = (32 * round + 8 * thread + 2 * object) as usize;
        push_object(lines, thread, object, words[at], words[at + 1])?;
    }
    push_pointers(lines, round, thread)
}

// Appends the two lines of an object: of a size that the first word makes, filled with the second.
fn push_object(
    lines: &mut Vec<Line>,
    thread: u32,
    object: u32,
    size: u32,
    value: u32,
) -> Result<(), OutOfMemory>
    ensures { OnOk result (lines.new.items ≡ lines.old.items ++ object_lines thread object size value) }
{
    lines.push(Line::Do {
        thread,
        op: Op::Alloc {
            reg: object,
            partition: thread,
            size: 8 + size % 3993,
        },
    })?;
    lines.push(Line::Do {
        thread,
        op: Op::Write {
            reg: object,
            value: u64::from(value),
        },
    })?;
    Ok(())
}

// Appends what a thread does with its objects in a round.
fn push_pointers(lines: &mut Vec<Line>, round: u32, thread: u32) -> Result<(), OutOfMemory>
    requires few { round < 800 }
    requires one_of_four { thread < 4 }
    ensures { OnOk result (lines.new.items ≡ lines.old.items ++ pointer_lines round thread) }
{
    let ops = [
        Op::Copy { from: 0, to: 8 },
        Op::Copy { from: 0, to: 9 },
        Op::Swap {
            cell: (thread + round) % 4,
            reg: 9,
        },
        Op::Read { reg: 8, place: 0 },
        Op::Free { reg: 0 },
        Op::Read { reg: 8, place: 0 },
        Op::Reset { reg: 8 },
        Op::Read { reg: 9, place: 0 },
        Op::Reset { reg: 9 },
        Op::Free { reg: 1 },
        Op::Free { reg: 2 },
        Op::Free { reg: 3 },
    ];
    for op in ops {
        lines.push(Line::Do { thread, op })?;
    }
    Ok(())
}
