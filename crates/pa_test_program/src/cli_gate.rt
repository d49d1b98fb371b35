//! Threads run beside each other: a gate holds one of them before a line until another one's line was answered.
use crate::cli::words;
use pa_cli::{Status, run};
use pa_heap::Worker;
use pa_io::{MemSink, MemSource};
use pa_record::Answer;
use pa_region::Name;
use pa_runner::Gate;
use std::alloc::Global;
use std::marker::Sync;
use std::sync::Wait;
use std::sync::atomic::{AtomicU64, Ordering};
use std::test::Fail;
use std::thread::Threads;

// In each phase each thread allocates once.
const TRACE: &[u8] = b"trace 1 region 1 partitions 1 threads 2
0 A r0 p0 8
1 A r0 p0 8
phase
0 A r1 p0 24
1 A r1 p0 24
";

// The records if line 3 is played before line 2, and line 5 before line 6.
const SECOND_FIRST: &[u8] = b"run 1
e 2 0 made 00004080.0 8 0000000000000000
e 3 1 made 00004000.0 8 0000000000000000
e 5 0 made 00008000.0 24 0000000000000000
e 6 1 made 00008100.0 24 0000000000000000
r 0 0 3 fill ";

// The records if line 2 is played before line 3, and line 6 before line 5.
const FIRST_FIRST: &[u8] = b"run 1
e 2 0 made 00004000.0 8 0000000000000000
e 3 1 made 00004080.0 8 0000000000000000
e 5 0 made 00008100.0 24 0000000000000000
e 6 1 made 00008000.0 24 0000000000000000
r 0 0 2 fill ";

// A trace in which each of threads 1 and 3 of five allocates once in each phase, and the others have no lines.
const IDLE_TRACE: &[u8] = b"trace 1 region 1 partitions 1 threads 5
1 A r0 p0 8
3 A r0 p0 8
phase
1 A r1 p0 24
3 A r1 p0 24
";

const IDLE_SECOND_FIRST: &[u8] = b"run 1
e 2 1 made 00004080.0 8 0000000000000000
e 3 3 made 00004000.0 8 0000000000000000
e 5 1 made 00008000.0 24 0000000000000000
e 6 3 made 00008100.0 24 0000000000000000
r 0 0 3 fill ";

const IDLE_FIRST_FIRST: &[u8] = b"run 1
e 2 1 made 00004000.0 8 0000000000000000
e 3 3 made 00004080.0 8 0000000000000000
e 5 1 made 00008100.0 24 0000000000000000
e 6 3 made 00008000.0 24 0000000000000000
r 0 0 2 fill ";

// How often a thread looks whether it may go on.
const TURNS: u64 = 1_000_000_000;

// A line that waits for another one to be answered.
#[derive(Clone, Copy)]
struct Hold {
    line: u32,
    until: u32,
}

// Holds threads before lines, and counts the calls by line.
#[derive(Drop)]
struct Holding {
    holds: [Hold; 2],
    passed: [AtomicU64; 7],
    answered: [AtomicU64; 7],
    late: AtomicU64,
}

impl Holding {
    fn new(holds: [Hold; 2]) -> Holding {
        Holding {
            holds,
            passed: counters(),
            answered: counters(),
            late: AtomicU64::new(0),
        }
    }

    // Waits until the line was answered, or for this many turns.
    fn wait_for(&self, line: u32) {
        for _ in 0..TURNS {
            if count_of(&self.answered, line) > 0 {
                return;
            }
        }
        self.late.fetch_add(1, Ordering::SeqCst);
    }

    // Whether each op line passed once and was answered once, and nothing waited in vain.
    fn is_once(&self) -> bool {
        let mut once = self.late.load(Ordering::SeqCst) == 0;
        for line in [2, 3, 5, 6] {
            once = once && count_of(&self.passed, line) == 1 && count_of(&self.answered, line) == 1;
        }
        once
    }
}

// A counter for each line, from 0 on.
fn counters() -> [AtomicU64; 7] {
    [
        AtomicU64::new(0),
        AtomicU64::new(0),
        AtomicU64::new(0),
        AtomicU64::new(0),
        AtomicU64::new(0),
        AtomicU64::new(0),
        AtomicU64::new(0),
    ]
}

// What the line's counter says.
fn count_of(counters: &[AtomicU64; 7], line: u32) -> u64 {
    match counters.get(line as usize) {
        Some(counter) => counter.load(Ordering::SeqCst),
        None => 0,
    }
}

// Counts one more of the line.
fn count(counters: &[AtomicU64; 7], line: u32) {
    if let Some(counter) = counters.get(line as usize) {
        counter.fetch_add(1, Ordering::SeqCst);
    }
}

impl Gate for Holding {
    fn pass<R: Threads + Wait + Sync, N: Name>(
        &self,
        _rt: &R,
        _worker: &Worker<N>,
        _thread: u32,
        line: u32,
    ) {
        count(&self.passed, line);
        for hold in self.holds {
            if hold.line == line {
                self.wait_for(hold.until);
            }
        }
    }

    fn answered<R: Threads + Wait + Sync, N: Name>(
        &self,
        _rt: &R,
        _worker: &Worker<N>,
        _thread: u32,
        line: u32,
        _answer: &Answer,
    ) {
        count(&self.answered, line);
    }
}

// Whether `replay` of a trace whose threads are held so begins with these records, with the gate called once for each line.
fn plays_as_held<R: Threads + Wait + Sync>(
    rt: &R,
    alloc: Global,
    trace: &[u8],
    holds: [Hold; 2],
    records: &[u8],
) -> Result<bool, Fail> {
    let replay = words(alloc, &["replay"])?;
    let gate = Holding::new(holds);
    let mut source = MemSource::new(alloc, trace, 1000, &[])?;
    let mut sink = MemSink::new(alloc, 10_000, 1000, &[])?;
    let outcome = run(rt, alloc, &replay, &mut source, &mut sink, &gate);
    Ok(outcome.status == Status::Done && gate.is_once() && sink.written().starts_with(records))
}

#[test]
fn threads_play_beside_each_other(rt: HostRuntime) -> Result<(), Fail> {
    let second_first = [Hold { line: 2, until: 3 }, Hold { line: 6, until: 5 }];
    let first_first = [Hold { line: 3, until: 2 }, Hold { line: 5, until: 6 }];
    let cases = [
        (TRACE, second_first, SECOND_FIRST),
        (TRACE, first_first, FIRST_FIRST),
        (IDLE_TRACE, second_first, IDLE_SECOND_FIRST),
        (IDLE_TRACE, first_first, IDLE_FIRST_FIRST),
    ];
    for (trace, holds, records) in cases {
        assert!(rt; plays_as_held(&rt, rt.alloc(), trace, holds, records)?);
    }
    Ok(())
}
