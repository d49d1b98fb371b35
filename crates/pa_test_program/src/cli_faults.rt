//! Each read and each write fails in turn, and a text of two threads is cut after each byte.
use crate::cli::{TEXT, TRACE, words};
use crate::cli_dangling::FREED_AGAIN;
use crate::cli_scripts::SCRIPT;
use pa_cli::{Status, run};
use pa_io::{MemSink, MemSource};
use pa_runner::NoGate;
use std::alloc::Global;
use std::marker::Sync;
use std::sync::Wait;
use std::test::Fail;
use std::thread::Threads;

// A trace of two threads, of 126 bytes.
const TWO: &[u8] = b"trace 1 region 1 partitions 1 threads 2
0 A r0 p0 8
0 C r0 r1
0 X c0 r1
phase
0 F r0
1 X c0 r0
1 D r0 0
phase
1 D r0 0
1 R r0
";

// How often a piece of this many bytes is read until the end was found.
fn reads_of(text: &[u8]) -> u64 {
    (text.len() as u64 / 7).saturating_add(if text.len() % 7 == 0 { 1 } else { 2 })
}

// The status of a command when each read gives 7 bytes at most, and the one of this number fails. Nothing may be written.
fn with_read_refused<R: Threads + Wait + Sync>(
    rt: &R,
    alloc: Global,
    line: &[&str],
    text: &[u8],
    number: u64,
) -> Result<Status, Fail> {
    let line = words(alloc, line)?;
    let mut source = MemSource::new(alloc, text, 7, &[number])?;
    let mut sink = MemSink::new(alloc, 10_000, 1000, &[])?;
    let outcome = run(rt, alloc, &line, &mut source, &mut sink, &NoGate);
    if outcome.run.is_some() || outcome.region.is_some() || !sink.written().is_empty() {
        return Err("an output".into());
    }
    Ok(outcome.status)
}

#[test]
fn each_read_that_fails_leaves_nothing_written(rt: HostRuntime) -> Result<(), Fail> {
    let mut judged = Vec::from_slice(rt.alloc(), TRACE)?;
    judged.extend_from_slice(TEXT)?;
    let inputs: [(&[&str], &[u8]); 7] = [
        (&["replay"], TWO),
        (&["model"], TWO),
        (&["delay", "16"], TWO),
        (&["audit"], judged.as_slice()),
        (&["dangling"], FREED_AGAIN),
        (&["resize"], SCRIPT),
        (&["verdicts"], SCRIPT),
    ];
    for (line, text) in inputs {
        for number in 0..reads_of(text) {
            assert!(rt;
                with_read_refused(&rt, rt.alloc(), line, text, number)? == Status::ReadFault
            );
        }
    }
    Ok(())
}

// The status and what was written when each write takes 10 bytes at most, and the one of this number fails.
fn with_write_refused<R: Threads + Wait + Sync>(
    rt: &R,
    alloc: Global,
    line: &[&str],
    text: &[u8],
    number: u64,
) -> Result<(Status, Vec<u8>), Fail> {
    let line = words(alloc, line)?;
    let mut source = MemSource::new(alloc, text, 1000, &[])?;
    let mut sink = MemSink::new(alloc, 10_000, 10, &[number])?;
    let status = run(rt, alloc, &line, &mut source, &mut sink, &NoGate).status;
    Ok((status, Vec::from_slice(alloc, sink.written())?))
}

// The status of a command with no write that fails, and all that it writes.
pub fn answered<R: Threads + Wait + Sync>(
    rt: &R,
    alloc: Global,
    line: &[&str],
    text: &[u8],
) -> Result<(Status, Vec<u8>), Fail> {
    with_write_refused(rt, alloc, line, text, u64::MAX)
}

// Each write of a command fails in turn, and what was written before it is there: each write but the last has a part of at most
// 10 bytes, and the one after the last isn't made.
fn writes_fail<R: Threads + Wait + Sync>(
    rt: &R,
    alloc: Global,
    line: &[&str],
    text: &[u8],
) -> Result<(), Fail> {
    let (_, whole) = answered(rt, alloc, line, text)?;
    let mut before = 0;
    for number in 0..whole.len() as u64 {
        let (status, part) = with_write_refused(rt, alloc, line, text, number)?;
        let more = part.len().saturating_sub(before);
        if !whole.as_slice().starts_with(part.as_slice()) || more > 10 {
            return Err("no first part".into());
        }
        if status == Status::Done && number > 0 && part.len() == whole.len() {
            return Ok(());
        }
        if status != Status::WriteFault || (more == 0) != (number == 0) {
            return Err("another status, or a write of nothing".into());
        }
        before = part.len();
    }
    Err("more writes than bytes".into())
}

#[test]
fn each_write_that_fails_leaves_a_first_part(rt: HostRuntime) -> Result<(), Fail> {
    let mut judged = Vec::from_slice(rt.alloc(), TRACE)?;
    judged.extend_from_slice(TEXT)?;
    let rows: [(&[&str], &[u8]); 11] = [
        (&["replay"], TRACE),
        (&["model"], TRACE),
        (&["delay", "16"], TRACE),
        (&["audit"], judged.as_slice()),
        (&["dangling"], FREED_AGAIN),
        (&["resize"], SCRIPT),
        (&["verdicts"], SCRIPT),
        (&["layout", "88"], b""),
        (&["trace", "1", "7"], b""),
        (&["--help"], b""),
        (&["--version"], b""),
    ];
    for (line, text) in rows {
        writes_fail(&rt, rt.alloc(), line, text)?;
    }
    Ok(())
}

#[test]
fn each_write_of_gen_that_fails_leaves_a_first_part(rt: HostRuntime) -> Result<(), Fail> {
    writes_fail(&rt, rt.alloc(), &["gen", "1", "7"], b"")
}

// A command, its input, how many lines that has, and whether the input may end after each of its lines.
type Cut<'a> = (&'a str, &'a [u8], u32, bool);

// The input is cut after each of its bytes but the last: the status is that of a whole input, if it may end there, and else the line
// that is cut, or the one after the last, is bad.
fn is_cut<R: Threads + Wait + Sync>(rt: &R, alloc: Global, row: Cut<'_>) -> Result<bool, Fail> {
    let (command, text, lines, whole) = row;
    let mut line = 1u32;
    for cut in 0..text.len() {
        let (part, _) = text.split_at(cut);
        let ends = part.ends_with(b"\n");
        if ends {
            line = line.saturating_add(1);
        }
        let due = if ends && whole {
            Status::Done
        } else {
            Status::BadLine(line)
        };
        if answered(rt, alloc, &[command], part)?.0 != due {
            return Ok(false);
        }
    }
    Ok(line == lines)
}

#[test]
fn a_text_cut_after_each_byte_is_done_after_a_line_alone(rt: HostRuntime) -> Result<(), Fail> {
    let mut judged = Vec::from_slice(rt.alloc(), TRACE)?;
    judged.extend_from_slice(TEXT)?;
    let rows: [Cut<'_>; 6] = [
        ("replay", TWO, 11, true),
        ("model", TWO, 11, true),
        ("resize", SCRIPT, 8, true),
        ("verdicts", SCRIPT, 8, true),
        ("audit", judged.as_slice(), 10, false),
        ("dangling", FREED_AGAIN, 18, false),
    ];
    for row in rows {
        let command = row.0;
        assert!(rt; is_cut(&rt, rt.alloc(), row)?, "{command}");
    }
    Ok(())
}
