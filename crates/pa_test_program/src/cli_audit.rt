//! What `audit` answers: of each kind of broken run, of faults in each part of its input, and at its limits.
use crate::cli::{TEXT, TRACE, words};
use pa_cli::{Status, run};
use pa_io::{MemSink, MemSource};
use pa_rules::Clause;
use pa_runner::NoGate;
use std::alloc::Global;
use std::marker::Sync;
use std::sync::Wait;
use std::test::Fail;
use std::thread::Threads;

// What `audit` returns for these bytes, read by at most this many. If it is done, `legal` must have been written, and else nothing.
fn told<R: Threads + Wait + Sync>(
    rt: &R,
    alloc: Global,
    input: &[u8],
    piece: usize,
) -> Result<Status, Fail> {
    let line = words(alloc, &["audit"])?;
    let mut source = MemSource::new(alloc, input, piece.max(1), &[])?;
    let mut sink = MemSink::new(alloc, 100, 4, &[])?;
    let outcome = run(rt, alloc, &line, &mut source, &mut sink, &NoGate);
    if outcome.run.is_some() || outcome.region.is_some() {
        return Err("a run".into());
    }
    let due: &[u8] = match outcome.status {
        Status::Done => b"legal\n",
        _ => b"",
    };
    if sink.written() != due {
        return Err("another text".into());
    }
    Ok(outcome.status)
}

// Lines of the trace's run.
const HEAD: &[u8] = b"run 1\n";

const MADE: &[u8] = b"e 2 0 made 00004000.0 8 0000000000000000\n";

const FREED: &[u8] = b"e 3 0 done 00004000.0 0000000001000001\n";

const REST: &[u8] =
    b"r 0 0 2 fill 0 0 00004000.0@0 00004010.0@0 00004020.0@0 00004030.0@0 00004040.0@0 00004050.0@0 00004060.0@0 00004070.0@0
p 0 2 0 take 1 0
s 1 0 live 0 0 quarantined 0 0 cached 8 128 root 248 3968 committed 4096 reserved 2097152 full 0 active 1 empty 0 decommitted 0
";

const END: &[u8] = b"end\n";

// These parts, one after the other.
fn joined(alloc: Global, parts: &[&[u8]]) -> Result<Vec<u8>, Fail> {
    let mut input = Vec::new(alloc);
    for part in parts {
        input.extend_from_slice(part)?;
    }
    Ok(input)
}

#[test]
fn a_legal_run_is_legal(rt: HostRuntime) -> Result<(), Fail> {
    let input = joined(rt.alloc(), &[TRACE, TEXT])?;
    for piece in [1, 7, 1000] {
        assert!(rt; told(&rt, rt.alloc(), input.as_slice(), piece)? == Status::Done);
    }
    Ok(())
}

#[test]
fn the_line_is_that_of_the_whole_input(rt: HostRuntime) -> Result<(), Fail> {
    let found = b"e 3 0 done 00004000.0 0000000002000001\n";
    let usable = b"e 2 0 made 00004000.0 16 0000000000000000\n";
    let broken: [(&[u8], &[u8], Status); 3] = [
        (MADE, found, Status::NotLegal(Clause::Slots, 6)),
        (MADE, b"", Status::NotLegal(Clause::Lines, 6)),
        (usable, FREED, Status::NotLegal(Clause::Registers, 5)),
    ];
    for (made, freed, status) in broken {
        let input = joined(rt.alloc(), &[TRACE, HEAD, made, freed, REST, END])?;
        assert!(rt; told(&rt, rt.alloc(), input.as_slice(), 1000)? == status);
    }
    Ok(())
}

#[test]
fn the_first_faulty_line_of_either_part_is_named(rt: HostRuntime) -> Result<(), Fail> {
    let region: &[u8] = b"trace 1 region 17 partitions 1 threads 1\n";
    let faulty: [(&[&[u8]], Status); 9] = [
        (&[], Status::BadLine(1)),
        (&[TEXT], Status::BadLine(1)),
        (&[TRACE], Status::BadLine(4)),
        (&[TRACE, HEAD], Status::BadLine(5)),
        (&[TRACE, HEAD, MADE, FREED, REST], Status::BadLine(10)),
        (
            &[TRACE, HEAD, MADE, FREED, REST, b"end"],
            Status::BadLine(10),
        ),
        (&[TRACE, TEXT, END], Status::BadLine(11)),
        (&[TRACE, TEXT, HEAD], Status::BadLine(11)),
        (&[region, HEAD, END], Status::Limit(1)),
    ];
    for (parts, status) in faulty {
        let input = joined(rt.alloc(), parts)?;
        assert!(rt; told(&rt, rt.alloc(), input.as_slice(), 1000)? == status);
    }
    Ok(())
}

#[test]
fn a_read_or_a_write_that_fails_is_told(rt: HostRuntime) -> Result<(), Fail> {
    let line = words(rt.alloc(), &["audit"])?;
    let input = joined(rt.alloc(), &[TRACE, TEXT])?;
    let rows: [(&[u64], &[u64], Status); 2] = [
        (&[1], &[], Status::ReadFault),
        (&[], &[0], Status::WriteFault),
    ];
    for (reads, writes, status) in rows {
        let mut source = MemSource::new(rt.alloc(), input.as_slice(), 100, reads)?;
        let mut sink = MemSink::new(rt.alloc(), 100, 100, writes)?;
        let outcome = run(&rt, rt.alloc(), &line, &mut source, &mut sink, &NoGate);
        assert!(rt; outcome.status == status);
        assert!(rt; sink.written().is_empty());
    }
    Ok(())
}
