//! What `delay` writes: a slot waits in its thread's queue before it is free for an allocation.
use crate::cli::{TEXT, TRACE, words};
use crate::cli_faults::answered;
use crate::cli_scripts::SCRIPT;
use pa_cli::{Status, run};
use pa_io::{MemSink, MemSource};
use pa_runner::NoGate;
use std::test::Fail;

// Two objects, each freed, and a third.
const FREED: &[u8] = b"trace 1 region 1 partitions 1 threads 1
0 A r0 p0 8
0 F r0
0 A r1 p0 8
0 F r1
0 A r2 p0 8
";

// What `delay 16` writes for it: the first slot waits until the second comes to the queue.
const WAITED: &[u8] = b"run 1
e 2 0 made 00004000.0 8 0000000000000000
e 3 0 done 00004000.0 0000000001000001
e 4 0 made 00004010.0 8 0000000000000000
e 5 0 done 00004010.0 0000000001000001
e 6 0 made 00004000.0 8 0000000002000000
r 0 0 2 fill 0 0 00004000.0@0 00004010.0@0 00004020.0@0 00004030.0@0 00004040.0@0 00004050.0@0 00004060.0@0 00004070.0@0
p 0 2 0 take 1 0
s 1 0 live 1 16 quarantined 0 0 cached 7 112 root 248 3968 committed 4096 reserved 2097152 full 0 active 1 empty 0 decommitted 0
end
";

// A trace of version 2 with more super pages than it may have.
const VERSION_2: &[u8] = b"trace 2 region 65 partitions 1 threads 1
0 A r0 p0 8
";

#[test]
fn a_slot_waits(rt: HostRuntime) -> Result<(), Fail> {
    let rows: [(&str, &[u8], Status, &[u8]); 5] = [
        ("16", FREED, Status::Done, WAITED),
        ("33554432", TRACE, Status::Done, TEXT),
        ("16", VERSION_2, Status::BadLine(1), b""),
        ("16", SCRIPT, Status::BadLine(1), b""),
        ("16", b"", Status::BadLine(1), b""),
    ];
    for (bytes, trace, status, text) in rows {
        let (found, written) = answered(&rt, rt.alloc(), &["delay", bytes], trace)?;
        assert!(rt; found == status);
        assert!(rt; written.as_slice() == text);
    }
    Ok(())
}

#[test]
fn delay_of_nothing_is_model(rt: HostRuntime) -> Result<(), Fail> {
    for trace in [TRACE, FREED] {
        let (status, text) = answered(&rt, rt.alloc(), &["delay", "0"], trace)?;
        assert!(rt; status == Status::Done);
        assert!(rt; text.as_slice() == answered(&rt, rt.alloc(), &["model"], trace)?.1.as_slice());
    }
    Ok(())
}

#[test]
fn bytes_that_are_no_command(rt: HostRuntime) -> Result<(), Fail> {
    let rows: [&[&str]; 7] = [
        &["delay"],
        &["delay", ""],
        &["delay", "016"],
        &["delay", "-1"],
        &["delay", "33554433"],
        &["delay", "4294967312"],
        &["delay", "16", "7"],
    ];
    for line in rows {
        let (status, written) = answered(&rt, rt.alloc(), line, FREED)?;
        assert!(rt; status == Status::BadCommand && written.as_slice().is_empty());
    }
    Ok(())
}

#[test]
fn the_run_and_its_region_are_returned(rt: HostRuntime) -> Result<(), Fail> {
    let line = words(rt.alloc(), &["delay", "16"])?;
    let mut source = MemSource::new(rt.alloc(), FREED, 1000, &[])?;
    let mut sink = MemSink::new(rt.alloc(), 10_000, 1000, &[])?;
    let outcome = run(&rt, rt.alloc(), &line, &mut source, &mut sink, &NoGate);
    assert!(rt; outcome.status == Status::Done);
    assert!(rt; outcome.run.is_some() && outcome.region.is_some());
    Ok(())
}
