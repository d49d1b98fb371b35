//! What is reported of each kind of broken run, and of faults in each part of the input.
use pa_audit_input::judge;
use pa_rules::{Clause, Verdict};
use pa_trace::TraceFault;
use std::alloc::Global;
use std::test::Fail;

const TRACE: &[u8] = b"trace 1 region 1 partitions 1 threads 1
0 A r0 p0 1
0 F r0
";

// Lines of its run.
const HEAD: &[u8] = b"run 1\n";

const MADE: &[u8] = b"e 2 0 made 00004000.0 8 0000000000000000\n";

const FREED: &[u8] = b"e 3 0 done 00004000.0 0000000001000001\n";

const REST: &[u8] =
    b"r 0 0 2 fill 0 0 00004000.0@0 00004010.0@0 00004020.0@0 00004030.0@0 00004040.0@0 00004050.0@0 00004060.0@0 00004070.0@0
p 0 2 0 take 1 0
s 1 0 live 0 0 quarantined 0 0 cached 8 128 root 248 3968 committed 4096 reserved 2097152 full 0 active 1 empty 0 decommitted 0
";

const END: &[u8] = b"end\n";

// These parts, one after the other.
fn joined(alloc: Global, parts: &[&[u8]]) -> Result<Vec<u8>, Fail> {
    let mut input = Vec::new(alloc);
    for part in parts {
        input.extend_from_slice(part)?;
    }
    Ok(input)
}

// What is reported of these parts, one after the other.
fn told(alloc: Global, parts: &[&[u8]]) -> Result<Result<Verdict, TraceFault>, Fail> {
    let input = joined(alloc, parts)?;
    if input.len() > 10000 {
        return Err("a long input".into());
    }
    Ok(judge(alloc, input.as_slice()))
}

#[test]
fn a_broken_run_is_told_by_the_line_of_the_whole_input(rt: HostRuntime) -> Result<(), Fail> {
    let found = b"e 3 0 done 00004000.0 0000000002000001\n";
    let usable = b"e 2 0 made 00004000.0 16 0000000000000000\n";
    let rows: [(&[u8], &[u8], Verdict); 4] = [
        (MADE, FREED, Verdict::Legal),
        (MADE, found, Verdict::Broken(Clause::Slots, 6)),
        (MADE, b"", Verdict::Broken(Clause::Lines, 6)),
        (usable, FREED, Verdict::Broken(Clause::Registers, 5)),
    ];
    for (made, freed, verdict) in rows {
        let parts = [TRACE, HEAD, made, freed, REST, END];
        assert_eq!(rt; told(rt.alloc(), &parts)?, Ok(verdict));
    }
    Ok(())
}

#[test]
fn the_first_faulty_line_of_either_part_is_named(rt: HostRuntime) -> Result<(), Fail> {
    let bad = |line| TraceFault::BadLine(line);
    let long: &[u8] = b"trace 1 region 17 partitions 1 threads 1\nrun 1\nend\n";
    let rows: [(&[&[u8]], TraceFault); 12] = [
        (&[], bad(1)),
        (&[HEAD, END], bad(1)),
        (&[TRACE], bad(4)),
        (&[&TRACE[..TRACE.len() - 1]], bad(3)),
        (&[TRACE, b"run 1"], bad(4)),
        (&[TRACE, HEAD], bad(5)),
        (&[TRACE, HEAD, MADE, FREED, REST], bad(10)),
        (&[TRACE, HEAD, MADE, FREED, REST, b"end"], bad(10)),
        (&[TRACE, HEAD, MADE, FREED, REST, END, END], bad(11)),
        (&[TRACE, HEAD, MADE, FREED, REST, END, HEAD], bad(11)),
        (&[TRACE, HEAD, MADE, FREED, REST, END, b"\n"], bad(11)),
        (&[long], TraceFault::Limit(1)),
    ];
    for (parts, fault) in rows {
        assert_eq!(rt; told(rt.alloc(), parts)?, Err(fault));
    }
    Ok(())
}
