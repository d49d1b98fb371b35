use crate::trace::{fault_of, fault_of_parts};
use pa_trace::{TraceFault, read_trace, read_trace_to, write_trace};
use std::test::Fail;

// Lines that are no head, or no whole line.
const BAD_HEADS: [&str; 40] = [
    "",
    "\n",
    "t",
    "trace 1 region 1 partitions 1 threads 1",
    "trace 1 region 17 partitions 1 threads 1",
    "trace 1 region 1 partitions 1 threads 1\r\n",
    "trace 1 region 1 partitions 1 threads 1 \n",
    "trace 1 region 1 partitions 1 threads \n",
    "trace 1 region 1 partitions 1 threads\n",
    "trace 1 region 1 partitions 1\n",
    "trace 1 region 01 partitions 1 threads 1\n",
    "trace 1 region 17 partitions 1 threads 01\n",
    "trace 1 region 0 partitions 1 threads x\n",
    "trace 1  region 1 partitions 1 threads 1\n",
    " trace 1 region 1 partitions 1 threads 1\n",
    "trase 1 region 1 partitions 1 threads 1\n",
    "trace 0 region 1 partitions 1 threads 1\n",
    "trace 3 region 1 partitions 1 threads 1\n",
    "trace 3 region 65 partitions 1 threads 1\n",
    "trace 3 region 1 partitions 1 threads 1 \n",
    "trace 3 region 1 partitions 1 threads 1 plain\n",
    "trace 3 region 1 partitions 1 threads 1 plain \n",
    "trace 3 region 1 partitions 1 threads 1  plain 0\n",
    "trace 3 region 1 partitions 1 threads 1 plain 00\n",
    "trace 3 region 65 partitions 1 threads 1 plain x\n",
    "trace 3 region 1 partitions 1 threads 1 plain 0 \n",
    "trace 3 region 1 partitions 1 plain 0 threads 1\n",
    "trace 3 region 1 partitions 1 threads 1 plain 0",
    "trace 1 region 1 partitions 1 threads 1 plain 0\n",
    "trace 2 region 1 partitions 1 threads 1 plain 0\n",
    "trace 4 region 1 partitions 1 threads 1\n",
    "trace 4 region 1 partitions 1 threads 1 plain 0\n",
    "trace 4 region 65 partitions 1 threads 1 plain 0\n",
    "trace 18446744073709551617 region 1 partitions 1 threads 1\n",
    "trace 02 region 1 partitions 1 threads 1\n",
    "trace 01 region 1 partitions 1 threads 1\n",
    "trace 1 region 1 threads 1 partitions 1\n",
    "run 1\n",
    "phase\n",
    "0 A r0 p0 1\n",
];

// Heads that pass a limit.
const HEADS_OVER: [&str; 21] = [
    "trace 1 region 0 partitions 1 threads 1\n",
    "trace 1 region 17 partitions 1 threads 1\n",
    "trace 1 region 64 partitions 1 threads 1\n",
    "trace 2 region 0 partitions 1 threads 1\n",
    "trace 2 region 65 partitions 1 threads 1\n",
    "trace 1 region 1 partitions 0 threads 1\n",
    "trace 1 region 1 partitions 5 threads 1\n",
    "trace 1 region 1 partitions 1 threads 0\n",
    "trace 1 region 1 partitions 1 threads 17\n",
    "trace 1 region 4294967297 partitions 1 threads 1\n",
    "trace 1 region 1 partitions 4294967297 threads 1\n",
    "trace 1 region 1 partitions 1 threads 18446744073709551617\n",
    "trace 3 region 65 partitions 1 threads 1 plain 0\n",
    "trace 3 region 1 partitions 0 threads 1 plain 0\n",
    "trace 3 region 1 partitions 5 threads 1 plain 5\n",
    "trace 3 region 1 partitions 1 threads 17 plain 0\n",
    "trace 3 region 1 partitions 1 threads 1 plain 2\n",
    "trace 3 region 1 partitions 4 threads 1 plain 5\n",
    "trace 3 region 1 partitions 1 threads 1 plain 4294967296\n",
    "trace 3 region 1 partitions 4294967296 threads 1 plain 4294967295\n",
    "trace 3 region 1 partitions 18446744073709551617 threads 1 plain 18446744073709551617\n",
];

// A head alone is a trace, with no line after it.
#[test]
fn reads_heads(rt: HostRuntime) -> Result<(), Fail> {
    for (text, head) in [
        ("trace 1 region 1 partitions 1 threads 1\n", (1, 1, 1, 1, 0)),
        (
            "trace 1 region 16 partitions 4 threads 16\n",
            (1, 16, 4, 16, 0),
        ),
        (
            "trace 2 region 17 partitions 1 threads 1\n",
            (2, 17, 1, 1, 0),
        ),
        (
            "trace 2 region 64 partitions 4 threads 16\n",
            (2, 64, 4, 16, 0),
        ),
        (
            "trace 3 region 17 partitions 1 threads 1 plain 0\n",
            (3, 17, 1, 1, 0),
        ),
        (
            "trace 3 region 2 partitions 2 threads 1 plain 1\n",
            (3, 2, 2, 1, 1),
        ),
        (
            "trace 3 region 64 partitions 4 threads 16 plain 4\n",
            (3, 64, 4, 16, 4),
        ),
    ] {
        let trace = read_trace(rt.alloc(), text.as_bytes())?;
        assert!(rt;
            (
                trace.version,
                trace.region,
                trace.partitions,
                trace.threads,
                trace.plain
            ) == head
        );
        assert!(rt; trace.rules().plain_from == trace.partitions - trace.plain);
        assert!(rt; trace.lines.as_slice().len() == 0);
        assert!(rt; write_trace(rt.alloc(), &trace)?.as_slice() == text.as_bytes());
    }
    Ok(())
}

// Whoever knows version 1 alone finds a head of version 2 outside the grammar, also one that passes a limit.
#[test]
fn knows_a_version(rt: HostRuntime) -> Result<(), Fail> {
    for text in [
        "trace 2 region 1 partitions 1 threads 1\n",
        "trace 2 region 65 partitions 1 threads 1\n",
        "trace 2 region 1 partitions 1 threads 1\nx",
    ] {
        let fault = read_trace_to(rt.alloc(), 1, text.as_bytes()).err();
        assert!(rt; fault == Some(TraceFault::BadLine(1)), "{text}");
    }
    let first = b"trace 1 region 1 partitions 1 threads 1\n0 P\n";
    assert!(rt; read_trace_to(rt.alloc(), 1, first)?.lines.as_slice().len() == 1);
    Ok(())
}

// Whoever knows versions 1 and 2 finds a head of version 3 outside the grammar, and reads one of version 2.
#[test]
fn knows_two_versions(rt: HostRuntime) -> Result<(), Fail> {
    for text in [
        "trace 3 region 1 partitions 1 threads 1 plain 0\n",
        "trace 3 region 1 partitions 1 threads 1 plain 2\n",
        "trace 3 region 1 partitions 1 threads 1\n",
    ] {
        let fault = read_trace_to(rt.alloc(), 2, text.as_bytes()).err();
        assert!(rt; fault == Some(TraceFault::BadLine(1)), "{text}");
    }
    let second = b"trace 2 region 1 partitions 1 threads 1\n0 P\n";
    assert!(rt; read_trace_to(rt.alloc(), 2, second)?.lines.as_slice().len() == 1);
    Ok(())
}

// The fault of a head comes before every fault after it.
#[test]
fn names_faults_of_heads(rt: HostRuntime) -> Result<(), Fail> {
    for text in BAD_HEADS {
        let bad = Some(TraceFault::BadLine(1));
        assert!(rt; fault_of(rt.alloc(), text) == bad, "{text}");
        if text.ends_with("\n") {
            let fault = fault_of_parts(rt.alloc(), text, "99 P\n", "x")?;
            assert!(rt; fault == bad, "{text}");
        }
    }
    Ok(())
}

#[test]
fn names_limits_of_heads(rt: HostRuntime) -> Result<(), Fail> {
    for text in HEADS_OVER {
        let limit = Some(TraceFault::Limit(1));
        assert!(rt; fault_of(rt.alloc(), text) == limit, "{text}");
        assert!(rt;
            fault_of_parts(rt.alloc(), text, "x\n", "")? == limit,
            "{text}"
        );
    }
    Ok(())
}

#[test]
fn counts_bytes_of_a_head(rt: HostRuntime) -> Result<(), Fail> {
    let blank = "x".repeat(rt.alloc(), 4_194_303)?;
    for (end, fault) in [
        ("\n", TraceFault::BadLine(1)),
        ("x", TraceFault::BadLine(1)),
        ("x\n", TraceFault::Limit(1)),
        ("xx", TraceFault::Limit(1)),
    ] {
        let found = fault_of_parts(rt.alloc(), &blank, end, "")?;
        assert!(rt; found == Some(fault), "{end}");
    }
    Ok(())
}
