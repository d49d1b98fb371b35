use pa_trace::{Line, Op, TraceFault, read_trace, write_trace};
use std::alloc::{AllocError, Global};
use std::test::Fail;

const HEAD: &str = "trace 1 region 16 partitions 4 threads 16\n";

// Each op, with its numbers at their limits.
const LINES: &str = "0 A r0 p0 0
15 A r63 p3 4294967295
phase
0 C r7 r10
1 R r20
2 F r0
3 W r63 0123456789abcdef
4 D r63 4294967295
5 X c63 r9
phase
15 P
";

// Lines that are outside the grammar, whatever the head is.
const BAD: [&str; 47] = [
    "\n",
    "\r\n",
    " \n",
    "0\n",
    "0 \n",
    "0 A\n",
    "0 A r0 p0\n",
    "0 A r0 p0 \n",
    "0 A r0 p0 8 \n",
    "0 A r0 p0 8\r\n",
    "0 A r0 p0 8\t\n",
    "0 A r0 p0 8 9\n",
    "0 A r0 p0  8\n",
    "0  A r0 p0 8\n",
    " 0 A r0 p0 8\n",
    "0 A  r0 p0 8\n",
    "0 A r0p0 8\n",
    "0 A r 0 p0 8\n",
    "0 A r0 r0 8\n",
    "0 A r00 p0 8\n",
    "0 A r0 p01 8\n",
    "0 A r0 p0 08\n",
    "00 A r0 p0 8\n",
    "0 A r0 p0 -1\n",
    "0 A r0 p0 +1\n",
    "0 A r0 p0 1e1\n",
    "-1 A r0 p0 8\n",
    "A r0 p0 8\n",
    "0 a r0 p0 8\n",
    "0 B r0\n",
    "0 C r0\n",
    "0 C r0 c0\n",
    "0 R r0 r0\n",
    "0 F c0\n",
    "0 W r0\n",
    "0 W r0 000000000000000\n",
    "0 W r0 00000000000000000\n",
    "0 W r0 0123456789ABCDEF\n",
    "0 W r64 zz\n",
    "0 D r0 00\n",
    "0 X r0 r0\n",
    "0 P \n",
    "0 PP\n",
    "0 phase\n",
    "phase \n",
    "Phase\n",
    "trace 1 region 1 partitions 1 threads 1\n",
];

// Lines that have no LF, and so are outside the grammar too.
const CUT: [&str; 6] = ["0", "0 A r0 p0 8", "0 A r64 p0 8", "16 P", "0 P", "phase"];

// Lines of the grammar that pass a limit of a head with 4 partitions and 16 threads.
const OVER: [&str; 16] = [
    "16 P\n",
    "4294967296 P\n",
    "18446744073709551616 P\n",
    "0 A r64 p0 8\n",
    "0 A r0 p4 8\n",
    "0 A r0 p4294967296 8\n",
    "0 A r0 p0 4294967296\n",
    "0 A r0 p0 18446744073709551616\n",
    "0 C r0 r64\n",
    "0 C r64 r0\n",
    "0 R r4294967296\n",
    "0 F r64\n",
    "0 W r64 0000000000000000\n",
    "0 D r0 4294967296\n",
    "0 X c64 r0\n",
    "0 X c0 r64\n",
];

// Each kind of line is read, and written as it was.
#[test]
fn reads_and_writes_each_line(rt: HostRuntime) -> Result<(), Fail> {
    let text = format!(in rt.alloc(); "{HEAD}{LINES}")?;
    let trace = read_trace(rt.alloc(), text.as_bytes())?;
    assert!(rt; (trace.region, trace.partitions, trace.threads) == (16, 4, 16));
    let at = |thread, op| Line::Do { thread, op };
    let lines = [
        at(
            0,
            Op::Alloc {
                reg: 0,
                partition: 0,
                size: 0,
            },
        ),
        at(
            15,
            Op::Alloc {
                reg: 63,
                partition: 3,
                size: 4_294_967_295,
            },
        ),
        Line::Phase,
        at(0, Op::Copy { from: 7, to: 10 }),
        at(1, Op::Reset { reg: 20 }),
        at(2, Op::Free { reg: 0 }),
        at(
            3,
            Op::Write {
                reg: 63,
                value: 0x0123_4567_89ab_cdef,
            },
        ),
        at(
            4,
            Op::Read {
                reg: 63,
                place: 4_294_967_295,
            },
        ),
        at(5, Op::Swap { cell: 63, reg: 9 }),
        Line::Phase,
        at(15, Op::Purge),
    ];
    assert!(rt; trace.lines.as_slice() == lines.as_slice());
    let written = write_trace(rt.alloc(), &trace)?;
    assert!(rt; written.as_slice() == text.as_bytes());
    Ok(())
}

// The fault of a text.
pub fn fault_of(alloc: Global, text: &str) -> Option<TraceFault> {
    read_trace(alloc, text.as_bytes()).err()
}

// The fault of a text of three parts.
pub fn fault_of_parts(
    alloc: Global,
    front: &str,
    middle: &str,
    end: &str,
) -> Result<Option<TraceFault>, AllocError> {
    let text = format!(in alloc; "{front}{middle}{end}")?;
    Ok(fault_of(alloc, &text))
}

// The fault of line n: by a limit, or else bad.
fn fault_at(n: u32, limit: bool) -> TraceFault {
    if limit {
        TraceFault::Limit(n)
    } else {
        TraceFault::BadLine(n)
    }
}

// Whether a faulty line is the one that is named, as line 2, as line 13, and before another faulty line,
// and whether that other line is named if it comes first.
fn is_named(
    alloc: Global,
    line: &str,
    limit: bool,
    other: &str,
    other_limit: bool,
) -> Result<bool, AllocError> {
    let named = fault_of_parts(alloc, HEAD, line, "")? == Some(fault_at(2, limit))
        && fault_of_parts(alloc, HEAD, LINES, line)? == Some(fault_at(13, limit))
        && fault_of_parts(alloc, HEAD, other, line)? == Some(fault_at(2, other_limit));
    if line.ends_with("\n") {
        let before = fault_of_parts(alloc, HEAD, line, other)?;
        Ok(named && before == Some(fault_at(2, limit)))
    } else {
        Ok(named)
    }
}

#[test]
fn names_bad_lines(rt: HostRuntime) -> Result<(), Fail> {
    for line in BAD {
        assert!(rt;
            is_named(rt.alloc(), line, false, "0 R r64\n", true)?,
            "{line}"
        );
        assert!(rt; is_named(rt.alloc(), line, false, "x\n", false)?, "{line}");
    }
    for line in CUT {
        assert!(rt;
            is_named(rt.alloc(), line, false, "0 R r64\n", true)?,
            "{line}"
        );
    }
    Ok(())
}

#[test]
fn names_lines_over_a_limit(rt: HostRuntime) -> Result<(), Fail> {
    for line in OVER {
        assert!(rt;
            is_named(rt.alloc(), line, true, "0 R r64\n", true)?,
            "{line}"
        );
        assert!(rt; is_named(rt.alloc(), line, true, "x\n", false)?, "{line}");
    }
    Ok(())
}

// A thread and a partition are limited by the head.
#[test]
fn limits_by_the_head(rt: HostRuntime) -> Result<(), Fail> {
    let head = "trace 1 region 1 partitions 2 threads 3\n";
    for (line, fault) in [
        ("2 A r0 p1 8\n", None),
        ("3 A r0 p1 8\n", Some(TraceFault::Limit(2))),
        ("2 A r0 p2 8\n", Some(TraceFault::Limit(2))),
        ("3 A r0 p2 8", Some(TraceFault::BadLine(2))),
    ] {
        assert!(rt;
            fault_of_parts(rt.alloc(), head, line, "")? == fault,
            "{line}"
        );
    }
    Ok(())
}

// A number of 200 digits is read to its end: it passes each limit, and with a leading zero it is no number.
#[test]
fn reads_long_numbers(rt: HostRuntime) -> Result<(), Fail> {
    let digits = "1234567890".repeat(rt.alloc(), 20)?;
    for (front, end, fault) in [
        ("0 A r0 p0 ", "\n", TraceFault::Limit(2)),
        ("0 X c", " r0\n", TraceFault::Limit(2)),
        ("", " P\n", TraceFault::Limit(2)),
        ("0 A r0 p0 0", "\n", TraceFault::BadLine(2)),
        ("", " P p\n", TraceFault::BadLine(2)),
        ("", " P", TraceFault::BadLine(2)),
    ] {
        let front = format!(in rt.alloc(); "{HEAD}{front}")?;
        let found = fault_of_parts(rt.alloc(), &front, &digits, end)?;
        assert!(rt; found == Some(fault), "{front}{end}");
    }
    Ok(())
}

// Line 65,536 is the last that a trace may have, whatever the next is.
#[test]
fn counts_lines(rt: HostRuntime) -> Result<(), Fail> {
    let lines = "0 P\n".repeat(rt.alloc(), 65_534)?;
    for (end, fault) in [
        ("", None),
        ("0 P\n", None),
        ("x\n", Some(TraceFault::BadLine(65_536))),
        ("0 P", Some(TraceFault::BadLine(65_536))),
        ("99 P\n", Some(TraceFault::Limit(65_536))),
        ("0 P\n0 P\n", Some(TraceFault::Limit(65_537))),
        ("0 P\nx\n", Some(TraceFault::Limit(65_537))),
        ("0 P\nx", Some(TraceFault::Limit(65_537))),
        ("x\n0 P\n", Some(TraceFault::BadLine(65_536))),
    ] {
        assert!(rt;
            fault_of_parts(rt.alloc(), HEAD, &lines, end)? == fault,
            "{end}"
        );
    }
    Ok(())
}

// A line that contains byte 4,194,305 is past the limit, with its LF there too, and no line before it is.
#[test]
fn counts_bytes(rt: HostRuntime) -> Result<(), Fail> {
    let blank = "x".repeat(rt.alloc(), 4_194_261)?;
    for (front, end, fault) in [
        ("", "\n", TraceFault::BadLine(2)),
        ("", "x", TraceFault::BadLine(2)),
        ("", "x\n", TraceFault::Limit(2)),
        ("", "xx", TraceFault::Limit(2)),
        ("", "\nx", TraceFault::BadLine(2)),
        ("0 P\n", "\n", TraceFault::Limit(3)),
        ("x\n", "\n", TraceFault::BadLine(2)),
        ("99 P\n", "\n", TraceFault::Limit(2)),
    ] {
        let front = format!(in rt.alloc(); "{HEAD}{front}")?;
        let found = fault_of_parts(rt.alloc(), &front, &blank, end)?;
        assert!(rt; found == Some(fault), "{front}{end}");
    }
    Ok(())
}

#[test]
fn tells_faults(rt: HostRuntime) -> Result<(), Fail> {
    for (fault, text) in [
        (TraceFault::BadLine(1), "bad line 1"),
        (TraceFault::Limit(65_537), "limit at line 65537"),
        (TraceFault::OutOfMemory, "out of memory"),
    ] {
        assert!(rt; format!(in rt.alloc(); "{fault}")?.as_str() == text);
    }
    Ok(())
}
