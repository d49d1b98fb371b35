use pa_script::{MOST_SCRIPT_LINES, ScriptLine, read_script};
use pa_trace::{Line, Op, TraceFault};
use std::alloc::Global;
use std::test::Fail;

const HEAD: &str = "script 1 region 1 partitions 2 threads 2\n";

// A line of a trace, and a resize.
#[test]
fn reads_scripts(rt: HostRuntime) -> Result<(), Fail> {
    let text = format!(in rt.alloc(); "{HEAD}phase\n1 X c62 r62\n1 S r62 4294967295\n")?;
    let script = read_script(rt.alloc(), text.as_bytes())?;
    assert!(rt; (script.region, script.partitions, script.threads) == (1, 2, 2));
    let lines = script.lines.as_slice();
    let swap = Line::Do {
        thread: 1,
        op: Op::Swap { cell: 62, reg: 62 },
    };
    let resize = ScriptLine::Resize {
        thread: 1,
        reg: 62,
        size: u32::MAX,
    };
    assert!(rt; lines.len() == 3);
    assert!(rt; lines[0] == ScriptLine::Plain(Line::Phase));
    assert!(rt; lines[1] == ScriptLine::Plain(swap));
    assert!(rt; lines[2] == resize);
    Ok(())
}

// The fault of a script whose second line is this.
fn fault_of(alloc: Global, line: &str) -> Result<Option<TraceFault>, Fail> {
    let text = format!(in alloc; "{HEAD}{line}")?;
    Ok(read_script(alloc, text.as_bytes()).err())
}

// A line or a head that is outside the grammar, and a line with a number past its limit.
#[test]
fn names_faults_of_scripts(rt: HostRuntime) -> Result<(), Fail> {
    for line in [
        "0 S r0\n",
        "0 S r0 \n",
        "0 S r0 08\n",
        "0 S r0 8 \n",
        "0 S 0 8\n",
        " S r0 8\n",
        "0 S r99 8",
        "0 A r63 p9 8 \n",
    ] {
        assert!(rt;
            fault_of(rt.alloc(), line)? == Some(TraceFault::BadLine(2)),
            "{line}"
        );
    }
    for line in [
        "2 S r0 8\n",
        "0 S r63 8\n",
        "0 S r0 4294967296\n",
        "0 A r63 p0 8\n",
        "0 C r0 r63\n",
        "0 X c63 r0\n",
        "0 X c0 r63\n",
        "0 A r0 p2 8\n",
    ] {
        assert!(rt;
            fault_of(rt.alloc(), line)? == Some(TraceFault::Limit(2)),
            "{line}"
        );
    }
    for head in [
        "trace 1 region 1 partitions 1 threads 1\n",
        "script 1 region 1 partitions 1 threads 1 plain 0\n",
        "script 3 region 1 partitions 1 threads 1 plain 0\n",
    ] {
        let fault = read_script(rt.alloc(), head.as_bytes()).err();
        assert!(rt; fault == Some(TraceFault::BadLine(1)), "{head}");
    }
    Ok(())
}

// 10,000 lines are a script, and the next is one too many, even if it is bad.
#[test]
fn reads_the_most_lines(rt: HostRuntime) -> Result<(), Fail> {
    let mut text = String::new(rt.alloc());
    text.push_str(HEAD)?;
    for _ in 1..MOST_SCRIPT_LINES {
        text.push_str("0 P\n")?;
    }
    let script = read_script(rt.alloc(), text.as_bytes())?;
    assert!(rt; script.lines.as_slice().len() == 9_999);
    text.push_str("x")?;
    let fault = read_script(rt.alloc(), text.as_bytes()).err();
    assert!(rt; fault == Some(TraceFault::Limit(10_001)));
    Ok(())
}
