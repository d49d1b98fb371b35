use pa_cli::{Status, run};
use pa_io::{MemSink, MemSource, Source};
use pa_rules::Clause;
use pa_runner::NoGate;
use std::alloc::{AllocError, Global};
use std::marker::Sync;
use std::sync::Wait;
use std::test::Fail;
use std::thread::Threads;

// One object, allocated and freed.
pub const TRACE: &[u8] = b"trace 1 region 1 partitions 1 threads 1
0 A r0 p0 1
0 F r0
";

// What `model` and `replay` write for the trace of one object.
pub const TEXT: &[u8] = b"run 1
e 2 0 made 00004000.0 8 0000000000000000
e 3 0 done 00004000.0 0000000001000001
r 0 0 2 fill 0 0 00004000.0@0 00004010.0@0 00004020.0@0 00004030.0@0 00004040.0@0 00004050.0@0 00004060.0@0 00004070.0@0
p 0 2 0 take 1 0
s 1 0 live 0 0 quarantined 0 0 cached 8 128 root 248 3968 committed 4096 reserved 2097152 full 0 active 1 empty 0 decommitted 0
end
";

// The summary of a run of the generated trace of one round and key 7.
const SUMMARY: &[u8] = b"gen 1 7
made 16
done 44
word 4
dangling 4
nothing 8
swapped 4
live 0 0
quarantined 4 11008
";

// The words of a command line.
pub fn words(alloc: Global, list: &[&str]) -> Result<Vec<String>, AllocError> {
    let mut words = Vec::new(alloc);
    for word in list {
        words.push(String::from_str(alloc, word)?)?;
    }
    Ok(words)
}

// This many bytes, all 0.
fn zeros(alloc: Global, count: usize) -> Result<Vec<u8>, AllocError> {
    vec![in alloc; 0; count]
}

#[test]
fn a_trace_is_played_by_short_reads_and_writes(rt: HostRuntime) -> Result<(), Fail> {
    let model = words(rt.alloc(), &["model"])?;
    for piece in [1, 7, 1000] {
        let mut source = MemSource::new(rt.alloc(), TRACE, piece, &[])?;
        let mut sink = MemSink::new(rt.alloc(), TEXT.len(), piece, &[])?;
        assert!(rt;
            run(&rt, rt.alloc(), &model, &mut source, &mut sink, &NoGate).status == Status::Done
        );
        assert!(rt; sink.written() == TEXT);
    }
    Ok(())
}

#[test]
fn the_first_faulty_line_is_named(rt: HostRuntime) -> Result<(), Fail> {
    let model = words(rt.alloc(), &["model"])?;
    let faulty: [(&[u8], Status); 4] = [
        (b"", Status::BadLine(1)),
        (
            b"trace 1 region 17 partitions 1 threads 1\n0\n",
            Status::Limit(1),
        ),
        (
            b"trace 1 region 1 partitions 1 threads 1\n0 P\n0 P",
            Status::BadLine(3),
        ),
        (
            b"trace 1 region 1 partitions 1 threads 1\n1 P\n0 P",
            Status::Limit(2),
        ),
    ];
    for (text, status) in faulty {
        let mut source = MemSource::new(rt.alloc(), text, 11, &[])?;
        let mut sink = MemSink::new(rt.alloc(), 1000, 10, &[])?;
        assert!(rt; run(&rt, rt.alloc(), &model, &mut source, &mut sink, &NoGate).status == status);
        assert!(rt; sink.written().is_empty());
    }
    Ok(())
}

#[test]
fn a_second_read_that_fails_leaves_nothing_written(rt: HostRuntime) -> Result<(), Fail> {
    let model = words(rt.alloc(), &["model"])?;
    let texts: [&[u8]; 2] = [TRACE, b"neither a trace nor a part of one"];
    for text in texts {
        let mut source = MemSource::new(rt.alloc(), text, 20, &[1])?;
        let mut sink = MemSink::new(rt.alloc(), TEXT.len(), 10, &[])?;
        assert!(rt;
            run(&rt, rt.alloc(), &model, &mut source, &mut sink, &NoGate).status
                == Status::ReadFault
        );
        assert!(rt; sink.written().is_empty());
    }
    Ok(())
}

#[test]
fn a_third_write_that_fails_leaves_the_first_two(rt: HostRuntime) -> Result<(), Fail> {
    let model = words(rt.alloc(), &["model"])?;
    let mut source = MemSource::new(rt.alloc(), TRACE, 1000, &[])?;
    let mut sink = MemSink::new(rt.alloc(), TEXT.len(), 10, &[2])?;
    assert!(rt;
        run(&rt, rt.alloc(), &model, &mut source, &mut sink, &NoGate).status == Status::WriteFault
    );
    assert!(rt; sink.written() == &TEXT[..20]);
    Ok(())
}

#[test]
fn other_words_leave_the_source_unread(rt: HostRuntime) -> Result<(), Fail> {
    let lines: [&[&str]; 37] = [
        &[],
        &["layout"],
        &["layout", ""],
        &["layout", "01"],
        &["layout", "8x"],
        &["layout", "4294967296"],
        &["layout", "8", "8"],
        &["Layout", "8"],
        &["--help", "model"],
        &["help"],
        &["replay", "x"],
        &["Replay"],
        &["models"],
        &["trace"],
        &["trace", "1"],
        &["trace", "0", "7"],
        &["trace", "801", "7"],
        &["trace", "01", "7"],
        &["trace", "+1", "7"],
        &["trace", "1", "07"],
        &["trace", "1", "+7"],
        &["trace", "1", ""],
        &["trace", "1", "18446744073709551616"],
        &["trace", "1", "7", "7"],
        &["gen"],
        &["gen", "1"],
        &["gen", "0", "7"],
        &["gen", "801", "7"],
        &["gen", "01", "7"],
        &["gen", "1", "07"],
        &["gen", "1", "18446744073709551616"],
        &["gen", "1", "7", "7"],
        &["gens", "1", "7"],
        &["model", "x"],
        &["audit", "x"],
        &["Audit"],
        &["", "model"],
    ];
    for line in lines {
        let other = words(rt.alloc(), line)?;
        let mut source = MemSource::new(rt.alloc(), TRACE, 1000, &[0])?;
        let mut sink = MemSink::new(rt.alloc(), 10, 10, &[0])?;
        assert!(rt;
            run(&rt, rt.alloc(), &other, &mut source, &mut sink, &NoGate).status
                == Status::BadCommand
        );
        let mut into = [0; 100];
        assert!(rt; source.read(&mut into).is_err());
        assert!(rt; source.read(&mut into) == Ok(TRACE.len()));
    }
    Ok(())
}

#[test]
fn an_input_is_read_to_one_byte_past_the_limit(rt: HostRuntime) -> Result<(), Fail> {
    let model = words(rt.alloc(), &["model"])?;
    let bytes = zeros(rt.alloc(), 4_194_307)?;
    let mut source = MemSource::new(rt.alloc(), &bytes, 1_000_000, &[])?;
    let mut sink = MemSink::new(rt.alloc(), 10, 10, &[])?;
    assert!(rt;
        run(&rt, rt.alloc(), &model, &mut source, &mut sink, &NoGate).status == Status::Limit(1)
    );
    let mut into = [0; 100];
    assert!(rt; source.read(&mut into) == Ok(2));
    Ok(())
}

// What a command that reads nothing writes, with a source that fails at every read.
fn told<R: Threads + Wait + Sync>(rt: &R, alloc: Global, line: &[&str]) -> Result<Vec<u8>, Fail> {
    let line = words(alloc, line)?;
    let mut source = MemSource::new(alloc, TRACE, 1000, &[0, 1, 2])?;
    let mut sink = MemSink::new(alloc, 10_000, 7, &[])?;
    if run(rt, alloc, &line, &mut source, &mut sink, &NoGate).status != Status::Done {
        return Ok(Vec::new(alloc));
    }
    Ok(Vec::from_slice(alloc, sink.written())?)
}

#[test]
fn layout_tells_where_a_request_is_placed(rt: HostRuntime) -> Result<(), Fail> {
    let lines: [(&str, &[u8]); 9] = [
        (
            "0",
            b"class 0 slot 16 pages 1 system 4 slots 1024 waste 0\n",
        ),
        (
            "88",
            b"class 5 slot 96 pages 1 system 4 slots 170 waste 64\n",
        ),
        (
            "376",
            b"class 13 slot 384 pages 3 system 12 slots 128 waste 0\n",
        ),
        (
            "888",
            b"class 18 slot 896 pages 2 system 7 slots 32 waste 0\n",
        ),
        (
            "917496",
            b"class 58 slot 917504 pages 56 system 224 slots 1 waste 0\n",
        ),
        ("917497", b"direct slot 921600 super 1\n"),
        ("33521656", b"direct slot 33521664 super 16\n"),
        ("33521657", b"too-large\n"),
        ("4294967295", b"too-large\n"),
    ];
    for (size, text) in lines {
        assert!(rt; told(&rt, rt.alloc(), &["layout", size])?.as_slice() == text);
    }
    Ok(())
}

// Rounds and keys at their limits: the lines of the trace, and the last line of them, which is `3 F r3`.
#[test]
fn trace_tells_a_generated_trace(rt: HostRuntime) -> Result<(), Fail> {
    let lines: [(&str, &str, usize); 4] = [
        ("1", "0", 81),
        ("1", "7", 81),
        ("2", "18446744073709551615", 162),
        ("3", "0", 243),
    ];
    for (rounds, key, many) in lines {
        let text = told(&rt, rt.alloc(), &["trace", rounds, key])?;
        assert!(rt; text.starts_with(b"trace 1 region 8 partitions 4 threads 4\n0 A r0 p0 "));
        assert!(rt; text.ends_with(b"\n3 F r3\n"));
        let mut ends = 0usize;
        for byte in text.as_slice() {
            if *byte == b'\n' {
                ends = ends.saturating_add(1);
            }
        }
        assert!(rt; ends == many);
    }
    Ok(())
}

// The same bytes at each run, and no read of the source, which would fail.
#[test]
fn gen_tells_a_summary_and_reads_nothing(rt: HostRuntime) -> Result<(), Fail> {
    let line = words(rt.alloc(), &["gen", "1", "7"])?;
    for _ in 0..3 {
        let mut source = MemSource::new(rt.alloc(), TRACE, 1000, &[0])?;
        let mut sink = MemSink::new(rt.alloc(), 1000, 10, &[])?;
        let outcome = run(&rt, rt.alloc(), &line, &mut source, &mut sink, &NoGate);
        assert!(rt; outcome.status == Status::Done);
        assert!(rt; sink.written() == SUMMARY);
        assert!(rt; outcome.run.is_some() && outcome.region.is_some());
        let mut into = [0; 100];
        assert!(rt; source.read(&mut into).is_err());
    }
    Ok(())
}

#[test]
fn help_and_version_are_told(rt: HostRuntime) -> Result<(), Fail> {
    let help = told(&rt, rt.alloc(), &["--help"])?;
    assert!(rt; help.starts_with(b"usage: partalloc COMMAND [< FILE]\n\ncommands\n  replay "));
    assert!(rt;
        help.ends_with(
            b"docs/FORMATS.md, which also says why a file is refused that looks right.\n"
        )
    );
    assert!(rt;
        told(&rt, rt.alloc(), &["--version"])?.as_slice() == b"partalloc 0.1.0\n".as_slice()
    );
    Ok(())
}

#[test]
fn each_status_has_its_number_and_text(rt: HostRuntime) -> Result<(), Fail> {
    let told = [
        (Status::Done, 0, ""),
        (Status::BadCommand, 1, "bad command"),
        (Status::BadLine(65_536), 2, "bad line 65536"),
        (Status::Limit(65_537), 3, "limit at line 65537"),
        (Status::ReadFault, 4, "read fault"),
        (Status::WriteFault, 5, "write fault"),
        (Status::OutOfMemory, 6, "out of memory"),
        (
            Status::NotLegal(Clause::Lines, 2),
            7,
            "not legal: lines at line 2",
        ),
        (
            Status::NotLegal(Clause::Report, 4_294_967_295),
            7,
            "not legal: report at line 4294967295",
        ),
    ];
    for (status, number, text) in told {
        assert!(rt; status.number() == number);
        assert!(rt; format!(in rt.alloc(); "{status}")?.as_str() == text);
    }
    Ok(())
}
