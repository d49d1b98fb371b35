//! What `replay` writes: for one thread, for two when the phases leave no choice, and for two that meet.
use crate::cli::{TEXT, TRACE, words};
use pa_cli::{Outcome, Status, run};
use pa_io::{MemSink, MemSource};
use pa_runner::NoGate;
use std::alloc::Global;
use std::marker::Sync;
use std::sync::Wait;
use std::test::Fail;
use std::thread::Threads;

// Thread 0 frees an object to which thread 1 has a raw_ptr, and thread 1 reads through it a phase later.
const FREED: &[u8] = b"trace 1 region 1 partitions 1 threads 2
0 A r0 p0 8
0 C r0 r1
0 X c0 r1
phase
0 F r0
1 X c0 r0
phase
0 A r0 p0 8
1 D r0 0
1 R r0
1 A r1 p0 8
";

// What `replay` writes for the trace with the read in a later phase, whatever the threads do first.
const FREED_TEXT: &[u8] = b"run 1
e 2 0 made 00004000.0 8 0000000000000000
e 3 0 done 00004000.0 0000000001000001
e 4 0 swapped 0
e 6 0 done 00004000.0 0000000002000003
e 7 1 swapped 1
e 9 0 made 00004010.0 8 0000000000000000
e 10 1 dangling 00004000.0 0000000003000002 efefefefefefefef
e 11 1 done 00004000.0 0000000003000002
e 12 1 made 00004000.0 8 0000000004000000
r 0 0 2 fill 0 0 00004000.0@0 00004010.0@0 00004020.0@0 00004030.0@0 00004040.0@0 00004050.0@0 00004060.0@0 00004070.0@0
p 0 2 0 take 1 0
c 0 0 4 ref:00004000.0 -
c 0 1 7 - ref:00004000.0
s 1 0 live 1 16 quarantined 0 0 cached 7 112 root 248 3968 committed 4096 reserved 2097152 full 0 active 1 empty 0 decommitted 0
s 2 0 live 0 0 quarantined 1 16 cached 7 112 root 248 3968 committed 4096 reserved 2097152 full 0 active 1 empty 0 decommitted 0
s 3 0 live 2 32 quarantined 0 0 cached 6 96 root 248 3968 committed 4096 reserved 2097152 full 0 active 1 empty 0 decommitted 0
end
";

// Thread 0 frees an object to which thread 1 has a raw_ptr, and thread 1 reads through it
// on line 8 in the same phase, and once more a phase later.
const MEETING: &[u8] = b"trace 1 region 1 partitions 1 threads 2
0 A r0 p0 8
0 C r0 r1
0 X c0 r1
phase
0 F r0
1 X c0 r0
1 D r0 0
phase
1 D r0 0
1 R r0
";

// What `replay` writes for the trace in which the read meets the free, before the record of line 8.
const BEFORE: &[u8] = b"run 1
e 2 0 made 00004000.0 8 0000000000000000
e 3 0 done 00004000.0 0000000001000001
e 4 0 swapped 0
e 6 0 done 00004000.0 0000000002000003
e 7 1 swapped 1
";

// What `replay` writes for the trace in which the read meets the free, after the record of line 8.
const AFTER: &[u8] = b"e 10 1 dangling 00004000.0 0000000003000002 efefefefefefefef
e 11 1 done 00004000.0 0000000003000002
r 0 0 2 fill 0 0 00004000.0@0 00004010.0@0 00004020.0@0 00004030.0@0 00004040.0@0 00004050.0@0 00004060.0@0 00004070.0@0
p 0 2 0 take 1 0
c 0 0 4 ref:00004000.0 -
c 0 1 7 - ref:00004000.0
s 1 0 live 1 16 quarantined 0 0 cached 7 112 root 248 3968 committed 4096 reserved 2097152 full 0 active 1 empty 0 decommitted 0
s 2 0 live 0 0 quarantined 1 16 cached 7 112 root 248 3968 committed 4096 reserved 2097152 full 0 active 1 empty 0 decommitted 0
s 3 0 live 0 0 quarantined 0 0 cached 8 128 root 248 3968 committed 4096 reserved 2097152 full 0 active 1 empty 0 decommitted 0
end
";

// Traces of version 2, each with what `replay` writes: a class of eight to a doubling, the greatest class, the least direct map,
// and a region of 64 super pages.
const DENSE: [(&[u8], &[u8]); 4] = [
    (
        b"trace 2 region 1 partitions 1 threads 1
0 A r0 p0 130
",
        b"run 1
e 2 0 made 00004000.0 136 0000000000000000
r 0 0 2 fill 67 0 00004000.0@0 00004090.0@0 00004120.0@0 000041b0.0@0
p 0 2 0 take 1 0
s 1 0 live 1 144 quarantined 0 0 cached 3 432 root 24 3456 committed 4096 reserved 2097152 full 0 active 1 empty 0 decommitted 0
end
",
    ),
    (
        b"trace 2 region 1 partitions 1 threads 1
0 A r0 p0 983032
",
        b"run 1
e 2 0 made 00004000.0 983032 0000000000000000
r 0 0 2 fill 169 0 00004000.0@0
p 0 2 0 take 1 0
s 1 0 live 1 983040 quarantined 0 0 cached 0 0 root 0 0 committed 983040 reserved 2097152 full 1 active 0 empty 0 decommitted 0
end
",
    ),
    (
        b"trace 2 region 1 partitions 1 threads 1
0 A r0 p0 983033
",
        b"run 1
e 2 0 made 00004000.0 987128 0000000000000000
r 0 0 2 map 0 00004000.0@0 987136
p 0 2 0 take 1 0
s 1 0 live 1 987136 quarantined 0 0 cached 0 0 root 0 0 committed 987136 reserved 2097152 full 0 active 0 empty 0 decommitted 0
end
",
    ),
    (
        b"trace 2 region 64 partitions 1 threads 1
",
        b"run 1
s 1 0 live 0 0 quarantined 0 0 cached 0 0 root 0 0 committed 0 reserved 0 full 0 active 0 empty 0 decommitted 0
end
",
    ),
];

// A trace of version 3 with a plain partition: an owner of its slots is copied to no register, not before and not after its way through
// a cell.
const PLAIN: &[u8] = b"trace 3 region 2 partitions 2 threads 1 plain 1
0 A r0 p1 8
0 C r0 r1
0 W r0 0000000000000005
0 F r0
0 A r2 p0 8
0 C r2 r3
0 A r0 p1 8
0 X c0 r0
0 X c0 r4
0 C r4 r1
";

// What `replay` writes for it.
const PLAIN_TEXT: &[u8] = b"run 1
e 2 0 made 00004000.0 8 0000000000000000
e 3 0 uncounted
e 4 0 done 00004000.0 0000000001000001
e 5 0 done 00004000.0 0000000002000001
e 6 0 made 00204000.1 8 0000000000000000
e 7 0 done 00204000.1 0000000001000001
e 8 0 made 00004000.0 8 0000000003000000
e 9 0 swapped 0
e 10 0 swapped 1
e 11 0 uncounted
r 0 0 6 fill 59 1 00204000.1@0 00204010.1@0 00204020.1@0 00204030.1@0 00204040.1@0 00204050.1@0 00204060.1@0 00204070.1@0
r 1 0 2 fill 59 0 00004000.0@0 00004010.0@0 00004020.0@0 00004030.0@0 00004040.0@0 00004050.0@0 00004060.0@0 00004070.0@0
p 0 2 1 take 1 0
p 1 6 0 take 1 1
c 0 0 9 own:00004000.0 -
c 0 1 10 - own:00004000.0
s 1 0 live 1 16 quarantined 0 0 cached 7 112 root 248 3968 committed 4096 reserved 2097152 full 0 active 1 empty 0 decommitted 0
s 1 1 live 1 16 quarantined 0 0 cached 7 112 root 248 3968 committed 4096 reserved 2097152 full 0 active 1 empty 0 decommitted 0
end
";

// The answers that line 8 may have: before the free, while it poisons, and after it.
const READS: [&[u8]; 3] = [
    b"word 00004000.0 0000000002000003 0000000000000000",
    b"word 00004000.0 0000000002000003 efefefefefefefef",
    b"dangling 00004000.0 0000000003000002 efefefefefefefef",
];

// What `replay` writes for these bytes, by reads and writes of at most this many, and nothing if it isn't done or returns no run.
fn replayed<R: Threads + Wait + Sync>(
    rt: &R,
    alloc: Global,
    trace: &[u8],
    piece: usize,
) -> Result<Vec<u8>, Fail> {
    let line = words(alloc, &["replay"])?;
    let mut source = MemSource::new(alloc, trace, piece.max(1), &[])?;
    let mut sink = MemSink::new(alloc, 10_000, piece.max(1), &[])?;
    let outcome = run(rt, alloc, &line, &mut source, &mut sink, &NoGate);
    if outcome.status != Status::Done || outcome.run.is_none() || outcome.region.is_none() {
        return Ok(Vec::new(alloc));
    }
    Ok(Vec::from_slice(alloc, sink.written())?)
}

#[test]
fn one_thread_is_replayed_in_its_order(rt: HostRuntime) -> Result<(), Fail> {
    for piece in [1, 7, 1000] {
        let text = replayed(&rt, rt.alloc(), TRACE, piece)?;
        assert!(rt; text.as_slice() == TEXT);
    }
    Ok(())
}

#[test]
fn traces_of_version_2_are_replayed(rt: HostRuntime) -> Result<(), Fail> {
    for (trace, text) in DENSE {
        let got = replayed(&rt, rt.alloc(), trace, 1000)?;
        assert!(rt; got.as_slice() == text);
    }
    Ok(())
}

#[test]
fn no_raw_ptr_to_a_plain_slot_is_made(rt: HostRuntime) -> Result<(), Fail> {
    for piece in [1, 7, 1000] {
        let text = replayed(&rt, rt.alloc(), PLAIN, piece)?;
        assert!(rt; text.as_slice() == PLAIN_TEXT);
    }
    Ok(())
}

#[test]
fn what_was_freed_reads_poison_on_another_thread(rt: HostRuntime) -> Result<(), Fail> {
    for _ in 0..20 {
        let text = replayed(&rt, rt.alloc(), FREED, 1000)?;
        assert!(rt; text.as_slice() == FREED_TEXT);
    }
    Ok(())
}

#[test]
fn a_read_beside_a_free_has_one_of_three_answers(rt: HostRuntime) -> Result<(), Fail> {
    for _ in 0..20 {
        let text = replayed(&rt, rt.alloc(), MEETING, 1000)?;
        let mut found = 0u32;
        for read in READS {
            let mut allowed = Vec::from_slice(rt.alloc(), BEFORE)?;
            allowed.extend_from_slice(b"e 8 1 ")?;
            allowed.extend_from_slice(read)?;
            allowed.extend_from_slice(b"\n")?;
            allowed.extend_from_slice(AFTER)?;
            if allowed.as_slice() == text.as_slice() {
                found = found.saturating_add(1);
            }
        }
        assert!(rt; found == 1);
    }
    Ok(())
}

#[test]
fn what_is_refused_tells_no_run(rt: HostRuntime) -> Result<(), Fail> {
    let replay = words(rt.alloc(), &["replay"])?;
    let faulty: [(&[u8], &[u64], Status); 9] = [
        (b"", &[], Status::BadLine(1)),
        (
            b"trace 1 region 1 partitions 1 threads 1\n0 P\n0 P",
            &[],
            Status::BadLine(3),
        ),
        (
            b"trace 1 region 17 partitions 1 threads 1\n0\n",
            &[],
            Status::Limit(1),
        ),
        (
            b"trace 2 region 65 partitions 1 threads 1\n",
            &[],
            Status::Limit(1),
        ),
        (
            b"trace 3 region 1 partitions 2 threads 1 plain 3\n",
            &[],
            Status::Limit(1),
        ),
        (
            b"trace 3 region 1 partitions 1 threads 1\n",
            &[],
            Status::BadLine(1),
        ),
        (
            b"trace 4 region 1 partitions 1 threads 1 plain 0\n",
            &[],
            Status::BadLine(1),
        ),
        (TRACE, &[1], Status::ReadFault),
        (
            b"neither a trace nor a part of one",
            &[1],
            Status::ReadFault,
        ),
    ];
    for (text, fails, status) in faulty {
        let mut source = MemSource::new(rt.alloc(), text, 20, fails)?;
        let mut sink = MemSink::new(rt.alloc(), 1000, 10, &[])?;
        let outcome = run(&rt, rt.alloc(), &replay, &mut source, &mut sink, &NoGate);
        assert!(rt; outcome.status == status);
        assert!(rt; outcome.run.is_none() && outcome.region.is_none());
        assert!(rt; sink.written().is_empty());
    }
    Ok(())
}

#[test]
fn a_write_that_fails_leaves_the_run(rt: HostRuntime) -> Result<(), Fail> {
    let replay = words(rt.alloc(), &["replay"])?;
    let mut source = MemSource::new(rt.alloc(), TRACE, 1000, &[])?;
    let mut sink = MemSink::new(rt.alloc(), TEXT.len(), 10, &[2])?;
    let Outcome {
        status,
        run: played,
        region,
    } = run(&rt, rt.alloc(), &replay, &mut source, &mut sink, &NoGate);
    assert!(rt; status == Status::WriteFault);
    assert!(rt; sink.written() == &TEXT[..20]);
    assert!(rt; region.is_some());
    let Some(played) = played else {
        return Err("no run".into());
    };
    assert!(rt; played.entries.len() == 2);
    Ok(())
}

#[test]
fn model_tells_no_run(rt: HostRuntime) -> Result<(), Fail> {
    let model = words(rt.alloc(), &["model"])?;
    let mut source = MemSource::new(rt.alloc(), TRACE, 1000, &[])?;
    let mut sink = MemSink::new(rt.alloc(), TEXT.len(), 1000, &[])?;
    let outcome = run(&rt, rt.alloc(), &model, &mut source, &mut sink, &NoGate);
    assert!(rt; outcome.status == Status::Done);
    assert!(rt; outcome.run.is_none() && outcome.region.is_none());
    Ok(())
}
