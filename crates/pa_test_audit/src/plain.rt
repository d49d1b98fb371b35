//! What is another thing in a trace with plain partitions: a copy of an object's owner is refused as uncounted.
use crate::audit::told_of;
use crate::contents::{FIRST, done, entry, gave, history, line, made};
use crate::records::registers_of;
use pa_record::{Answer, Held};
use pa_rules::{Clause, Verdict};
use pa_slot::OutOfMemory;
use pa_trace::{Op, Rules};
use std::alloc::Global;
use std::test::Fail;

// The rules of version 3 with this first plain partition.
fn plain_from(plain_from: u32) -> Rules {
    Rules {
        version: 3,
        plain_from,
    }
}

// A request of 8 bytes in a partition.
fn alloc_in(reg: u32, partition: u32) -> Op {
    Op::Alloc {
        reg,
        partition,
        size: 8,
    }
}

// What is told of a copy with this answer, of the owner of a slot in partition 1, to this register.
fn told_of_copy(
    alloc: Global,
    rules: Rules,
    to: u32,
    answer: Answer,
) -> Result<Option<u32>, OutOfMemory> {
    let lines = [line(0, alloc_in(0, 1)), line(0, Op::Copy { from: 0, to })];
    let entries = [entry(2, 0, made(0)), entry(3, 0, answer)];
    registers_of(alloc, rules, &lines, &entries, &[])
}

// A copy is uncounted if the slot's partition is the first plain one or a later one, and the register has no handle.
#[test]
fn registers_tell_a_copy_by_its_partition(rt: HostRuntime) {
    let counted = done(0x100_0001);
    let rows = [
        (0, 1, Answer::Uncounted, None),
        (0, 1, counted, Some(1)),
        (1, 1, Answer::Uncounted, None),
        (1, 1, counted, Some(1)),
        (2, 1, Answer::Uncounted, Some(1)),
        (2, 1, counted, None),
        (1, 0, Answer::Filled, None),
        (1, 0, Answer::Uncounted, Some(1)),
    ];
    for (first, to, answer, told) in rows {
        let found = told_of_copy(rt.alloc(), plain_from(first), to, answer);
        assert!(rt; found == Ok(told), "{first} {to}");
    }
}

// A slot is made in one partition, freed, made in another by a run that isn't legal, and copied: the first of the two counts.
#[test]
fn registers_tell_a_copy_by_the_first_record_that_made_the_slot(rt: HostRuntime) {
    let rows = [
        (1, 0, Answer::Uncounted, None),
        (1, 0, done(0x300_0001), Some(3)),
        (0, 1, Answer::Uncounted, Some(3)),
        (0, 1, done(0x300_0001), None),
    ];
    for (before, after, answer, told) in rows {
        let lines = [
            line(0, alloc_in(0, before)),
            line(0, Op::Free { reg: 0 }),
            line(0, alloc_in(2, after)),
            line(0, Op::Copy { from: 2, to: 1 }),
        ];
        let entries = [
            entry(2, 0, made(0)),
            entry(3, 0, done(0x100_0001)),
            entry(4, 0, made(0x200_0000)),
            entry(5, 0, answer),
        ];
        let found = registers_of(rt.alloc(), plain_from(1), &lines, &entries, &[]);
        assert!(rt; found == Ok(told), "{before} {after}");
    }
}

// A raw_ptr is counted, so a copy of one is, whatever its slot is.
#[test]
fn registers_tell_a_copy_of_a_raw_ptr(rt: HostRuntime) -> Result<(), Fail> {
    let lines = [
        line(0, alloc_in(0, 1)),
        line(0, Op::Swap { cell: 0, reg: 2 }),
        line(0, Op::Copy { from: 2, to: 1 }),
    ];
    let exchange = gave(3, Held::Nothing, Held::Ref(FIRST));
    for (answer, told) in [(Answer::Uncounted, Some(2)), (done(0x100_0001), None)] {
        let entries = [
            entry(2, 0, made(0)),
            entry(3, 0, Answer::Swapped { entry: 0 }),
            entry(4, 0, answer),
        ];
        let cells = [history(rt.alloc(), &[exchange])?];
        let found = registers_of(rt.alloc(), plain_from(1), &lines, &entries, &cells);
        assert!(rt; found == Ok(told));
    }
    Ok(())
}

// An object of a plain partition is made, copied, written to and freed, one of the other partition is made and copied, and the slot of
// the first is made again. Its owner goes through a cell, and is copied.
const TRACE: &[u8] = b"trace 3 region 2 partitions 2 threads 1 plain 1
0 A r0 p1 8
0 C r0 r1
0 W r0 0000000000000005
0 F r0
0 A r2 p0 8
0 C r2 r3
0 A r0 p1 8
0 X c0 r0
0 X c0 r4
0 C r4 r1
";

const HEAD: &[u8] = b"run 1
";

const MADE: &[u8] = b"e 2 0 made 00004000.0 8 0000000000000000
";

const USED: &[u8] = b"e 4 0 done 00004000.0 0000000001000001
e 5 0 done 00004000.0 0000000002000001
e 6 0 made 00204000.1 8 0000000000000000
";

const EXCHANGED: &[u8] = b"e 8 0 made 00004000.0 8 0000000003000000
e 9 0 swapped 0
e 10 0 swapped 1
e 11 0 uncounted
";

const REST: &[u8] =
    b"r 0 0 6 fill 59 1 00204000.1@0 00204010.1@0 00204020.1@0 00204030.1@0 00204040.1@0 00204050.1@0 00204060.1@0 00204070.1@0
r 1 0 2 fill 59 0 00004000.0@0 00004010.0@0 00004020.0@0 00004030.0@0 00004040.0@0 00004050.0@0 00004060.0@0 00004070.0@0
p 0 2 1 take 1 0
p 1 6 0 take 1 1
c 0 0 9 own:00004000.0 -
c 0 1 10 - own:00004000.0
s 1 0 live 1 16 quarantined 0 0 cached 7 112 root 248 3968 committed 4096 reserved 2097152 full 0 active 1 empty 0 decommitted 0
s 1 1 live 1 16 quarantined 0 0 cached 7 112 root 248 3968 committed 4096 reserved 2097152 full 0 active 1 empty 0 decommitted 0
end
";

#[test]
fn a_run_with_a_plain_partition(rt: HostRuntime) {
    let uncounted: &[u8] = b"e 3 0 uncounted
";
    let counted: &[u8] = b"e 7 0 done 00204000.1 0000000001000001
";
    let rows: [(&[u8], &[u8], Verdict); 3] = [
        (uncounted, counted, Verdict::Legal),
        (
            b"e 3 0 done 00004000.0 0000000001000001
",
            counted,
            Verdict::Broken(Clause::Registers, 3),
        ),
        (
            uncounted,
            b"e 7 0 uncounted
",
            Verdict::Broken(Clause::Registers, 7),
        ),
    ];
    for (plain, other, verdict) in rows {
        let lines = [HEAD, MADE, plain, USED, other, EXCHANGED, REST];
        let found = told_of(rt.alloc(), TRACE, &lines);
        assert!(rt; found == Some(verdict));
    }
}

// A copy of an owner of a plain slot to itself is refused because its register has a handle.
#[test]
fn a_copy_to_a_register_with_a_handle(rt: HostRuntime) {
    let trace = b"trace 3 region 2 partitions 2 threads 1 plain 1
0 A r0 p1 8
0 C r0 r0
0 C r0 r1
";
    let rest = b"e 4 0 uncounted
r 1 0 2 fill 59 0 00004000.0@0 00004010.0@0 00004020.0@0 00004030.0@0 00004040.0@0 00004050.0@0 00004060.0@0 00004070.0@0
p 0 2 1 take 1 0
s 1 0 live 0 0 quarantined 0 0 cached 0 0 root 0 0 committed 0 reserved 0 full 0 active 0 empty 0 decommitted 0
s 1 1 live 1 16 quarantined 0 0 cached 7 112 root 248 3968 committed 4096 reserved 2097152 full 0 active 1 empty 0 decommitted 0
end
";
    let rows: [(&[u8], Verdict); 2] = [
        (b"e 3 0 filled\n", Verdict::Legal),
        (b"e 3 0 uncounted\n", Verdict::Broken(Clause::Registers, 3)),
    ];
    for (copied, verdict) in rows {
        let found = told_of(rt.alloc(), trace, &[HEAD, MADE, copied, rest]);
        assert!(rt; found == Some(verdict));
    }
}

// In version 1 no slot is plain.
#[test]
fn an_uncounted_copy_in_version_1(rt: HostRuntime) {
    let trace = b"trace 1 region 1 partitions 1 threads 1
0 A r0 p0 8
0 C r0 r1
";
    let rest = b"e 3 0 uncounted
r 0 0 2 fill 0 0 00004000.0@0 00004010.0@0 00004020.0@0 00004030.0@0 00004040.0@0 00004050.0@0 00004060.0@0 00004070.0@0
p 0 2 0 take 1 0
s 1 0 live 1 16 quarantined 0 0 cached 7 112 root 248 3968 committed 4096 reserved 2097152 full 0 active 1 empty 0 decommitted 0
end
";
    let found = told_of(rt.alloc(), trace, &[HEAD, MADE, rest]);
    assert!(rt; found == Some(Verdict::Broken(Clause::Registers, 3)));
}
