use pa_record::write_run;
use pa_resize::{Verdict, expand, expand_input};
use pa_script::read_script;
use pa_trace::write_trace;
use std::alloc::Global;
use std::test::Fail;

// What a script must come to.
#[derive(Clone, Copy)]
struct Due<'a> {
    trace: &'a [u8],
    run: &'a [u8],
    verdicts: &'a [(u32, Verdict)],
}

// Whether a script comes to what is due.
fn gives(alloc: Global, text: &[u8], due: Due<'_>) -> Result<bool, Fail> {
    let Ok(script) = read_script(alloc, text) else {
        return Err(Fail::new("no script"));
    };
    let found = expand(alloc, &script)?;
    let trace = write_trace(alloc, &found.trace)?;
    let run = write_run(alloc, &found.run)?;
    let Ok(printed) = expand_input(alloc, text) else {
        return Err(Fail::new("no script"));
    };
    Ok(
        trace.as_slice() == due.trace
            && run.as_slice() == due.run
            && printed.trace.as_slice() == due.trace
            && printed.run.as_slice() == due.run
            && found.verdicts.as_slice() == due.verdicts,
    )
}

// An object is moved, then its slot is long enough, then a `raw_ptr` points to it.
#[test]
fn moves_keeps_and_refuses_shared(rt: HostRuntime) -> Result<(), Fail> {
    let text = b"script 1 region 1 partitions 1 threads 1
0 A r0 p0 8
0 W r0 0000000000000005
0 S r0 100
0 D r0 12
0 S r0 104
0 C r0 r1
0 S r0 8
";
    let due = Due {
        trace: b"trace 1 region 1 partitions 1 threads 1
0 A r0 p0 8
0 W r0 0000000000000005
0 D r0 0
0 A r63 p0 100
0 W r63 0000000000000005
0 F r0
0 X c63 r63
0 X c63 r0
0 D r0 12
0 D r0 0
0 C r0 r1
0 D r0 0
",
        run: b"run 1
e 2 0 made 00004000.0 8 0000000000000000
e 3 0 done 00004000.0 0000000001000001
e 4 0 word 00004000.0 0000000002000001 0000000000000005
e 5 0 made 00008000.0 104 0000000000000000
e 6 0 done 00008000.0 0000000001000001
e 7 0 done 00004000.0 0000000002000001
e 8 0 swapped 0
e 9 0 swapped 1
e 10 0 word 00008000.0 0000000002000001 0000000000000005
e 11 0 word 00008000.0 0000000002000001 0000000000000005
e 12 0 done 00008000.0 0000000002000001
e 13 0 word 00008000.0 0000000003000003 0000000000000005
r 0 0 2 fill 0 0 00004000.0@0 00004010.0@0 00004020.0@0 00004030.0@0 00004040.0@0 00004050.0@0 00004060.0@0 00004070.0@0
r 0 1 5 fill 6 - 00008000.0@0 00008070.0@0 000080e0.0@0 00008150.0@0 000081c0.0@0 00008230.0@0 000082a0.0@0 00008310.0@0
p 0 2 0 take 1 0
c 63 0 8 own:00008000.0 -
c 63 1 9 - own:00008000.0
s 1 0 live 1 112 quarantined 0 0 cached 15 912 root 276 7104 committed 8192 reserved 2097152 full 0 active 2 empty 0 decommitted 0
end
",
        verdicts: &[
            (4, Verdict::Moved),
            (6, Verdict::Kept),
            (8, Verdict::Shared),
        ],
    };
    assert!(rt; gives(rt.alloc(), text, due)?);
    Ok(())
}

// There is no room, a size is too large, and a register owns nothing.
#[test]
fn finds_no_room(rt: HostRuntime) -> Result<(), Fail> {
    let text = b"script 1 region 1 partitions 1 threads 1
0 A r0 p0 917496
0 A r1 p0 917496
0 S r0 700000
0 S r1 33521657
0 S r2 8
";
    let due = Due {
        trace: b"trace 1 region 1 partitions 1 threads 1
0 A r0 p0 917496
0 A r1 p0 917496
0 D r0 0
0 A r63 p0 700000
0 D r1 0
",
        run: b"run 1
e 2 0 made 00004000.0 917496 0000000000000000
e 3 0 made 000e4000.0 917496 0000000000000000
e 4 0 word 00004000.0 0000000001000001 0000000000000000
e 5 0 full 2
e 6 0 word 000e4000.0 0000000001000001 0000000000000000
r 0 0 2 fill 58 0 00004000.0@0
r 0 1 3 fill 58 - 000e4000.0@0
r 0 2 5 full 57 1
p 0 2 0 take 1 0
p 1 5 0 take 1 none
s 1 0 live 2 1835008 quarantined 0 0 cached 0 0 root 0 0 committed 1835008 reserved 2097152 full 2 active 0 empty 0 decommitted 0
end
",
        verdicts: &[
            (4, Verdict::NoRoom),
            (5, Verdict::TooLarge),
            (6, Verdict::NotOwn),
        ],
    };
    assert!(rt; gives(rt.alloc(), text, due)?);
    Ok(())
}

// If several verdicts fit, the first one counts.
#[test]
fn tries_verdicts_in_order(rt: HostRuntime) -> Result<(), Fail> {
    let text = b"script 1 region 1 partitions 1 threads 1
0 S r0 4294967295
0 A r0 p0 8
0 C r0 r1
0 S r0 4294967295
0 S r0 8
0 S r0 33521656
0 S r1 4294967295
0 R r1
0 S r0 33521657
0 S r0 33521656
";
    let due = Due {
        trace: b"trace 1 region 1 partitions 1 threads 1
0 A r0 p0 8
0 C r0 r1
0 D r0 0
0 D r0 0
0 D r0 0
0 R r1
0 D r0 0
0 D r0 0
0 A r63 p0 33521656
",
        run: b"run 1
e 2 0 made 00004000.0 8 0000000000000000
e 3 0 done 00004000.0 0000000001000001
e 4 0 word 00004000.0 0000000002000003 0000000000000000
e 5 0 word 00004000.0 0000000002000003 0000000000000000
e 6 0 word 00004000.0 0000000002000003 0000000000000000
e 7 0 done 00004000.0 0000000002000003
e 8 0 word 00004000.0 0000000003000001 0000000000000000
e 9 0 word 00004000.0 0000000003000001 0000000000000000
e 10 0 full 1
r 0 0 2 fill 0 0 00004000.0@0 00004010.0@0 00004020.0@0 00004030.0@0 00004040.0@0 00004050.0@0 00004060.0@0 00004070.0@0
r 0 1 10 full direct 1
p 0 2 0 take 1 0
p 1 10 0 take 16 none
s 1 0 live 1 16 quarantined 0 0 cached 7 112 root 248 3968 committed 4096 reserved 2097152 full 0 active 1 empty 0 decommitted 0
end
",
        verdicts: &[
            (2, Verdict::NotOwn),
            (5, Verdict::Shared),
            (6, Verdict::Shared),
            (7, Verdict::Shared),
            (8, Verdict::NotOwn),
            (10, Verdict::TooLarge),
            (11, Verdict::NoRoom),
        ],
    };
    assert!(rt; gives(rt.alloc(), text, due)?);
    Ok(())
}

// An owner that came through a cell stays in its partition.
#[test]
fn resizes_what_came_through_a_cell(rt: HostRuntime) -> Result<(), Fail> {
    let text = b"script 1 region 2 partitions 2 threads 2
0 A r0 p1 8
0 W r0 efefefefefefefef
0 X c62 r0
1 X c62 r62
1 S r62 24
0 S r0 24
phase
1 S r62 8
1 D r62 0
";
    let due = Due {
        trace: b"trace 1 region 2 partitions 2 threads 2
0 A r0 p1 8
0 W r0 efefefefefefefef
0 X c62 r0
1 X c62 r62
1 D r62 0
1 A r63 p1 24
1 W r63 efefefefefefefef
1 F r62
1 X c63 r63
1 X c63 r62
phase
1 D r62 0
1 A r63 p1 8
1 W r63 efefefefefefefef
1 F r62
1 X c63 r63
1 X c63 r62
1 D r62 0
",
        run: b"run 1
e 2 0 made 00004000.0 8 0000000000000000
e 3 0 done 00004000.0 0000000001000001
e 4 0 swapped 0
e 5 1 swapped 1
e 6 1 word 00004000.0 0000000002000001 efefefefefefefef
e 7 1 made 00008000.0 24 0000000000000000
e 8 1 done 00008000.0 0000000001000001
e 9 1 done 00004000.0 0000000002000001
e 10 1 swapped 0
e 11 1 swapped 1
e 13 1 word 00008000.0 0000000002000001 efefefefefefefef
e 14 1 made 00004000.0 8 0000000003000000
e 15 1 done 00004000.0 0000000004000001
e 16 1 done 00008000.0 0000000002000001
e 17 1 swapped 2
e 18 1 swapped 3
e 19 1 word 00004000.0 0000000005000001 efefefefefefefef
r 1 0 2 fill 0 0 00004000.0@0 00004010.0@0 00004020.0@0 00004030.0@0 00004040.0@0 00004050.0@0 00004060.0@0 00004070.0@0
r 1 1 7 fill 1 - 00008000.0@0 00008020.0@0 00008040.0@0 00008060.0@0 00008080.0@0 000080a0.0@0 000080c0.0@0 000080e0.0@0
p 0 2 1 take 1 0
c 62 0 4 own:00004000.0 -
c 62 1 5 - own:00004000.0
c 63 0 10 own:00008000.0 -
c 63 1 11 - own:00008000.0
c 63 2 17 own:00004000.0 -
c 63 3 18 - own:00004000.0
s 1 0 live 0 0 quarantined 0 0 cached 0 0 root 0 0 committed 0 reserved 0 full 0 active 0 empty 0 decommitted 0
s 1 1 live 1 32 quarantined 0 0 cached 15 352 root 368 7808 committed 8192 reserved 2097152 full 0 active 2 empty 0 decommitted 0
s 2 0 live 0 0 quarantined 0 0 cached 0 0 root 0 0 committed 0 reserved 0 full 0 active 0 empty 0 decommitted 0
s 2 1 live 1 16 quarantined 0 0 cached 15 368 root 368 7808 committed 8192 reserved 2097152 full 0 active 2 empty 0 decommitted 0
end
",
        verdicts: &[
            (6, Verdict::Moved),
            (7, Verdict::NotOwn),
            (9, Verdict::Moved),
        ],
    };
    assert!(rt; gives(rt.alloc(), text, due)?);
    Ok(())
}

// Without room all is as before but an entry of the pool and one of the journal.
#[test]
fn stays_as_before_without_room(rt: HostRuntime) -> Result<(), Fail> {
    let text = b"script 1 region 1 partitions 1 threads 1
0 A r0 p0 917496
0 W r0 0000000000000007
0 A r1 p0 917496
0 S r0 2000000
0 D r0 0
0 F r1
0 S r0 700000
0 D r0 0
0 A r2 p0 8
";
    let due = Due {
        trace: b"trace 1 region 1 partitions 1 threads 1
0 A r0 p0 917496
0 W r0 0000000000000007
0 A r1 p0 917496
0 D r0 0
0 A r63 p0 2000000
0 D r0 0
0 F r1
0 D r0 0
0 A r63 p0 700000
0 D r0 0
0 A r2 p0 8
",
        run: b"run 1
e 2 0 made 00004000.0 917496 0000000000000000
e 3 0 done 00004000.0 0000000001000001
e 4 0 made 000e4000.0 917496 0000000000000000
e 5 0 word 00004000.0 0000000002000001 0000000000000007
e 6 0 full 2
e 7 0 word 00004000.0 0000000002000001 0000000000000007
e 8 0 done 000e4000.0 0000000001000001
e 9 0 word 00004000.0 0000000002000001 0000000000000007
e 10 0 full 4
e 11 0 word 00004000.0 0000000002000001 0000000000000007
e 12 0 made 001c4000.0 8 0000000000000000
r 0 0 2 fill 58 0 00004000.0@0
r 0 1 4 fill 58 - 000e4000.0@0
r 0 2 6 full direct 1
r 0 3 8 give 000e4000.0@2
r 0 4 10 full 57 2
r 0 5 12 fill 0 - 001c4000.0@0 001c4010.0@0 001c4020.0@0 001c4030.0@0 001c4040.0@0 001c4050.0@0 001c4060.0@0 001c4070.0@0
p 0 2 0 take 1 0
p 1 6 0 take 1 none
p 2 10 0 take 1 none
s 1 0 live 2 917520 quarantined 0 0 cached 7 112 root 249 921472 committed 1839104 reserved 2097152 full 1 active 1 empty 1 decommitted 0
end
",
        verdicts: &[(5, Verdict::NoRoom), (8, Verdict::NoRoom)],
    };
    assert!(rt; gives(rt.alloc(), text, due)?);
    Ok(())
}

// On both sides of the edges between classes and direct maps.
#[test]
fn knows_direct_maps(rt: HostRuntime) -> Result<(), Fail> {
    let text = b"script 1 region 4 partitions 1 threads 1
0 A r0 p0 917497
0 W r0 0123456789abcdef
0 S r0 921592
0 S r0 921593
0 D r0 115199
0 S r0 917496
0 D r0 0
0 S r0 2000000
0 D r0 249999
0 S r0 4000000
";
    let due = Due {
        trace: b"trace 1 region 4 partitions 1 threads 1
0 A r0 p0 917497
0 W r0 0123456789abcdef
0 D r0 0
0 D r0 0
0 A r63 p0 921593
0 W r63 0123456789abcdef
0 F r0
0 X c63 r63
0 X c63 r0
0 D r0 115199
0 D r0 0
0 A r63 p0 917496
0 W r63 0123456789abcdef
0 F r0
0 X c63 r63
0 X c63 r0
0 D r0 0
0 D r0 0
0 A r63 p0 2000000
0 W r63 0123456789abcdef
0 F r0
0 X c63 r63
0 X c63 r0
0 D r0 249999
0 D r0 0
0 A r63 p0 4000000
0 W r63 0123456789abcdef
0 F r0
0 X c63 r63
0 X c63 r0
",
        run: b"run 1
e 2 0 made 00004000.0 921592 0000000000000000
e 3 0 done 00004000.0 0000000001000001
e 4 0 word 00004000.0 0000000002000001 0123456789abcdef
e 5 0 word 00004000.0 0000000002000001 0123456789abcdef
e 6 0 made 00204000.1 925688 0000000000000000
e 7 0 done 00204000.1 0000000001000001
e 8 0 done 00004000.0 0000000002000001
e 9 0 swapped 0
e 10 0 swapped 1
e 11 0 word 00204000.1 0000000002000001 0123456789abcdef
e 12 0 word 00204000.1 0000000002000001 0123456789abcdef
e 13 0 made 00004000.3 917496 0000000000000000
e 14 0 done 00004000.3 0000000001000001
e 15 0 done 00204000.1 0000000002000001
e 16 0 swapped 2
e 17 0 swapped 3
e 18 0 word 00004000.3 0000000002000001 0123456789abcdef
e 19 0 word 00004000.3 0000000002000001 0123456789abcdef
e 20 0 made 00204000.5 2002936 0000000000000000
e 21 0 done 00204000.5 0000000001000001
e 22 0 done 00004000.3 0000000002000001
e 23 0 swapped 4
e 24 0 swapped 5
e 25 0 word 00204000.5 0000000002000001 0123456789abcdef
e 26 0 word 00204000.5 0000000002000001 0123456789abcdef
e 27 0 made 00404000.6 4001784 0000000000000000
e 28 0 done 00404000.6 0000000001000001
e 29 0 done 00204000.5 0000000002000001
e 30 0 swapped 6
e 31 0 swapped 7
r 0 0 2 map 0 00004000.0@0 921600
r 0 1 6 map 1 00204000.1@0 925696
r 0 2 8 unmap 2 00004000.0@3
r 0 3 13 fill 58 3 00004000.3@0
r 0 4 15 unmap 4 00204000.1@3
r 0 5 20 map 5 00204000.5@0 2002944
r 0 6 22 give 00004000.3@3
r 0 7 27 map 6 00404000.6@0 4001792
r 0 8 29 unmap 7 00204000.5@3
p 0 2 0 take 1 0
p 1 6 0 take 1 1
p 2 8 0 give 1 0
p 3 13 0 take 1 0
p 4 15 0 give 1 1
p 5 20 0 take 1 1
p 6 27 0 take 2 2
p 7 29 0 give 1 1
c 63 0 9 own:00204000.1 -
c 63 1 10 - own:00204000.1
c 63 2 16 own:00004000.3 -
c 63 3 17 - own:00004000.3
c 63 4 23 own:00204000.5 -
c 63 5 24 - own:00204000.5
c 63 6 30 own:00404000.6 -
c 63 7 31 - own:00404000.6
s 1 0 live 1 4001792 quarantined 0 0 cached 0 0 root 1 917504 committed 4919296 reserved 6291456 full 0 active 0 empty 1 decommitted 0
end
",
        verdicts: &[
            (4, Verdict::Kept),
            (5, Verdict::Moved),
            (7, Verdict::Moved),
            (9, Verdict::Moved),
            (11, Verdict::Moved),
        ],
    };
    assert!(rt; gives(rt.alloc(), text, due)?);
    Ok(())
}

// Only what a register owns is resized.
#[test]
fn resizes_owners_alone(rt: HostRuntime) -> Result<(), Fail> {
    let text = b"script 1 region 1 partitions 1 threads 1
0 S r0 8
0 A r0 p0 8
0 C r0 r1
0 S r1 8
0 R r1
0 S r1 8
0 F r0
0 S r0 8
0 A r0 p0 8
0 X c0 r0
0 S r0 24
";
    let due = Due {
        trace: b"trace 1 region 1 partitions 1 threads 1
0 A r0 p0 8
0 C r0 r1
0 R r1
0 F r0
0 A r0 p0 8
0 X c0 r0
",
        run: b"run 1
e 2 0 made 00004000.0 8 0000000000000000
e 3 0 done 00004000.0 0000000001000001
e 4 0 done 00004000.0 0000000002000003
e 5 0 done 00004000.0 0000000003000001
e 6 0 made 00004000.0 8 0000000004000000
e 7 0 swapped 0
r 0 0 2 fill 0 0 00004000.0@0 00004010.0@0 00004020.0@0 00004030.0@0 00004040.0@0 00004050.0@0 00004060.0@0 00004070.0@0
p 0 2 0 take 1 0
c 0 0 7 own:00004000.0 -
s 1 0 live 1 16 quarantined 0 0 cached 7 112 root 248 3968 committed 4096 reserved 2097152 full 0 active 1 empty 0 decommitted 0
end
",
        verdicts: &[
            (2, Verdict::NotOwn),
            (5, Verdict::NotOwn),
            (7, Verdict::NotOwn),
            (9, Verdict::NotOwn),
            (12, Verdict::NotOwn),
        ],
    };
    assert!(rt; gives(rt.alloc(), text, due)?);
    Ok(())
}
