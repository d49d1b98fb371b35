use pa_model::{play, play_input};
use pa_record::write_run;
use pa_trace::read_trace;
use std::alloc::Global;
use std::test::Fail;

// Whether this text comes out when a trace is read and then played, and the same bytes when its text is played as it is read.
fn gives(alloc: Global, text: &[u8], due: &[u8]) -> Result<bool, Fail> {
    let Ok(trace) = read_trace(alloc, text) else {
        return Err(Fail::new("no trace"));
    };
    let run = play(alloc, &trace)?;
    let out = write_run(alloc, &run)?;
    let Ok(printed) = play_input(alloc, text) else {
        return Err(Fail::new("not played"));
    };
    Ok(out.as_slice() == due && printed.as_slice() == out.as_slice())
}

// An allocation and a free.
#[test]
fn smallest(rt: HostRuntime) -> Result<(), Fail> {
    let text = b"trace 1 region 1 partitions 1 threads 1
0 A r0 p0 1
0 F r0
";
    let due = b"run 1
e 2 0 made 00004000.0 8 0000000000000000
e 3 0 done 00004000.0 0000000001000001
r 0 0 2 fill 0 0 00004000.0@0 00004010.0@0 00004020.0@0 00004030.0@0 00004040.0@0 00004050.0@0 00004060.0@0 00004070.0@0
p 0 2 0 take 1 0
s 1 0 live 0 0 quarantined 0 0 cached 8 128 root 248 3968 committed 4096 reserved 2097152 full 0 active 1 empty 0 decommitted 0
end
";
    assert!(rt; gives(rt.alloc(), text, due)?);
    Ok(())
}

// A slot in quarantine.
#[test]
fn quarantine(rt: HostRuntime) -> Result<(), Fail> {
    let text = b"trace 1 region 1 partitions 1 threads 1
0 A r0 p0 8
0 C r0 r1
0 F r0
0 D r1 0
0 A r2 p0 8
0 R r1
0 A r3 p0 8
";
    let due = b"run 1
e 2 0 made 00004000.0 8 0000000000000000
e 3 0 done 00004000.0 0000000001000001
e 4 0 done 00004000.0 0000000002000003
e 5 0 dangling 00004000.0 0000000003000002 efefefefefefefef
e 6 0 made 00004010.0 8 0000000000000000
e 7 0 done 00004000.0 0000000003000002
e 8 0 made 00004000.0 8 0000000004000000
r 0 0 2 fill 0 0 00004000.0@0 00004010.0@0 00004020.0@0 00004030.0@0 00004040.0@0 00004050.0@0 00004060.0@0 00004070.0@0
p 0 2 0 take 1 0
s 1 0 live 2 32 quarantined 0 0 cached 6 96 root 248 3968 committed 4096 reserved 2097152 full 0 active 1 empty 0 decommitted 0
end
";
    assert!(rt; gives(rt.alloc(), text, due)?);
    Ok(())
}

// Writes.
#[test]
fn writes(rt: HostRuntime) -> Result<(), Fail> {
    let text = b"trace 1 region 1 partitions 1 threads 1
0 A r0 p0 8
0 W r0 0000000000000005
0 C r0 r1
0 W r0 0000000000000006
0 D r1 0
0 R r1
0 W r0 0000000000000006
0 D r0 1
";
    let due = b"run 1
e 2 0 made 00004000.0 8 0000000000000000
e 3 0 done 00004000.0 0000000001000001
e 4 0 done 00004000.0 0000000002000001
e 5 0 shared 00004000.0 0000000003000003
e 6 0 word 00004000.0 0000000003000003 0000000000000005
e 7 0 done 00004000.0 0000000003000003
e 8 0 done 00004000.0 0000000004000001
e 9 0 out-of-range
r 0 0 2 fill 0 0 00004000.0@0 00004010.0@0 00004020.0@0 00004030.0@0 00004040.0@0 00004050.0@0 00004060.0@0 00004070.0@0
p 0 2 0 take 1 0
s 1 0 live 1 16 quarantined 0 0 cached 7 112 root 248 3968 committed 4096 reserved 2097152 full 0 active 1 empty 0 decommitted 0
end
";
    assert!(rt; gives(rt.alloc(), text, due)?);
    Ok(())
}

// Fills of three classes.
#[test]
fn short_fill(rt: HostRuntime) -> Result<(), Fail> {
    let text = b"trace 1 region 1 partitions 1 threads 1
0 A r0 p0 917496
0 A r1 p0 917496
0 A r2 p0 196600
0 A r3 p0 24568
0 F r3
0 A r4 p0 28664
0 A r5 p0 24568
";
    let due = b"run 1
e 2 0 made 00004000.0 917496 0000000000000000
e 3 0 made 000e4000.0 917496 0000000000000000
e 4 0 made 001c4000.0 196600 0000000000000000
e 5 0 made 001f4000.0 24568 0000000000000000
e 6 0 done 001f4000.0 0000000001000001
e 7 0 full 4
e 8 0 made 001f4000.0 24568 0000000002000000
r 0 0 2 fill 58 0 00004000.0@0
r 0 1 3 fill 58 - 000e4000.0@0
r 0 2 4 fill 49 - 001c4000.0@0
r 0 3 5 fill 37 - 001f4000.0@0
r 0 4 7 full 38 1
p 0 2 0 take 1 0
p 1 7 0 take 1 none
s 1 0 live 4 2056192 quarantined 0 0 cached 0 0 root 0 0 committed 2056192 reserved 2097152 full 4 active 0 empty 0 decommitted 0
end
";
    assert!(rt; gives(rt.alloc(), text, due)?);
    Ok(())
}

// Direct maps.
#[test]
fn direct_map_again(rt: HostRuntime) -> Result<(), Fail> {
    let text = b"trace 1 region 1 partitions 1 threads 1
0 A r0 p0 2000000
0 F r0
0 A r0 p0 2000000
0 C r0 r1
0 F r0
0 A r2 p0 2000000
0 R r1
0 A r2 p0 2000000
";
    let due = b"run 1
e 2 0 made 00004000.0 2002936 0000000000000000
e 3 0 done 00004000.0 0000000001000001
e 4 0 made 00004000.2 2002936 0000000000000000
e 5 0 done 00004000.2 0000000001000001
e 6 0 done 00004000.2 0000000002000003
e 7 0 full 3
e 8 0 done 00004000.2 0000000003000002
e 9 0 made 00004000.5 2002936 0000000000000000
r 0 0 2 map 0 00004000.0@0 2002944
r 0 1 3 unmap 1 00004000.0@2
r 0 2 4 map 2 00004000.2@0 2002944
r 0 3 7 full direct 3
r 0 4 8 unmap 4 00004000.2@4
r 0 5 9 map 5 00004000.5@0 2002944
p 0 2 0 take 1 0
p 1 3 0 give 1 0
p 2 4 0 take 1 0
p 3 7 0 take 1 none
p 4 8 0 give 1 0
p 5 9 0 take 1 0
s 1 0 live 1 2002944 quarantined 0 0 cached 0 0 root 0 0 committed 2002944 reserved 2097152 full 0 active 0 empty 0 decommitted 0
end
";
    assert!(rt; gives(rt.alloc(), text, due)?);
    Ok(())
}

// Two partitions.
#[test]
fn no_shared_super_page(rt: HostRuntime) -> Result<(), Fail> {
    let text = b"trace 1 region 1 partitions 2 threads 1
0 A r0 p0 8
0 A r1 p1 8
";
    let due = b"run 1
e 2 0 made 00004000.0 8 0000000000000000
e 3 0 full 0
r 0 0 2 fill 0 0 00004000.0@0 00004010.0@0 00004020.0@0 00004030.0@0 00004040.0@0 00004050.0@0 00004060.0@0 00004070.0@0
r 1 0 3 full 0 1
p 0 2 0 take 1 0
p 1 3 1 take 1 none
s 1 0 live 1 16 quarantined 0 0 cached 7 112 root 248 3968 committed 4096 reserved 2097152 full 0 active 1 empty 0 decommitted 0
s 1 1 live 0 0 quarantined 0 0 cached 0 0 root 0 0 committed 0 reserved 0 full 0 active 0 empty 0 decommitted 0
end
";
    assert!(rt; gives(rt.alloc(), text, due)?);
    Ok(())
}

// A purge.
#[test]
fn purge(rt: HostRuntime) -> Result<(), Fail> {
    let text = b"trace 1 region 1 partitions 1 threads 1
0 A r0 p0 8
0 F r0
0 P
0 A r1 p0 8
";
    let due = b"run 1
e 2 0 made 00004000.0 8 0000000000000000
e 3 0 done 00004000.0 0000000001000001
e 4 0 purged 8
e 5 0 made 00004000.0 8 0000000002000000
r 0 0 2 fill 0 0 00004000.0@0 00004010.0@0 00004020.0@0 00004030.0@0 00004040.0@0 00004050.0@0 00004060.0@0 00004070.0@0
r 0 1 4 give 00004000.0@2 00004010.0@0 00004020.0@0 00004030.0@0 00004040.0@0 00004050.0@0 00004060.0@0 00004070.0@0
r 0 2 4 purge
r 0 3 5 fill 0 - 00004000.0@2 00004010.0@0 00004020.0@0 00004030.0@0 00004040.0@0 00004050.0@0 00004060.0@0 00004070.0@0
p 0 2 0 take 1 0
s 1 0 live 1 16 quarantined 0 0 cached 7 112 root 248 3968 committed 4096 reserved 2097152 full 0 active 1 empty 0 decommitted 0
end
";
    assert!(rt; gives(rt.alloc(), text, due)?);
    Ok(())
}

// Registers that are full, empty or stale.
#[test]
fn registers(rt: HostRuntime) -> Result<(), Fail> {
    let text = b"trace 1 region 1 partitions 1 threads 1
0 A r0 p0 8
0 C r0 r0
0 C r0 r1
0 C r0 r1
0 A r0 p0 8
0 W r1 0000000000000001
0 F r0
0 C r0 r2
0 W r1 0000000000000001
0 C r1 r2
0 R r1
0 R r2
0 D r2 0
";
    let due = b"run 1
e 2 0 made 00004000.0 8 0000000000000000
e 3 0 filled
e 4 0 done 00004000.0 0000000001000001
e 5 0 filled
e 6 0 filled
e 7 0 not-owner 00004000.0 0000000002000003
e 8 0 done 00004000.0 0000000002000003
e 9 0 stale-use
e 10 0 stale-use 00004000.0 0000000003000002
e 11 0 done 00004000.0 0000000003000002
e 12 0 done 00004000.0 0000000004000004
e 13 0 done 00004000.0 0000000005000002
e 14 0 stale-use
r 0 0 2 fill 0 0 00004000.0@0 00004010.0@0 00004020.0@0 00004030.0@0 00004040.0@0 00004050.0@0 00004060.0@0 00004070.0@0
p 0 2 0 take 1 0
s 1 0 live 0 0 quarantined 0 0 cached 8 128 root 248 3968 committed 4096 reserved 2097152 full 0 active 1 empty 0 decommitted 0
end
";
    assert!(rt; gives(rt.alloc(), text, due)?);
    Ok(())
}

// A cell, two threads and three phases.
#[test]
fn two_threads(rt: HostRuntime) -> Result<(), Fail> {
    let text = b"trace 1 region 1 partitions 1 threads 2
0 A r0 p0 8
0 C r0 r1
0 X c0 r1
phase
0 F r0
1 X c0 r0
1 D r0 0
phase
1 D r0 0
1 R r0
";
    let due = b"run 1
e 2 0 made 00004000.0 8 0000000000000000
e 3 0 done 00004000.0 0000000001000001
e 4 0 swapped 0
e 6 0 done 00004000.0 0000000002000003
e 7 1 swapped 1
e 8 1 dangling 00004000.0 0000000003000002 efefefefefefefef
e 10 1 dangling 00004000.0 0000000003000002 efefefefefefefef
e 11 1 done 00004000.0 0000000003000002
r 0 0 2 fill 0 0 00004000.0@0 00004010.0@0 00004020.0@0 00004030.0@0 00004040.0@0 00004050.0@0 00004060.0@0 00004070.0@0
p 0 2 0 take 1 0
c 0 0 4 ref:00004000.0 -
c 0 1 7 - ref:00004000.0
s 1 0 live 1 16 quarantined 0 0 cached 7 112 root 248 3968 committed 4096 reserved 2097152 full 0 active 1 empty 0 decommitted 0
s 2 0 live 0 0 quarantined 1 16 cached 7 112 root 248 3968 committed 4096 reserved 2097152 full 0 active 1 empty 0 decommitted 0
s 3 0 live 0 0 quarantined 0 0 cached 8 128 root 248 3968 committed 4096 reserved 2097152 full 0 active 1 empty 0 decommitted 0
end
";
    assert!(rt; gives(rt.alloc(), text, due)?);
    Ok(())
}

// A partition without reference counts beside one with them: no `raw_ptr` to its slots, and each free of them returns the slot.
#[test]
fn plain_partition(rt: HostRuntime) -> Result<(), Fail> {
    let text = b"trace 3 region 2 partitions 2 threads 1 plain 1
0 A r0 p1 8
0 C r0 r1
0 W r0 0000000000000005
0 F r0
0 A r2 p0 8
0 C r2 r3
0 A r0 p1 8
0 X c0 r0
0 X c0 r4
0 C r4 r1
";
    let due = b"run 1
e 2 0 made 00004000.0 8 0000000000000000
e 3 0 uncounted
e 4 0 done 00004000.0 0000000001000001
e 5 0 done 00004000.0 0000000002000001
e 6 0 made 00204000.1 8 0000000000000000
e 7 0 done 00204000.1 0000000001000001
e 8 0 made 00004000.0 8 0000000003000000
e 9 0 swapped 0
e 10 0 swapped 1
e 11 0 uncounted
r 0 0 6 fill 59 1 00204000.1@0 00204010.1@0 00204020.1@0 00204030.1@0 00204040.1@0 00204050.1@0 00204060.1@0 00204070.1@0
r 1 0 2 fill 59 0 00004000.0@0 00004010.0@0 00004020.0@0 00004030.0@0 00004040.0@0 00004050.0@0 00004060.0@0 00004070.0@0
p 0 2 1 take 1 0
p 1 6 0 take 1 1
c 0 0 9 own:00004000.0 -
c 0 1 10 - own:00004000.0
s 1 0 live 1 16 quarantined 0 0 cached 7 112 root 248 3968 committed 4096 reserved 2097152 full 0 active 1 empty 0 decommitted 0
s 1 1 live 1 16 quarantined 0 0 cached 7 112 root 248 3968 committed 4096 reserved 2097152 full 0 active 1 empty 0 decommitted 0
end
";
    assert!(rt; gives(rt.alloc(), text, due)?);
    Ok(())
}
