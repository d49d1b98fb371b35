//! What `resize` and `verdicts` write for a script.
use crate::cli::TRACE;
use crate::cli_faults::answered;
use pa_cli::Status;
use std::test::Fail;

// An object is moved, then its slot is long enough, then a `raw_ptr` points to it.
pub const SCRIPT: &[u8] = b"script 1 region 1 partitions 1 threads 1
0 A r0 p0 8
0 W r0 0000000000000005
0 S r0 100
0 D r0 12
0 S r0 104
0 C r0 r1
0 S r0 8
";

// The trace to which the script comes, and that trace's run.
const RESIZED: &[u8] = b"trace 1 region 1 partitions 1 threads 1
0 A r0 p0 8
0 W r0 0000000000000005
0 D r0 0
0 A r63 p0 100
0 W r63 0000000000000005
0 F r0
0 X c63 r63
0 X c63 r0
0 D r0 12
0 D r0 0
0 C r0 r1
0 D r0 0
run 1
e 2 0 made 00004000.0 8 0000000000000000
e 3 0 done 00004000.0 0000000001000001
e 4 0 word 00004000.0 0000000002000001 0000000000000005
e 5 0 made 00008000.0 104 0000000000000000
e 6 0 done 00008000.0 0000000001000001
e 7 0 done 00004000.0 0000000002000001
e 8 0 swapped 0
e 9 0 swapped 1
e 10 0 word 00008000.0 0000000002000001 0000000000000005
e 11 0 word 00008000.0 0000000002000001 0000000000000005
e 12 0 done 00008000.0 0000000002000001
e 13 0 word 00008000.0 0000000003000003 0000000000000005
r 0 0 2 fill 0 0 00004000.0@0 00004010.0@0 00004020.0@0 00004030.0@0 00004040.0@0 00004050.0@0 00004060.0@0 00004070.0@0
r 0 1 5 fill 6 - 00008000.0@0 00008070.0@0 000080e0.0@0 00008150.0@0 000081c0.0@0 00008230.0@0 000082a0.0@0 00008310.0@0
p 0 2 0 take 1 0
c 63 0 8 own:00008000.0 -
c 63 1 9 - own:00008000.0
s 1 0 live 1 112 quarantined 0 0 cached 15 912 root 276 7104 committed 8192 reserved 2097152 full 0 active 2 empty 0 decommitted 0
end
";

// What each resize of the script came to.
const VERDICTS: &[u8] = b"v 4 moved
v 6 kept
v 8 shared
end
";

// A register and a cell that no script may name.
const REGISTER_63: &[u8] = b"script 1 region 1 partitions 1 threads 1
0 A r63 p0 8
";

const CELL_63: &[u8] = b"script 1 region 1 partitions 1 threads 1
0 X c63 r0
";

#[test]
fn a_script_is_played(rt: HostRuntime) -> Result<(), Fail> {
    let rows: [(&[u8], Status, &[u8], &[u8]); 4] = [
        (SCRIPT, Status::Done, RESIZED, VERDICTS),
        (REGISTER_63, Status::Limit(2), b"", b""),
        (CELL_63, Status::Limit(2), b"", b""),
        (TRACE, Status::BadLine(1), b"", b""),
    ];
    for (script, status, resized, verdicts) in rows {
        for (command, text) in [("resize", resized), ("verdicts", verdicts)] {
            let (found, written) = answered(&rt, rt.alloc(), &[command], script)?;
            assert!(rt; found == status);
            assert!(rt; written.as_slice() == text);
        }
    }
    Ok(())
}
