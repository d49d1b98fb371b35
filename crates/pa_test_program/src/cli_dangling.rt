//! What `dangling` writes: each use of what was freed while `raw_ptr`s pointed to it.
use crate::cli_faults::answered;
use pa_cli::Status;
use pa_rules::Clause;
use std::test::Fail;

// A slot in quarantine is freed again, and stays there. No input is shorter that has a pair.
pub const FREED_AGAIN: &[u8] = b"trace 1 region 1 partitions 1 threads 1
0 A r0 p0 8
0 C r0 r1
0 F r1
0 F r0
0 F r0
0 F r1
run 1
e 2 0 made 00004000.0 8 0000000000000000
e 3 0 done 00004000.0 0000000001000001
e 4 0 not-owner 00004000.0 0000000002000003
e 5 0 done 00004000.0 0000000002000003
e 6 0 second-free
e 7 0 second-free 00004000.0 0000000003000002
r 0 0 2 fill 0 0 00004000.0@0 00004010.0@0 00004020.0@0 00004030.0@0 00004040.0@0 00004050.0@0 00004060.0@0 00004070.0@0
p 0 2 0 take 1 0
s 1 0 live 0 0 quarantined 1 16 cached 7 112 root 248 3968 committed 4096 reserved 2097152 full 0 active 1 empty 0 decommitted 0
end
";

// What `dangling` writes for the slot that is freed again.
const FREED_AGAIN_TEXT: &[u8] = b"dangling 1
pair made 2 free 5 later 7 free origin 3
freed 1 open 1 pairs 1
end
";

// A slot in quarantine is read, and given back by the reset of the `raw_ptr`.
const GIVEN_BACK: &[u8] = b"trace 1 region 1 partitions 1 threads 1
0 A r0 p0 8
0 C r0 r1
0 F r0
0 D r1 0
0 A r2 p0 8
0 R r1
0 A r3 p0 8
run 1
e 2 0 made 00004000.0 8 0000000000000000
e 3 0 done 00004000.0 0000000001000001
e 4 0 done 00004000.0 0000000002000003
e 5 0 dangling 00004000.0 0000000003000002 efefefefefefefef
e 6 0 made 00004010.0 8 0000000000000000
e 7 0 done 00004000.0 0000000003000002
e 8 0 made 00004000.0 8 0000000004000000
r 0 0 2 fill 0 0 00004000.0@0 00004010.0@0 00004020.0@0 00004030.0@0 00004040.0@0 00004050.0@0 00004060.0@0 00004070.0@0
p 0 2 0 take 1 0
s 1 0 live 2 32 quarantined 0 0 cached 6 96 root 248 3968 committed 4096 reserved 2097152 full 0 active 1 empty 0 decommitted 0
end
";

// What `dangling` writes for the slot that is read and given back.
const GIVEN_BACK_TEXT: &[u8] = b"dangling 1
pair made 2 free 4 later 5 read origin 3
pair made 2 free 4 later 7 reset origin 3
freed 1 open 0 pairs 2
end
";

// An object that nothing points to is freed, but the free found another word than the one that was there.
const NOT_LEGAL: &[u8] = b"trace 1 region 1 partitions 1 threads 1
0 A r0 p0 1
0 F r0
run 1
e 2 0 made 00004000.0 8 0000000000000000
e 3 0 done 00004000.0 0000000002000001
r 0 0 2 fill 0 0 00004000.0@0 00004010.0@0 00004020.0@0 00004030.0@0 00004040.0@0 00004050.0@0 00004060.0@0 00004070.0@0
p 0 2 0 take 1 0
s 1 0 live 0 0 quarantined 0 0 cached 8 128 root 248 3968 committed 4096 reserved 2097152 full 0 active 1 empty 0 decommitted 0
end
";

#[test]
fn each_use_after_a_free_is_told(rt: HostRuntime) -> Result<(), Fail> {
    let rows: [(&[u8], Status, &[u8]); 5] = [
        (FREED_AGAIN, Status::Done, FREED_AGAIN_TEXT),
        (GIVEN_BACK, Status::Done, GIVEN_BACK_TEXT),
        (NOT_LEGAL, Status::NotLegal(Clause::Slots, 6), b""),
        (FREED_AGAIN_TEXT, Status::BadLine(1), b""),
        (b"", Status::BadLine(1), b""),
    ];
    for (input, status, text) in rows {
        let (found, written) = answered(&rt, rt.alloc(), &["dangling"], input)?;
        assert!(rt; found == status);
        assert!(rt; written.as_slice() == text);
    }
    Ok(())
}
