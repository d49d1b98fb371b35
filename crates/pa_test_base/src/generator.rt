use pa_trace::{generate, write_trace};
use std::test::Fail;

// The trace of one round and key 7, from independent programs.
const ONE_ROUND: &str = "trace 1 region 8 partitions 4 threads 4
0 A r0 p0 3745
0 W r0 0000000012c757de
0 A r1 p0 3960
0 W r1 00000000fa13115f
0 A r2 p0 2309
0 W r2 00000000698b2cf3
0 A r3 p0 383
0 W r3 000000009a7fa30f
0 C r0 r8
0 C r0 r9
0 X c0 r9
0 D r8 0
0 F r0
0 D r8 0
0 R r8
0 D r9 0
0 R r9
0 F r1
0 F r2
0 F r3
1 A r0 p1 3963
1 W r0 00000000ce74ec08
1 A r1 p1 1800
1 W r1 00000000c670e51b
1 A r2 p1 611
1 W r2 0000000004ee8ebd
1 A r3 p1 1440
1 W r3 00000000c7858de3
1 C r0 r8
1 C r0 r9
1 X c1 r9
1 D r8 0
1 F r0
1 D r8 0
1 R r8
1 D r9 0
1 R r9
1 F r1
1 F r2
1 F r3
2 A r0 p2 1849
2 W r0 00000000c06fcf57
2 A r1 p2 2750
2 W r1 00000000f0f92dc9
2 A r2 p2 3272
2 W r2 00000000ce735401
2 A r3 p2 1897
2 W r3 000000009051f84a
2 C r0 r8
2 C r0 r9
2 X c2 r9
2 D r8 0
2 F r0
2 D r8 0
2 R r8
2 D r9 0
2 R r9
2 F r1
2 F r2
2 F r3
3 A r0 p3 657
3 W r0 00000000a7c95a14
3 A r1 p3 1715
3 W r1 00000000a8635e5e
3 A r2 p3 1957
3 W r2 00000000c0ee5532
3 A r3 p3 3941
3 W r3 00000000639998ec
3 C r0 r8
3 C r0 r9
3 X c3 r9
3 D r8 0
3 F r0
3 D r8 0
3 R r8
3 D r9 0
3 R r9
3 F r1
3 F r2
3 F r3
";

// One round, byte by byte.
#[test]
fn generates_one_round(rt: HostRuntime) -> Result<(), Fail> {
    let trace = generate(rt.alloc(), 1, 7)?;
    let text = write_trace(rt.alloc(), &trace)?;
    assert!(rt; text.as_slice() == ONE_ROUND.as_bytes());
    Ok(())
}

// The most rounds, and the greatest key: 81 lines a round with the head, and a `phase` between two rounds.
#[test]
fn generates_the_most_rounds(rt: HostRuntime) -> Result<(), Fail> {
    let trace = generate(rt.alloc(), 800, 18_446_744_073_709_551_615)?;
    assert!(rt; trace.lines.as_slice().len() + 1 == 81 * 800);
    Ok(())
}
