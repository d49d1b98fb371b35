//! The records of spans in the metadata pages of the closed region.
ghost use Rattle.std.specs.Prelude.{◌≡◌, ◌*◌, ◌≤◌, length};

use crate::closed::{Lines, OVERFLOW, RING, closed_after};
use pa_region::Closed;
use pa_text::{Text, push_byte, push_word};
use std::alloc::Global;
use std::test::Fail;

// A trace, where records of spans are in the region's words then, and these records, the four words of each on a line.
#[derive(Clone, Copy)]
struct Case {
    first: &'static [u8],
    rest: &'static [Lines],
    at: &'static [u32],
    records: &'static [u8],
}

// The record of a span of slots of 16 bytes, of which eight are with a thread.
const FIRST: &[u8] = b"0001010000080100 0000010000004080 0000000000000000 0000000000000000
";

// Traces that leave the record of a span of slots of 16 bytes, of which eight are with a thread.
const SMALL: [&[u8]; 9] = [
    b"trace 1 region 1 partitions 1 threads 1
0 A r0 p0 1
0 F r0
",
    b"trace 1 region 1 partitions 1 threads 1
0 A r0 p0 0
0 F r0
",
    b"trace 1 region 1 partitions 1 threads 1
0 A r0 p0 8
0 C r0 r1
0 F r0
0 D r1 0
0 A r2 p0 8
0 R r1
0 A r3 p0 8
",
    b"trace 1 region 1 partitions 1 threads 1
0 A r0 p0 8
0 C r0 r1
0 F r1
0 F r0
0 F r0
0 F r1
",
    b"trace 1 region 1 partitions 1 threads 1
0 A r0 p0 8
0 C r0 r1
0 R r1
0 R r1
0 R r0
0 R r5
",
    b"trace 1 region 1 partitions 1 threads 1
0 A r0 p0 8
0 W r0 0000000000000005
0 C r0 r1
0 W r0 0000000000000006
0 D r1 0
0 R r1
0 W r0 0000000000000006
0 D r0 1
",
    b"trace 1 region 1 partitions 1 threads 1
0 A r0 p0 8
0 C r0 r0
0 C r0 r1
0 C r0 r1
0 A r0 p0 8
0 W r1 0000000000000001
0 F r0
0 C r0 r2
0 W r1 0000000000000001
0 C r1 r2
0 R r1
0 R r2
0 D r2 0
",
    b"trace 1 region 1 partitions 1 threads 2
0 A r0 p0 8
0 C r0 r1
0 X c0 r1
phase
0 F r0
1 X c0 r0
1 D r0 0
phase
1 D r0 0
1 R r0
",
    b"trace 1 region 1 partitions 2 threads 1
0 A r0 p0 8
0 A r1 p1 8
",
];

// A purge, and a slot of the span that it left.
const PURGED: Case = Case {
    first: b"trace 1 region 1 partitions 1 threads 1
0 A r0 p0 8
0 F r0
0 P
0 A r1 p0 8
",
    rest: &[],
    at: &[0x0000_1020],
    records: b"0001010000080100 0000010000004080 0000000000000000 0000000000000003
",
};

// Slots that came back in a batch: the last one that did is the front.
const OVERFLOWED: Case = Case {
    first: b"trace 1 region 1 partitions 1 threads 1
",
    rest: OVERFLOW,
    at: &[0x0000_1020],
    records: b"0001010000270100 0000010000004470 0000000000000000 0000000000000000
",
};

// Seventeen spans of one slot became empty, and the first of them was decommitted. The last one is in use again.
const EMPTY_SPANS: Case = Case {
    first: b"trace 1 region 1 partitions 1 threads 1
",
    rest: RING,
    at: &[
        0x0000_1020,
        0x0000_10a0,
        0x0000_1120,
        0x0000_11a0,
        0x0000_1220,
        0x0000_12a0,
        0x0000_1320,
        0x0000_13a0,
        0x0000_1420,
        0x0000_14a0,
        0x0000_1520,
        0x0000_15a0,
        0x0000_1620,
        0x0000_16a0,
        0x0000_1720,
        0x0000_17a0,
        0x0000_1820,
    ],
    records: b"000000000000032b 0000000100000000 0000000000000000 0000000000000022
001000010000022b 0000000100014000 0000000000024000 0000000000000012
001000010000022b 0000000100024000 0001400000034000 0000000000000013
001000010000022b 0000000100034000 0002400000044000 0000000000000014
001000010000022b 0000000100044000 0003400000054000 0000000000000015
001000010000022b 0000000100054000 0004400000064000 0000000000000016
001000010000022b 0000000100064000 0005400000074000 0000000000000017
001000010000022b 0000000100074000 0006400000084000 0000000000000018
001000010000022b 0000000100084000 0007400000094000 0000000000000019
001000010000022b 0000000100094000 00084000000a4000 000000000000001a
001000010000022b 00000001000a4000 00094000000b4000 000000000000001b
001000010000022b 00000001000b4000 000a4000000c4000 000000000000001c
001000010000022b 00000001000c4000 000b4000000d4000 000000000000001d
001000010000022b 00000001000d4000 000c4000000e4000 000000000000001e
001000010000022b 00000001000e4000 000d4000000f4000 000000000000001f
001000010000022b 00000001000f4000 000e400000000000 0000000000000020
001000010001042b 0000000100000000 0000000000000000 0000000000000023
",
};

// Two spans of one large slot, and one of small ones on what is left.
const LARGE_SLOTS: Case = Case {
    first: b"trace 1 region 1 partitions 1 threads 1
0 A r0 p0 917496
0 A r1 p0 917496
0 A r2 p0 917496
0 A r3 p0 8
",
    rest: &[],
    at: &[0x0000_1020, 0x0000_1720, 0x0000_1e20],
    records: b"00e000010001043a 0000000100000000 0000000000000000 0000000000000000
00e000010001043a 0000000100000000 0000000000000000 0000000000000001
0001010000080100 00000100001c4080 0000000000000000 0000000000000002
",
};

// Full spans of three classes, up to the end of the super page.
const FULL_SPANS: Case = Case {
    first: b"trace 1 region 1 partitions 1 threads 1
0 A r0 p0 917496
0 A r1 p0 917496
0 A r2 p0 196600
0 A r3 p0 24568
0 F r3
0 A r4 p0 28664
0 A r5 p0 24568
",
    rest: &[],
    at: &[0x0000_1020, 0x0000_1720, 0x0000_1e20, 0x0000_1fa0],
    records: b"00e000010001043a 0000000100000000 0000000000000000 0000000000000000
00e000010001043a 0000000100000000 0000000000000000 0000000000000001
0030000100010431 0000000100000000 0000000000000000 0000000000000002
0006000100010425 0000000100000000 0000000000000000 0000000000000003
",
};

// Three active spans of a class, of which each names its neighbours.
const THREE_ACTIVE: Case = Case {
    first: b"trace 1 region 1 partitions 1 threads 1
0 A r0 p0 8184
0 A r1 p0 8184
0 A r2 p0 8184
0 A r3 p0 8184
0 A r4 p0 8184
0 A r5 p0 8184
0 F r0
0 F r2
0 F r4
0 P
0 A r0 p0 8
",
    rest: &[],
    at: &[0x0000_1020, 0x0000_1040, 0x0000_1060, 0x0000_1080],
    records: b"000400020001011f 0000000200004000 0000800000000000 0000000000000008
000400020001011f 0000000200008000 0000c00000004000 0000000000000007
000400020001011f 000000020000c000 0000000000008000 0000000000000006
0001010000080100 0000010000010080 0000000000000000 0000000000000009
",
};

// The middle one of three active spans is decommitted, and the others name each other.
const MIDDLE_DECOMMITTED: Case = Case {
    first: b"trace 1 region 1 partitions 1 threads 1
0 A r0 p0 8184
0 A r1 p0 8184
0 A r2 p0 8184
0 A r3 p0 8184
0 A r4 p0 8184
0 A r5 p0 8184
0 F r0
0 F r2
0 F r4
0 P
0 F r3
0 P
",
    rest: &[],
    at: &[0x0000_1020, 0x0000_1040, 0x0000_1060],
    records: b"000400020001011f 0000000200004000 0000c00000000000 0000000000000008
000000000000031f 0000000200000000 0000000000000000 000000000000000a
000400020001011f 000000020000c000 0000000000004000 0000000000000006
",
};

// A slot came back that lies on the third page of its span.
const WIDE_SPAN: Case = Case {
    first: b"trace 1 region 1 partitions 1 threads 1
0 A r0 p0 8
0 A r1 p0 632
0 A r2 p0 10232
0 A r3 p0 10232
0 A r4 p0 10232
0 A r5 p0 10232
0 A r6 p0 10232
0 F r6
0 F r2
0 P
",
    rest: &[],
    at: &[0x0000_1020, 0x0000_1040, 0x0000_10c0],
    records: b"0001010000010100 0000010000004070 0000000000000000 0000000000000000
0001000600010110 0000000600008780 0000000000000000 0000000000000001
000f000600030120 0000000600024800 0000000000000000 0000000000000004
",
};

// Spans of two partitions, each with turns of its own.
const TWO_PARTITIONS: Case = Case {
    first: b"trace 1 region 3 partitions 2 threads 1
0 A r0 p0 8
0 A r1 p1 8
0 A r2 p0 65528
0 A r3 p1 24
0 F r2
0 F r0
0 P
",
    rest: &[],
    at: &[0x0000_1020, 0x0000_1040, 0x0020_1020, 0x0020_1040],
    records: b"0000000000000300 0000010000000000 0000000000000000 0000000000000005
000000000000032b 0000000100000000 0000000000000000 0000000000000004
0001010000010100 0000010000204070 0000000000000000 0000000000000000
0001008000010101 00000080002080e0 0000000000000000 0000000000000001
",
};

// Spans in a super page that was a direct map's, whose object was written: the record of a page without a span is zero.
const OLD_WORDS: Case = Case {
    first: b"trace 1 region 2 partitions 1 threads 1
0 A r0 p0 3000000
0 W r0 0101010101010101
0 F r0
0 A r1 p0 917496
0 A r2 p0 917496
0 A r3 p0 917496
0 A r4 p0 8
",
    rest: &[],
    at: &[
        0x0000_1020,
        0x0000_1720,
        0x0020_1020,
        0x0020_1720,
        0x0020_1040,
    ],
    records: b"00e000010001043a 0000000100000000 0000000000000000 0000000000000000
00e000010001043a 0000000100000000 0000000000000000 0000000000000001
00e000010001043a 0000000100000000 0000000000000000 0000000000000002
0001010000080100 00000100002e4080 0000000000000000 0000000000000003
0000000000000000 0000000000000000 0000000000000000 0000000000000000
",
};

// The four words at each of these places, in hexadecimal, and nothing of a place that isn't there.
fn text_at(alloc: Global, supers: u32, words: &Closed, places: &[u32]) -> Result<Text, Fail>
    requires few { supers ≤ 64 }
    requires long { length words.now ≡ 262144 * supers }
{
    let mut text = Text::new(alloc);
    for place in places {
        for number in 0..4 {
            let at = *place;
            if at % 32 == 0 && at < 2_097_152 * supers {
                push_word(&mut text, words.word(at + 8 * number))?;
                push_byte(&mut text, if number == 3 { b'\n' } else { b' ' })?;
            }
        }
    }
    Ok(text)
}

#[test]
fn spans_have_their_records_in_the_closed_region(rt: HostRuntime) -> Result<(), Fail> {
    let cases = [
        PURGED,
        OVERFLOWED,
        EMPTY_SPANS,
        LARGE_SLOTS,
        FULL_SPANS,
        THREE_ACTIVE,
        MIDDLE_DECOMMITTED,
        WIDE_SPAN,
        TWO_PARTITIONS,
        OLD_WORDS,
    ];
    for case in cases {
        match closed_after(&rt, rt.alloc(), case.first, case.rest)? {
            Some((supers, words)) => {
                let text = text_at(rt.alloc(), supers, &words, case.at)?;
                assert!(rt; text.as_slice() == case.records);
            }
            None => assert!(rt; false),
        }
    }
    for trace in SMALL {
        match closed_after(&rt, rt.alloc(), trace, &[])? {
            Some((supers, words)) => {
                let text = text_at(rt.alloc(), supers, &words, &[0x0000_1020])?;
                assert!(rt; text.as_slice() == FIRST);
            }
            None => assert!(rt; false),
        }
    }
    Ok(())
}
