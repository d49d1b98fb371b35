//! The free lists in the closed region, of threads and of spans: each slot has the link to the next one in its first word. Beside them
//! the count words, and the first words of slots that are live or quarantined.
ghost use Rattle.std.specs.Prelude.{◌≡◌, ◌*◌, ◌≤◌, length};

use crate::closed::{Lines, OVERFLOW, RING, closed_after, has_word};
use pa_region::Closed;
use std::test::Fail;

// Slots of a list, each at one distance in bytes from the one before it: where the first lies, that distance, how many they are, their
// `born`, and the word of the last. The others have the link to the next one.
type Chained = (u32, u32, u32, u32, u64);

// Words that are alike: where the first is, the distance, how many, and the word.
type Alike = (u32, u32, u32, u64);

// A trace of one thread, and what the region's words have then.
#[derive(Clone, Copy)]
struct Case {
    first: &'static [u8],
    rest: &'static [Lines],
    rising: &'static [Chained],
    falling: &'static [Chained],
    alike: &'static [Alike],
}

// One slot out of a fill, freed again: the whole fill is the list.
const SMALLEST: Case = Case {
    first: b"trace 1 region 1 partitions 1 threads 1
0 A r0 p0 1
0 F r0
",
    rest: &[],
    rising: &[(0x0000_4000, 0x10, 8, 0, 0), (0x0000_4080, 0x10, 248, 0, 0)],
    falling: &[],
    alike: &[(0x0000_4008, 0x0, 1, 0x0000_0000_0200_0000)],
};

// The list after slots that a `raw_ptr` held back for a while.
const QUARANTINED: Case = Case {
    first: b"trace 1 region 1 partitions 1 threads 1
0 A r0 p0 8
0 C r0 r1
0 F r0
0 D r1 0
0 A r2 p0 8
0 R r1
0 A r3 p0 8
",
    rest: &[],
    rising: &[(0x0000_4020, 0x10, 6, 0, 0), (0x0000_4080, 0x10, 248, 0, 0)],
    falling: &[],
    alike: &[
        (0x0000_4000, 0x10, 2, 0),
        (0x0000_4018, 0x0, 1, 0x0000_0000_0100_0001),
        (0x0000_4008, 0x0, 1, 0x0000_0000_0500_0001),
    ],
};

// The list of the fill after a purge, whose slots come from the span again.
const PURGED: Case = Case {
    first: b"trace 1 region 1 partitions 1 threads 1
0 A r0 p0 8
0 F r0
0 P
0 A r1 p0 8
",
    rest: &[],
    rising: &[(0x0000_4010, 0x10, 7, 0, 0), (0x0000_4080, 0x10, 248, 0, 0)],
    falling: &[],
    alike: &[
        (0x0000_4000, 0x0, 1, 0),
        (0x0000_4008, 0x0, 1, 0x0000_0000_0300_0001),
    ],
};

// Slots whose `born` is 2, since a direct map had the super page before.
const BORN_LATER: Case = Case {
    first: b"trace 1 region 1 partitions 1 threads 1
0 A r0 p0 2000000
0 F r0
0 A r0 p0 8
0 A r1 p0 8
0 F r0
",
    rest: &[],
    rising: &[
        (0x0000_4000, 0x20, 2, 2, 0x3040_0000_0200_0000),
        (0x0000_4030, 0x10, 5, 2, 0),
        (0x0000_4080, 0x10, 248, 2, 0),
    ],
    falling: &[],
    alike: &[
        (0x0000_4010, 0x0, 1, 0),
        (0x0000_4018, 0x0, 1, 0x0000_0000_0100_0001),
        (0x0000_4008, 0x0, 1, 0x0000_0000_0200_0000),
    ],
};

// Slots of 64 bytes, and one of them is in quarantine beside the list.
const BESIDE_POISON: Case = Case {
    first: b"trace 1 region 1 partitions 1 threads 1
0 A r0 p0 56
0 C r0 r1
0 F r0
0 A r2 p0 56
0 C r2 r3
0 F r2
0 R r1
",
    rest: &[],
    rising: &[
        (0x0000_4000, 0x80, 2, 0, 0xc040_0000_0000_0000),
        (0x0000_40c0, 0x40, 5, 0, 0),
        (0x0000_4200, 0x40, 56, 0, 0),
    ],
    falling: &[],
    alike: &[
        (0x0000_4078, 0x0, 1, 0x0000_0000_0300_0002),
        (0x0000_4038, 0x0, 1, 0x0000_0000_0400_0000),
        (0x0000_4040, 0x0, 1, 0xefef_efef_efef_efef),
    ],
};

// Three lists of two partitions, the last of slots of 32,768 bytes.
const TWO_PARTITIONS: Case = Case {
    first: b"trace 1 region 2 partitions 2 threads 1
0 A r0 p0 8
0 A r1 p1 8
0 F r1
0 F r0
0 A r2 p1 40000
0 F r2
0 A r3 p1 24568
0 F r3
",
    rest: &[],
    rising: &[
        (0x0000_4000, 0x10, 8, 0, 0),
        (0x0020_4000, 0x10, 8, 1, 0),
        (0x0021_4000, 0x8000, 2, 1, 0),
        (0x0000_4080, 0x10, 248, 0, 0),
        (0x0020_4080, 0x10, 248, 1, 0),
        (0x0020_8000, 0x0, 1, 0, 0),
    ],
    falling: &[],
    alike: &[
        (0x0000_4008, 0x200000, 2, 0x0000_0000_0200_0000),
        (0x0021_1ff8, 0x8000, 2, 0x0000_0000_0200_0000),
    ],
};

// Fifteen empty spans of one slot each.
const EMPTY_SPANS: Case = Case {
    first: b"trace 1 region 1 partitions 1 threads 1
",
    rest: RING,
    rising: &[
        (0x0001_4000, 0x0, 1, 0, 0),
        (0x0002_4000, 0x0, 1, 0, 0),
        (0x0003_4000, 0x0, 1, 0, 0),
        (0x0004_4000, 0x0, 1, 0, 0),
        (0x0005_4000, 0x0, 1, 0, 0),
        (0x0006_4000, 0x0, 1, 0, 0),
        (0x0007_4000, 0x0, 1, 0, 0),
        (0x0008_4000, 0x0, 1, 0, 0),
        (0x0009_4000, 0x0, 1, 0, 0),
        (0x000a_4000, 0x0, 1, 0, 0),
        (0x000b_4000, 0x0, 1, 0, 0),
        (0x000c_4000, 0x0, 1, 0, 0),
        (0x000d_4000, 0x0, 1, 0, 0),
        (0x000e_4000, 0x0, 1, 0, 0),
        (0x000f_4000, 0x0, 1, 0, 0),
    ],
    falling: &[],
    alike: &[
        (0x0010_4000, 0x0, 1, 0),
        (0x0001_3ff8, 0x10000, 16, 0x0000_0000_0200_0000),
        (0x0011_3ff8, 0x0, 1, 0x0000_0000_0300_0001),
    ],
};

// A list that passed its limit, and gave what was over back.
const OVERFLOWED: Case = Case {
    first: b"trace 1 region 1 partitions 1 threads 1
",
    rest: OVERFLOW,
    rising: &[
        (0x0000_4000, 0x3f0, 2, 0, 0xe043_0000_0000_0000),
        (0x0000_4010, 0x10, 25, 0, 0x8044_0000_0000_0000),
        (0x0000_4480, 0x10, 184, 0, 0),
    ],
    falling: &[
        (0x0000_43e0, 0x10, 37, 0, 0),
        (0x0000_4470, 0x10, 8, 0, 0x1040_0000_0000_0000),
    ],
    alike: &[(0x0000_4008, 0x10, 65, 0x0000_0000_0200_0000)],
};

// A list that passed its limit several times: the spans' list has what came back, the last batch first.
const OVERFLOWED_OFTEN: Case = Case {
    first: b"trace 1 region 1 partitions 1 threads 1
",
    rest: &[
        (64, &[b"0 A r", b" p0 8\n"]),
        (64, &[b"0 X c", b" r", b"\n"]),
        (64, &[b"0 A r", b" p0 8\n"]),
        (64, &[b"0 F r", b"\n"]),
        (64, &[b"0 X c", b" r", b"\n"]),
        (64, &[b"0 F r", b"\n"]),
    ],
    rising: &[
        (0x0000_4610, 0x10, 31, 0, 0x0040_0000_0000_0000),
        (0x0000_4000, 0x10, 2, 0, 0x0044_0000_0000_0000),
        (0x0000_4400, 0x10, 33, 0, 0x0048_0000_0000_0000),
        (0x0000_4800, 0x10, 128, 0, 0),
    ],
    falling: &[(0x0000_43f0, 0x10, 62, 0, 0)],
    alike: &[(0x0000_4008, 0x10, 128, 0x0000_0000_0200_0000)],
};

// A list of 64 slots that was given back by a purge, and a fill of some of these slots again.
const GIVEN: Case = Case {
    first: b"trace 1 region 1 partitions 1 threads 1
",
    rest: &[
        (64, &[b"0 A r", b" p0 8\n"]),
        (64, &[b"0 X c", b" r", b"\n"]),
        (64, &[b"0 A r", b" p0 8\n"]),
        (64, &[b"0 F r", b"\n"]),
        (64, &[b"0 X c", b" r", b"\n"]),
        (64, &[b"0 F r", b"\n"]),
        (1, &[b"0 P\n0 A r0 p0 8\n0 A r1 p0 8\n"]),
    ],
    rising: &[(0x0000_4020, 0x10, 6, 0, 0), (0x0000_4080, 0x10, 248, 0, 0)],
    falling: &[],
    alike: &[
        (0x0000_4000, 0x10, 2, 0),
        (0x0000_4028, 0x10, 126, 0x0000_0000_0200_0000),
        (0x0000_4008, 0x10, 2, 0x0000_0000_0300_0001),
    ],
};

// A span that was decommitted, and provisioned again: its slots are in the order of their places.
const PROVISIONED_AGAIN: Case = Case {
    first: b"trace 1 region 1 partitions 1 threads 1
",
    rest: &[
        (64, &[b"0 A r", b" p0 104\n"]),
        (64, &[b"0 F r", b"\n"]),
        (1, &[b"0 P\n0 A r0 p0 104\n"]),
    ],
    rising: &[(0x0000_4070, 0x70, 7, 0, 0), (0x0000_4380, 0x70, 28, 0, 0)],
    falling: &[],
    alike: &[
        (0x0000_4000, 0x0, 1, 0),
        (0x0000_40d8, 0x70, 63, 0x0000_0000_0200_0000),
        (0x0000_4068, 0x0, 1, 0x0000_0000_0300_0001),
    ],
};

// The link to a slot: where it starts and its `born`, with the bytes in reverse order.
fn link_to(start: u32, born: u32) -> u64 {
    (u64::from(start) + u64::from(born) * 4_294_967_296).swap_bytes()
}

// Whether the words of this many super pages have these slots of a list, from the least address on or from the greatest.
fn are_chained(supers: u32, words: &Closed, slots: &Chained, falling: bool) -> bool
    requires few { supers ≤ 64 }
    requires long { length words.now ≡ 262144 * supers }
{
    let (first, distance, count, born, last) = *slots;
    let mut at = first;
    for left in (0..count).rev() {
        let next = if falling {
            at.checked_sub(distance)
        } else {
            at.checked_add(distance)
        };
        let Some(next) = next else {
            return false;
        };
        let due = if left == 0 { last } else { link_to(next, born) };
        if !has_word(supers, words, at, due) {
            return false;
        }
        at = next;
    }
    true
}

// Whether the words of this many super pages have the words that this row says.
fn are_alike(supers: u32, words: &Closed, row: &Alike) -> bool
    requires few { supers ≤ 64 }
    requires long { length words.now ≡ 262144 * supers }
{
    let (first, distance, count, word) = *row;
    let mut at = first;
    for left in (0..count).rev() {
        if !has_word(supers, words, at, word) {
            return false;
        }
        if left > 0 {
            let Some(next) = at.checked_add(distance) else {
                return false;
            };
            at = next;
        }
    }
    true
}

// Whether the words of this many super pages have all that the case says.
fn have_words(supers: u32, words: &Closed, case: &Case) -> bool
    requires few { supers ≤ 64 }
    requires long { length words.now ≡ 262144 * supers }
{
    for slots in case.rising {
        if !are_chained(supers, words, slots, false) {
            return false;
        }
    }
    for slots in case.falling {
        if !are_chained(supers, words, slots, true) {
            return false;
        }
    }
    for row in case.alike {
        if !are_alike(supers, words, row) {
            return false;
        }
    }
    true
}

#[test]
fn lists_are_linked_in_the_closed_region(rt: HostRuntime) -> Result<(), Fail> {
    let cases = [
        SMALLEST,
        QUARANTINED,
        PURGED,
        BORN_LATER,
        BESIDE_POISON,
        TWO_PARTITIONS,
        EMPTY_SPANS,
        OVERFLOWED,
        OVERFLOWED_OFTEN,
        GIVEN,
        PROVISIONED_AGAIN,
    ];
    for case in cases {
        match closed_after(&rt, rt.alloc(), case.first, case.rest)? {
            Some((supers, words)) => assert!(rt; have_words(supers, &words, &case)),
            None => assert!(rt; false),
        }
    }
    Ok(())
}
