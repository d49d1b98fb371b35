use super::{done, eight, entry, fill, made, nothing, one, seen, take, tally};
use pa_buckets::Class;
use pa_record::{Answer, Journal, ReportLine, RootAct, RootEntry, Run, write_run};
use std::test::Fail;

// One object of 8 bytes is allocated and freed.
#[test]
fn the_smallest_run_is_printed(rt: HostRuntime) -> Result<(), Fail> {
    let entries = [
        entry(2, made(0x4000, 8, 0)),
        entry(3, done(0x4000, 0x01000001)),
    ];
    let journal = Vec::from_array(rt.alloc(), [fill(2, 0, Some(0), eight(0))])?;
    let line = ReportLine {
        cached: tally(8, 128),
        root: tally(248, 3968),
        committed: 4096,
        reserved: 2097152,
        active: 1,
        ..nothing(1, 0)
    };
    let run = Run {
        entries: Vec::from_array(rt.alloc(), entries)?,
        roots: Vec::from_array(rt.alloc(), [Journal::of(journal)])?,
        pool: Vec::from_array(rt.alloc(), [take(2, Some(0))])?,
        cells: Vec::new(rt.alloc()),
        report: Vec::from_array(rt.alloc(), [line])?,
    };
    let text = write_run(rt.alloc(), &run)?;
    let due = b"run 1
e 2 0 made 00004000.0 8 0000000000000000
e 3 0 done 00004000.0 0000000001000001
r 0 0 2 fill 0 0 00004000.0@0 00004010.0@0 00004020.0@0 00004030.0@0 00004040.0@0 00004050.0@0 00004060.0@0 00004070.0@0
p 0 2 0 take 1 0
s 1 0 live 0 0 quarantined 0 0 cached 8 128 root 248 3968 committed 4096 reserved 2097152 full 0 active 1 empty 0 decommitted 0
end
";
    assert!(rt; text.as_slice() == due.as_slice());
    Ok(())
}

// A fill wants two slots and gets one, and a class finds no room.
#[test]
fn a_short_fill_and_want_of_room_are_printed(rt: HostRuntime) -> Result<(), Fail> {
    let entries = [
        entry(2, made(0x4000, 917496, 0)),
        entry(3, made(0xe4000, 917496, 0)),
        entry(4, made(0x1c4000, 196600, 0)),
        entry(5, made(0x1f4000, 24568, 0)),
        entry(6, done(0x1f4000, 0x01000001)),
        entry(7, Answer::Full { entry: 4 }),
        entry(8, made(0x1f4000, 24568, 0x02000000)),
    ];
    let class = Class::of(38);
    let full = RootAct::Full { class, pool: 1 };
    let journal = [
        fill(2, 58, Some(0), one(0x4000)),
        fill(3, 58, None, one(0xe4000)),
        fill(4, 49, None, one(0x1c4000)),
        fill(5, 37, None, one(0x1f4000)),
        RootEntry { line: 7, act: full },
    ];
    let line = ReportLine {
        live: tally(4, 2056192),
        committed: 2056192,
        reserved: 2097152,
        full: 4,
        ..nothing(1, 0)
    };
    let journal = Vec::from_array(rt.alloc(), journal)?;
    let run = Run {
        entries: Vec::from_array(rt.alloc(), entries)?,
        roots: Vec::from_array(rt.alloc(), [Journal::of(journal)])?,
        pool: Vec::from_array(rt.alloc(), [take(2, Some(0)), take(7, None)])?,
        cells: Vec::new(rt.alloc()),
        report: Vec::from_array(rt.alloc(), [line])?,
    };
    let text = write_run(rt.alloc(), &run)?;
    let due = b"run 1
e 2 0 made 00004000.0 917496 0000000000000000
e 3 0 made 000e4000.0 917496 0000000000000000
e 4 0 made 001c4000.0 196600 0000000000000000
e 5 0 made 001f4000.0 24568 0000000000000000
e 6 0 done 001f4000.0 0000000001000001
e 7 0 full 4
e 8 0 made 001f4000.0 24568 0000000002000000
r 0 0 2 fill 58 0 00004000.0@0
r 0 1 3 fill 58 - 000e4000.0@0
r 0 2 4 fill 49 - 001c4000.0@0
r 0 3 5 fill 37 - 001f4000.0@0
r 0 4 7 full 38 1
p 0 2 0 take 1 0
p 1 7 0 take 1 none
s 1 0 live 4 2056192 quarantined 0 0 cached 0 0 root 0 0 committed 2056192 reserved 2097152 full 4 active 0 empty 0 decommitted 0
end
";
    assert!(rt; text.as_slice() == due.as_slice());
    Ok(())
}

// A slot is freed while a raw_ptr points to it, and is handed out again after the reset.
#[test]
fn a_quarantined_slot_is_printed(rt: HostRuntime) -> Result<(), Fail> {
    let read = Answer::Dangling {
        seen: seen(0x4000, 0x03000002),
        value: 0xefef_efef_efef_efef,
    };
    let entries = [
        entry(2, made(0x4000, 8, 0)),
        entry(3, done(0x4000, 0x01000001)),
        entry(4, done(0x4000, 0x02000003)),
        entry(5, read),
        entry(6, made(0x4010, 8, 0)),
        entry(7, done(0x4000, 0x03000002)),
        entry(8, made(0x4000, 8, 0x04000000)),
    ];
    let journal = Vec::from_array(rt.alloc(), [fill(2, 0, Some(0), eight(0))])?;
    let line = ReportLine {
        live: tally(2, 32),
        cached: tally(6, 96),
        root: tally(248, 3968),
        committed: 4096,
        reserved: 2097152,
        active: 1,
        ..nothing(1, 0)
    };
    let run = Run {
        entries: Vec::from_array(rt.alloc(), entries)?,
        roots: Vec::from_array(rt.alloc(), [Journal::of(journal)])?,
        pool: Vec::from_array(rt.alloc(), [take(2, Some(0))])?,
        cells: Vec::new(rt.alloc()),
        report: Vec::from_array(rt.alloc(), [line])?,
    };
    let text = write_run(rt.alloc(), &run)?;
    let due = b"run 1
e 2 0 made 00004000.0 8 0000000000000000
e 3 0 done 00004000.0 0000000001000001
e 4 0 done 00004000.0 0000000002000003
e 5 0 dangling 00004000.0 0000000003000002 efefefefefefefef
e 6 0 made 00004010.0 8 0000000000000000
e 7 0 done 00004000.0 0000000003000002
e 8 0 made 00004000.0 8 0000000004000000
r 0 0 2 fill 0 0 00004000.0@0 00004010.0@0 00004020.0@0 00004030.0@0 00004040.0@0 00004050.0@0 00004060.0@0 00004070.0@0
p 0 2 0 take 1 0
s 1 0 live 2 32 quarantined 0 0 cached 6 96 root 248 3968 committed 4096 reserved 2097152 full 0 active 1 empty 0 decommitted 0
end
";
    assert!(rt; text.as_slice() == due.as_slice());
    Ok(())
}
