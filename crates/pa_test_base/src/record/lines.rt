use super::{give, name, nothing, one, take, tally, with};
use pa_record::{
    CellEntry, Held, History, Journal, Numbered, ReportLine, RootAct, RootEntry, Run, push_cells,
    run_fits, write_run,
};
use pa_slot::SlotName;
use pa_text::Text;
use std::test::Fail;

// A direct map is made, goes back, and is made again, and there is no room for a second one.
#[test]
fn direct_maps_are_printed(rt: HostRuntime) -> Result<(), Fail> {
    let map = |line: u32, born: u32| RootEntry {
        line,
        act: RootAct::Map {
            pool: born,
            slot: SlotName {
                start: 0x4000,
                born,
            },
            len: 2002944,
        },
    };
    let unmap = |line: u32, pool: u32, born: u32, number: u64| RootEntry {
        line,
        act: RootAct::Unmap {
            pool,
            slot: Numbered {
                slot: SlotName {
                    start: 0x4000,
                    born,
                },
                number,
            },
        },
    };
    let full = RootAct::Full {
        class: None,
        pool: 3,
    };
    let journal = [
        map(2, 0),
        unmap(3, 1, 0, 2),
        map(4, 2),
        RootEntry { line: 7, act: full },
        unmap(8, 4, 2, 4),
        map(9, 5),
    ];
    let pool = [
        take(2, Some(0)),
        give(3),
        take(4, Some(0)),
        take(7, None),
        give(8),
        take(9, Some(0)),
    ];
    let journal = Vec::from_array(rt.alloc(), journal)?;
    let run = Run {
        entries: Vec::new(rt.alloc()),
        roots: Vec::from_array(rt.alloc(), [Journal::of(journal)])?,
        pool: Vec::from_array(rt.alloc(), pool)?,
        cells: Vec::new(rt.alloc()),
        report: Vec::new(rt.alloc()),
    };
    let text = write_run(rt.alloc(), &run)?;
    let due = b"run 1
r 0 0 2 map 0 00004000.0@0 2002944
r 0 1 3 unmap 1 00004000.0@2
r 0 2 4 map 2 00004000.2@0 2002944
r 0 3 7 full direct 3
r 0 4 8 unmap 4 00004000.2@4
r 0 5 9 map 5 00004000.5@0 2002944
p 0 2 0 take 1 0
p 1 3 0 give 1 0
p 2 4 0 take 1 0
p 3 7 0 take 1 none
p 4 8 0 give 1 0
p 5 9 0 take 1 0
end
";
    assert!(rt; text.as_slice() == due.as_slice());
    Ok(())
}

// A purge of the second of two partitions gives a cache's slots back first.
#[test]
fn a_purge_is_printed(rt: HostRuntime) -> Result<(), Fail> {
    let give = RootAct::Give {
        slots: with(one(0x4000), 0x4010, 18446744073709551615),
    };
    let journal = [
        RootEntry { line: 4, act: give },
        RootEntry {
            line: 4,
            act: RootAct::Purge,
        },
    ];
    let none = Journal::of(Vec::new(rt.alloc()));
    let journal = Journal::of(Vec::from_array(rt.alloc(), journal)?);
    let run = Run {
        entries: Vec::new(rt.alloc()),
        roots: Vec::from_array(rt.alloc(), [none, journal])?,
        pool: Vec::new(rt.alloc()),
        cells: Vec::new(rt.alloc()),
        report: Vec::from_array(rt.alloc(), [nothing(1, 0), nothing(1, 1)])?,
    };
    let text = write_run(rt.alloc(), &run)?;
    let due = b"run 1
r 1 0 4 give 00004000.0@0 00004010.0@18446744073709551615
r 1 1 4 purge
s 1 0 live 0 0 quarantined 0 0 cached 0 0 root 0 0 committed 0 reserved 0 full 0 active 0 empty 0 decommitted 0
s 1 1 live 0 0 quarantined 0 0 cached 0 0 root 0 0 committed 0 reserved 0 full 0 active 0 empty 0 decommitted 0
end
";
    assert!(rt; text.as_slice() == due.as_slice());
    Ok(())
}

// Each number of a line of the report comes after its word.
#[test]
fn the_report_is_printed(rt: HostRuntime) -> Result<(), Fail> {
    let line = ReportLine {
        phase: 4294967295,
        partition: 3,
        live: tally(1, 2),
        quarantined: tally(3, 4),
        cached: tally(5, 6),
        root: tally(7, 18446744073709551615),
        committed: 8,
        reserved: 9,
        full: 10,
        active: 11,
        empty: 12,
        decommitted: 13,
    };
    let run = Run {
        entries: Vec::new(rt.alloc()),
        roots: Vec::new(rt.alloc()),
        pool: Vec::new(rt.alloc()),
        cells: Vec::new(rt.alloc()),
        report: Vec::from_array(rt.alloc(), [line])?,
    };
    run_fits(&run);
    let text = write_run(rt.alloc(), &run)?;
    let due = b"run 1
s 4294967295 3 live 1 2 quarantined 3 4 cached 5 6 root 7 18446744073709551615 committed 8 reserved 9 full 10 active 11 empty 12 decommitted 13
end
";
    assert!(rt; text.as_slice() == due.as_slice());
    Ok(())
}

// An object goes into a cell and comes out of it; another cell gets a raw_ptr.
#[test]
fn exchanges_are_printed(rt: HostRuntime) -> Result<(), Fail> {
    let mut first = History::new(rt.alloc());
    first.push(CellEntry {
        line: 66,
        gave: Held::Own(name(0x4000)),
        found: Held::Nothing,
    })?;
    first.push(CellEntry {
        line: 132,
        gave: Held::Nothing,
        found: Held::Own(name(0x4000)),
    })?;
    let mut third = History::new(rt.alloc());
    third.push(CellEntry {
        line: 4,
        gave: Held::Ref(name(0x4000)),
        found: Held::Ref(name(0xfedcba98)),
    })?;
    let cells = Vec::from_array(rt.alloc(), [first, History::new(rt.alloc()), third])?;
    let mut out = Text::new(rt.alloc());
    push_cells(&mut out, &cells)?;
    let due = b"c 0 0 66 own:00004000.0 -
c 0 1 132 - own:00004000.0
c 2 0 4 ref:00004000.0 ref:fedcba98.0
";
    assert!(rt; out.as_slice() == due.as_slice());
    Ok(())
}
