//! What is another thing in version 2: the usable bytes of a request, and its class or direct map.
use crate::caches::{self, alloc_of};
use crate::contents::{FIRST, entry, line, rules_of};
use crate::heap::{self, First, record, roots_of, seen, took};
use crate::purges;
use crate::records::registers_of;
use pa_buckets::Class;
use pa_record::{Answer, RootAct, RootEntry};
use pa_rules::Played;
use pa_slot::OutOfMemory;
use std::alloc::Global;
use std::test::Fail;

// What is told of a run of the version in which a request gets a slot with that many usable bytes.
fn told_of_usable(
    alloc: Global,
    version: u32,
    size: u32,
    usable: u32,
) -> Result<Option<u32>, OutOfMemory> {
    let seen = seen(FIRST.start, FIRST.born, 0);
    let lines = [line(0, alloc_of(size))];
    let entries = [entry(2, 0, Answer::Made { seen, usable })];
    registers_of(alloc, rules_of(version), &lines, &entries, &[])
}

// The usable bytes of either version, also of a request that is a direct map in version 1 and has a class in version 2.
#[test]
fn registers_tell_the_usable_bytes_of_another_version(rt: HostRuntime) {
    let rows = [
        (1, 130, 152, None),
        (1, 130, 136, Some(0)),
        (2, 130, 136, None),
        (2, 130, 152, Some(0)),
        (1, 950_000, 950_264, None),
        (1, 950_000, 983_032, Some(0)),
        (2, 950_000, 983_032, None),
        (2, 950_000, 950_264, Some(0)),
    ];
    for (version, size, usable, told) in rows {
        let found = told_of_usable(rt.alloc(), version, size, usable);
        assert!(rt; found == Ok(told), "{version} {size} {usable}");
    }
}

// These records by the rules of the version.
fn in_version(version: u32, records: [Played; 4]) -> [Played; 4] {
    let mut records = records;
    for at in 0..4 {
        records[at].rules.version = version;
    }
    records
}

// Fills of each version's class of 16 bytes, of which the other version makes none.
#[test]
fn a_fill_of_the_class_of_another_version(rt: HostRuntime) -> Result<(), Fail> {
    let alloc = rt.alloc();
    let pools = [took(2, Some(0))];
    let rows = [
        (1, 0, First::Nowhere),
        (1, 59, First::Root(0, 0)),
        (2, 59, First::Nowhere),
        (2, 0, First::Root(0, 0)),
    ];
    for (version, class, told) in rows {
        let roots = purges::purge_roots(alloc, class, 0x4070, 0x4070)?;
        let records = in_version(version, purges::purge_records(8));
        let found = heap::first_of(alloc, 1, 1, &records, &pools, &roots)?;
        assert!(rt; found == told, "{version} {class}");
    }
    Ok(())
}

// What is told of a run of the version in which a request of 950,000 bytes makes this entry, in a region of that many super pages.
fn told_of_large(
    alloc: Global,
    version: u32,
    supers: u32,
    answer: Answer,
    act: RootAct,
) -> Result<First, OutOfMemory> {
    let mut records = [record(2, alloc_of(950_000), answer)];
    records[0].rules.version = version;
    let mut entries = Vec::new(alloc);
    entries.push(RootEntry { line: 2, act })?;
    let roots = roots_of(alloc, entries)?;
    let pools = [took(2, if supers == 0 { None } else { Some(0) })];
    heap::first_of(alloc, supers, 1, &records, &pools, &roots)
}

// Such a request gets a direct map in version 1.
#[test]
fn a_map_of_a_request_that_has_a_class(rt: HostRuntime) -> Result<(), Fail> {
    let rows = [(1, First::Nowhere), (2, First::Root(0, 0))];
    for (version, told) in rows {
        let made = Answer::Made {
            seen: seen(0x4000, 0, 0),
            usable: 950_264,
        };
        let act = RootAct::Map {
            pool: 0,
            slot: FIRST,
            len: 950_272,
        };
        let found = told_of_large(rt.alloc(), version, 1, made, act)?;
        assert!(rt; found == told, "{version}");
    }
    Ok(())
}

// No room for such a request: in version 1 for its direct map, in version 2 for its class.
#[test]
fn no_room_for_the_map_or_the_class_of_another_version(rt: HostRuntime) -> Result<(), Fail> {
    let rows = [
        (1, 170, First::Nowhere),
        (1, 169, First::Root(0, 0)),
        (2, 169, First::Nowhere),
        (2, 168, First::Root(0, 0)),
        (2, 170, First::Root(0, 0)),
    ];
    for (version, number, told) in rows {
        let class = Class::of(number);
        let act = RootAct::Full { class, pool: 0 };
        let full = Answer::Full { entry: 0 };
        let found = told_of_large(rt.alloc(), version, 0, full, act)?;
        assert!(rt; found == told, "{version} {number}");
    }
    Ok(())
}

// The lists of version 2: those of its least class are kept and go back in a purge, and of its greatest a thread keeps none.
#[test]
fn lists_of_version_2(rt: HostRuntime) -> Result<(), Fail> {
    let alloc = rt.alloc();
    let roots = caches::purge_roots(alloc, 59, 0x4010, 9)?;
    for (slots, told) in [(8, caches::First::Nowhere), (7, caches::First::Record(2))] {
        let records = in_version(2, caches::purge_records(slots, 0, 0x4000));
        let found = caches::first_of(alloc, 2, &records, &roots)?;
        assert!(rt; found == told, "{slots}");
    }
    for (back, told) in [(5, caches::First::Nowhere), (9, caches::First::Record(3))] {
        let roots = caches::large_roots(alloc, 169, back)?;
        let records = in_version(2, caches::large_records(950_000));
        let found = caches::first_of(alloc, 2, &records, &roots)?;
        assert!(rt; found == told, "{back}");
    }
    Ok(())
}
