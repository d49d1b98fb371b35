use crate::heap::{FREE, First, first_of, numbered, record, roots_of, seen, took};
use pa_buckets::Class;
use pa_dense::DenseJournal;
use pa_record::{Answer, Batch, RootAct, RootEntry};
use pa_rules::Played;
use pa_trace::Op;
use std::alloc::Global;
use std::test::Fail;

// The worked run of a purge: eight slots of this class, of 16 bytes, that leave the root, come back and leave it again, the first
// of them at the number 2. The last slot that comes back starts at `back`, the last slot of the second fill at `last`.
pub(crate) fn purge_roots(
    alloc: Global,
    class: u32,
    back: u32,
    last: u32,
) -> Result<Vec<DenseJournal>, Fail> {
    let class = Class::of(class).ok_or("no such class")?;
    let mut entries = Vec::new(alloc);
    entries.push(RootEntry {
        line: 2,
        act: RootAct::Fill {
            class,
            pool: Some(0),
            slots: row(0, 0x4070),
        },
    })?;
    entries.push(RootEntry {
        line: 4,
        act: RootAct::Give {
            slots: row(2, back),
        },
    })?;
    entries.push(RootEntry {
        line: 4,
        act: RootAct::Purge,
    })?;
    entries.push(RootEntry {
        line: 5,
        act: RootAct::Fill {
            class,
            pool: None,
            slots: row(2, last),
        },
    })?;
    Ok(roots_of(alloc, entries)?)
}

// Eight slots of 16 bytes. The first is at this number, and the last one starts at this byte.
fn row(number: u64, last: u32) -> Batch {
    let mut batch = Batch::new();
    batch.push(numbered(0x4000, 0, number));
    batch.push(numbered(0x4010, 0, 0));
    batch.push(numbered(0x4020, 0, 0));
    batch.push(numbered(0x4030, 0, 0));
    batch.push(numbered(0x4040, 0, 0));
    batch.push(numbered(0x4050, 0, 0));
    batch.push(numbered(0x4060, 0, 0));
    batch.push(numbered(last, 0, 0));
    batch
}

pub(crate) fn purge_records(size: u32) -> [Played; 4] {
    let alloc = Op::Alloc {
        reg: 0,
        partition: 0,
        size,
    };
    let made = |word: u64| Answer::Made {
        seen: seen(0x4000, 0, word),
        usable: 8,
    };
    let freed = Answer::Done {
        seen: seen(0x4000, 0, 0x1000001),
    };
    [
        record(2, alloc, made(0)),
        record(3, FREE, freed),
        record(4, Op::Purge, Answer::Purged { slots: 8 }),
        record(5, alloc, made(0x2000000)),
    ]
}

#[test]
fn a_purge_meets_all(rt: HostRuntime) -> Result<(), Fail> {
    let alloc = rt.alloc();
    let roots = purge_roots(alloc, 0, 0x4070, 0x4070)?;
    let first = first_of(alloc, 1, 1, &purge_records(8), &[took(2, Some(0))], &roots)?;
    assert!(rt; first == First::Nowhere);
    Ok(())
}

// A slot that comes back twice at once, and one that isn't out.
#[test]
fn slots_that_cannot_come_back(rt: HostRuntime) -> Result<(), Fail> {
    let alloc = rt.alloc();
    let pools = [took(2, Some(0))];
    let twice = purge_roots(alloc, 0, 0x4060, 0x4070)?;
    let first = first_of(alloc, 1, 1, &purge_records(8), &pools, &twice)?;
    assert!(rt; first == First::Root(0, 1));
    let not_out = purge_roots(alloc, 0, 0x4080, 0x4070)?;
    let first = first_of(alloc, 1, 1, &purge_records(8), &pools, &not_out)?;
    assert!(rt; first == First::Root(0, 1));
    Ok(())
}

// A fill whose last slot is a wrong one.
#[test]
fn a_fill_of_another_slot(rt: HostRuntime) -> Result<(), Fail> {
    let alloc = rt.alloc();
    let roots = purge_roots(alloc, 0, 0x4070, 0x4080)?;
    let first = first_of(alloc, 1, 1, &purge_records(8), &[took(2, Some(0))], &roots)?;
    assert!(rt; first == First::Root(0, 3));
    Ok(())
}

// Requests of the next class, whose line's op doesn't make such a fill.
#[test]
fn a_fill_of_another_class(rt: HostRuntime) -> Result<(), Fail> {
    let alloc = rt.alloc();
    let roots = purge_roots(alloc, 0, 0x4070, 0x4070)?;
    let first = first_of(alloc, 1, 1, &purge_records(9), &[took(2, Some(0))], &roots)?;
    assert!(rt; first == First::Root(0, 0));
    Ok(())
}

// A journal of a partition that the trace doesn't have.
#[test]
fn a_partition_too_many(rt: HostRuntime) -> Result<(), Fail> {
    let alloc = rt.alloc();
    let roots = purge_roots(alloc, 0, 0x4070, 0x4070)?;
    let first = first_of(alloc, 1, 0, &purge_records(8), &[took(2, Some(0))], &roots)?;
    assert!(rt; first == First::Root(0, 0));
    Ok(())
}
