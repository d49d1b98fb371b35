use super::{fill, give, one, take, with};
use pa_buckets::Class;
use pa_record::{
    CellEntry, Held, Numbered, PoolEntry, RootAct, RootEntry, cell_numbers, pool_numbers,
    root_numbers,
};
use pa_slot::SlotName;

// Whether these are the numbers of an entry of a root.
fn root_tells(entry: &RootEntry, due: &[u64]) -> bool {
    root_numbers(entry).as_slice() == due
}

// Whether these are the numbers of an entry of the pool.
fn pool_tells(entry: &PoolEntry, due: &[u64]) -> bool {
    pool_numbers(entry).as_slice() == due
}

// Whether these are the numbers of an exchange.
fn cell_tells(entry: &CellEntry, due: &[u64]) -> bool {
    cell_numbers(entry).as_slice() == due
}

// The numbers of what a root did with slots.
#[test]
fn batches_are_told_as_numbers(rt: HostRuntime) {
    let filled = fill(5, 37, None, with(one(0x4000), 0x4010, 2));
    assert!(rt; root_tells(&filled, &[5, 0, 37, 0, 2, 0x4000, 0, 0, 0x4010, 0, 2]));
    let act = RootAct::Full {
        class: Class::of(58),
        pool: 1,
    };
    assert!(rt; root_tells(&RootEntry { line: 4, act }, &[4, 2, 1, 58, 1]));
    let act = RootAct::Give { slots: one(0x4000) };
    assert!(rt; root_tells(&RootEntry { line: 4, act }, &[4, 3, 1, 0x4000, 0, 0]));
    let act = RootAct::Purge;
    assert!(rt; root_tells(&RootEntry { line: 4, act }, &[4, 5]));
}

// The numbers of direct maps, of the pool's entries and of exchanges.
#[test]
fn entries_are_told_as_numbers(rt: HostRuntime) {
    let slot = SlotName {
        start: 0x4000,
        born: 7,
    };
    let act = RootAct::Map {
        pool: 6,
        slot,
        len: 921600,
    };
    assert!(rt; root_tells(&RootEntry { line: 2, act }, &[2, 1, 6, 0x4000, 7, 921600]));
    let act = RootAct::Unmap {
        pool: 1,
        slot: Numbered { slot, number: 4 },
    };
    assert!(rt; root_tells(&RootEntry { line: 3, act }, &[3, 4, 1, 0x4000, 7, 4]));
    assert!(rt; pool_tells(&take(2, Some(0)), &[2, 0, 0, 1, 1, 0]));
    assert!(rt; pool_tells(&take(7, None), &[7, 0, 0, 1, 0]));
    assert!(rt; pool_tells(&give(3), &[3, 0, 1, 1, 0]));
    let exchange = CellEntry {
        line: 4,
        gave: Held::Ref(slot),
        found: Held::Nothing,
    };
    assert!(rt; cell_tells(&exchange, &[4, 2, 0x4000, 7, 0]));
    let exchange = CellEntry {
        line: 9,
        gave: Held::Nothing,
        found: Held::Own(slot),
    };
    assert!(rt; cell_tells(&exchange, &[9, 0, 1, 0x4000, 7]));
}
