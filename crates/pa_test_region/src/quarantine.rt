use pa_count::{Fate, copy, issue};
use pa_machine::Item;
use pa_quarantine::{free_owned, free_sealed, issue_sealed, read, release, write, zero_fill};
use pa_region::{Mark, Region, a_new_region_can_be_cut};
use pa_slot::{POISON, Title};
use std::test::Fail;

#[test]
fn a_dangling_pointer_reads_poison(rt: HostRuntime) -> Result<(), Fail> {
    let title = Title {
        start: 0x4000,
        len: 32,
        born: 0,
    };
    let (region, mut seat) = Region::new(rt.alloc(), 1, 16)?;
    a_new_region_can_be_cut();
    region.cut(&mut seat, title);
    zero_fill(&region, &mut seat, title);
    assert!(rt; issue(&region, &mut seat, title).0 == 0);
    assert!(rt; copy(&region, &mut seat, title).0 == 0x1000001);
    let (found, fate) = free_owned(&region, &mut seat, title);
    assert!(rt; found.0 == 0x2000003);
    assert!(rt; fate == Fate::Kept);
    let (found, value) = read(&region, &mut seat, title, 0);
    assert!(rt; found.0 == 0x3000002);
    assert!(rt; value == POISON);
    assert!(rt; read(&region, &mut seat, title, 1).1 == POISON);
    assert!(rt; read(&region, &mut seat, title, 2).1 == POISON);
    let (found, fate) = release(&region, &mut seat, title);
    assert!(rt; found.0 == 0x3000002);
    assert!(rt; fate == Fate::Last);
    let closed = region.close(seat);
    assert!(rt; closed.word(0x4018) == 0x4000000);
    assert!(rt; closed.word(0x4010) == POISON);
    Ok(())
}

#[test]
fn a_written_slot_reads_as_written(rt: HostRuntime) -> Result<(), Fail> {
    let title = Title {
        start: 0x4000,
        len: 16,
        born: 0,
    };
    let (region, mut seat) = Region::new(rt.alloc(), 1, 16)?;
    a_new_region_can_be_cut();
    region.cut(&mut seat, title);
    zero_fill(&region, &mut seat, title);
    assert!(rt; issue(&region, &mut seat, title).0 == 0);
    assert!(rt; write(&region, &mut seat, title, 7).0 == 0x1000001);
    let (found, value) = read(&region, &mut seat, title, 0);
    assert!(rt; found.0 == 0x2000001);
    assert!(rt; value == 7);
    assert!(rt; copy(&region, &mut seat, title).0 == 0x2000001);
    let (found, value) = read(&region, &mut seat, title, 0);
    assert!(rt; found.0 == 0x3000003);
    assert!(rt; value == 7);
    let (found, fate) = free_owned(&region, &mut seat, title);
    assert!(rt; found.0 == 0x3000003);
    assert!(rt; fate == Fate::Kept);
    assert!(rt; read(&region, &mut seat, title, 0).1 == POISON);
    assert!(rt; release(&region, &mut seat, title).1 == Fate::Last);
    zero_fill(&region, &mut seat, title);
    assert!(rt; issue(&region, &mut seat, title).0 == 0x5000000);
    let closed = region.close(seat);
    assert!(rt; closed.word(0x4000) == 0);
    assert!(rt; closed.word(0x4008) == 0x6000001);
    Ok(())
}

#[test]
fn a_sealed_slot_is_returned_at_once(rt: HostRuntime) -> Result<(), Fail> {
    let title = Title {
        start: 0x4000,
        len: 16,
        born: 0,
    };
    let (region, mut seat) = Region::new(rt.alloc(), 1, 16)?;
    a_new_region_can_be_cut();
    region.cut(&mut seat, title);
    zero_fill(&region, &mut seat, title);
    assert!(rt; issue_sealed(&region, &mut seat, title).0 == 0);
    assert!(rt; write(&region, &mut seat, title, 7).0 == 0x1000001);
    assert!(rt; free_sealed(&region, &mut seat, title).0 == 0x2000001);
    zero_fill(&region, &mut seat, title);
    assert!(rt; issue(&region, &mut seat, title).0 == 0x3000000);
    let closed = region.close(seat);
    assert!(rt; closed.word(0x4008) == 0x4000001);
    Ok(())
}

// The Own that another seat gets is sealed still.
#[test]
fn a_sealed_own_is_handed_over(rt: HostRuntime) -> Result<(), Fail> {
    let title = Title {
        start: 0x4000,
        len: 16,
        born: 0,
    };
    let (region, mut seat) = Region::new(rt.alloc(), 1, 16)?;
    a_new_region_can_be_cut();
    region.cut(&mut seat, title);
    zero_fill(&region, &mut seat, title);
    issue_sealed(&region, &mut seat, title);
    let mut other = region
        .hand(&mut seat, &[Item::Own(title)], 2, &[Mark::Stake(1)])
        .seat();
    assert!(rt; free_sealed(&region, &mut other, title).0 == 0x1000001);
    zero_fill(&region, &mut other, title);
    assert!(rt; issue_sealed(&region, &mut other, title).0 == 0x2000000);
    Ok(())
}
