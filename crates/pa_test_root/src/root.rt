use pa_machine::Item;
use pa_region::Region;
use pa_root::{cut_beside, cut_map, number_seen, numbers_seen, show_seen, uncut_with};
use pa_slot::Title;
use std::test::Fail;

#[test]
fn two_slots_stand_side_by_side(rt: HostRuntime) -> Result<(), Fail> {
    let (region, mut seat) = Region::new(rt.alloc(), 1, 0)?;
    let first = Title {
        start: 0x4000,
        len: 32,
        born: 0,
    };
    cut_beside(&region, &mut seat, first, 2);
    let second = Title {
        start: 0x4020,
        len: 32,
        born: 0,
    };
    assert!(rt; number_seen(&region, &mut seat, second) == 0);
    let batch = numbers_seen(&region, &mut seat, &[first, second]);
    assert!(rt; batch.items().len() == 2);
    Ok(())
}

#[test]
fn a_direct_map_is_cut_and_made_raw_again(rt: HostRuntime) -> Result<(), Fail> {
    let (region, mut seat) = Region::new(rt.alloc(), 1, 0)?;
    let title = cut_map(&region, &mut seat, 0, 0, 0xf5000);
    assert!(rt; title.start == 0x4000);
    let note = region.hand(&mut seat, &[Item::Free(title)], 0, &[]);
    let mut other = note.seat();
    uncut_with(&region, &mut seat, &mut other, title);
    show_seen(&region, &mut other, &mut seat);
    Ok(())
}
