//! Chains over a region: the words that they leave, which were worked out by hand.
ghost use Rattle.std.specs.Prelude.{◌≡◌, ◌+◌, ◌≤◌, ◌<◌, None};
ghost use Rattle.pa_region.specs.Start.{first_view};
ghost use Rattle.pa_test_region.specs.ChainRows.{chain_slot, IsRowOf, IsRowChained};

use pa_link::Chain;
use pa_region::{Region, Seat, a_cut_leaves_other_bytes, a_new_region_can_be_cut};
use pa_slot::Title;
use std::test::Fail;

// The row's slot of this number.
pub(crate) fn slot(born: u32, number: u32) -> Title
    requires { number < 256 }
    ensures { result ≡ chain_slot born number }
{
    Title {
        start: 0x4000 + 16 * number,
        len: 16,
        born,
    }
}

// Cuts the row's next slot.
fn cut_next(region: &Region, seat: &mut Seat, born: u32, count: u32)
    requires region { seat.old.region ≡ region.now }
    requires row { IsRowOf born count seat.old.view }
    requires few { count < 256 }
    ensures region { seat.new.region ≡ region.now }
    ensures row { IsRowOf born (count + 1) seat.new.view }
{
    a_cut_leaves_other_bytes();
    region.cut(seat, slot(born, count));
}

// Cuts the row's first slots.
pub(crate) fn cut_row(region: &Region, seat: &mut Seat, born: u32, count: u32)
    requires region { seat.old.region ≡ region.now }
    requires view { seat.old.view ≡ first_view 262144 0 }
    requires few { count ≤ 256 }
    ensures region { seat.new.region ≡ region.now }
    ensures row { IsRowOf born count seat.new.view }
{
    a_new_region_can_be_cut();
    for done in 0..count {
        cut_next(region, seat, born, done);
    }
}

// Puts the slot before the first one of the chain at its front.
fn push_at(region: &Region, seat: &mut Seat, chain: &mut Chain, born: u32, cut: u32, number: u32)
    requires region { seat.old.region ≡ region.now }
    requires row { IsRowChained born cut (number + 1) seat.old.view chain.old }
    requires few { (number < cut) × (cut ≤ 256) }
    ensures region { seat.new.region ≡ region.now }
    ensures row { IsRowChained born cut number seat.new.view chain.new }
{
    chain.push(region, seat, slot(born, number));
}

// A chain of the row's slots from `from` to `to`, of which the first is the front.
fn chain_row(region: &Region, seat: &mut Seat, born: u32, cut: u32, from: u32, to: u32) -> Chain
    requires region { seat.old.region ≡ region.now }
    requires row { IsRowOf born cut seat.old.view }
    requires few { (from ≤ to) × (to ≤ cut) × (cut ≤ 256) }
    ensures region { seat.new.region ≡ region.now }
    ensures row { IsRowChained born cut from seat.new.view result }
{
    let mut chain = Chain::new(16);
    for done in 0..to - from {
        push_at(region, seat, &mut chain, born, cut, to - 1 - done);
    }
    chain
}

// Whether the titles are those of the row from the one at this byte on.
fn go_up_from(start: u32, titles: &[Title]) -> bool {
    let mut next = start;
    for title in titles {
        if title.start != next {
            return false;
        }
        next = next.wrapping_add(16);
    }
    true
}

#[test]
fn a_list_and_a_free_list_lie_side_by_side(rt: HostRuntime) -> Result<(), Fail> {
    let (region, mut seat) = Region::new(rt.alloc(), 1, 0)?;
    cut_row(&region, &mut seat, 0, 256);
    let cached = chain_row(&region, &mut seat, 0, 256, 0, 8);
    let kept = chain_row(&region, &mut seat, 0, 256, 8, 256);
    assert!(rt; cached.len() == 8);
    assert!(rt; kept.len() == 248);
    let closed = region.close(seat);
    assert!(rt; closed.word(0x4000) == 0x1040_0000_0000_0000);
    assert!(rt; closed.word(0x4070) == 0);
    assert!(rt; closed.word(0x4080) == 0x9040_0000_0000_0000);
    assert!(rt; closed.word(0x40f0) == 0x0041_0000_0000_0000);
    assert!(rt; closed.word(0x4ff0) == 0);
    Ok(())
}

#[test]
fn a_link_has_the_generation_of_its_slot(rt: HostRuntime) -> Result<(), Fail> {
    let (region, mut seat) = Region::new(rt.alloc(), 1, 0)?;
    cut_row(&region, &mut seat, 2, 3);
    let chain = chain_row(&region, &mut seat, 2, 3, 1, 3);
    assert!(rt; chain.len() == 2);
    let closed = region.close(seat);
    assert!(rt; closed.word(0x4010) == 0x2040_0000_0200_0000);
    assert!(rt; closed.word(0x4020) == 0);
    Ok(())
}

#[test]
fn titles_come_out_of_the_middle(rt: HostRuntime) -> Result<(), Fail> {
    let (region, mut seat) = Region::new(rt.alloc(), 1, 0)?;
    cut_row(&region, &mut seat, 0, 65);
    let mut chain = chain_row(&region, &mut seat, 0, 65, 0, 65);
    let first = chain.take_after(&region, &mut seat, 32);
    assert!(rt; first.len() == 16);
    assert!(rt; go_up_from(0x4200, first.as_slice()));
    assert!(rt; chain.len() == 49);
    let closed = region.close(seat);
    assert!(rt; closed.word(0x41f0) == 0x0043_0000_0000_0000);
    assert!(rt; closed.word(0x4400) == 0);
    Ok(())
}
