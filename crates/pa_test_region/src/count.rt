ghost use Rattle.std.specs.Prelude.{◌≡◌};
ghost use Rattle.pa_slot.specs.declared.word.Step.TheVariants.{Reset};
ghost use Rattle.pa_region.specs.Moves.{CanCount};
ghost use Rattle.pa_region.specs.Shares.{IsStepMade};

use pa_count::{Fate, copy, issue, look, reset};
use pa_region::{
    Region, Seat, a_cut_leaves_other_bytes, a_cut_leaves_zeros, a_new_region_can_be_cut,
    an_uncut_gives_bytes_back, new_words_are_zero,
};
use pa_slot::{Title, Word};
use std::test::Fail;
use std::thread;

#[test]
fn a_slot_is_issued_and_pointed_to(rt: HostRuntime) -> Result<(), Fail> {
    let first = Title {
        start: 0x4000,
        len: 16,
        born: 0,
    };
    let second = Title {
        start: 0x4010,
        len: 16,
        born: 0,
    };
    let (region, mut seat) = Region::new(rt.alloc(), 1, 16)?;
    new_words_are_zero();
    a_new_region_can_be_cut();
    a_cut_leaves_other_bytes();
    a_cut_leaves_zeros();
    region.cut(&mut seat, first);
    region.cut(&mut seat, second);
    assert!(rt; issue(&region, &mut seat, first).0 == 0);
    assert!(rt; copy(&region, &mut seat, first).0 == 0x1000001);
    assert!(rt; look(&region, &mut seat, first).0 == 0x2000003);
    let (found, fate) = reset(&region, &mut seat, first);
    assert!(rt; found.0 == 0x2000003);
    assert!(rt; fate == Fate::Kept);
    assert!(rt; issue(&region, &mut seat, second).0 == 0);
    let closed = region.close(seat);
    assert!(rt; closed.word(0x4008) == 0x3000001);
    assert!(rt; closed.word(0x4018) == 0x1000001);
    Ok(())
}

// A reset with the seat of the caller, which is handed on.
fn reset_by(region: &Region, seat: Seat, title: Title) -> (Seat, (Word, Fate))
    requires region { seat.region ≡ region.now }
    requires able { CanCount Reset title seat.view }
    ensures { IsStepMade Reset title result.1.0.0 seat result.0 }
{
    let mut seat = seat;
    let released = reset(region, &mut seat, title);
    (seat, released)
}

// A region has one seat until seats can be split, so the two threads have it one after the other.
#[test]
fn two_threads_reset_a_slot(rt: HostRuntime) -> Result<(), Fail> {
    let title = Title {
        start: 0x4000,
        len: 16,
        born: 0,
    };
    let (region, mut seat) = Region::new(rt.alloc(), 1, 16)?;
    new_words_are_zero();
    a_new_region_can_be_cut();
    a_cut_leaves_zeros();
    region.cut(&mut seat, title);
    issue(&region, &mut seat, title);
    copy(&region, &mut seat, title);
    copy(&region, &mut seat, title);
    let shared = &region;
    let ((seat, first), ()) = thread::join(&rt, move || reset_by(shared, seat, title), || ());
    let ((), (_, second)) = thread::join(&rt, || (), move || reset_by(shared, seat, title));
    assert!(rt; first == (Word(0x3000005), Fate::Kept));
    assert!(rt; second == (Word(0x4000003), Fate::Kept));
    Ok(())
}

// The bytes of a slot that is uncut are cut for one that is born later.
#[test]
fn bytes_are_cut_again(rt: HostRuntime) -> Result<(), Fail> {
    let old = Title {
        start: 0x4000,
        len: 16,
        born: 0,
    };
    let new = Title {
        start: 0x4000,
        len: 16,
        born: 1,
    };
    let (region, mut seat) = Region::new(rt.alloc(), 1, 1)?;
    new_words_are_zero();
    a_new_region_can_be_cut();
    an_uncut_gives_bytes_back();
    a_cut_leaves_zeros();
    region.cut(&mut seat, old);
    region.uncut(&mut seat, old);
    region.cut(&mut seat, new);
    assert!(rt; issue(&region, &mut seat, new).0 == 0);
    let closed = region.close(seat);
    assert!(rt; closed.word(0x4008) == 0x1000001);
    Ok(())
}

#[test]
fn a_new_region_is_closed(rt: HostRuntime) -> Result<(), Fail> {
    let (region, seat) = Region::new(rt.alloc(), 1, 0)?;
    assert!(rt; seat.stake() == 0);
    let closed = region.close(seat);
    assert!(rt; closed.word(0) == 0);
    Ok(())
}
