//! Several threads let go of one slot, and one reads it while another frees it.
ghost use Rattle.std.specs.Prelude.{◌≡◌, ◌+◌, ◌<◌, ◌≤◌, IfOk};
ghost use Rattle.pa_slot.specs.declared.title.OwnState.TheVariants.{Clean, Dirty};
ghost use Rattle.pa_slot.specs.declared.word.Step.TheVariants.{Reset};
ghost use Rattle.pa_slot.specs.Titles.{content_count};
ghost use Rattle.pa_region.specs.Views.{HasStake, own_as, ref_of, stake_of};
ghost use Rattle.pa_region.specs.Waiting.{unclean_of};
ghost use Rattle.pa_region.specs.Moves.{CanCount};
ghost use Rattle.pa_test_region.specs.Sharing.{Stays, StaysUser, GaveRef, AreTogether, IsShared};

use pa_count::{Fate, copy, issue};
use pa_machine::Item;
use pa_quarantine::{free_owned, read, release, write, zero_fill};
use pa_region::{
    Mark, Region, Seat, a_cut_leaves_zeros, a_new_region_can_be_cut, entries_stand_in_logs,
    new_words_are_zero, owns_change,
};
use pa_slot::{OutOfMemory, POISON, Title, Word, held};
use std::alloc::Global;
use std::test::Fail;
use std::thread;
use std::thread::Threads;

// The owner poisons and frees, with a seat that is handed back.
fn free_by(region: &Region, seat: Seat, title: Title) -> (Seat, Fate)
    requires region { seat.region ≡ region.now }
    requires able { (0 < own_as seat.view title Clean + own_as seat.view title Dirty) × (0 < seat.view.budget) }
    requires lending { (0 < stake_of seat.view 0) × (unclean_of seat.view ≡ 0) }
    ensures region { result.0.region ≡ region.now }
    ensures stays { Stays seat.view result.0.view }
{
    entries_stand_in_logs();
    let mut seat = seat;
    let (_, fate) = free_owned(region, &mut seat, title);
    (seat, fate)
}

// A `raw_ptr` is let go, with a seat that is handed back.
fn release_by(region: &Region, seat: Seat, title: Title) -> (Seat, Fate)
    requires region { seat.region ≡ region.now }
    requires able { CanCount Reset title seat.view × (unclean_of seat.view ≡ 0) }
    ensures region { result.0.region ≡ region.now }
    ensures stays { Stays seat.view result.0.view }
{
    entries_stand_in_logs();
    let mut seat = seat;
    let (_, fate) = release(region, &mut seat, title);
    (seat, fate)
}

// Gives one `raw_ptr` away, with a stake and the right to one counted step.
fn give_ref(region: &Region, seat: &mut Seat, title: Title, stake: u32) -> Seat
    requires region { seat.old.region ≡ region.now }
    requires able { (0 < ref_of seat.old.view title) × (0 < seat.old.view.budget) × (unclean_of seat.old.view ≡ 0) }
    requires stake { (stake < 16) × (0 < stake_of seat.old.view stake) }
    ensures regions { (seat.new.region ≡ region.now) × (result.region ≡ region.now) }
    ensures given { CanCount Reset title result.view × (unclean_of result.view ≡ 0) }
    ensures left { GaveRef title stake seat.old.view seat.new.view result.view }
{
    region
        .hand(seat, &[Item::Ref(title)], 1, &[Mark::Stake(stake)])
        .seat()
}

// Takes back what a seat has that was given away.
fn take_back(region: &Region, seat: &mut Seat, other: Seat)
    requires regions { (seat.old.region ≡ region.now) × (other.region ≡ region.now) }
    requires clean { (unclean_of seat.old.view ≡ 0) × (unclean_of other.view ≡ 0) }
    ensures region { seat.new.region ≡ region.now }
    ensures together { AreTogether seat.old.view other.view seat.new.view }
{
    region.take(seat, other.note());
}

// Two threads let go of a `raw_ptr` each.
fn release_both<R: Threads + Sync>(
    rt: &R,
    region: &Region,
    first: Seat,
    second: Seat,
    title: Title,
) -> ((Seat, Fate), (Seat, Fate))
    requires regions { (first.region ≡ region.now) × (second.region ≡ region.now) }
    requires first { CanCount Reset title first.view × (unclean_of first.view ≡ 0) }
    requires second { CanCount Reset title second.view × (unclean_of second.view ≡ 0) }
    ensures regions { (result.0.0.region ≡ region.now) × (result.1.0.region ≡ region.now) }
    ensures first { Stays first.view result.0.0.view }
    ensures second { Stays second.view result.1.0.view }
{
    thread::join(
        rt,
        move || release_by(region, first, title),
        move || release_by(region, second, title),
    )
}

// The owner frees while two others let go of a `raw_ptr` each, on three threads.
fn let_go<R: Threads + Sync>(
    rt: &R,
    region: &Region,
    owner: Seat,
    first: Seat,
    second: Seat,
    title: Title,
) -> ((Seat, Fate), ((Seat, Fate), (Seat, Fate)))
    requires regions { (owner.region ≡ region.now) × (first.region ≡ region.now) × (second.region ≡ region.now) }
    requires owner { (0 < own_as owner.view title Clean + own_as owner.view title Dirty) × (0 < owner.view.budget) }
    requires lending { (0 < stake_of owner.view 0) × (unclean_of owner.view ≡ 0) }
    requires first { CanCount Reset title first.view × (unclean_of first.view ≡ 0) }
    requires second { CanCount Reset title second.view × (unclean_of second.view ≡ 0) }
    ensures regions { (result.0.0.region ≡ region.now) × (result.1.0.0.region ≡ region.now) × (result.1.1.0.region ≡ region.now) }
    ensures owner { Stays owner.view result.0.0.view }
    ensures first { Stays first.view result.1.0.0.view }
    ensures second { Stays second.view result.1.1.0.view }
{
    thread::join(
        rt,
        move || free_by(region, owner, title),
        move ||
            requires regions { (first.region ≡ region.now) × (second.region ≡ region.now) }
            requires first { CanCount Reset title first.view × (unclean_of first.view ≡ 0) }
            requires second { CanCount Reset title second.view × (unclean_of second.view ≡ 0) }
            ensures regions { (result.0.0.region ≡ first.region) × (result.1.0.region ≡ second.region) }
            ensures first { Stays first.view result.0.0.view }
            ensures second { Stays second.view result.1.0.view }
        { release_both(rt, region, first, second, title) },
    )
}

// 1 for the answer `Last`.
fn last(fate: Fate) -> u32
    ensures { result ≤ 1 }
{
    match fate {
        Fate::Kept => 0,
        Fate::Last => 1,
    }
}

// A slot of 16 bytes.
fn small_slot() -> Title
    ensures { result ≡ record { start = 16384; len = 16; born = 0 } }
{
    Title {
        start: 0x4000,
        len: 16,
        born: 0,
    }
}

// A new region with one seat, which has the slot's Own and two Refs.
fn slot_with_two_refs(alloc: Global) -> Result<(Region, Seat), OutOfMemory>
    ensures region { IfOk result (λ r. r.1.region ≡ r.0) }
    ensures shared { IfOk result (λ r. IsShared record { start = 16384; len = 16; born = 0 } 2 3 r.1.view) }
{
    let title = small_slot();
    let (region, mut owner) = Region::new(alloc, 1, 6)?;
    new_words_are_zero();
    a_new_region_can_be_cut();
    a_cut_leaves_zeros();
    region.cut(&mut owner, title);
    issue(&region, &mut owner, title);
    copy(&region, &mut owner, title);
    copy(&region, &mut owner, title);
    Ok((region, owner))
}

#[test]
fn of_three_threads_one_is_last(rt: HostRuntime) -> Result<(), Fail> {
    let title = small_slot();
    let (region, mut owner) = slot_with_two_refs(rt.alloc())?;
    let first = give_ref(&region, &mut owner, title, 1);
    let second = give_ref(&region, &mut owner, title, 2);
    let (owner, others) = let_go(&rt, &region, owner, first, second, title);
    let (mut owner, freed) = owner;
    let ((first, one), (second, two)) = others;
    assert!(rt; last(freed) + last(one) + last(two) == 1);
    take_back(&region, &mut owner, first);
    take_back(&region, &mut owner, second);
    let closed = region.close(owner);
    assert!(rt; closed.word(0x4008) == 0x0000_0000_0600_0000);
    Ok(())
}

// Whether a read may give this value after a look that found this word, when 7 was written and another thread frees: with
// the bit set 7, or poison, with the bit clear poison.
fn may_be(found: Word, value: u64) -> bool {
    value == POISON || (held(found) && value == 7)
}

// Reads the first content word once: whether what it gave is what it may be.
fn reads_right(region: &Region, seat: &mut Seat, title: Title) -> bool
    requires region { seat.old.region ≡ region.now }
    requires able { (0 < ref_of seat.old.view title) × HasStake seat.old.view × (0 < content_count title) }
    ensures region { seat.new.region ≡ region.now }
    ensures stays { StaysUser title seat.old.view seat.new.view }
{
    entries_stand_in_logs();
    owns_change();
    let (found, value) = read(region, seat, title, 0);
    may_be(found, value)
}

// Reads so often, then lets go of the `raw_ptr`: whether all that was read is what it may be. The seat is handed back.
fn read_by(region: &Region, seat: Seat, title: Title, times: u32) -> (Seat, (bool, Fate))
    requires region { seat.region ≡ region.now }
    requires able { CanCount Reset title seat.view × (unclean_of seat.view ≡ 0) }
    requires long { 0 < content_count title }
    ensures region { result.0.region ≡ region.now }
    ensures stays { Stays seat.view result.0.view }
{
    let mut seat = seat;
    let mut right = true;
    for _ in 0..times {
        let so = reads_right(region, &mut seat, title);
        right = right && so;
    }
    let (seat, fate) = release_by(region, seat, title);
    (seat, (right, fate))
}

// One thread frees while another reads and then lets go of its `raw_ptr`.
fn free_beside_reads<R: Threads + Sync>(
    rt: &R,
    region: &Region,
    owner: Seat,
    reader: Seat,
    title: Title,
    times: u32,
) -> ((Seat, Fate), (Seat, (bool, Fate)))
    requires regions { (owner.region ≡ region.now) × (reader.region ≡ region.now) }
    requires owner { (0 < own_as owner.view title Clean + own_as owner.view title Dirty) × (0 < owner.view.budget) }
    requires lending { (0 < stake_of owner.view 0) × (unclean_of owner.view ≡ 0) }
    requires reader { CanCount Reset title reader.view × (unclean_of reader.view ≡ 0) }
    requires long { 0 < content_count title }
    ensures regions { (result.0.0.region ≡ region.now) × (result.1.0.region ≡ region.now) }
    ensures owner { Stays owner.view result.0.0.view }
    ensures reader { Stays reader.view result.1.0.view }
{
    thread::join(
        rt,
        move || free_by(region, owner, title),
        move || read_by(region, reader, title, times),
    )
}

// A slot of 4,096 bytes, which takes a while to be poisoned.
fn large_slot() -> Title
    ensures { result ≡ record { start = 16384; len = 4096; born = 0 } }
{
    Title {
        start: 0x4000,
        len: 4096,
        born: 0,
    }
}

// A new region with one seat, which has the slot's Own, with 7 written to it, and one Ref.
fn slot_with_one_ref(alloc: Global) -> Result<(Region, Seat), OutOfMemory>
    ensures region { IfOk result (λ r. r.1.region ≡ r.0) }
    ensures shared { IfOk result (λ r. IsShared record { start = 16384; len = 4096; born = 0 } 1 2 r.1.view) }
{
    let title = large_slot();
    let (region, mut owner) = Region::new(alloc, 1, 5)?;
    a_new_region_can_be_cut();
    region.cut(&mut owner, title);
    zero_fill(&region, &mut owner, title);
    issue(&region, &mut owner, title);
    write(&region, &mut owner, title, 7);
    copy(&region, &mut owner, title);
    Ok((region, owner))
}

// One round: whether all that was read is what it may be, how many answers were `Last`,
// and at the end the first content word and the count word.
fn one_round<R: Threads + Sync>(
    rt: &R,
    alloc: Global,
    times: u32,
) -> Result<(bool, u32, u64, u64), OutOfMemory> {
    let title = large_slot();
    let (region, mut owner) = slot_with_one_ref(alloc)?;
    let reader = give_ref(&region, &mut owner, title, 1);
    let (owner, reader) = free_beside_reads(rt, &region, owner, reader, title, times);
    let (mut owner, freed) = owner;
    let (reader, (right, released)) = reader;
    take_back(&region, &mut owner, reader);
    let closed = region.close(owner);
    Ok((
        right,
        last(freed) + last(released),
        closed.word(0x4000),
        closed.word(0x4ff8),
    ))
}

#[test]
fn a_reader_beside_a_free_reads_what_it_may(rt: HostRuntime) -> Result<(), Fail> {
    for round in 0..12u32 {
        let (right, lasts, content, word) = one_round(&rt, rt.alloc(), 100 * round)?;
        assert!(rt; right);
        assert!(rt; lasts == 1);
        assert!(rt; content == POISON);
        assert!(rt; word == 0x0000_0000_0500_0000);
    }
    Ok(())
}
