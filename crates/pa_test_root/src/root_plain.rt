//! A long list of calls, played on a root over a region and on the plain placement.
ghost use Rattle.std.specs.Prelude.{◌≡◌, ◌+◌, ◌<◌, ◌≤◌, length, ℕ, ◌*◌, IfOk, OnOk};
ghost use Rattle.pa_direct.specs.Shapes.{IsShape};
ghost use Rattle.pa_test_root.specs.RootScripts.{IsPlayed};

use crate::root_scripts::{Call, Line, play};
use arrayvec::ArrayVec;
use pa_buckets::{CLASSES, Class, fill_count};
use pa_direct::{Shape, shape};
use pa_layout::{super_page_of, supers_for};
use pa_place::{Out, Placement, PoolPlan};
use pa_record::{Batch, Census, Numbered, RootAct, RootEntry};
use pa_slot::{OutOfMemory, SlotName, Title};
use std::alloc::Global;
use std::test::Fail;

// How many calls there are.
const CALLS: u32 = 400;

// How many super pages the region of the drawn calls has.
const SUPERS: u32 = 7;

// How many the region has in which each class finds room.
const ROOMY: u32 = 16;

// The slot's name.
fn named(title: Title) -> SlotName {
    SlotName {
        start: title.start,
        born: title.born,
    }
}

// The slots with their numbers: no step was made on one, so each is 0.
fn at_zero(titles: &ArrayVec<Title, 16>) -> Batch {
    let mut slots = Batch::new();
    let titles = titles.as_slice();
    for i in 0..titles.len() {
        let slot = named(titles[i]);
        slots.push(Numbered { slot, number: 0 });
    }
    slots
}

// A fill: what the root's journal says of it, and the slots. At most `steps` steps were made before.
fn fill(
    placement: &mut Placement,
    pool: &mut PoolPlan,
    steps: u32,
    class: Class,
) -> Result<(RootAct, ArrayVec<Title, 16>), OutOfMemory>
    requires played { IsPlayed steps pool.old.entries placement.old }
    requires few { steps < 10000 }
    ensures played { OnOk result (IsPlayed (steps + 1) pool.new.entries placement.new) }
{
    let placed = placement.fill(pool, class, fill_count(class))?;
    let act = if placed.titles.is_empty() {
        RootAct::Full {
            class: Some(class),
            pool: placed.pool.unwrap_or(0),
        }
    } else {
        RootAct::Fill {
            class,
            pool: placed.pool,
            slots: at_zero(&placed.titles),
        }
    };
    Ok((act, placed.titles))
}

// A slot goes back, if it is out. At most `steps` steps were made before.
fn give(placement: &mut Placement, steps: u32, title: Title)
    requires turn { placement.old.turn ≤ 32 * steps }
    requires few { steps < 10000 }
    ensures played { (n : ℕ) → IsPlayed steps n placement.old → IsPlayed (steps + 1) n placement.new }
{
    if let Some(Out::Slot(title)) = placement.out(named(title)) {
        placement.give(&[title]);
    }
}

// Slots go back one by one. At most `steps` steps were made before.
fn give_all(placement: &mut Placement, pool: &PoolPlan, steps: u32, titles: &ArrayVec<Title, 16>)
    requires played { IsPlayed steps pool.now.entries placement.old }
    requires few { steps < 9000 }
    ensures played { IsPlayed (steps + 16) pool.now.entries placement.new }
{
    let titles = titles.as_slice();
    for i in 0..16u32 {
        if (i as usize) < titles.len() {
            give(placement, steps + i, titles[i as usize]);
        } else {
            stay(placement, steps + i);
        }
    }
}

// Nothing is done. At most `steps` steps were made before.
fn stay(placement: &mut Placement, steps: u32)
    requires few { steps < 10000 }
    ensures played { (n : ℕ) → IsPlayed steps n placement.old → IsPlayed (steps + 1) n placement.new }
{
    let _steps = steps;
    let _placement = placement;
}

// A direct map: what the root's journal says of it, and its title. At most `steps` steps were made before.
fn map(
    placement: &mut Placement,
    pool: &mut PoolPlan,
    steps: u32,
    shape: Shape,
) -> Result<(RootAct, Option<Title>), OutOfMemory>
    requires shape { IsShape shape }
    requires played { IsPlayed steps pool.old.entries placement.old }
    requires few { steps < 10000 }
    ensures played { OnOk result (IsPlayed (steps + 1) pool.new.entries placement.new) }
{
    let placed = placement.map(pool, shape.slot, shape.supers)?;
    let pool = placed.pool.unwrap_or(0);
    let titles = placed.titles.as_slice();
    if titles.is_empty() {
        return Ok((RootAct::Full { class: None, pool }, None));
    }
    let title = titles[0];
    let act = RootAct::Map {
        pool,
        slot: named(title),
        len: title.len,
    };
    Ok((act, Some(title)))
}

// A direct map goes back, if it is mapped: what the root's journal says of it. At most `steps` steps were made before.
fn unmap(
    placement: &mut Placement,
    pool: &mut PoolPlan,
    steps: u32,
    title: Title,
) -> Option<RootAct>
    requires played { IsPlayed steps pool.old.entries placement.old }
    requires few { steps < 10000 }
    ensures played { IsPlayed (steps + 1) pool.new.entries placement.new }
{
    let slot = named(title);
    let Some(Out::Map(title)) = placement.out(slot) else {
        return None;
    };
    if !pool.taken(super_page_of(title.start), supers_for(title.len)) {
        return None;
    }
    let pool = placement.unmap(pool, title);
    let slot = Numbered { slot, number: 0 };
    Some(RootAct::Unmap { pool, slot })
}

// What a list of calls left.
#[derive(Drop)]
struct Left {
    journal: Vec<RootEntry>,
    census: Census,
}

// Plays the calls over this many super pages. Each is at most 17 steps.
fn play_plain(alloc: Global, supers: u32, script: &[Line]) -> Result<Left, OutOfMemory>
    requires supers { supers ≤ 64 }
    requires few { length script.now ≤ 400 }
{
    let mut pool = PoolPlan::new(alloc, supers)?;
    let mut placement = Placement::new(alloc)?;
    let mut journal = Vec::new(alloc);
    let mut held = Vec::new(alloc);
    let mut maps = Vec::new(alloc);
    for i in 0..script.len() {
        let steps = 17 * i as u32;
        let line = script[i].line;
        let call = script[i].call;
        let act = play_call(&mut placement, &mut pool, &mut held, &mut maps, steps, call)?;
        if let Some(act) = act {
            journal.push(RootEntry { line, act })?;
        }
    }
    let census = placement.census();
    Ok(Left { journal, census })
}

// One call, which is at most 17 steps. At most `steps` were made before.
fn play_call(
    placement: &mut Placement,
    pool: &mut PoolPlan,
    held: &mut Vec<ArrayVec<Title, 16>>,
    maps: &mut Vec<Title>,
    steps: u32,
    call: Call,
) -> Result<Option<RootAct>, OutOfMemory>
    requires played { IsPlayed steps pool.old.entries placement.old }
    requires few { steps < 8000 }
    ensures played { OnOk result (IsPlayed (steps + 17) pool.new.entries placement.new) }
{
    match call {
        Call::Fill(number) => {
            let class = Class::of(number).ok_or(OutOfMemory)?;
            let (act, titles) = fill(placement, pool, steps, class)?;
            if !titles.is_empty() {
                held.push(titles)?;
            }
            Ok(Some(act))
        }
        Call::Give(place) => {
            if place >= held.len() {
                return Ok(None);
            }
            let titles = held.remove(place);
            give_all(placement, pool, steps, &titles);
            let slots = at_zero(&titles);
            Ok(Some(RootAct::Give { slots }))
        }
        Call::Purge => {
            placement.purge();
            Ok(Some(RootAct::Purge))
        }
        Call::Map(size) => {
            if size <= 917_496 || size > 33_521_656 {
                return Ok(None);
            }
            let Some(shape) = shape(size) else {
                return Ok(None);
            };
            let (act, title) = map(placement, pool, steps, shape)?;
            if let Some(title) = title {
                maps.push(title)?;
            }
            Ok(Some(act))
        }
        Call::Unmap(place) => {
            if place >= maps.len() {
                return Ok(None);
            }
            let title = maps.remove(place);
            Ok(unmap(placement, pool, steps, title))
        }
    }
}

// The next of a row of numbers that look random.
fn next(seed: u64) -> u64 {
    seed.wrapping_mul(6_364_136_223_846_793_005)
        .wrapping_add(1_442_695_040_888_963_407)
}

// A call by these numbers: of twenty about five are fills of any class, five are fills of one of eight classes, five give back one of the
// first few batches, two are direct maps of one to three super pages, two give back one of the first few of those, and one is a purge.
fn call_by(kind: u64, number: u64) -> Call {
    match kind % 20 {
        0..=4 => Call::Fill((number % u64::from(CLASSES)) as u32),
        5..=9 => Call::Fill(21 * (number % 8) as u32),
        10..=14 => Call::Give((number % 6) as usize),
        15..=16 => Call::Map(917_497 + (number % 5_000_000) as u32),
        17..=18 => Call::Unmap((number % 3) as usize),
        _ => Call::Purge,
    }
}

fn script(alloc: Global, seed: u64) -> Result<Vec<Line>, OutOfMemory>
    ensures many { IfOk result (λ s. length s.items ≤ 400) }
{
    let mut script = Vec::new(alloc);
    let mut state = seed;
    for i in 0..CALLS {
        let kind = next(state);
        state = next(kind);
        let call = call_by(kind >> 33, state >> 33);
        script.push(Line { line: i + 2, call })?;
    }
    Ok(script)
}

#[test]
fn a_root_makes_the_journal_of_the_plain_placement(rt: HostRuntime) -> Result<(), Fail> {
    let script = script(rt.alloc(), 7)?;
    let left = play(&rt, rt.alloc(), SUPERS, &script)?;
    let plain = play_plain(rt.alloc(), SUPERS, &script)?;
    assert!(rt; left.journal.as_slice() == plain.journal.as_slice());
    assert!(rt; left.census == plain.census);
    assert!(rt; left.journal.len() > 300);
    let entries = left.journal.as_slice();
    assert!(rt;
        entries
            .iter()
            .any(|entry| matches!(entry.act, RootAct::Map { .. }))
    );
    assert!(rt;
        entries
            .iter()
            .any(|entry| matches!(entry.act, RootAct::Unmap { .. }))
    );
    assert!(rt; entries.iter().any(|entry| matches!(entry.act, RootAct::Full { class: None, .. })));
    assert!(rt;
        entries.iter().any(|entry| matches!(entry.act, RootAct::Full { class: Some(_), .. }))
    );
    Ok(())
}

// A fill of each class, and its slots go back.
fn each_class(alloc: Global) -> Result<Vec<Line>, OutOfMemory>
    ensures many { IfOk result (λ s. length s.items ≤ 400) }
{
    let mut script = Vec::new(alloc);
    for number in 0..CLASSES {
        let line = number + 2;
        script.push(Line {
            line,
            call: Call::Fill(number),
        })?;
        script.push(Line {
            line,
            call: Call::Give(0),
        })?;
    }
    Ok(script)
}

#[test]
fn each_class_is_filled_and_comes_back(rt: HostRuntime) -> Result<(), Fail> {
    let script = each_class(rt.alloc())?;
    let left = play(&rt, rt.alloc(), ROOMY, &script)?;
    let plain = play_plain(rt.alloc(), ROOMY, &script)?;
    assert!(rt; left.journal.len() == 340);
    assert!(rt; left.journal.as_slice() == plain.journal.as_slice());
    assert!(rt; left.census == plain.census);
    Ok(())
}
