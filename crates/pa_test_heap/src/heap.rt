//! A worker without handles: its registers are empty, and it hands its stake over and takes it back.
ghost use Rattle.std.specs.Prelude.{◌≡◌};
ghost use Rattle.pa_region.specs.Start.{first_view};
ghost use Rattle.pa_thread_state.specs.Starts.{HasAllStakes};
ghost use Rattle.pa_op_specs.specs.Stocks.{IsForThread};

use pa_heap::Worker;
use pa_record::{Answer, Entry, RootAct, RootEntry, Tally};
use pa_region::{Mark, Name, Note, Region, Seat};
use pa_root::Root;
use pa_thread_state::Heap;
use std::alloc::Global;
use std::marker::Brand;
use std::process::Abort;
use std::sync::{Mutex, Wait};
use std::test::Fail;

// The note of thread 2, out of the seat with which a heap's workers begin.
fn hand_over(region: &Region, seat: &mut Seat) -> Note
    requires region { seat.old.region ≡ region.now }
    requires all { HasAllStakes 3 seat.old.view }
    ensures region { result.region ≡ region.now }
    ensures note { IsForThread 2 result.view }
    ensures budget { result.view.budget ≡ 3 }
{
    region.hand(seat, &[], 3, &[Mark::Stake(2)])
}

// The record of a line of thread 2.
fn entry(line: u32, answer: Answer) -> Entry {
    Entry {
        line,
        thread: 2,
        answer,
    }
}

// Whether a worker goes on after three lines that found nothing, and has neither slots nor handles.
fn has_told_nothing<N: Name>(worker: &Worker<N>) -> bool {
    let records = [
        entry(2, Answer::Nothing),
        entry(3, Answer::Nothing),
        entry(5, Answer::Nothing),
    ];
    !worker.stopped()
        && worker.records() == records.as_slice()
        && worker.cached(0) == Tally { slots: 0, bytes: 0 }
        && worker.counts()[0].issued == 0
}

// Three ops of a worker, and then its stake is handed over and taken back.
fn play<N: Name, R: Abort>(rt: &R, alloc: Global, region: Region, seat: Seat) -> Result<(), Fail>
    requires regions { (region ≡ N.region) × (seat.region ≡ N.region) }
    requires plain { N.plain_from ≡ 1 }
    requires first { seat.view ≡ first_view 262144 3 }
{
    let (heap, mut seat) = Heap::<N>::open(alloc, 1, region, seat, 3)?;
    let note = hand_over(heap.region(), &mut seat);
    let mut worker = Worker::<N>::open(alloc, note, 2, 1, 1, 1, 3)?;
    assert!(rt; worker.copy(&heap, 2, 0, 63) == Answer::Nothing);
    assert!(rt; worker.write(&heap, 3, 5, 7) == Answer::Nothing);
    assert!(rt; worker.deref(&heap, 5, 63, 0) == Answer::Nothing);
    assert!(rt; has_told_nothing(&worker));
    worker.settle(&heap);
    let told = worker.tell(&heap);
    worker.hear(&heap, told);
    assert!(rt; worker.records().len() == 3);
    Ok(())
}

#[test]
fn a_worker_without_handles_plays(rt: HostRuntime) -> Result<(), Fail> {
    let (region, seat) = Region::new(rt.alloc(), 1, 3)?;
    play::<Brand, _>(&rt, rt.alloc(), region, seat)
}

// Whether the root behind this lock has been purged on these lines, and nothing else was done.
fn was_purged<N: Name, R: Wait, const P: u32>(
    rt: &R,
    root: &Mutex<Root<N, P>>,
    lines: &[u32],
) -> bool {
    let locked = root.lock(rt);
    let mut place = 0;
    for entry in locked.journal() {
        if place >= lines.len() || *entry != purged(lines[place]) {
            return false;
        }
        place += 1;
    }
    place == lines.len()
}

// The entry of a purge.
fn purged(line: u32) -> RootEntry {
    RootEntry {
        line,
        act: RootAct::Purge,
    }
}

// Whether a worker goes on after two lines, both of them purges that gave nothing back.
fn has_purged_nothing<N: Name>(worker: &Worker<N>, answers: [Answer; 2]) -> bool {
    let nothing = Answer::Purged { slots: 0 };
    answers == [nothing, nothing] && worker.records().len() == 2 && !worker.stopped()
}

// Two purges of a worker without lists: they say so, and the roots of the run's two partitions have an entry of each.
fn purge_twice<N: Name, R: Abort + Wait>(
    rt: &R,
    alloc: Global,
    region: Region,
    seat: Seat,
) -> Result<(), Fail>
    requires regions { (region ≡ N.region) × (seat.region ≡ N.region) }
    requires plain { N.plain_from ≡ 2 }
    requires first { seat.view ≡ first_view 262144 3 }
{
    let (heap, mut seat) = Heap::<N>::open(alloc, 1, region, seat, 3)?;
    let note = hand_over(heap.region(), &mut seat);
    let mut worker = Worker::<N>::open(alloc, note, 2, 2, 2, 1, 3)?;
    let first = worker.purge(rt, &heap, 4)?;
    let second = worker.purge(rt, &heap, 7)?;
    assert!(rt; has_purged_nothing(&worker, [first, second]));
    let (_, _, first, second, third, fourth, _) = heap.parts();
    assert!(rt; was_purged(rt, &first, &[4, 7]));
    assert!(rt; was_purged(rt, &second, &[4, 7]));
    assert!(rt; was_purged(rt, &third, &[]));
    assert!(rt; was_purged(rt, &fourth, &[]));
    Ok(())
}

#[test]
fn a_worker_without_lists_purges(rt: HostRuntime) -> Result<(), Fail> {
    let (region, seat) = Region::new(rt.alloc(), 1, 3)?;
    purge_twice::<Brand, _>(&rt, rt.alloc(), region, seat)
}
