//! A worker's slot in quarantine: it is freed while a `raw_ptr` points to it, read through that, and returned by the reset. A slot of a
//! plain partition, to which no `raw_ptr` is made.
ghost use Rattle.std.specs.Prelude.{◌≡◌};
ghost use Rattle.pa_region.specs.Start.{first_view};
ghost use Rattle.pa_thread_state.specs.Starts.{HasAllStakes};
ghost use Rattle.pa_op_specs.specs.Stocks.{IsForThread};

use pa_heap::Worker;
use pa_record::{Answer, Seen, Tally};
use pa_region::{Mark, Name, Note, Region, Seat};
use pa_slot::{SlotName, Word};
use pa_thread_state::Heap;
use std::alloc::Global;
use std::marker::Brand;
use std::process::Abort;
use std::sync::Wait;
use std::test::Fail;

// How many lines are played.
const LINES: u32 = 7;

// What every word of a freed slot reads.
const POISON: u64 = 0xefef_efef_efef_efef;

// What the step of an op found at the first slot of the first span.
fn seen(found: u64) -> Seen {
    let slot = SlotName {
        start: 16384,
        born: 0,
    };
    Seen {
        slot,
        found: Word(found),
    }
}

// The answer of a step on that slot.
fn done(found: u64) -> Answer {
    Answer::Done { seen: seen(found) }
}

// Whether these are the answers of the seven lines.
fn are_due(answers: [Answer; 7]) -> bool {
    let due = [
        Answer::Made {
            seen: seen(0),
            usable: 8,
        },
        done(0x100_0001),
        done(0x200_0001),
        done(0x300_0003),
        Answer::Dangling {
            seen: seen(0x400_0002),
            value: POISON,
        },
        done(0x400_0002),
        Answer::Swapped { entry: 0 },
    ];
    answers == due
}

// Whether a worker goes on after seven lines, with one free that left a slot, and eight slots in its cache.
fn has_ended<N: Name>(worker: &Worker<N>) -> bool {
    let cached = Tally {
        slots: 8,
        bytes: 128,
    };
    !worker.stopped()
        && worker.records().len() == 7
        && worker.counts()[0].left == 1
        && worker.cached(0) == cached
}

// The note of thread 0, out of the seat with which a heap's workers begin.
fn hand_over(region: &Region, seat: &mut Seat) -> Note
    requires region { seat.old.region ≡ region.now }
    requires all { HasAllStakes 7 seat.old.view }
    ensures region { result.region ≡ region.now }
    ensures note { IsForThread 0 result.view }
    ensures budget { result.view.budget ≡ 7 }
{
    region.hand(seat, &[], LINES, &[Mark::Stake(0)])
}

// A slot is made, written, pointed to, freed, read through the `raw_ptr` and let go.
// The handle of an empty register goes to a cell.
fn play<N: Name, R: Abort + Wait>(
    rt: &R,
    alloc: Global,
    region: Region,
    seat: Seat,
) -> Result<(), Fail>
    requires regions { (region ≡ N.region) × (seat.region ≡ N.region) }
    requires plain { N.plain_from ≡ 1 }
    requires first { seat.view ≡ first_view 262144 7 }
{
    let (heap, mut seat) = Heap::<N>::open(alloc, 1, region, seat, LINES)?;
    let note = hand_over(heap.region(), &mut seat);
    let mut worker = Worker::<N>::open(alloc, note, 0, 1, 1, 1, LINES)?;
    let made = worker.alloc(rt, &heap, 2, 0, 0, 8)?;
    let written = worker.write(&heap, 3, 0, 7);
    let copied = worker.copy(&heap, 4, 0, 1);
    let freed = worker.free(rt, &heap, 5, 0)?;
    let read = worker.deref(&heap, 6, 1, 0);
    let cleared = worker.reset(rt, &heap, 7, 1)?;
    let swapped = worker.exchange(rt, &heap, 8, 0, 1)?;
    assert!(rt; are_due([made, written, copied, freed, read, cleared, swapped]));
    assert!(rt; has_ended(&worker));
    Ok(())
}

#[test]
fn a_freed_slot_waits_for_its_last_raw_ptr(rt: HostRuntime) -> Result<(), Fail> {
    let (region, seat) = Region::new(rt.alloc(), 1, LINES)?;
    play::<Brand, _>(&rt, rt.alloc(), region, seat)
}

// A worker of version 2 makes a slot of that version's classes, frees it and purges: its list has four slots, and then none.
fn play_dense<N: Name, R: Abort + Wait>(
    rt: &R,
    alloc: Global,
    region: Region,
    seat: Seat,
) -> Result<(), Fail>
    requires regions { (region ≡ N.region) × (seat.region ≡ N.region) }
    requires plain { N.plain_from ≡ 1 }
    requires first { seat.view ≡ first_view 262144 7 }
{
    let (heap, mut seat) = Heap::<N>::open(alloc, 1, region, seat, LINES)?;
    let note = hand_over(heap.region(), &mut seat);
    let mut worker = Worker::<N>::open(alloc, note, 0, 1, 1, 2, LINES)?;
    let made = worker.alloc(rt, &heap, 2, 0, 0, 130)?;
    let freed = worker.free(rt, &heap, 3, 0)?;
    let listed = worker.cached(0);
    let purged = worker.purge(rt, &heap, 4)?;
    assert!(rt;
        made == Answer::Made {
            seen: seen(0),
            usable: 136
        }
    );
    assert!(rt; freed == done(0x100_0001));
    assert!(rt;
        listed
            == Tally {
                slots: 4,
                bytes: 576
            }
    );
    assert!(rt; purged == Answer::Purged { slots: 4 });
    assert!(rt; worker.cached(0) == Tally { slots: 0, bytes: 0 });
    Ok(())
}

#[test]
fn a_worker_of_version_2_has_its_classes(rt: HostRuntime) -> Result<(), Fail> {
    let (region, seat) = Region::new(rt.alloc(), 1, LINES)?;
    play_dense::<Brand, _>(&rt, rt.alloc(), region, seat)
}

// A worker whose one partition is plain makes a slot, copies it to its own register and to an empty one, writes it and frees it: no
// `raw_ptr` to it is made, and the free returns it.
fn play_plain<N: Name, R: Abort + Wait>(
    rt: &R,
    alloc: Global,
    region: Region,
    seat: Seat,
) -> Result<(), Fail>
    requires regions { (region ≡ N.region) × (seat.region ≡ N.region) }
    requires plain { N.plain_from ≡ 0 }
    requires first { seat.view ≡ first_view 262144 7 }
{
    let (heap, mut seat) = Heap::<N>::open(alloc, 1, region, seat, LINES)?;
    let note = hand_over(heap.region(), &mut seat);
    let mut worker = Worker::<N>::open(alloc, note, 0, 1, 0, 3, LINES)?;
    let made = worker.alloc(rt, &heap, 2, 0, 0, 8)?;
    let filled = worker.copy(&heap, 3, 0, 0);
    let uncounted = worker.copy(&heap, 4, 0, 1);
    let written = worker.write(&heap, 5, 0, 7);
    let freed = worker.free(rt, &heap, 6, 0)?;
    assert!(rt;
        made == Answer::Made {
            seen: seen(0),
            usable: 8
        }
    );
    assert!(rt; filled == Answer::Filled && uncounted == Answer::Uncounted);
    assert!(rt; [written, freed] == [done(0x100_0001), done(0x200_0001)]);
    assert!(rt; worker.records().len() == 5 && worker.counts()[0].entered == 0);
    Ok(())
}

#[test]
fn no_raw_ptr_to_a_plain_slot_is_made(rt: HostRuntime) -> Result<(), Fail> {
    let (region, seat) = Region::new(rt.alloc(), 1, LINES)?;
    play_plain::<Brand, _>(&rt, rt.alloc(), region, seat)
}
