//! The workers of all threads, as they begin.
ghost use Rattle.std.specs.Prelude.{◌≡◌, ℕ, ◌<◌, ◌≤◌, ◌∷◌, [], IfOk, OnErr, OnOk, length};
ghost use Rattle.pa_region.specs.declared.marks.Mark.TheVariants.{Stake};
ghost use Rattle.pa_region.specs.Views.{stake_of};
ghost use Rattle.pa_region.specs.Waiting.{unclean_of};
ghost use Rattle.pa_region.specs.Takes.{log_of};
ghost use Rattle.pa_region.specs.Hands.{left_after};
ghost use Rattle.pa_region.specs.Marks.{parcel_of};
ghost use Rattle.pa_trace.specs.Rules.{rules_of};
ghost use Rattle.pa_trace.specs.Limits.{IsWithinLimits, most_partitions, most_threads};
ghost use Rattle.pa_thread_state.specs.Starts.{HasAllStakes};
ghost use Rattle.pa_execution.specs.Gathering.{IsMain};
ghost use Rattle.pa_runner.specs.Opening.{IsNewFor, AreNew, after_opening};

use crate::counting::count_lines;
use pa_heap::Worker;
use pa_region::{Mark, Name, Seat};
use pa_slot::OutOfMemory;
use pa_thread_state::Heap;
use pa_trace::{Rules, Trace};
use std::alloc::Global;

/// The workers of all threads of a trace, from a seat that has every stake: each gets its thread's, and a counted step for each
/// line of its thread. If memory runs out, the stakes of the workers that were opened, and of the one that wasn't, are let go with them:
/// the seat has the others, and what it had besides.
pub fn open_workers<N: Name>(
    alloc: Global,
    heap: &Heap<N>,
    trace: &Trace,
    seat: &mut Seat,
) -> Result<Vec<Worker<N>>, OutOfMemory>
    requires region { seat.old.region ≡ N.region }
    requires plain { N.plain_from ≡ (rules_of trace.now).plain_from }
    requires limits { IsWithinLimits trace.now }
    requires stakes { (budget : ℕ) × (length trace.now.lines ≤ budget) × HasAllStakes budget seat.old.view }
    ensures region { seat.new.region ≡ N.region }
    ensures main { OnOk result (IsMain trace.now.threads seat.new.view) }
    ensures handed { OnOk result (seat.new.view ≡ after_opening trace.now.lines trace.now.threads seat.old.view) }
    ensures stops { OnErr result ((count : ℕ) × (count ≤ trace.now.threads)
        × (seat.new.view ≡ after_opening trace.now.lines count seat.old.view)) }
    ensures new { IfOk result (λ workers. AreNew trace.now workers.items) }
{
    let counts = count_lines(trace.lines.as_slice());
    let rules = trace.rules();
    let mut workers = Vec::new(alloc);
    for k in 0..trace.threads {
        let lines = counts[k as usize];
        workers.push(open_worker(alloc, heap, seat, k, trace.partitions, rules, lines)?)?;
    }
    Ok(workers)
}

// The worker of one thread, in a run by these rules, gets its stake, and this many counted steps.
fn open_worker<N: Name>(
    alloc: Global,
    heap: &Heap<N>,
    seat: &mut Seat,
    thread: u32,
    partitions: u32,
    rules: Rules,
    lines: u32,
) -> Result<Worker<N>, OutOfMemory>
    requires region { seat.old.region ≡ N.region }
    requires plain { rules.plain_from ≡ N.plain_from }
    requires small { (thread < most_threads) × (partitions ≤ most_partitions) }
    requires stake { 0 < stake_of seat.old.view thread }
    requires log { log_of thread seat.old.view ≡ [] }
    requires clean { unclean_of seat.old.view ≡ 0 }
    requires budget { lines ≤ seat.old.view.budget }
    ensures region { seat.new.region ≡ N.region }
    ensures left { seat.new.view ≡ left_after (parcel_of [] lines (Stake thread ∷ [])) seat.old.view }
    ensures new { IfOk result (IsNewFor thread partitions rules lines) }
{
    let note = heap.region().hand(seat, &[], lines, &[Mark::Stake(thread)]);
    Worker::open(
        alloc,
        note,
        thread,
        partitions,
        rules.plain_from,
        rules.version,
        lines,
    )
}
