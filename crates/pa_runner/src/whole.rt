//! A whole run: a region is made, the phases are played in a heap over it, and it is closed.
ghost use Rattle.std.specs.Prelude.{◌≡◌, ◌*◌, IfOk, length};
ghost use Rattle.pa_region.specs.Shares.{byte_word_count};
ghost use Rattle.pa_region.specs.Start.{first_view};
ghost use Rattle.pa_trace.specs.Rules.{rules_of};
ghost use Rattle.pa_trace.specs.Limits.{IsWithinLimits};
ghost use Rattle.pa_execution.specs.Turns.{Manner};
ghost use Rattle.pa_runner.specs.Gone.{HasGone, IsMadeOf};
ghost use Rattle.pa_runner.specs.Whole.{HasPlayed, IsHeldRun};

use crate::gate::Gate;
use crate::merging::merge_records;
use crate::opening::open_workers;
use crate::phases::Playing;
use pa_cells::slots_stay_seen;
use pa_heap::{Left, Worker, close};
use pa_record::{ReportLine, Run};
use pa_region::{Closed, Name, Region, Seat};
use pa_slot::OutOfMemory;
use pa_thread_state::Heap;
use pa_trace::Trace;
use std::alloc::Global;
use std::marker::{Brand, Send, Sync};
use std::sync::Wait;
use std::thread::Threads;

/// Plays a trace within the limits, each thread's lines of a phase on a thread of its own if it gets one, and returns the run
/// and the region's words at the end. The run is a legal run of the trace, and those words hold it. Which of the legal runs it
/// is depends on how the threads interleaved. With one thread there is one.
/// The only error is out of memory, with all threads joined.
pub fn run_trace<R: Threads + Wait + Sync, G: Gate>(
    rt: &R,
    alloc: Global,
    trace: &Trace,
    gate: &G,
) -> Result<(Run, Closed), OutOfMemory>
    requires within { IsWithinLimits trace.now }
    ensures { IfOk result (λ out. IsHeldRun trace.now out.0 out.1) }
{
    let (region, seat) = Region::new(alloc, trace.region, trace.lines.as_slice().len() as u32)?;
    run_in::<Brand, R, G>(rt, alloc, trace, gate, region, seat)
}

// Plays a trace in a new region, which `N` names with the trace's first plain partition.
fn run_in<N: Name + Send + Sync, R: Threads + Wait + Sync, G: Gate>(
    rt: &R,
    alloc: Global,
    trace: &Trace,
    gate: &G,
    region: Region,
    seat: Seat,
) -> Result<(Run, Closed), OutOfMemory>
    requires within { IsWithinLimits trace.now }
    requires regions { (region ≡ N.region) × (seat.region ≡ N.region) }
    requires plain { N.plain_from ≡ (rules_of trace.now).plain_from }
    requires long { byte_word_count N.region ≡ 262144 * trace.now.region }
    requires first { seat.view ≡ first_view (262144 * trace.now.region) (length trace.now.lines) }
    ensures { IfOk result (λ out. IsHeldRun trace.now out.0 out.1) }
{
    let budget = trace.lines.as_slice().len() as u32;
    let (heap, mut seat) = Heap::<N>::open(alloc, trace.region, region, seat, budget)?;
    let mut workers = open_workers(alloc, &heap, trace, &mut seat)?;
    let report = Playing {
        rt,
        heap: &heap,
        gate,
        trace,
    }
    .play_phases(alloc, workers.as_mut_slice(), &mut seat)?;
    close_run(alloc, trace, heap, workers, seat, report)
}

/// Closes the heap in which all phases of a trace were played, and makes the run from what is left.
pub fn close_run<N: Name>(
    alloc: Global,
    trace: &Trace,
    heap: Heap<N>,
    workers: Vec<Worker<N>>,
    seat: Seat,
    report: Vec<ReportLine>,
) -> Result<(Run, Closed), OutOfMemory>
    requires region { seat.region ≡ N.region }
    requires long { byte_word_count N.region ≡ 262144 * trace.now.region }
    requires limits { IsWithinLimits trace.now }
    requires played { HasPlayed trace.now workers.items seat.view report.items }
    ensures { IfOk result (λ out. IsHeldRun trace.now out.0 out.1) }
{
    slots_stay_seen();
    close_turns(alloc, trace, heap, workers, seat, report)
}

/// Closes the heap in which all turns of a trace were played, in whatever manner, and makes the run from what is left.
pub fn close_turns<N: Name>(
    alloc: Global,
    trace: &Trace,
    heap: Heap<N>,
    workers: Vec<Worker<N>>,
    seat: Seat,
    report: Vec<ReportLine>,
) -> Result<(Run, Closed), OutOfMemory>
    requires region { seat.region ≡ N.region }
    requires long { byte_word_count N.region ≡ 262144 * trace.now.region }
    requires limits { IsWithinLimits trace.now }
    requires gone { (way : Manner) × HasGone way trace.now workers.items seat.view report.items }
    ensures { IfOk result (λ out. IsMadeOf trace.now workers.items seat.view report.items out.0 out.1) }
{
    let entries = merge_records(alloc, trace.lines.as_slice(), workers.as_slice())?;
    let Left {
        roots,
        pool,
        cells,
        region,
    } = close(heap, workers, seat);
    let roots = Vec::from_array(alloc, roots)?;
    let run = Run {
        entries,
        roots,
        pool,
        cells,
        report,
    };
    Ok((run, region))
}
