//! A whole delayed run: a region is made, the lines are played in a heap over it, and it is closed.
ghost use Rattle.std.specs.Prelude.{◌≡◌, ◌*◌, IfOk, length};
ghost use Rattle.pa_region.specs.Shares.{byte_word_count};
ghost use Rattle.pa_region.specs.Start.{first_view};
ghost use Rattle.pa_trace.specs.Rules.{rules_of};
ghost use Rattle.pa_trace.specs.Limits.{IsWithinLimits};
ghost use Rattle.pa_delay_runner.specs.Played.{IsHeldDelayed};

use crate::close::close_delayed;
use crate::lines::play_lines;
use pa_record::Run;
use pa_region::{Closed, Name, Region, Seat};
use pa_runner::open_workers;
use pa_slot::OutOfMemory;
use pa_thread_state::Heap;
use pa_trace::Trace;
use std::alloc::Global;
use std::marker::Brand;
use std::sync::Wait;

/// Plays a trace within the limits line after line, with a queue of at most so many bytes before each thread's lists, and returns the run
/// and the region's words at the end. The run is the delayed run of the trace for that many bytes, and those words hold it. The only
/// error is out of memory.
pub fn play_delayed<R: Wait>(
    rt: &R,
    alloc: Global,
    trace: &Trace,
    bytes: u32,
) -> Result<(Run, Closed), OutOfMemory>
    requires within { IsWithinLimits trace.now }
    ensures { IfOk result (λ out. IsHeldDelayed bytes trace.now out.0 out.1) }
{
    let (region, seat) = Region::new(alloc, trace.region, trace.lines.as_slice().len() as u32)?;
    play_in::<Brand, R>(rt, alloc, trace, bytes, region, seat)
}

// Plays a trace so in a new region, which `N` names with the trace's first plain partition.
fn play_in<N: Name, R: Wait>(
    rt: &R,
    alloc: Global,
    trace: &Trace,
    bytes: u32,
    region: Region,
    seat: Seat,
) -> Result<(Run, Closed), OutOfMemory>
    requires within { IsWithinLimits trace.now }
    requires regions { (region ≡ N.region) × (seat.region ≡ N.region) }
    requires plain { N.plain_from ≡ (rules_of trace.now).plain_from }
    requires long { byte_word_count N.region ≡ 262144 * trace.now.region }
    requires first { seat.view ≡ first_view (262144 * trace.now.region) (length trace.now.lines) }
    ensures { IfOk result (λ out. IsHeldDelayed bytes trace.now out.0 out.1) }
{
    let budget = trace.lines.as_slice().len() as u32;
    let (heap, mut seat) = Heap::<N>::open(alloc, trace.region, region, seat, budget)?;
    let mut workers = open_workers(alloc, &heap, trace, &mut seat)?;
    let report = play_lines(
        rt,
        alloc,
        &heap,
        trace,
        bytes,
        workers.as_mut_slice(),
        &mut seat,
    )?;
    close_delayed(alloc, trace, heap, workers, seat, report)
}
