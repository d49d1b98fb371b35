//! The end of a delayed run: its heap is closed, and the run is made of what is left.
ghost use Rattle.std.specs.Prelude.{◌≡◌, ℕ, ◌*◌, IfOk};
ghost use Rattle.pa_region.specs.Shares.{byte_word_count};
ghost use Rattle.pa_trace.specs.Limits.{IsWithinLimits};
ghost use Rattle.pa_delay_runner.specs.Played.{HasPlayedDelayed, IsHeldDelayed};

use pa_heap::Worker;
use pa_record::{ReportLine, Run};
use pa_region::{Closed, Name, Seat};
use pa_runner::close_turns;
use pa_slot::OutOfMemory;
use pa_thread_state::Heap;
use pa_trace::Trace;
use std::alloc::Global;

/// Closes the heap in which a delayed run was played, and makes the run from what is left.
pub fn close_delayed<N: Name>(
    alloc: Global,
    trace: &Trace,
    heap: Heap<N>,
    workers: Vec<Worker<N>>,
    seat: Seat,
    report: Vec<ReportLine>,
) -> Result<(Run, Closed), OutOfMemory>
    requires region { seat.region ≡ N.region }
    requires long { byte_word_count N.region ≡ 262144 * trace.now.region }
    requires limits { IsWithinLimits trace.now }
    requires played { (bytes : ℕ) × HasPlayedDelayed bytes trace.now workers.items seat.view report.items }
    ensures { IfOk result (λ out. (bytes : ℕ) → HasPlayedDelayed bytes trace.now workers.items seat.view report.items →
        IsHeldDelayed bytes trace.now out.0 out.1) }
{
    close_turns(alloc, trace, heap, workers, seat, report)
}
