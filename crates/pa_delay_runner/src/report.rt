//! The lines of the report at the end of a phase of a run with queues.
ghost use Rattle.std.specs.Prelude.{◌≡◌, ℕ, ◌^◌, ◌<◌, ◌≤◌, All, OnOk, length};
ghost use Rattle.pa_record.specs.declared.report.ReportLine.{ReportLine};
ghost use Rattle.pa_trace.specs.Limits.{most_partitions, most_threads};
ghost use Rattle.pa_region.specs.Views.{HasEveryStake};
ghost use Rattle.pa_runner.specs.Phases.{worker_in};
ghost use Rattle.pa_runner.specs.Reporting.{HasAsked};
ghost use Rattle.pa_delay_runner.specs.Course.{IsCachedWith};
ghost use Rattle.pa_delay_runner.specs.Counted.{AreRecounted, IsQueuedBy};
ghost use Rattle.pa_delay_runner.specs.Played.{IsReportedWith, slots_in};

use pa_delay::Delay;
use pa_heap::Worker;
use pa_record::{ReportLine, Tally};
use pa_region::{Name, Seat};
use pa_runner::{NO_SLOTS, NoGate, Playing, cached_by};
use pa_slot::OutOfMemory;
use pa_thread_state::Heap;
use pa_trace::Trace;
use std::sync::Wait;

/// Appends the lines of a phase to a report: for each partition what the workers counted, the bytes that the totals words say, and the
/// census of its root, as in a run without queues; what is cached is what lists and queues have.
pub fn report_phase<N: Name, R: Wait>(
    rt: &R,
    heap: &Heap<N>,
    trace: &Trace,
    workers: &[Worker<N>],
    queues: &[Delay],
    seat: &mut Seat,
    phase: u32,
    report: &mut Vec<ReportLine>,
) -> Result<(), OutOfMemory>
    requires region { seat.old.region ≡ N.region }
    requires every { HasEveryStake seat.old.view }
    requires partitions { trace.now.partitions ≤ most_partitions }
    requires many { (length workers.now ≤ most_threads) × (length queues.now ≡ length workers.now) }
    requires few { (k : ℕ) → k < length workers.now → length (worker_in workers.now k).records ≤ 65536 }
    requires queued { (k : ℕ) → k < length workers.now → length (slots_in queues.now k) ≤ 65536 }
    ensures region { seat.new.region ≡ N.region }
    ensures asked { HasAsked seat.old.view seat.new.view }
    ensures reported { OnOk result (IsReportedWith phase trace.now.partitions (length workers.now) (worker_in workers.now)
        (slots_in queues.now) seat.old.view seat.new.view report.old.items report.new.items) }
{
    let first = report.len();
    let playing = Playing {
        rt,
        heap,
        gate: &NoGate,
        trace,
    };
    playing.report_phase(workers, seat, phase, report)?;
    recount(workers, queues, &mut report[first..]);
    Ok(())
}

// Says in these lines that what lists and queues have is cached.
fn recount<N: Name>(workers: &[Worker<N>], queues: &[Delay], lines: &mut [ReportLine])
    requires partitions { All (λ (l : ReportLine). l.partition < most_partitions) lines.old }
    requires many { (length workers.now ≤ most_threads) × (length queues.now ≡ length workers.now) }
    requires queued { (k : ℕ) → k < length workers.now → length (slots_in queues.now k) ≤ 65536 }
    ensures { AreRecounted (length workers.now) (worker_in workers.now) (slots_in queues.now) lines.old lines.new }
{
    for at in 0..lines.len() {
        let partition = lines[at].partition;
        let cached = cached_with(workers, queues, partition);
        lines[at].cached = cached;
    }
}

// What the lists and the queues of the workers have of a partition.
fn cached_with<N: Name>(workers: &[Worker<N>], queues: &[Delay], partition: u32) -> Tally
    requires partition { partition < most_partitions }
    requires many { (length workers.now ≤ most_threads) × (length queues.now ≡ length workers.now) }
    requires queued { (k : ℕ) → k < length workers.now → length (slots_in queues.now k) ≤ 65536 }
    ensures { IsCachedWith partition (length workers.now) (worker_in workers.now) (slots_in queues.now) result }
{
    let lists = cached_by(workers, partition);
    let waiting = queued_by(queues, partition);
    lists.and(waiting)
}

// What these queues have of a partition.
fn queued_by(queues: &[Delay], partition: u32) -> Tally
    requires partition { partition < most_partitions }
    requires many { length queues.now ≤ most_threads }
    requires queued { (k : ℕ) → k < length queues.now → length (slots_in queues.now k) ≤ 65536 }
    ensures queued { IsQueuedBy partition (length queues.now) (slots_in queues.now) result }
    ensures few { result.slots < 2 ^ 32 }
    ensures small { result.bytes < 2 ^ 48 }
{
    let mut sum = NO_SLOTS;
    for queue in queues {
        sum = sum.and(queue.queued(partition));
    }
    sum
}
