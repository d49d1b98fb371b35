//! The lines of the report at the end of a phase.
ghost use Rattle.std.specs.Prelude.{◌≡◌, ℕ, ◌+◌, ◌-◌, ◌^◌, ◌<◌, ◌≤◌, OnErr, OnOk, length};
ghost use Rattle.pa_trace.specs.Limits.{most_partitions, most_threads};
ghost use Rattle.pa_region.specs.declared.view.View.{View};
ghost use Rattle.pa_region.specs.Views.{HasEveryStake};
ghost use Rattle.pa_rules.specs.Report.{census_of};
ghost use Rattle.pa_thread_state.specs.Censuses.{TellsCensus};
ghost use Rattle.pa_execution.specs.Lines.{IsCachedBy};
ghost use Rattle.pa_runner.specs.Phases.{worker_in};
ghost use Rattle.pa_runner.specs.Reporting.{AreCountedBy, HasAsked, IsBalance, IsLineFor, IsReported};

use crate::phases::Playing;
use pa_heap::Worker;
use pa_op_specs::Count;
use pa_record::{Census, ReportLine, Tally};
use pa_region::{Name, Seat};
use pa_slot::OutOfMemory;
use std::sync::Wait;

impl<R: Wait, N: Name, G> Playing<'_, R, N, G> {
    /// Appends the lines of a phase to a report: for each partition what the workers counted and have cached, the bytes that the
    /// totals words say, and the census of its root. If there is no memory for them, the main seat has what it had all the same, and
    /// the report has the lines of the first partitions.
    pub fn report_phase(
        &self,
        workers: &[Worker<N>],
        seat: &mut Seat,
        phase: u32,
        report: &mut Vec<ReportLine>,
    ) -> Result<(), OutOfMemory>
        requires region { seat.old.region ≡ N.region }
        requires every { HasEveryStake seat.old.view }
        requires partitions { self.now.trace.now.partitions ≤ most_partitions }
        requires many { length workers.now ≤ most_threads }
        requires few { (k : ℕ) → k < length workers.now → length (worker_in workers.now k).records ≤ 65536 }
        ensures region { seat.new.region ≡ N.region }
        ensures asked { HasAsked seat.old.view seat.new.view }
        ensures reported { OnOk result (IsReported phase self.now.trace.now.partitions (length workers.now) (worker_in workers.now)
            seat.old.view seat.new.view report.old.items report.new.items) }
        ensures begun { OnErr result ((partitions : ℕ) × (partitions < self.now.trace.now.partitions)
            × IsReported phase partitions (length workers.now) (worker_in workers.now) seat.old.view seat.new.view
            report.old.items report.new.items) }
    {
        seat.aware();
        let partitions = self.trace.partitions;
        for partition in 0..partitions {
            let census = self.heap.census(self.rt, seat, partition);
            let bytes = self.heap.balance(seat, partition);
            let line = line_of(workers, phase, partition, bytes, &census);
            report.push(line)?;
        }
        Ok(())
    }
}

// The line of a partition, from its live and its quarantined bytes and this census of its root.
fn line_of<N: Name>(
    workers: &[Worker<N>],
    phase: u32,
    partition: u32,
    bytes: (u64, u64),
    census: &Census,
) -> ReportLine
    requires partition { partition < most_partitions }
    requires many { length workers.now ≤ most_threads }
    requires few { (k : ℕ) → k < length workers.now → length (worker_in workers.now k).records ≤ 65536 }
    ensures partition { result.partition ≡ partition }
    ensures census { census_of result ≡ census.now }
    ensures right { (seat : View) → TellsCensus partition seat census.now → IsBalance partition seat bytes →
        IsLineFor phase (length workers.now) (worker_in workers.now) seat result }
{
    let count = counted_by(workers, partition);
    ReportLine {
        phase,
        partition,
        live: left_of(count.issued, count.freed, bytes.0),
        quarantined: left_of(count.entered, count.left, bytes.1),
        cached: cached_by(workers, partition),
        root: census.root,
        committed: census.committed,
        reserved: census.reserved,
        full: census.full,
        active: census.active,
        empty: census.empty,
        decommitted: census.decommitted,
    }
}

// The slots that went in minus those that went out, with these bytes. No more goes out than in: a law of the run says so (`WentIn` of
// pa_legal), and nothing here.
fn left_of(into: u64, out: u64, bytes: u64) -> Tally
    ensures { result ≡ record { slots = into - out; bytes = bytes } }
{
    Tally {
        slots: into.saturating_sub(out),
        bytes,
    }
}

// What the workers counted of a partition.
fn counted_by<N: Name>(workers: &[Worker<N>], partition: u32) -> Count
    requires partition { partition < most_partitions }
    requires many { length workers.now ≤ most_threads }
    requires few { (k : ℕ) → k < length workers.now → length (worker_in workers.now k).records ≤ 65536 }
    ensures { AreCountedBy partition (length workers.now) (worker_in workers.now) result }
{
    let mut sum = Count {
        issued: 0,
        freed: 0,
        entered: 0,
        left: 0,
    };
    for worker in workers {
        worker.kept();
        let counts = worker.counts();
        sum = both(sum, counts[partition as usize]);
    }
    sum
}

// Two counts together.
fn both(first: Count, second: Count) -> Count
    requires issued { first.issued + second.issued < 2 ^ 64 }
    requires freed { first.freed + second.freed < 2 ^ 64 }
    requires entered { first.entered + second.entered < 2 ^ 64 }
    requires left { first.left + second.left < 2 ^ 64 }
    ensures issued { result.issued ≡ first.issued + second.issued }
    ensures freed { result.freed ≡ first.freed + second.freed }
    ensures entered { result.entered ≡ first.entered + second.entered }
    ensures left { result.left ≡ first.left + second.left }
{
    Count {
        issued: first.issued + second.issued,
        freed: first.freed + second.freed,
        entered: first.entered + second.entered,
        left: first.left + second.left,
    }
}

/// No slots, which have no bytes.
pub const NO_SLOTS: Tally = Tally { slots: 0, bytes: 0 };

/// What the lists of the workers have of a partition. Lists are short, so the sums are small.
pub fn cached_by<N: Name>(workers: &[Worker<N>], partition: u32) -> Tally
    requires partition { partition < most_partitions }
    requires many { length workers.now ≤ most_threads }
    ensures cached { IsCachedBy partition (length workers.now) (worker_in workers.now) result }
    ensures few { result.slots < 2 ^ 32 }
    ensures small { result.bytes < 2 ^ 48 }
{
    let mut sum = NO_SLOTS;
    for worker in workers {
        worker.kept();
        sum = sum.and(worker.cached(partition));
    }
    sum
}
