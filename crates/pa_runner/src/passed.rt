//! A phase that passes, with its lines of the report.
ghost use Rattle.std.specs.Prelude.{◌≡◌, ℕ, ◌<◌, ◌≤◌, OnErr, OnOk, false, length};
ghost use Rattle.pa_trace.specs.Limits.{most_partitions, most_threads};
ghost use Rattle.pa_region.specs.declared.view.View.{View};
ghost use Rattle.pa_region.specs.Aware.{IsAware};
ghost use Rattle.pa_region.specs.Views.{HasEveryStake};
ghost use Rattle.pa_execution.specs.Gathering.{IsMain};
ghost use Rattle.pa_runner.specs.Phases.{AreGoing, AreReady, HasPassed, HaveReturned, worker_in};
ghost use Rattle.pa_runner.specs.Reporting.{IsReported};

use crate::gate::Gate;
use crate::phase::tell_all;
use crate::phases::Playing;
use crate::queue::Queue;
use pa_heap::Worker;
use pa_record::ReportLine;
use pa_region::{Name, Seat};
use pa_slot::OutOfMemory;
use std::marker::{Send, Sync};
use std::sync::Wait;
use std::thread::Threads;

impl<R: Threads + Wait + Sync, N: Name + Send + Sync, G: Gate> Playing<'_, R, N, G> {
    /// Each worker plays its lines of a phase, and when all are back, each hands its stake to the main seat. If none ran out of
    /// memory, the phase's lines are appended to the report then. The only error is out of memory, after all have handed over.
    /// The report then has the lines of the first partitions, or none.
    pub fn pass_phase(
        &self,
        workers: &mut [Worker<N>],
        queues: &[Queue],
        seat: &mut Seat,
        phase: u32,
        report: &mut Vec<ReportLine>,
    ) -> Result<(), OutOfMemory>
        requires region { seat.old.region ≡ N.region }
        requires many { (0 < length workers.old) × (length workers.old ≤ most_threads) }
        requires ready { AreReady queues.now workers.old }
        requires main { IsMain (length workers.old) seat.old.view }
        requires few { (k : ℕ) → k < length workers.old → (worker_in workers.old k).room ≤ 65536 }
        requires partitions { self.now.trace.now.partitions ≤ most_partitions }
        ensures region { seat.new.region ≡ N.region }
        ensures count { length workers.new ≡ length workers.old }
        ensures returned { HaveReturned queues.now workers.old workers.new seat.old.view seat.new.view }
        ensures every { HasEveryStake seat.new.view }
        ensures aware { OnOk result (IsAware seat.new.view) }
        ensures passed { OnOk result (HasPassed queues.now workers.old workers.new seat.old.view seat.new.view) }
        ensures reported { OnOk result ((told : View) × IsReported phase self.now.trace.now.partitions (length workers.old)
            (worker_in workers.new) told seat.new.view report.old.items report.new.items) }
        ensures begun { OnErr result ((told : View) × (partitions : ℕ) × (partitions ≤ self.now.trace.now.partitions)
            × IsReported phase partitions (length workers.old) (worker_in workers.new) told seat.new.view
            report.old.items report.new.items) }
    {
        self.play_phase(workers, queues);
        tell_all(self.heap, workers, seat);
        if any_stopped(workers) {
            return Err(OutOfMemory);
        }
        self.report_phase(workers, seat, phase, report)?;
        seat.aware();
        Ok(())
    }
}

// Whether an op of some worker ran out of memory.
fn any_stopped<N: Name>(workers: &[Worker<N>]) -> bool
    ensures { result ≡ false → AreGoing workers.now }
{
    for worker in workers {
        if worker.stopped() {
            return true;
        }
    }
    false
}
