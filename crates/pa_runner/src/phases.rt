//! All phases of a trace, one after the other.
ghost use Rattle.std.specs.Prelude.{◌≡◌, ℕ, ◌+◌, IfOk, OnErr, OnOk, [], length, replicate};
ghost use Rattle.pa_trace.specs.Limits.{IsWithinLimits};
ghost use Rattle.pa_region.specs.Views.{HasEveryStake};
ghost use Rattle.pa_execution.specs.Gathering.{IsMain};
ghost use Rattle.pa_runner.specs.Opening.{AreNew};
ghost use Rattle.pa_runner.specs.Phases.{HaveReturned};
ghost use Rattle.pa_runner.specs.UnderWay.{BeginsPhase, IsUnderWay, StopsIn};
ghost use Rattle.pa_runner.specs.Whole.{HasPlayed};

use crate::gate::Gate;
use crate::phase::hear_all;
use crate::queue::Queue;
use crate::thread_lines::LineOp;
use pa_heap::Worker;
use pa_record::ReportLine;
use pa_region::{Name, Seat};
use pa_slot::OutOfMemory;
use pa_thread_state::Heap;
use pa_trace::{Line, Trace};
use std::alloc::Global;
use std::marker::{Send, Sync};
use std::sync::Wait;
use std::thread::Threads;

/// What it takes to play a trace: the runtime for its threads, the heap in which it is played, and the gate around each line.
#[derive(Drop)]
pub struct Playing<'a, R, N: Name, G> {
    /// The runtime.
    pub rt: &'a R,
    /// The heap.
    pub heap: &'a Heap<N>,
    /// The gate.
    pub gate: &'a G,
    /// The trace.
    pub trace: &'a Trace,
}

impl<R: Threads + Wait + Sync, N: Name + Send + Sync, G: Gate> Playing<'_, R, N, G> {
    /// Plays the lines of the trace phase after phase, and returns the report. In each phase each worker plays its own lines.
    /// Then all hand their stakes to the main seat, and if another phase follows they get them back from it. If memory runs
    /// out, the phases before are over, and all workers are back from this one, or have played none of its lines.
    pub fn play_phases(
        &self,
        alloc: Global,
        workers: &mut [Worker<N>],
        seat: &mut Seat,
    ) -> Result<Vec<ReportLine>, OutOfMemory>
        requires region { seat.old.region ≡ N.region }
        requires limits { IsWithinLimits self.now.trace.now }
        requires main { IsMain self.now.trace.now.threads seat.old.view }
        requires new { AreNew self.now.trace.now workers.old }
        ensures region { seat.new.region ≡ N.region }
        ensures played { IfOk result (λ report. HasPlayed self.now.trace.now workers.new seat.new.view report.items) }
        ensures stops { OnErr result (StopsIn self.now.trace.now workers.new seat.new.view) }
    {
        let mut queues = open_queues(alloc, self.trace.threads)?;
        let mut report = Vec::new(alloc);
        let mut phase = 1;
        let mut number = 2;
        for line in self.trace.lines.as_slice() {
            match *line {
                Line::Phase => {
                    self.next_phase(workers, &mut queues, seat, phase, &mut report)?;
                    phase += 1;
                }
                Line::Do { thread, op } => {
                    let k = thread as usize;
                    queues[k].push(LineOp { line: number, op })?;
                }
            }
            number += 1;
        }
        self.pass_phase(workers, &queues, seat, phase, &mut report)?;
        Ok(report)
    }

    // Plays the lines of a phase, after which the next phase begins: all workers have their stakes back, and their queues are
    // empty. If memory runs out, all are back from the phase, and have handed over.
    fn next_phase(
        &self,
        workers: &mut [Worker<N>],
        queues: &mut [Queue],
        seat: &mut Seat,
        phase: u32,
        report: &mut Vec<ReportLine>,
    ) -> Result<(), OutOfMemory>
        requires region { seat.old.region ≡ N.region }
        requires limits { IsWithinLimits self.now.trace.now }
        requires going { (i : ℕ) × IsUnderWay self.now.trace.now i phase workers.old queues.old seat.old.view report.old.items }
        ensures region { seat.new.region ≡ N.region }
        ensures next { OnOk result ((i : ℕ) → BeginsPhase i self.now.trace.now.lines →
            IsUnderWay self.now.trace.now i phase workers.old queues.old seat.old.view report.old.items →
            IsUnderWay self.now.trace.now (i + 1) (phase + 1) workers.new queues.new seat.new.view report.new.items) }
        ensures returned { OnErr result (HaveReturned queues.old workers.old workers.new seat.old.view seat.new.view) }
        ensures every { OnErr result (HasEveryStake seat.new.view) }
    {
        self.pass_phase(workers, queues, seat, phase, report)?;
        hear_all(self.heap, workers, seat);
        clear_queues(queues);
        Ok(())
    }
}

// A queue for each thread.
fn open_queues(alloc: Global, threads: u32) -> Result<Vec<Queue>, OutOfMemory>
    ensures { IfOk result (λ queues. queues.items ≡ replicate threads []) }
{
    let mut queues = Vec::with_capacity(alloc, threads as usize)?;
    for _ in 0..threads {
        queues.push(Queue::new(alloc))?;
    }
    Ok(queues)
}

// Empties all queues.
fn clear_queues(queues: &mut [Queue])
    ensures { queues.new ≡ replicate (length queues.old) [] }
{
    for k in 0..queues.len() {
        queues[k].clear();
    }
}
