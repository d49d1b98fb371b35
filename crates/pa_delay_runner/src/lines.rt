//! All lines of a trace, one after the other, with a queue before the lists of each thread.
ghost use Rattle.std.specs.Prelude.{◌≡◌, ℕ, ◌<◌, [], IfOk, length};
ghost use Rattle.pa_trace.specs.Limits.{IsWithinLimits};
ghost use Rattle.pa_execution.specs.Gathering.{IsMain};
ghost use Rattle.pa_runner.specs.Opening.{AreNew};
ghost use Rattle.pa_runner.specs.Tracing.{lines_by};
ghost use Rattle.pa_delay_runner.specs.Played.{delay_in, HasPlayedDelayed};

use crate::report::report_phase;
use crate::turn::play_turn;
use pa_delay::Delay;
use pa_heap::Worker;
use pa_record::ReportLine;
use pa_region::{Name, Seat};
use pa_runner::{LineOp, count_lines, tell_all};
use pa_slot::OutOfMemory;
use pa_thread_state::Heap;
use pa_trace::{Line, Trace};
use std::alloc::Global;
use std::sync::Wait;

/// Plays the lines of a trace one after the other, each by the worker of its thread, with a queue of at most `bytes` bytes before
/// each thread's lists, and returns the report. In between the main seat has the stakes of all threads. The only error is out of
/// memory.
pub fn play_lines<N: Name, R: Wait>(
    rt: &R,
    alloc: Global,
    heap: &Heap<N>,
    trace: &Trace,
    bytes: u32,
    workers: &mut [Worker<N>],
    seat: &mut Seat,
) -> Result<Vec<ReportLine>, OutOfMemory>
    requires region { seat.old.region ≡ N.region }
    requires limits { IsWithinLimits trace.now }
    requires main { IsMain trace.now.threads seat.old.view }
    requires new { AreNew trace.now workers.old }
    ensures region { seat.new.region ≡ N.region }
    ensures played { IfOk result (λ report. HasPlayedDelayed bytes trace.now workers.new seat.new.view report.items) }
{
    let mut queues = open_queues(alloc, trace, bytes)?;
    tell_all(heap, workers, seat);
    seat.aware();
    let mut report = Vec::new(alloc);
    let mut phase = 1;
    let mut number = 2;
    for line in trace.lines.as_slice() {
        match *line {
            Line::Phase => {
                report_phase(rt, heap, trace, workers, &queues, seat, phase, &mut report)?;
                seat.aware();
                phase += 1;
            }
            Line::Do { thread, op } => {
                let k = thread as usize;
                let due = LineOp { line: number, op };
                play_turn(rt, heap, &mut workers[k], &mut queues[k], seat, thread, due)?;
            }
        }
        number += 1;
    }
    report_phase(rt, heap, trace, workers, &queues, seat, phase, &mut report)?;
    seat.aware();
    Ok(report)
}

// An empty queue for each thread, in which at most so many bytes stay, with room for a slot of each line of the thread.
fn open_queues(alloc: Global, trace: &Trace, bytes: u32) -> Result<Vec<Delay>, OutOfMemory>
    requires limits { IsWithinLimits trace.now }
    ensures count { IfOk result (λ queues. length queues.items ≡ trace.now.threads) }
    ensures each { IfOk result (λ queues. (k : ℕ) → k < trace.now.threads →
        delay_in queues.items k ≡ record { limit = bytes; room = lines_by k trace.now.lines; slots = [] }) }
{
    let rooms = count_lines(trace.lines.as_slice());
    let mut queues = Vec::with_capacity(alloc, trace.threads as usize)?;
    for k in 0..trace.threads {
        queues.push(Delay::new(alloc, bytes, rooms[k as usize])?)?;
    }
    Ok(queues)
}
