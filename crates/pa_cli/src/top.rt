ghost use Rattle.std.specs.Prelude.{◌≡◌, ◌↔◌, ◌≤◌, true, map, string_bytes, IfOk, IfErr};
ghost use Rattle.pa_cli.specs.Call.{call_of, stream_of};
ghost use Rattle.pa_cli.specs.Command.{IsCommand, IsAsked, AsksForRegion, ReadsTrace, ReadsSome, needing, needs_of};
ghost use Rattle.pa_cli.specs.Cause.{Caused, ReadsForInput, TellsNoRun, IsRightCall, IsRefusal};
ghost use Rattle.pa_cli.specs.Output.{output_with, IsOutputOf, IsTraceRead, IsReplayOutput, IsReplayedAs, IsDelayOutput, IsDelayedAs, IsGenOutput};
ghost use Rattle.pa_trace.specs.Grammar.{last_version};
ghost use Rattle.pa_trace.specs.Limits.{IsWithinLimits};

use crate::alone::run_alone;
use crate::command::{Command, plays_in_region};
use crate::input::read_input;
use crate::outcome::{Outcome, Output};
use crate::output::write_output;
use crate::status::Status;
use pa_delay::no_bytes_no_delay;
use pa_delay_runner::play_delayed;
use pa_io::{Failed, Sink, Source};
use pa_one_run::one_thread_in_file_order;
use pa_record::write_run;
use pa_runner::{Gate, run_trace};
use pa_slot::OutOfMemory;
use pa_summary::write_summary;
use pa_trace::{LAST_VERSION, MOST_BYTES, Trace, generate, read_trace_to};
use std::alloc::Global;
use std::marker::Sync;
use std::sync::Wait;
use std::thread::Threads;

/// Does what the words ask for. `replay` reads a trace from the source, plays each thread's lines on a thread of its own if one can be
/// had, with the gate called around each line, and writes the text of that run to the sink. `gen ROUNDS KEY` plays a generated trace in
/// the same way, and writes a summary of its run. `delay BYTES` reads a trace of version 1 and plays its lines in their order in a
/// region, where what was freed waits in a queue of its thread, and writes the text of that run. All three may wait. All other words
/// are answered by `run_alone`, which can't wait.
#[tactic(auto, using(crate::proofs::Right::alone_right))]
pub fn run<R: Threads + Wait + Sync, S: Source, K: Sink, G: Gate>(
    rt: &R,
    alloc: Global,
    words: &[String],
    source: &mut S,
    sink: &mut K,
    gate: &G,
) -> Outcome
    // Only the words decide whether there is a command.
    ensures command { result.status ≡ Status.BadCommand ↔ ¬ IsCommand (map string_bytes words.now) }

    // The status has its cause, and leaves source and sink as that cause says. Of `replay` it says that the run whose text is written is
    // a legal run of the trace, and that the closed region holds it. Of `gen` it says the same of the generated trace and the run whose
    // summary is written. Of `delay` it says that the run whose text is written is the delayed run of the trace for that many bytes, and
    // that the closed region holds it. Of `resize` and `verdicts` it says that what is written is what the script comes to. Of `model` it
    // says that what is written is the text of the trace's run in the order of its lines, which is legal and has a run of the core. Of
    // `audit` it says that the run that was read is a legal one of the trace before it, or by which clause and at which line it isn't. Of
    // `dangling` it says the same, and that what is written are the pairs of that run. Only `replay`, `model`, `delay`, `audit`,
    // `dangling`, `resize` and `verdicts` read. A good input is played or judged, and a faulty one refused. The other commands answer. A
    // run and a region are returned exactly if it was played in a region and the output was written.
    ensures call { IsRightCall result.status (call_of (map string_bytes words.now)
        (stream_of (S.left source.old) (S.faults source.old)) (stream_of (S.left source.new) (S.faults source.new))
        (stream_of (K.written sink.old) (K.faults sink.old)) (stream_of (K.written sink.new) (K.faults sink.new))
        result.run result.region) }
{
    if plays_in_region(words) {
        return answer(rt, alloc, words, source, sink, gate);
    }
    Outcome::without_run(run_alone(alloc, words, source, sink))
}

// Does what the words ask for, if they ask for a region to play in. The status has its cause.
#[tactic(auto, using(crate::proofs::Commands::region_asked))]
fn answer<R: Threads + Wait + Sync, S: Source, K: Sink, G: Gate>(
    rt: &R,
    alloc: Global,
    words: &[String],
    source: &mut S,
    sink: &mut K,
    gate: &G,
) -> Outcome
    requires region { AsksForRegion (map string_bytes words.now) }
    ensures command { result.status ≡ Status.BadCommand ↔ ¬ IsCommand (map string_bytes words.now) }
    ensures cause { Caused result.status (call_of (map string_bytes words.now)
        (stream_of (S.left source.old) (S.faults source.old)) (stream_of (S.left source.new) (S.faults source.new))
        (stream_of (K.written sink.old) (K.faults sink.old)) (stream_of (K.written sink.new) (K.faults sink.new))
        result.run result.region) }
    ensures reads { ReadsForInput (call_of (map string_bytes words.now)
        (stream_of (S.left source.old) (S.faults source.old)) (stream_of (S.left source.new) (S.faults source.new))
        (stream_of (K.written sink.old) (K.faults sink.old)) (stream_of (K.written sink.new) (K.faults sink.new))
        result.run result.region) }
    ensures none { TellsNoRun result.status (call_of (map string_bytes words.now)
        (stream_of (S.left source.old) (S.faults source.old)) (stream_of (S.left source.new) (S.faults source.new))
        (stream_of (K.written sink.old) (K.faults sink.old)) (stream_of (K.written sink.new) (K.faults sink.new))
        result.run result.region) }
{
    let Some(command) = Command::of(words) else {
        return Outcome::without_run(Status::BadCommand);
    };
    match output_of(rt, alloc, command, source, gate) {
        Ok(Output { text, run, region }) => {
            let status = match write_output(sink, text.as_slice()) {
                Ok(()) => Status::Done,
                Err(Failed) => Status::WriteFault,
            };
            Outcome {
                status,
                run,
                region,
            }
        }
        Err(status) => Outcome::without_run(status),
    }
}

// The output of a command that plays in a region, for which some words ask.
fn output_of<R: Threads + Wait + Sync, S: Source, G: Gate>(
    rt: &R,
    alloc: Global,
    command: Command,
    source: &mut S,
    gate: &G,
) -> Result<Output, Status>
    requires asked { IsAsked command }
    requires region { (needs_of command).region ≡ true }
    ensures output { IfOk result (λ out. IsOutputOf command
        (stream_of (S.left source.old) (S.faults source.old))
        (stream_of (S.left source.new) (S.faults source.new)) (output_with out.text.items out.run out.region)) }
    ensures refusal { IfErr result (λ status. IsRefusal status (needs_of command)
        (stream_of (S.left source.old) (S.faults source.old))
        (stream_of (S.left source.new) (S.faults source.new))) }
    ensures unread { (ReadsSome (needs_of command).reads → ⊥) → (S.left source.new ≡ S.left source.old) ×
        (S.faults source.new ≡ S.faults source.old) }
{
    match command {
        Command::Replay => replay(rt, alloc, source, gate),
        Command::Delay { bytes } => delay(rt, alloc, bytes, source),
        Command::Gen { rounds, key } => Ok(summed(rt, alloc, rounds, key, gate)?),
        _ => unreachable!(),
    }
}

// The output of `replay`.
#[tactic(auto, using(crate::proofs::Refusing::trace_stopped))]
fn replay<R: Threads + Wait + Sync, S: Source, G: Gate>(
    rt: &R,
    alloc: Global,
    source: &mut S,
    gate: &G,
) -> Result<Output, Status>
    ensures output { IfOk result (λ out. IsReplayOutput
        (stream_of (S.left source.old) (S.faults source.old))
        (stream_of (S.left source.new) (S.faults source.new)) (output_with out.text.items out.run out.region)) }
    ensures refusal { IfErr result (λ status. IsRefusal status (needing (ReadsTrace last_version) true true)
        (stream_of (S.left source.old) (S.faults source.old))
        (stream_of (S.left source.new) (S.faults source.new))) }
{
    let trace = trace_of(alloc, LAST_VERSION, source)?;
    Ok(replayed(rt, alloc, &trace, gate)?)
}

// The output of `delay`. Traces of version 1 alone are known to it.
#[tactic(auto, using(crate::proofs::Refusing::trace_stopped))]
fn delay<R: Wait, S: Source>(
    rt: &R,
    alloc: Global,
    bytes: u32,
    source: &mut S,
) -> Result<Output, Status>
    ensures output { IfOk result (λ out. IsDelayOutput bytes
        (stream_of (S.left source.old) (S.faults source.old))
        (stream_of (S.left source.new) (S.faults source.new)) (output_with out.text.items out.run out.region)) }
    ensures refusal { IfErr result (λ status. IsRefusal status (needing (ReadsTrace 1) true true)
        (stream_of (S.left source.old) (S.faults source.old))
        (stream_of (S.left source.new) (S.faults source.new))) }
{
    let trace = trace_of(alloc, 1, source)?;
    Ok(delayed(rt, alloc, bytes, &trace)?)
}

// The trace whose text the source's bytes are, of a version up to `known`.
#[tactic(auto, using(crate::proofs::Refusing::trace_refused))]
fn trace_of<S: Source>(alloc: Global, known: u32, source: &mut S) -> Result<Trace, Status>
    requires { known ≤ last_version }
    ensures read { IfOk result (λ trace. IsTraceRead trace
        (stream_of (S.left source.old) (S.faults source.old))
        (stream_of (S.left source.new) (S.faults source.new))) }
    ensures version { IfOk result (λ trace. trace.version ≤ known) }
    ensures refusal { IfErr result (λ status. IsRefusal status (needing (ReadsTrace known) true true)
        (stream_of (S.left source.old) (S.faults source.old))
        (stream_of (S.left source.new) (S.faults source.new))) }
{
    let input = read_input(alloc, source, MOST_BYTES)?;
    Ok(read_trace_to(alloc, known, input.as_slice())?)
}

// A run of the trace with its threads running concurrently, with its text and the closed region.
fn replayed<R: Threads + Wait + Sync, G: Gate>(
    rt: &R,
    alloc: Global,
    trace: &Trace,
    gate: &G,
) -> Result<Output, OutOfMemory>
    requires { IsWithinLimits trace.now }
    ensures { IfOk result (λ out. IsReplayedAs trace.now (output_with out.text.items out.run out.region)) }
{
    one_thread_in_file_order();
    let (run, region) = run_trace(rt, alloc, trace, gate)?;
    let text = write_run(alloc, &run)?;
    Ok(Output {
        text,
        run: Some(run),
        region: Some(region),
    })
}

// The delayed run of the trace for this many bytes, with its text and the closed region.
fn delayed<R: Wait>(rt: &R, alloc: Global, bytes: u32, trace: &Trace) -> Result<Output, OutOfMemory>
    requires within { IsWithinLimits trace.now }
    requires version { trace.now.version ≡ 1 }
    ensures { IfOk result (λ out. IsDelayedAs bytes trace.now (output_with out.text.items out.run out.region)) }
{
    no_bytes_no_delay();
    let (run, region) = play_delayed(rt, alloc, trace, bytes)?;
    let text = write_run(alloc, &run)?;
    Ok(Output {
        text,
        run: Some(run),
        region: Some(region),
    })
}

// A run of the generated trace with its threads running concurrently, with its summary and the closed region.
fn summed<R: Threads + Wait + Sync, G: Gate>(
    rt: &R,
    alloc: Global,
    rounds: u32,
    key: u64,
    gate: &G,
) -> Result<Output, OutOfMemory>
    requires some { 1 ≤ rounds }
    requires few { rounds ≤ 800 }
    ensures { IfOk result (λ out. IsGenOutput rounds key (output_with out.text.items out.run out.region)) }
{
    let trace = generate(alloc, rounds, key)?;
    let (run, region) = run_trace(rt, alloc, &trace, gate)?;
    let text = write_summary(alloc, rounds, key, &run)?;
    Ok(Output {
        text,
        run: Some(run),
        region: Some(region),
    })
}
