//! The commands that play in no region: no call here can wait.
ghost use Rattle.std.specs.Prelude.{◌≡◌, ◌↔◌, true, false, map, string_bytes, None, IfOk, IfErr};
ghost use Rattle.pa_cli.specs.Call.{call_of, stream_of};
ghost use Rattle.pa_cli.specs.Command.{IsCommand, IsAsked, AsksForRegion, ReadsTrace, ReadsRun, ReadsSome, needing, needs_of};
ghost use Rattle.pa_cli.specs.Cause.{Caused, ReadsForInput, IsRightCall, IsRefusal};
ghost use Rattle.pa_cli.specs.Output.{output_with, IsOutputOf, IsModelOutput, IsAuditOutput, IsDanglingOutput, IsPairsText};
ghost use Rattle.pa_cli.specs.PrintedText.{printed_bytes};
ghost use Rattle.pa_rules.specs.Legal.{IsLegal};
ghost use Rattle.pa_trace.specs.Grammar.{last_version};
ghost use Rattle.pa_trace.specs.Limits.{IsWithinLimits};

use crate::answers::{LEGAL, VERSION, help, layout_line, write_generated};
use crate::command::Command;
use crate::input::read_input;
use crate::output::write_printed;
use crate::printed::Printed;
use crate::scripts::{resize, verdicts};
use crate::status::Status;
use pa_audit_input::{Judgement, MOST_AUDITED, judge, judged};
use pa_dangle::{found_text, pairs_dense};
use pa_dense::DenseRun;
use pa_io::{Failed, Sink, Source};
use pa_model::play_input;
use pa_rules::Verdict;
use pa_slot::OutOfMemory;
use pa_summary::ends_of;
use pa_trace::{MOST_BYTES, Trace};
use std::alloc::Global;

/// Does what the words ask for, if they ask for no region to play in. It waits for nobody, so a call returns. `model` reads a trace, plays
/// all lines in their order and writes the text of that run. `audit` reads a trace and after it a run, and writes `legal` if that is a
/// legal run of the trace. `dangling` reads the same, and writes each use in such a run of what was freed while `raw_ptr`s pointed to it.
/// `resize` reads a script and writes the trace that it comes to and that trace's run, and `verdicts` what each resize came to. `layout
/// SIZE` writes where a request of SIZE bytes is placed, `trace ROUNDS KEY` a generated trace, and `--help` and `--version` their texts.
/// The input is read to its end, or to one byte past the most that it may have.
pub fn run_alone<S: Source, K: Sink>(
    alloc: Global,
    words: &[String],
    source: &mut S,
    sink: &mut K,
) -> Status
    requires alone { AsksForRegion (map string_bytes words.now) → ⊥ }
    // The words alone decide on the command.
    ensures command { result ≡ Status.BadCommand ↔ ¬ IsCommand (map string_bytes words.now) }

    // The status has its cause, and leaves source and sink as that cause says: all that `run` says, with no run and no region.
    ensures call { IsRightCall result (call_of (map string_bytes words.now)
        (stream_of (S.left source.old) (S.faults source.old)) (stream_of (S.left source.new) (S.faults source.new))
        (stream_of (K.written sink.old) (K.faults sink.old)) (stream_of (K.written sink.new) (K.faults sink.new))
        None None) }
{
    answer(alloc, words, source, sink)
}

// Does what the words ask for, if they ask for no region to play in. The status has its cause.
fn answer<S: Source, K: Sink>(
    alloc: Global,
    words: &[String],
    source: &mut S,
    sink: &mut K,
) -> Status
    requires alone { AsksForRegion (map string_bytes words.now) → ⊥ }
    ensures command { result ≡ Status.BadCommand ↔ ¬ IsCommand (map string_bytes words.now) }
    ensures cause { Caused result (call_of (map string_bytes words.now)
        (stream_of (S.left source.old) (S.faults source.old)) (stream_of (S.left source.new) (S.faults source.new))
        (stream_of (K.written sink.old) (K.faults sink.old)) (stream_of (K.written sink.new) (K.faults sink.new))
        None None) }
    ensures reads { ReadsForInput (call_of (map string_bytes words.now)
        (stream_of (S.left source.old) (S.faults source.old)) (stream_of (S.left source.new) (S.faults source.new))
        (stream_of (K.written sink.old) (K.faults sink.old)) (stream_of (K.written sink.new) (K.faults sink.new))
        None None) }
{
    let Some(command) = Command::of(words) else {
        return Status::BadCommand;
    };
    let text = match text_of(alloc, command, source) {
        Ok(text) => text,
        Err(status) => return status,
    };
    match write_printed(sink, &text) {
        Ok(()) => return Status::Done,
        Err(Failed) => return Status::WriteFault,
    }
}

// What a command prints that plays in no region.
fn text_of<S: Source>(alloc: Global, command: Command, source: &mut S) -> Result<Printed, Status>
    requires asked { IsAsked command }
    requires alone { (needs_of command).region ≡ true → ⊥ }
    ensures output { IfOk result (λ text. IsOutputOf command
        (stream_of (S.left source.old) (S.faults source.old))
        (stream_of (S.left source.new) (S.faults source.new)) (output_with (printed_bytes text) None None)) }
    ensures refusal { IfErr result (λ status. IsRefusal status (needs_of command)
        (stream_of (S.left source.old) (S.faults source.old))
        (stream_of (S.left source.new) (S.faults source.new))) }
    ensures unread { (ReadsSome (needs_of command).reads → ⊥) → (S.left source.new ≡ S.left source.old) ×
        (S.faults source.new ≡ S.faults source.old) }
{
    match command {
        Command::Model => Ok(Printed::Made(model(alloc, source)?)),
        Command::Audit => audit(alloc, source),
        Command::Dangling => Ok(Printed::Made(dangling(alloc, source)?)),
        Command::Resize => resize(alloc, source),
        Command::Verdicts => Ok(Printed::Made(verdicts(alloc, source)?)),
        Command::Layout(size) => Ok(Printed::Line(layout_line(size))),
        Command::Trace { rounds, key } => Ok(Printed::Made(write_generated(alloc, rounds, key)?)),
        Command::Help => Ok(Printed::Fixed(help())),
        Command::Version => Ok(Printed::Fixed(VERSION)),
        Command::Replay | Command::Delay { bytes: _ } | Command::Gen { rounds: _, key: _ } => {
            unreachable!()
        }
    }
}

// The output of `model`.
#[tactic(auto, using(crate::proofs::Printing::input_printed, crate::proofs::Refusing::trace_refused))]
fn model<S: Source>(alloc: Global, source: &mut S) -> Result<Vec<u8>, Status>
    ensures text { IfOk result (λ text. IsModelOutput
        (stream_of (S.left source.old) (S.faults source.old))
        (stream_of (S.left source.new) (S.faults source.new)) text.items) }
    ensures refusal { IfErr result (λ status. IsRefusal status (needing (ReadsTrace last_version) false true)
        (stream_of (S.left source.old) (S.faults source.old))
        (stream_of (S.left source.new) (S.faults source.new))) }
{
    let input = read_input(alloc, source, MOST_BYTES)?;
    let text = play_input(alloc, input.as_slice())?;
    Ok(text)
}

// The output of `audit`.
#[tactic(auto, using(crate::proofs::Refusing::input_faulty, crate::proofs::Refusing::input_legal, crate::proofs::Refusing::input_refuted, crate::proofs::Refusing::read_stopped))]
fn audit<S: Source>(alloc: Global, source: &mut S) -> Result<Printed, Status>
    ensures text { IfOk result (λ text. IsAuditOutput
        (stream_of (S.left source.old) (S.faults source.old))
        (stream_of (S.left source.new) (S.faults source.new)) (printed_bytes text)) }
    ensures refusal { IfErr result (λ status. IsRefusal status (needing ReadsRun false true)
        (stream_of (S.left source.old) (S.faults source.old))
        (stream_of (S.left source.new) (S.faults source.new))) }
{
    let input = read_input(alloc, source, MOST_AUDITED)?;
    match judge(alloc, input.as_slice())? {
        Verdict::Legal => Ok(Printed::Fixed(LEGAL)),
        Verdict::Broken(clause, line) => Err(Status::NotLegal(clause, line)),
    }
}

// The output of `dangling`.
#[tactic(auto, using(crate::proofs::Refusing::input_faulty, crate::proofs::Refusing::input_refuted, crate::proofs::Refusing::read_stopped))]
fn dangling<S: Source>(alloc: Global, source: &mut S) -> Result<Vec<u8>, Status>
    ensures text { IfOk result (λ text. IsDanglingOutput
        (stream_of (S.left source.old) (S.faults source.old))
        (stream_of (S.left source.new) (S.faults source.new)) text.items) }
    ensures refusal { IfErr result (λ status. IsRefusal status (needing ReadsRun false true)
        (stream_of (S.left source.old) (S.faults source.old))
        (stream_of (S.left source.new) (S.faults source.new))) }
{
    let input = read_input(alloc, source, MOST_AUDITED)?;
    match judged(alloc, input.as_slice())? {
        Judgement::Legal(trace, run) => Ok(pairs_text(alloc, &trace, &run)?),
        Judgement::Broken(clause, line) => Err(Status::NotLegal(clause, line)),
    }
}

// The text of the pairs of a legal run.
fn pairs_text(alloc: Global, trace: &Trace, run: &DenseRun) -> Result<Vec<u8>, OutOfMemory>
    requires limits { IsWithinLimits trace.now }
    requires legal { IsLegal trace.now run.now }
    ensures { IfOk result (λ text. IsPairsText trace.now run.now text.items) }
{
    let ends = ends_of(run.report());
    let found = pairs_dense(alloc, trace, run, ends.quarantined.slots)?;
    let text = found_text(alloc, &found)?;
    Ok(text.into_vec())
}
