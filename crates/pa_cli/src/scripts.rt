//! The commands that read a script.
ghost use Rattle.std.specs.Prelude.{◌≡◌, ◌++◌, false, true, IfOk, IfErr, OnOk};
ghost use Rattle.std.specs.List.{flat_map};
ghost use Rattle.pa_script.specs.Limits.{IsScriptWithin};
ghost use Rattle.pa_cli.specs.Call.{stream_of};
ghost use Rattle.pa_cli.specs.Command.{ReadsScript, needing};
ghost use Rattle.pa_cli.specs.Cause.{IsRefusal};
ghost use Rattle.pa_cli.specs.Output.{IsScriptRead, IsVerdictsText, IsResizeOutput, IsVerdictsOutput};
ghost use Rattle.pa_cli.specs.PrintedText.{printed_bytes};
ghost use Rattle.pa_cli.specs.VerdictsText.{resize_word, verdict_line};

use crate::input::read_input;
use crate::printed::Printed;
use crate::status::Status;
use pa_io::Source;
use pa_resize::{Verdict, expand, expand_input};
use pa_script::{Script, read_script};
use pa_slot::OutOfMemory;
use pa_text::{Text, push_byte, push_bytes, push_number};
use pa_trace::MOST_BYTES;
use std::alloc::Global;

// The output of `resize`.
#[tactic(auto, using(crate::proofs::Refusing::script_refused))]
pub fn resize<S: Source>(alloc: Global, source: &mut S) -> Result<Printed, Status>
    ensures text { IfOk result (λ text. IsResizeOutput
        (stream_of (S.left source.old) (S.faults source.old))
        (stream_of (S.left source.new) (S.faults source.new)) (printed_bytes text)) }
    ensures refusal { IfErr result (λ status. IsRefusal status (needing ReadsScript false true)
        (stream_of (S.left source.old) (S.faults source.old))
        (stream_of (S.left source.new) (S.faults source.new))) }
{
    let input = read_input(alloc, source, MOST_BYTES)?;
    let expanded = expand_input(alloc, input.as_slice())?;
    Ok(Printed::Parts(expanded.trace, expanded.run))
}

// The output of `verdicts`.
#[tactic(auto, using(crate::proofs::Refusing::script_stopped))]
pub fn verdicts<S: Source>(alloc: Global, source: &mut S) -> Result<Vec<u8>, Status>
    ensures text { IfOk result (λ text. IsVerdictsOutput
        (stream_of (S.left source.old) (S.faults source.old))
        (stream_of (S.left source.new) (S.faults source.new)) text.items) }
    ensures refusal { IfErr result (λ status. IsRefusal status (needing ReadsScript false true)
        (stream_of (S.left source.old) (S.faults source.old))
        (stream_of (S.left source.new) (S.faults source.new))) }
{
    let script = script_of(alloc, source)?;
    Ok(write_verdicts(alloc, &script)?)
}

// The script whose text the source's bytes are.
#[tactic(auto, using(crate::proofs::Refusing::script_refused))]
fn script_of<S: Source>(alloc: Global, source: &mut S) -> Result<Script, Status>
    ensures read { IfOk result (λ script. IsScriptRead script
        (stream_of (S.left source.old) (S.faults source.old))
        (stream_of (S.left source.new) (S.faults source.new))) }
    ensures refusal { IfErr result (λ status. IsRefusal status (needing ReadsScript false true)
        (stream_of (S.left source.old) (S.faults source.old))
        (stream_of (S.left source.new) (S.faults source.new))) }
{
    let input = read_input(alloc, source, MOST_BYTES)?;
    Ok(read_script(alloc, input.as_slice())?)
}

// The text of what each resize of the script comes to.
fn write_verdicts(alloc: Global, script: &Script) -> Result<Vec<u8>, OutOfMemory>
    requires { IsScriptWithin script.now }
    ensures { IfOk result (λ text. IsVerdictsText script.now text.items) }
{
    let expanded = expand(alloc, script)?;
    let mut out = Text::new(alloc);
    push_verdicts(&mut out, expanded.verdicts.as_slice())?;
    push_bytes(&mut out, b"end\n")?;
    Ok(out.into_vec())
}

// Appends the lines of the verdicts.
fn push_verdicts(out: &mut Text, found: &[(u32, Verdict)]) -> Result<(), OutOfMemory>
    ensures { OnOk result (out.new ≡ out.old ++ flat_map verdict_line found.now) }
{
    for verdict in found {
        push_verdict(out, *verdict)?;
    }
    Ok(())
}

// Appends the line of a verdict, with the line of the script that has it.
fn push_verdict(out: &mut Text, found: (u32, Verdict)) -> Result<(), OutOfMemory>
    ensures { OnOk result (out.new ≡ out.old ++ verdict_line found) }
{
    let (line, verdict) = found;
    push_bytes(out, b"v ")?;
    push_number(out, u64::from(line))?;
    push_byte(out, b' ')?;
    push_bytes(out, resize_word(verdict))?;
    push_byte(out, b'\n')
}

// The word for what a resize came to.
fn resize_word(verdict: Verdict) -> &'static [u8]
    ensures { result.now ≡ resize_word verdict }
{
    match verdict {
        Verdict::NotOwn => b"not-own",
        Verdict::Shared => b"shared",
        Verdict::TooLarge => b"too-large",
        Verdict::Kept => b"kept",
        Verdict::NoRoom => b"no-room",
        Verdict::Moved => b"moved",
    }
}
