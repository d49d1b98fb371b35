ghost use Rattle.std.specs.Prelude.{◌≡◌, ◌++◌, IfOk, IfErr, OnOk};
ghost use Rattle.pa_trace.specs.Limits.{IsWithinLimits};
ghost use Rattle.pa_record.specs.RunText.{IsPrintable};
ghost use Rattle.pa_core_run.specs.Playing.{HasCoreRun};
ghost use Rattle.pa_script.specs.Faults.{IsScriptFault};
ghost use Rattle.pa_script.specs.Limits.{IsScriptWithin};
ghost use Rattle.pa_model.specs.Player.{IsNew};
ghost use Rattle.pa_resize.specs.Expansion.{IsExpanded, IsInputExpanded, verdict_noted};
ghost use Rattle.pa_resize.specs.Playing.{IsScriptPlayed, script_head};

use crate::lines::play_line;
use crate::verdict::Verdict;
use pa_model::Player;
use pa_player::{Output, Told};
use pa_record::Run;
use pa_script::{MOST_SCRIPT_LINES, Script, ScriptReader};
use pa_slot::OutOfMemory;
use pa_trace::{Head, Trace, TraceFault};
use pa_trace_writer::{Keeper, Kept};
use std::alloc::Global;

// A resize becomes at most this many lines of a trace: memory for their records is reserved ahead.
const LINES: usize = 6;

// Few bytes for a line of a script.
const LINE: usize = 8;

/// What a script comes to: a trace, its run in the order of its lines, and the verdict of each resize with the number of its
/// line in the script, whose head is line 1.
#[derive(Drop)]
pub struct Expanded {
    pub trace: Trace,
    pub run: Run,
    pub verdicts: Vec<(u32, Verdict)>,
}

/// The text of the trace that a script comes to, and that of its run in the order of its lines.
#[derive(Drop)]
pub struct ExpandedText {
    pub trace: Vec<u8>,
    pub run: Vec<u8>,
}

/// Plays a script, whose resizes become ops as it is played. A line of a trace is itself. A resize of what a register owns is a look at
/// the object. If no `raw_ptr` points to it, and a slot for the size has another length, it is moved to one in the same partition, if
/// there is room. Out of memory is the only error.
pub fn expand(alloc: Global, script: &Script) -> Result<Expanded, OutOfMemory>
    requires { IsScriptWithin script.now }
    ensures expanded { IfOk result (λ e. IsExpanded script.now e.trace e.run e.verdicts.items) }
    ensures within { IfOk result (λ e. IsWithinLimits e.trace) }
    ensures core { IfOk result (λ e. HasCoreRun e.trace e.run) }
    ensures printable { IfOk result (λ e. IsPrintable e.run) }
{
    let head = Head {
        version: 1,
        region: script.region,
        partitions: script.partitions,
        threads: script.threads,
        plain: 0,
    };
    let mut player = Player::new(alloc, head)?;
    let verdicts = play_all(alloc, script, &mut player)?;
    let (trace, run) = player.finish_traced()?;
    Ok(Expanded {
        trace,
        run,
        verdicts,
    })
}

/// Plays the script whose text the bytes are in the same way, each line as soon as it is read, and returns the texts of its trace and
/// of its run, which are printed as it is played. Bytes are refused with the fault with which `read_script` refuses them.
pub fn expand_input(alloc: Global, bytes: &[u8]) -> Result<ExpandedText, TraceFault>
    ensures expanded { IfOk result (λ e. IsInputExpanded bytes.now e.trace.items e.run.items) }
    ensures fault { IfErr result (λ e. IsScriptFault e bytes.now) }
{
    let mut reader = ScriptReader::of(bytes)?;
    let lines = (bytes.len() / LINE).min(MOST_SCRIPT_LINES as usize);
    let mut player = Player::printing(alloc, reader.head(), LINES * lines)?;
    while let Some(line) = reader.next()? {
        play_line(&mut player, line)?;
    }
    let (trace, run) = player.finish_printed()?;
    Ok(ExpandedText { trace, run })
}

// Plays all lines of a script, before which there were none. Returns the verdicts.
fn play_all<O: Output, K: Keeper>(
    alloc: Global,
    script: &Script,
    player: &mut Player<Told<O>, Kept<K>>,
) -> Result<Vec<(u32, Verdict)>, OutOfMemory>
    requires within { IsScriptWithin script.now }
    requires new { IsNew (script_head script.now) player.old }
    ensures { IfOk result (λ verdicts. IsScriptPlayed (script_head script.now) script.now.lines player.new verdicts.items) }
{
    let mut verdicts = Vec::new(alloc);
    let mut number: u32 = 2;
    for line in script.lines.as_slice() {
        let verdict = play_line(player, *line)?;
        note(&mut verdicts, number, verdict)?;
        number += 1;
    }
    Ok(verdicts)
}

// Appends the verdict of a line, if it has one.
fn note(
    verdicts: &mut Vec<(u32, Verdict)>,
    number: u32,
    verdict: Option<Verdict>,
) -> Result<(), OutOfMemory>
    ensures { OnOk result (verdicts.new.items ≡ verdicts.old.items ++ verdict_noted number verdict) }
{
    if let Some(verdict) = verdict {
        verdicts.push((number, verdict))?;
    }
    Ok(())
}
