ghost use Rattle.std.specs.Prelude.{IfOk, IfErr};
ghost use Rattle.pa_trace.specs.Grammar.{last_version};
ghost use Rattle.pa_trace.specs.Limits.{IsWithinLimits};
ghost use Rattle.pa_trace.specs.Faults.{IsFault};
ghost use Rattle.pa_record.specs.RunText.{IsPrintable};
ghost use Rattle.pa_rules.specs.Legal.{IsFileRun};
ghost use Rattle.pa_core_run.specs.Playing.{HasCoreRun};
ghost use Rattle.pa_player.specs.Begun.{IsUntold};
ghost use Rattle.pa_model.specs.Played.{IsAllTold, IsInputPlayed};

use pa_player::{ListOutput, Player, TextOutput, Told};
use pa_record::Run;
use pa_slot::OutOfMemory;
use pa_trace::{LAST_VERSION, LineReader, MOST_LINES, Trace, TraceFault};
use std::alloc::Global;

// Few bytes for a line: memory for the records is reserved ahead.
const LINE: usize = 8;

/// Plays a trace within the limits on one thread, and returns the whole run: a record for each op line, the journals of the
/// roots, the entries of the pool, the histories of the cells, and the report by phase and partition. The trace's threads
/// take their turns in the order of its lines. The run has a run of the core, in which each op is played as events.
/// Out of memory is the only error.
pub fn play(alloc: Global, trace: &Trace) -> Result<Run, OutOfMemory>
    requires within { IsWithinLimits trace.now }
    ensures run { IfOk result (IsFileRun trace.now) }
    ensures core { IfOk result (HasCoreRun trace.now) }
    ensures printable { IfOk result IsPrintable }
{
    let lists = ListOutput::new(alloc, trace.partitions, trace.lines.as_slice().len())?;
    let told = Told::new(alloc, lists)?;
    told_of(alloc, trace, told)?.into_run(alloc)
}

/// Plays the trace whose text the bytes are in the same way, each line as soon as it is read, and returns the text of the run,
/// which is printed as it is played. Bytes are refused with the fault with which `read_trace` refuses them.
pub fn play_input(alloc: Global, bytes: &[u8]) -> Result<Vec<u8>, TraceFault>
    ensures text { IfOk result (λ text. IsInputPlayed bytes.now text.items) }
    ensures fault { IfErr result (λ e. IsFault last_version e bytes.now) }
{
    let mut reader = LineReader::of(LAST_VERSION, bytes)?;
    let head = reader.head();
    let lines = (bytes.len() / LINE).min(MOST_LINES as usize);
    let told = Told::new(alloc, TextOutput::new(alloc, head.partitions, lines)?)?;
    let mut player = Player::new(alloc, head, told)?;
    while let Some(line) = reader.next()? {
        player.line(line)?;
    }
    let text = player.finish()?.into_text()?;
    Ok(text)
}

// What the trace's lines report, if nothing was reported before.
fn told_of(
    alloc: Global,
    trace: &Trace,
    told: Told<ListOutput>,
) -> Result<Told<ListOutput>, OutOfMemory>
    requires within { IsWithinLimits trace.now }
    requires told { IsUntold trace.now.partitions told }
    ensures { IfOk result (IsAllTold trace.now) }
{
    let lines = trace.lines.as_slice();
    let mut player = Player::new(alloc, trace.head(), told)?;
    for line in lines {
        player.line(*line)?;
    }
    player.finish()
}
