ghost use Rattle.std.specs.Prelude.{◌≡◌, ◌<◌, ◌≤◌, ◌+◌, ◌↔◌, [], ◌∷◌, IsSome, IsTrue, IfOk, Some, length};
ghost use Rattle.pa_trace.specs.Limits.{IsOpWithin, register_count};
ghost use Rattle.pa_trace.specs.declared.script.Line.TheVariants.{Do};
ghost use Rattle.pa_trace.specs.declared.script.Op.TheVariants.{Read};
ghost use Rattle.pa_record.specs.declared.entry.Answer.TheVariants.{Value};
ghost use Rattle.pa_script.specs.Limits.{IsScriptLineWithin, named_count};
ghost use Rattle.pa_model.specs.Player.{IsGoing, ReadsOwned, owned_by};
ghost use Rattle.pa_resize.specs.Expansion.{HasNoRoom, moving};
ghost use Rattle.pa_resize.specs.Playing.{PlaysScriptLine, Resizes, Went, WentBy, next_record};

use crate::sizes::slot_size_for;
use crate::verdict::Verdict;
use pa_direct::GREATEST_SIZE;
use pa_model::Player;
use pa_player::{Output, Told};
use pa_record::{Answer, Seen};
use pa_script::{NAMED, ScriptLine};
use pa_slot::{OutOfMemory, refs};
use pa_trace::{Line, Op};
use pa_trace_writer::{Keeper, Kept};

// Plays a line of a script. Returns its verdict if it is a resize.
pub(crate) fn play_line<O: Output, K: Keeper>(
    player: &mut Player<Told<O>, Kept<K>>,
    line: ScriptLine,
) -> Result<Option<Verdict>, OutOfMemory>
    requires going { IsGoing player.old }
    requires first { player.old.lines.head.version ≡ 1 }
    requires few { length player.old.lines.items + 6 ≤ 65535 }
    requires within { IsScriptLineWithin player.old.lines.head.partitions player.old.lines.head.threads line }
    ensures { IfOk result (λ verdict. PlaysScriptLine player.old line verdict player.new) }
{
    match line {
        ScriptLine::Plain(line) => {
            player.line(line)?;
            Ok(None)
        }
        ScriptLine::Resize { thread, reg, size } => {
            let verdict = resize(player, thread, reg, size)?;
            Ok(Some(verdict))
        }
    }
}

// Gives what a register owns another size.
fn resize<O: Output, K: Keeper>(
    player: &mut Player<Told<O>, Kept<K>>,
    thread: u32,
    reg: u32,
    size: u32,
) -> Result<Verdict, OutOfMemory>
    requires going { IsGoing player.old }
    requires first { player.old.lines.head.version ≡ 1 }
    requires few { length player.old.lines.items + 6 ≤ 65535 }
    requires thread { thread < player.old.lines.head.threads }
    requires reg { reg < named_count }
    ensures { IfOk result (λ verdict. Resizes player.old thread reg size verdict player.new) }
{
    let Some(owned) = player.own(thread, reg) else {
        return Ok(Verdict::NotOwn);
    };
    let (seen, value) = look(player, thread, reg)?;
    if refs(seen.found) > 0 {
        return Ok(Verdict::Shared);
    }
    if size > GREATEST_SIZE {
        return Ok(Verdict::TooLarge);
    }
    if slot_size_for(size) == owned.len {
        return Ok(Verdict::Kept);
    }
    let request = Op::Alloc {
        reg: NAMED,
        partition: owned.partition,
        size,
    };
    let answer = play_op(player, thread, request)?;
    if is_full(answer) {
        return Ok(Verdict::NoRoom);
    }
    hand_over(player, thread, reg, value)?;
    Ok(Verdict::Moved)
}

// Reads the first word of what a register owns. Returns what was found of its slot, and the value.
fn look<O: Output, K: Keeper>(
    player: &mut Player<Told<O>, Kept<K>>,
    thread: u32,
    reg: u32,
) -> Result<(Seen, u64), OutOfMemory>
    requires going { IsGoing player.old }
    requires few { length player.old.lines.items < 65535 }
    requires thread { thread < player.old.lines.head.threads }
    requires reg { reg < register_count }
    requires owned { IsSome (owned_by player.old thread reg) }
    ensures { IfOk result (λ found.
        Went player.old (next_record player.old thread (Read reg 0) (Value found.0 found.1) ∷ []) player.new) }
{
    match play_op(player, thread, Op::Read { reg, place: 0 })? {
        Answer::Value { seen, value } => Ok((seen, value)),
        _ => unreachable!(),
    }
}

// Writes the value to what was allocated into the spare register, frees what the register owns, and hands the new slot over.
fn hand_over<O: Output, K: Keeper>(
    player: &mut Player<Told<O>, Kept<K>>,
    thread: u32,
    reg: u32,
    value: u64,
) -> Result<(), OutOfMemory>
    requires going { IsGoing player.old }
    requires few { length player.old.lines.items + 4 ≤ 65535 }
    requires thread { thread < player.old.lines.head.threads }
    requires reg { reg < named_count }
    ensures { IfOk result (λ done. WentBy player.old thread (moving reg value) player.new) }
{
    play_op(player, thread, Op::Write { reg: NAMED, value })?;
    play_op(player, thread, Op::Free { reg })?;
    play_op(
        player,
        thread,
        Op::Swap {
            cell: NAMED,
            reg: NAMED,
        },
    )?;
    play_op(player, thread, Op::Swap { cell: NAMED, reg })?;
    Ok(())
}

// Plays an op, and returns its answer.
fn play_op<O: Output, K: Keeper>(
    player: &mut Player<Told<O>, Kept<K>>,
    thread: u32,
    op: Op,
) -> Result<Answer, OutOfMemory>
    requires going { IsGoing player.old }
    requires few { length player.old.lines.items < 65535 }
    requires thread { thread < player.old.lines.head.threads }
    requires op { IsOpWithin player.old.lines.head.partitions op }
    ensures went { IfOk result (λ answer. Went player.old (next_record player.old thread op answer ∷ []) player.new) }
    ensures owned { IfOk result (λ answer. ReadsOwned player.old (Do thread op) (Some answer)) }
{
    match player.line(Line::Do { thread, op })? {
        Some(answer) => Ok(answer),
        None => unreachable!(),
    }
}

// Whether there was no room.
fn is_full(answer: Answer) -> bool
    ensures { IsTrue result ↔ HasNoRoom answer }
{
    matches!(answer, Answer::Full { .. })
}
