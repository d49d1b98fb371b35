ghost use Rattle.std.specs.Prelude.{◌<◌, IfOk, OnOk, length};
ghost use Rattle.pa_trace.specs.Limits.{IsLineWithin, IsWithinLimits};
ghost use Rattle.pa_record.specs.RunText.{IsPrintable};
ghost use Rattle.pa_model.specs.Player.{IsGoing};
ghost use Rattle.pa_test_resize.specs.Driven.{IsDriven};

use pa_model::{Player, play};
use pa_player::{ListOutput, Told};
use pa_record::{Answer, Run, write_run};
use pa_slot::OutOfMemory;
use pa_trace::{Head, Line, Op, Trace, read_trace};
use pa_trace_writer::{Kept, LineList};
use std::alloc::Global;
use std::test::Fail;

// Plays a line, and appends its answer if it has one.
fn play_line(
    player: &mut Player<Told<ListOutput>, Kept<LineList>>,
    line: Line,
    answers: &mut Vec<Answer>,
) -> Result<(), OutOfMemory>
    requires going { IsGoing player.old }
    requires few { length player.old.lines.items < 65535 }
    requires within { IsLineWithin player.old.lines.head.partitions player.old.lines.head.threads line }
    ensures { OnOk result (IsDriven player.old line player.new) }
{
    let answer = player.line(line)?;
    if let Some(answer) = answer {
        answers.push(answer)?;
    }
    Ok(())
}

// The answers of a player that is driven by a trace's lines, and its run.
fn driven(alloc: Global, trace: &Trace) -> Result<(Vec<Answer>, Run), OutOfMemory>
    requires { IsWithinLimits trace.now }
    ensures { IfOk result (λ both. IsPrintable both.1) }
{
    let mut player = Player::new(alloc, trace.head())?;
    let mut answers = Vec::new(alloc);
    for line in trace.lines.as_slice() {
        play_line(&mut player, *line, &mut answers)?;
    }
    let run = player.finish()?;
    Ok((answers, run))
}

// Whether each answer is that of the run of the whole trace, and the run at the end is that run.
fn answers_as_the_run(alloc: Global, text: &[u8]) -> Result<bool, Fail> {
    let Ok(trace) = read_trace(alloc, text) else {
        return Err(Fail::new("no trace"));
    };
    let run = play(alloc, &trace)?;
    let (answers, last) = driven(alloc, &trace)?;
    let same = answers
        .iter()
        .zip(run.entries.iter())
        .all(|(answer, entry)| *answer == entry.answer);
    let text = write_run(alloc, &run)?;
    let again = write_run(alloc, &last)?;
    Ok(same && answers.len() == run.entries.len() && again.as_slice() == text.as_slice())
}

// Each answer is known as soon as its line is played.
#[test]
fn answers_each_line_as_the_whole_run_does(rt: HostRuntime) -> Result<(), Fail> {
    let text = b"trace 1 region 1 partitions 1 threads 2
0 A r0 p0 8
0 W r0 0000000000000005
0 C r0 r1
0 X c0 r1
phase
1 D r0 0
0 F r0
1 X c0 r0
1 D r0 0
1 R r0
0 A r0 p0 2000000
0 P
";
    assert!(rt; answers_as_the_run(rt.alloc(), text)?);
    Ok(())
}

// The slot that a register owns is known from its allocation until its free.
#[test]
fn knows_what_registers_own(rt: HostRuntime) -> Result<(), Fail> {
    let head = Head {
        version: 1,
        region: 1,
        partitions: 2,
        threads: 1,
        plain: 0,
    };
    let mut player = Player::new(rt.alloc(), head)?;
    assert!(rt; player.own(0, 5).is_none());
    let op = Op::Alloc {
        reg: 5,
        partition: 1,
        size: 100,
    };
    player.line(Line::Do { thread: 0, op })?;
    let Some(owned) = player.own(0, 5) else {
        return Err(Fail::new("no owner"));
    };
    assert_eq!(rt; (owned.slot.start, owned.slot.born), (16384, 0));
    assert_eq!(rt; (owned.len, owned.partition), (112, 1));
    player.line(Line::Do {
        thread: 0,
        op: Op::Free { reg: 5 },
    })?;
    assert!(rt; player.own(0, 5).is_none());
    Ok(())
}
