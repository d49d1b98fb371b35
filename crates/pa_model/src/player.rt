ghost use Rattle.std.specs.Prelude.{◌≡◌, ◌<◌, IfOk, IfSome, OnErr, length};
ghost use Rattle.pa_trace.specs.Grammar.{IsVersionTo, last_version};
ghost use Rattle.pa_trace.specs.Limits.{IsHeadWithin, IsLineWithin, register_count};
ghost use Rattle.pa_trace_writer.specs.Lines.{no_lines};
ghost use Rattle.pa_record.specs.declared.run.Run.{Run};
ghost use Rattle.pa_player.specs.Begun.{IsUntold};
ghost use Rattle.pa_model.specs.Player.{IsFinished, IsGoing, IsNew, IsPrinted, Owns, PlaysLine, ReadsOwned, owned_by, owned_of, trace_so_far};

use pa_player::{ListOutput, Output, Player as LinePlayer, TextOutput, Told};
use pa_record::{Answer, Run};
use pa_slot::{OutOfMemory, SlotName, Title};
use pa_trace::{Head, Line, Trace};
use pa_trace_writer::{Keeper, Kept, LineList, LineText};
use std::alloc::Global;

/// A trace that is played line by line, by lines that a caller chooses as it goes. Its lines and its run are kept as lists, or
/// printed as it is played: `T` is what its run is given to, and `L` what its lines are given to.
#[derive(Drop)]
pub struct Player<T, L> {
    pub(crate) inner: LinePlayer<T>,
    pub(crate) lines: L,
    pub(crate) alloc: Global,
}

/// The slot of an owner: its name, its length in bytes, with the count word, and its partition.
#[derive(Clone, Copy, Debug, PartialEq, Eq)]
pub struct Handed {
    pub slot: SlotName,
    pub len: u32,
    pub partition: u32,
}

impl Player<Told<ListOutput>, Kept<LineList>> {
    /// No line yet, of a trace with this head. Out of memory is the only error.
    pub fn new(
        alloc: Global,
        head: Head,
    ) -> Result<Player<Told<ListOutput>, Kept<LineList>>, OutOfMemory>
        requires version { IsVersionTo last_version head.version }
        requires within { IsHeadWithin head }
        ensures { IfOk result (IsNew head) }
    {
        let told = Told::new(alloc, ListOutput::new(alloc, head.partitions, 0)?)?;
        begin(alloc, head, told, Kept::of(LineList::new(alloc, head)))
    }

    /// The run of the lines, in their order. Out of memory is the only error.
    pub fn finish(self) -> Result<Run, OutOfMemory>
        requires { IsGoing self }
        ensures { IfOk result (IsFinished self (trace_so_far self)) }
    {
        let (_, run) = self.finish_traced()?;
        Ok(run)
    }

    /// The trace of the lines, and its run, in their order. Out of memory is the only error.
    pub fn finish_traced(self) -> Result<(Trace, Run), OutOfMemory>
        requires { IsGoing self }
        ensures { IfOk result (λ both. IsFinished self both.0 both.1) }
    {
        let run = self.inner.finish()?.into_run(self.alloc)?;
        Ok((self.lines.into_keeper().into_trace(), run))
    }
}

impl Player<Told<TextOutput>, Kept<LineText>> {
    /// No line yet, as in `new`, of a player that prints its lines and its run.
    /// Memory is reserved for this many lines and their records.
    pub fn printing(
        alloc: Global,
        head: Head,
        lines: usize,
    ) -> Result<Player<Told<TextOutput>, Kept<LineText>>, OutOfMemory>
        requires version { IsVersionTo last_version head.version }
        requires within { IsHeadWithin head }
        ensures { IfOk result (IsNew head) }
    {
        let told = Told::new(alloc, TextOutput::new(alloc, head.partitions, lines)?)?;
        begin(
            alloc,
            head,
            told,
            Kept::of(LineText::new(alloc, head, lines)?),
        )
    }

    /// The text of the trace of the lines, and that of its run, in their order. Out of memory is the only error.
    pub fn finish_printed(self) -> Result<(Vec<u8>, Vec<u8>), OutOfMemory>
        requires { IsGoing self }
        ensures { IfOk result (λ both. IsPrinted self both.0.items both.1.items) }
    {
        let run = self.inner.finish()?.into_text()?;
        Ok((self.lines.into_keeper().into_text(), run))
    }
}

impl<O: Output, K: Keeper> Player<Told<O>, Kept<K>> {
    /// Plays a line. Returns its answer, and none of a line that begins a phase. Out of memory is the only error. After it the player
    /// can't be used, and has the lines that it had.
    pub fn line(&mut self, line: Line) -> Result<Option<Answer>, OutOfMemory>
        requires going { IsGoing self.old }
        requires few { length self.old.lines.items < 65535 }
        requires within { IsLineWithin self.old.lines.head.partitions self.old.lines.head.threads line }
        ensures played { IfOk result (λ answer. PlaysLine self.old line answer self.new) }
        ensures owned { IfOk result (ReadsOwned self.old line) }
        ensures same { OnErr result (self.new.lines ≡ self.old.lines) }
    {
        let answer = self.inner.line(line)?;
        self.lines.push(line)?;
        Ok(answer)
    }

    /// The slot that a register of a thread owns after the lines so far. `None` exactly if it owns none.
    pub fn own(&self, thread: u32, reg: u32) -> Option<Handed>
        requires going { IsGoing self.now }
        requires thread { thread < self.now.lines.head.threads }
        requires reg { reg < register_count }
        ensures owned_by { result ≡ owned_by self.now thread reg }
        ensures owned { Owns self.now thread reg result }
        ensures partition { IfSome result (λ h. h.partition < self.now.lines.head.partitions) }
    {
        owned_by(self.inner.owned(thread, reg))
    }
}

// A player before the first line, which gives its run to `told` and its lines to `lines`.
fn begin<O: Output, K: Keeper>(
    alloc: Global,
    head: Head,
    told: Told<O>,
    lines: Kept<K>,
) -> Result<Player<Told<O>, Kept<K>>, OutOfMemory>
    requires version { IsVersionTo last_version head.version }
    requires within { IsHeadWithin head }
    requires told { IsUntold head.partitions told }
    requires lines { lines ≡ no_lines head }
    ensures { IfOk result (IsNew head) }
{
    Ok(Player {
        inner: LinePlayer::new(alloc, head, told)?,
        lines,
        alloc,
    })
}

// The slot of a title, and its partition.
fn owned_by(found: Option<(Title, u32)>) -> Option<Handed>
    ensures { result ≡ owned_of found }
{
    match found {
        Some((title, partition)) => Some(Handed {
            slot: SlotName {
                start: title.start,
                born: title.born,
            },
            len: title.len,
            partition,
        }),
        None => None,
    }
}
