ghost use Rattle.std.specs.Prelude.{◌≡◌, [], IfOk, OnOk, OnErr};
ghost use Rattle.pa_trace.specs.Grammar.{IsVersionTo, IsToldPlain, IsTraceText, last_version};
ghost use Rattle.pa_trace.specs.Unread.{trace_with};
ghost use Rattle.pa_trace_writer.specs.Lines.{LinesSoFar, no_lines, with_line};

use pa_slot::OutOfMemory;
use pa_text::{Past, Text};
use pa_trace::{Head, Line, Lines, Trace, push_head, push_line};
use std::alloc::Global;
use std::marker::Model;

// The bytes of a line, for the memory that is reserved ahead: few are longer.
const LINE_BYTES: usize = 16;

/// What a player keeps of its lines. `lines` is the head and the lines that it was given.
pub trait Keeper: Drop {
    ghost lines: { Self → LinesSoFar };

    /// One more line. If memory runs out, the lines are as they were.
    fn keep(&mut self, line: Line) -> Result<(), OutOfMemory>
        ensures kept { OnOk result (lines self.new ≡ with_line line (lines self.old)) }
        ensures same { OnErr result (lines self.new ≡ lines self.old) };
}

/// A keeper, which is seen as what it was given, whichever it is.
#[derive(Drop)]
pub struct Kept<K: Keeper> {
    keeper: K,
}

impl<K: Keeper> Model for Kept<K> {
    ghost use Rattle.pa_trace_writer.specs.Lines.{LinesSoFar};

    ghost Value = { LinesSoFar };

    ghost view = { λ kept. K.lines kept.keeper };
}

impl<K: Keeper> Kept<K> {
    /// The keeper, from now on seen as what it was given.
    pub fn of(keeper: K) -> Kept<K>
        ensures { result ≡ K.lines keeper }
    {
        Kept { keeper }
    }

    /// One more line. If memory runs out, the lines are as they were.
    #[inline(always)]
    pub fn push(&mut self, line: Line) -> Result<(), OutOfMemory>
        ensures pushed { OnOk result (self.new ≡ with_line line self.old) }
        ensures same { OnErr result (self.new ≡ self.old) }
    {
        self.keeper.keep(line)
    }

    /// The keeper itself.
    pub fn into_keeper(self) -> K
        ensures { K.lines result ≡ self }
    {
        self.keeper
    }
}

/// The head and the lines as a list.
#[derive(Drop)]
pub struct LineList {
    head: Head,
    items: Vec<Line>,
}

impl LineList {
    /// A head, and no lines.
    pub fn new(alloc: Global, head: Head) -> LineList
        ensures head { result.head ≡ head }
        ensures lines { result.items.items ≡ [] }
    {
        LineList {
            head,
            items: Vec::new(alloc),
        }
    }

    /// The trace of the head and the lines.
    pub fn into_trace(self) -> Trace
        ensures { result ≡ trace_with self.head self.items.items }
    {
        Trace {
            version: self.head.version,
            region: self.head.region,
            partitions: self.head.partitions,
            threads: self.head.threads,
            plain: self.head.plain,
            lines: Lines::of(self.items),
        }
    }
}

impl Keeper for LineList {
    ghost lines = { λ list. record { head = list.head; items = list.items.items } };

    #[inline(always)]
    fn keep(&mut self, line: Line) -> Result<(), OutOfMemory> {
        self.items.push(line)?;
        Ok(())
    }
}

/// The head and the lines as the text of their trace, which is all that is kept of them.
#[derive(Drop)]
pub struct LineText {
    head: Head,
    text: Text,
    past: Past<Line>,
}

impl Model for LineText {
    ghost use Rattle.pa_trace.specs.Grammar.{IsTraceText};
    ghost use Rattle.pa_trace.specs.Unread.{trace_with};
    ghost use Rattle.pa_trace_writer.specs.Lines.{LinesSoFar};

    ghost Value = { LinesSoFar };

    ghost view = { λ text. record { head = text.head; items = text.past.items } };

    ghost invariant = { λ text. IsTraceText (trace_with text.head text.past.items) text.text };
}

impl LineText {
    /// A head of one of the versions, without plain partitions below version 3, and no lines. Memory is reserved for the texts of this
    /// many lines.
    #[tactic(auto, using(crate::proofs::Growing::head_alone))]
    pub fn new(alloc: Global, head: Head, lines: usize) -> Result<LineText, OutOfMemory>
        requires version { IsVersionTo last_version head.version }
        requires plain { IsToldPlain head }
        ensures { IfOk result (λ text. text ≡ no_lines head) }
    {
        let mut text = Text::with_capacity(alloc, lines.saturating_mul(LINE_BYTES))?;
        push_head(&mut text, head)?;
        Ok(LineText {
            head,
            text,
            past: Past::new(),
        })
    }

    /// The text of the trace of the head and the lines.
    pub fn into_text(self) -> Vec<u8>
        ensures { IsTraceText (trace_with self.head self.items) result.items }
    {
        self.text.into_vec()
    }
}

impl Keeper for LineText {
    ghost lines = { λ text. text };

    #[inline(always)]
    fn keep(&mut self, line: Line) -> Result<(), OutOfMemory> {
        let len = self.text.len();
        match push_line(&mut self.text, line) {
            Ok(()) => {
                self.past = self.past.and(&line);
                Ok(())
            }
            Err(error) => {
                self.text.truncate(len);
                Err(error)
            }
        }
    }
}
