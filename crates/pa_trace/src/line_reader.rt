ghost use Rattle.std.specs.Prelude.{◌≡◌, ◌≢◌, ◌<◌, ◌≤◌, ◌⊎◌, ◌↔◌, ◌++◌, ◌∷◌, [], IsTrue, IfOk, IfErr, OnErr, MatchOption};
ghost use Rattle.pa_trace.specs.Grammar.{last_version};
ghost use Rattle.pa_trace.specs.Limits.{most_lines};
ghost use Rattle.pa_trace.specs.Faults.{IsFault};
ghost use Rattle.pa_trace.specs.Cut.{IsOneLine, told};
ghost use Rattle.pa_trace.specs.Unread.{IsReadUpTo, IsLineRead, IsEndRead, IsFaultRead};
ghost use Rattle.pa_trace.specs.declared.fault.TraceFault.TheVariants as faults;

use crate::fault::TraceFault;
use crate::field::LineFault;
use crate::line::{Head, head_in, line_in};
use crate::script::Line;
use std::marker::Model;

/// The most lines of a trace, the head included.
pub const MOST_LINES: u32 = 65_536;

/// The most bytes of a trace.
pub const MOST_BYTES: usize = 4_194_304;

/// Reads the text of a trace, line by line. It is seen as what is unread.
#[derive(Drop)]
pub struct LineReader<'a> {
    head: Head,
    rest: &'a [u8],
    left: usize,
    number: u32,
}

impl<'a> Model for LineReader<'a> {
    ghost use Rattle.pa_trace.specs.Unread.{Unread};

    ghost Value = { Unread };

    ghost view = { λ r. record { head = r.head; rest = r.rest.now; left = r.left; number = r.number } };
}

impl<'a> LineReader<'a> {
    /// Reads the head, which is line 1, of a version up to `known`: any other is `BadLine(1)`. It needs no memory.
    pub fn of(known: u32, bytes: &'a [u8]) -> Result<LineReader<'a>, TraceFault>
        requires { known ≤ last_version }
        ensures head { IfOk result (IsReadUpTo known bytes.now []) }
        ensures fault { IfErr result (λ e. IsFault known e bytes.now) }
        ensures never { IfErr result (λ e. e ≢ faults.OutOfMemory) }
    {
        let Some((first, rest)) = cut_line(bytes) else {
            return Err(without_end(1, bytes.len(), MOST_BYTES));
        };
        let length = first.len() + 1;
        if is_past(1, length, MOST_BYTES) {
            return Err(TraceFault::Limit(1));
        }
        match head_in(known, first) {
            Ok(head) => Ok(LineReader {
                head,
                rest,
                left: MOST_BYTES - length,
                number: 2,
            }),
            Err(fault) => Err(fault_at(1, fault)),
        }
    }

    /// The numbers of the head.
    pub fn head(&self) -> Head
        ensures { result ≡ self.now.head }
    {
        self.head
    }

    /// Reads the next line. `None` is the end: the bytes are a trace. It needs no memory, and after a fault the reader is as it was.
    #[inline(always)]
    pub fn next(&mut self) -> Result<Option<Line>, TraceFault>
        ensures line { IfOk result (λ found. MatchOption found (IsEndRead self.old self.new) (λ l. IsLineRead self.old l self.new)) }
        ensures fault { IfErr result (IsFaultRead self.old) }
        ensures never { IfErr result (λ e. e ≢ faults.OutOfMemory) }
        ensures same { OnErr result (self.new ≡ self.old) }
    {
        let n = self.number;
        let rest = self.rest;
        let Some((line, after)) = cut_line(rest) else {
            if rest.is_empty() {
                return Ok(None);
            }
            return Err(without_end(n, rest.len(), self.left));
        };
        let length = line.len() + 1;
        if is_past(n, length, self.left) {
            return Err(TraceFault::Limit(n));
        }
        match line_in(self.head, line) {
            Ok(line) => {
                self.rest = after;
                self.left -= length;
                self.number = n + 1;
                Ok(Some(line))
            }
            Err(fault) => Err(fault_at(n, fault)),
        }
    }
}

/// The first line without its LF, and the bytes after the LF. `None` if there is no LF.
pub fn cut_line(bytes: &[u8]) -> Option<(&[u8], &[u8])>
    ensures { MatchOption result (IsOneLine bytes.now) (λ x. IsOneLine x.0.now × (bytes.now ≡ x.0.now ++ 10 ∷ x.1.now)) }
{
    for (i, byte) in bytes.iter().enumerate() {
        if *byte == b'\n' {
            let (line, rest) = bytes.split_at(i);
            let (_, rest) = rest.split_at(1);
            return Some((line, rest));
        }
    }
    None
}

// Whether line n is one line too many, or is a byte too long for the bytes that may still come.
fn is_past(n: u32, length: usize, room: usize) -> bool
    ensures { IsTrue result ↔ ((most_lines < n) ⊎ (room < length)) }
{
    n > MOST_LINES || length > room
}

/// What the trace's fault is where line `n` has this one.
pub fn fault_at(n: u32, fault: LineFault) -> TraceFault
    ensures told { result ≡ told n fault }
    ensures never { result ≢ faults.OutOfMemory }
{
    match fault {
        LineFault::Outside => TraceFault::BadLine(n),
        LineFault::Past => TraceFault::Limit(n),
    }
}

// The fault of line n, which has no LF: its length, and how many bytes may still come, are given.
fn without_end(n: u32, length: usize, room: usize) -> TraceFault
    ensures past { (most_lines < n) ⊎ (room < length) → result ≡ faults.Limit n }
    ensures bad { n ≤ most_lines → length ≤ room → result ≡ faults.BadLine n }
    ensures never { result ≢ faults.OutOfMemory }
{
    if is_past(n, length, room) {
        TraceFault::Limit(n)
    } else {
        TraceFault::BadLine(n)
    }
}
