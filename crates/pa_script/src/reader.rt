ghost use Rattle.std.specs.Prelude.{◌≡◌, ◌≢◌, ◌<◌, ◌≤◌, ◌⊎◌, ◌↔◌, [], IsTrue, IfOk, IfErr, OnErr, MatchOption};
ghost use Rattle.pa_trace.specs.declared.fault.TraceFault.TheVariants as faults;
ghost use Rattle.pa_script.specs.Limits.{most_script_lines};
ghost use Rattle.pa_script.specs.Faults.{IsScriptFault};
ghost use Rattle.pa_script.specs.Unread.{IsScriptReadUpTo, IsScriptLineRead, IsScriptEndRead, IsScriptFaultRead};

use crate::line::{script_head_in, script_line_in};
use crate::script::ScriptLine;
use pa_trace::{Head, MOST_BYTES, TraceFault, cut_line, fault_at};
use std::marker::Model;

/// The most lines of a script, the head included.
pub const MOST_SCRIPT_LINES: u32 = 10_000;

/// Reads the text of a script, line by line. It is seen as what is unread.
#[derive(Drop)]
pub struct ScriptReader<'a> {
    head: Head,
    rest: &'a [u8],
    left: usize,
    number: u32,
}

impl<'a> Model for ScriptReader<'a> {
    ghost use Rattle.pa_trace.specs.Unread.{Unread};

    ghost Value = { Unread };

    ghost view = { λ r. record { head = r.head; rest = r.rest.now; left = r.left; number = r.number } };
}

impl<'a> ScriptReader<'a> {
    /// Reads the head, which is line 1. It needs no memory.
    pub fn of(bytes: &'a [u8]) -> Result<ScriptReader<'a>, TraceFault>
        ensures head { IfOk result (IsScriptReadUpTo bytes.now []) }
        ensures fault { IfErr result (λ e. IsScriptFault e bytes.now) }
        ensures never { IfErr result (λ e. e ≢ faults.OutOfMemory) }
    {
        let Some((first, rest)) = cut_line(bytes) else {
            return Err(without_end(1, bytes.len(), MOST_BYTES));
        };
        let length = first.len() + 1;
        if is_past(1, length, MOST_BYTES) {
            return Err(TraceFault::Limit(1));
        }
        match script_head_in(first) {
            Ok(head) => Ok(ScriptReader {
                head,
                rest,
                left: MOST_BYTES - length,
                number: 2,
            }),
            Err(fault) => Err(fault_at(1, fault)),
        }
    }

    /// The numbers of the head.
    pub fn head(&self) -> Head
        ensures { result ≡ self.now.head }
    {
        self.head
    }

    /// Reads the next line. `None` is the end: the bytes are a script. It needs no memory, and after a fault the reader is as it was.
    pub fn next(&mut self) -> Result<Option<ScriptLine>, TraceFault>
        ensures line { IfOk result (λ found. MatchOption found
            (IsScriptEndRead self.old self.new) (λ l. IsScriptLineRead self.old l self.new)) }
        ensures fault { IfErr result (IsScriptFaultRead self.old) }
        ensures never { IfErr result (λ e. e ≢ faults.OutOfMemory) }
        ensures same { OnErr result (self.new ≡ self.old) }
    {
        let n = self.number;
        let rest = self.rest;
        let Some((line, after)) = cut_line(rest) else {
            if rest.is_empty() {
                return Ok(None);
            }
            return Err(without_end(n, rest.len(), self.left));
        };
        let length = line.len() + 1;
        if is_past(n, length, self.left) {
            return Err(TraceFault::Limit(n));
        }
        match script_line_in(self.head, line) {
            Ok(line) => {
                self.rest = after;
                self.left -= length;
                self.number = n + 1;
                Ok(Some(line))
            }
            Err(fault) => Err(fault_at(n, fault)),
        }
    }
}

// Whether line n, of `length` bytes, is one line too many, or is too long when `room` bytes may still come.
fn is_past(n: u32, length: usize, room: usize) -> bool
    ensures { IsTrue result ↔ ((most_script_lines < n) ⊎ (room < length)) }
{
    n > MOST_SCRIPT_LINES || length > room
}

// The fault of line n, which has `length` bytes and no LF, when `room` bytes may still come.
fn without_end(n: u32, length: usize, room: usize) -> TraceFault
    ensures past { (most_script_lines < n) ⊎ (room < length) → result ≡ faults.Limit n }
    ensures bad { n ≤ most_script_lines → length ≤ room → result ≡ faults.BadLine n }
    ensures never { result ≢ faults.OutOfMemory }
{
    if is_past(n, length, room) {
        TraceFault::Limit(n)
    } else {
        TraceFault::BadLine(n)
    }
}
