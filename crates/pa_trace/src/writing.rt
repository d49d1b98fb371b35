ghost use Rattle.std.specs.Prelude.{◌≡◌, ◌++◌, ◌≤◌, length, OnOk, OnErr, IfOk};
ghost use Rattle.std.specs.Io.{StartsWith};
ghost use Rattle.pa_trace.specs.Grammar.{IsVersionTo, IsToldPlain, AreLinesText, IsTraceText, last_version};
ghost use Rattle.pa_trace.specs.Limits.{IsWithinLimits, most_bytes};
ghost use Rattle.pa_trace.specs.Faults.{IsHeadLine, IsBodyLine};
ghost use Rattle.pa_trace.specs.Cut.{Appends};
ghost use Rattle.pa_trace.specs.Printed.{head_text, line_text};

use crate::line::Head;
use crate::printing::{head_is, line_is, print_head, print_line};
use crate::script::{Line, Trace};
use pa_slot::OutOfMemory;
use pa_text::Text;
use std::alloc::Global;

// The bytes of a line, estimated.
const LINE: usize = 16;

/// The text of the trace, which is within the limits. It has at most 4,194,304 bytes, so `read_trace` reads it again.
pub fn write_trace(alloc: Global, trace: &Trace) -> Result<Vec<u8>, OutOfMemory>
    requires { IsWithinLimits trace.now }
    ensures text { IfOk result (λ text. IsTraceText trace.now text.items) }
    ensures short { IfOk result (λ text. length text.items ≤ most_bytes) }
{
    let lines = trace.lines.as_slice();
    let mut out = Text::with_capacity(alloc, LINE * (lines.len() + 4))?;
    push_head(&mut out, trace.head())?;
    push_lines(&mut out, lines)?;
    Ok(out.into_vec())
}

/// Appends the head, of one of the versions, and an LF. Below version 3 no partition is plain. If memory runs out, a first part of it may
/// have been appended.
pub fn push_head(out: &mut Text, head: Head) -> Result<(), OutOfMemory>
    requires version { IsVersionTo last_version head.version }
    requires plain { IsToldPlain head }
    ensures pushed { OnOk result (Appends (IsHeadLine last_version head) out.old out.new) }
    ensures kept { OnErr result (StartsWith out.new out.old) }
{
    head_is(head);
    print_head(out, head)
}

/// Appends the line and an LF. If memory runs out, a first part of it may have been appended.
#[inline(always)]
pub fn push_line(out: &mut Text, line: Line) -> Result<(), OutOfMemory>
    ensures pushed { OnOk result (Appends (IsBodyLine line) out.old out.new) }
    ensures kept { OnErr result (StartsWith out.new out.old) }
{
    line_is(line);
    print_line(out, line)
}

// Appends the lines, each with its LF.
fn push_lines(out: &mut Text, lines: &[Line]) -> Result<(), OutOfMemory>
    ensures { OnOk result (Appends (AreLinesText lines.now) out.old out.new) }
{
    for line in lines {
        push_line(out, *line)?;
    }
    Ok(())
}
