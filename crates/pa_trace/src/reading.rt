ghost use Rattle.std.specs.Prelude.{◌≤◌, IfOk, IfErr};
ghost use Rattle.pa_trace.specs.Grammar.{last_version};
ghost use Rattle.pa_trace.specs.Limits.{IsInput};
ghost use Rattle.pa_trace.specs.Faults.{IsFault};

use crate::fault::TraceFault;
use crate::line::{Head, LAST_VERSION};
use crate::line_reader::{LineReader, MOST_LINES};
use crate::script::{Lines, Trace};
use std::alloc::Global;

// The fewest bytes that a line has: memory for all lines is reserved ahead.
const LINE: usize = 4;

/// Reads a trace from its text. `BadLine(n)` and `Limit(n)` name the first faulty line; lines and bytes count
/// from 1. A line is faulty by `Limit` if it is line 65,537 or contains byte 4,194,305; else by `BadLine` if it is
/// outside the grammar or has no LF; else by `Limit` if a number passes its limit. No bytes are `BadLine(1)`.
pub fn read_trace(alloc: Global, bytes: &[u8]) -> Result<Trace, TraceFault>
    ensures found { IfOk result (λ t. IsInput t bytes.now) }
    ensures fault { IfErr result (λ e. IsFault last_version e bytes.now) }
{
    read_trace_to(alloc, LAST_VERSION, bytes)
}

/// The same, where `known` is the last version that is known: a head of a later one is outside the grammar.
pub fn read_trace_to(alloc: Global, known: u32, bytes: &[u8]) -> Result<Trace, TraceFault>
    requires { known ≤ last_version }
    ensures found { IfOk result (λ t. IsInput t bytes.now) }
    ensures version { IfOk result (λ t. t.version ≤ known) }
    ensures fault { IfErr result (λ e. IsFault known e bytes.now) }
{
    let mut reader = LineReader::of(known, bytes)?;
    let mut lines = Vec::with_capacity(alloc, (bytes.len() / LINE).min(MOST_LINES as usize))?;
    while let Some(line) = reader.next()? {
        lines.push(line)?;
    }
    let Head {
        version,
        region,
        partitions,
        threads,
        plain,
    } = reader.head();
    Ok(Trace {
        version,
        region,
        partitions,
        threads,
        plain,
        lines: Lines::of(lines),
    })
}
