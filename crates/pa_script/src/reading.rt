ghost use Rattle.std.specs.Prelude.{IfOk, IfErr};
ghost use Rattle.pa_script.specs.Limits.{IsScriptInput};
ghost use Rattle.pa_script.specs.Faults.{IsScriptFault};

use crate::reader::{MOST_SCRIPT_LINES, ScriptReader};
use crate::script::{Script, ScriptLines};
use pa_trace::{Head, TraceFault};
use std::alloc::Global;

// The fewest bytes that a line has: room for all lines is taken ahead.
const LINE: usize = 4;

/// The script that the bytes are the text of. `BadLine(n)` and `Limit(n)` name the first faulty line; lines and bytes count
/// from 1. A line is faulty by `Limit` if it is line 10,001 or contains byte 4,194,305; else by `BadLine` if it is
/// outside the grammar or has no LF; else by `Limit` if a number passes its limit. No bytes are `BadLine(1)`.
pub fn read_script(alloc: Global, bytes: &[u8]) -> Result<Script, TraceFault>
    ensures found { IfOk result (λ s. IsScriptInput s bytes.now) }
    ensures fault { IfErr result (λ e. IsScriptFault e bytes.now) }
{
    let mut reader = ScriptReader::of(bytes)?;
    let most = (bytes.len() / LINE).min(MOST_SCRIPT_LINES as usize);
    let mut lines = Vec::with_capacity(alloc, most)?;
    while let Some(line) = reader.next()? {
        lines.push(line)?;
    }
    let Head {
        region,
        partitions,
        threads,
        ..
    } = reader.head();
    Ok(Script {
        region,
        partitions,
        threads,
        lines: ScriptLines::of(lines),
    })
}
