ghost use Rattle.std.specs.Prelude.{◌≡◌, ℕ, List, [], Option, codes};
ghost use Rattle.pa_trace.specs.Reading.{Gives, behind, number_in, three_in};
ghost use Rattle.pa_script.specs.Reading.{names_few, names_few_in, plain_in, plain_of, resize_in, script_head_in, script_line_in};

use crate::script::ScriptLine;
use pa_text::number_at;
use pa_trace::{Head, Line, LineFault, Op, below, head_of, line_in, three_numbers, within};

/// How many registers a script may name, and how many cells: 0 to 62.
pub const NAMED: u32 = 63;

// The head, which is the whole line: it is of version 1.
#[tactic(auto, unfolding(crate::specs::Reading::script_head_in))]
pub(crate) fn script_head_in(bytes: &[u8]) -> Result<Head, LineFault>
    ensures { result ≡ script_head_in bytes.now }
{
    let (region, partitions, threads) = three_numbers(
        bytes,
        b"script 1 region ",
        b" partitions ",
        b" threads ",
    )?;
    head_of(1, region, partitions, threads, Some(0))
}

// A line after the head, without its LF.
pub(crate) fn script_line_in(head: Head, bytes: &[u8]) -> Result<ScriptLine, LineFault>
    ensures { result ≡ script_line_in head.partitions head.threads bytes.now }
{
    match resize_in(head.threads, bytes) {
        Ok(line) => Ok(line),
        Err(LineFault::Outside) => plain_in(head, bytes),
        Err(LineFault::Past) => Err(LineFault::Past),
    }
}

// The thread, the register and the size of a resize, which are the whole line.
#[tactic(auto, unfolding(crate::specs::Reading::resize_in))]
#[inline(always)]
fn resize_in(threads: u32, bytes: &[u8]) -> Result<ScriptLine, LineFault>
    ensures { result ≡ resize_in threads bytes.now }
{
    let (thread, reg, size) = resize_numbers(bytes)?;
    Ok(ScriptLine::Resize {
        thread: below(thread, threads)?,
        reg: below(reg, NAMED)?,
        size: within(size)?,
    })
}

// These numbers, each of which may be too large. The words before them are looked for byte by byte, as most lines of a script may
// be resizes.
#[tactic(auto, unfolding(pa_trace::specs::Reading::three_in, pa_trace::specs::Reading::fields_in, pa_trace::specs::Reading::field_in, pa_trace::specs::Reading::behind))]
fn resize_numbers(bytes: &[u8]) -> Result<(Option<u32>, Option<u32>, Option<u32>), LineFault>
    ensures { Gives (λ x. x) result (three_in bytes.now [] (codes " S r") (codes " ")) }
{
    let (thread, rest) = number_in(bytes)?;
    let rest = behind(b" S r", rest)?;
    let (reg, rest) = number_in(rest)?;
    let rest = behind(b" ", rest)?;
    let (size, rest) = number_in(rest)?;
    if rest.is_empty() {
        Ok((thread, reg, size))
    } else {
        Err(LineFault::Outside)
    }
}

// The bytes after a word with which they begin.
#[tactic(auto, unfolding(pa_trace::specs::Reading::behind), using(pa_text::proofs::Fronts::front_found, pa_text::proofs::Fronts::front_none))]
#[inline(always)]
fn behind<'a>(word: &[u8], bytes: &'a [u8]) -> Result<&'a [u8], LineFault>
    ensures { Gives (λ x. x.now) result (behind word.now bytes.now) }
{
    match pa_text::behind(word, bytes) {
        Some(rest) => Ok(rest),
        None => Err(LineFault::Outside),
    }
}

// The number at the start, and the bytes after it. It is `None` if it has more than 32 bits.
#[inline(always)]
fn number_in(bytes: &[u8]) -> Result<(Option<u32>, &[u8]), LineFault>
    ensures { Gives {Y = Option ℕ × List ℕ} (λ x. (x.0, x.1.now)) result (number_in bytes.now) }
{
    match number_at(bytes) {
        Some(found) => Ok(found),
        None => Err(LineFault::Outside),
    }
}

// A line of a trace.
#[tactic(auto, unfolding(crate::specs::Reading::plain_in))]
fn plain_in(head: Head, bytes: &[u8]) -> Result<ScriptLine, LineFault>
    ensures { result ≡ plain_in head.partitions head.threads bytes.now }
{
    let line = line_in(head, bytes)?;
    plain_of(line)
}

// The line if its registers and cells are 0 to 62.
fn plain_of(line: Line) -> Result<ScriptLine, LineFault>
    ensures { result ≡ plain_of line }
{
    if names_few(line) {
        Ok(ScriptLine::Plain(line))
    } else {
        Err(LineFault::Past)
    }
}

fn names_few(line: Line) -> bool
    ensures { result ≡ names_few line }
{
    match line {
        Line::Phase => true,
        Line::Do { op, .. } => names_few_in(op),
    }
}

fn names_few_in(op: Op) -> bool
    ensures { result ≡ names_few_in op }
{
    match op {
        Op::Alloc { reg, .. } => reg < NAMED,
        Op::Copy { from, to } => from < NAMED && to < NAMED,
        Op::Reset { reg } => reg < NAMED,
        Op::Free { reg } => reg < NAMED,
        Op::Write { reg, .. } => reg < NAMED,
        Op::Read { reg, .. } => reg < NAMED,
        Op::Swap { cell, reg } => cell < NAMED && reg < NAMED,
        Op::Purge => true,
    }
}
