//! How a head and a line are printed: each number in its one spelling.
ghost use Rattle.std.specs.Prelude.{◌≡◌, ◌<◌, ◌++◌, OnOk, OnErr};
ghost use Rattle.std.specs.Fmt.{decimal};
ghost use Rattle.std.specs.Io.{StartsWith};
ghost use Rattle.pa_trace.specs.Grammar.{IsVersionTo, IsToldPlain, last_version, tells_plain};
ghost use Rattle.pa_trace.specs.Faults.{IsBodyLine, IsHeadLine};
ghost use Rattle.pa_trace.specs.Printed.{LineInBits, word_then_number, plain_text, head_text, line_text, op_text};

use crate::line::{Head, tells_plain};
use crate::script::{Line, Op};
use pa_slot::OutOfMemory;
use pa_text::{Text, push_byte, push_bytes, push_number, push_word};

// Appends the head and an LF. If memory runs out, a first part of it may have been appended.
pub(crate) fn print_head(out: &mut Text, head: Head) -> Result<(), OutOfMemory>
    ensures pushed { OnOk result (out.new ≡ out.old ++ head_text head) }
    ensures kept { OnErr result (StartsWith out.new out.old) }
{
    push_field(out, b"trace ", head.version)?;
    push_field(out, b" region ", head.region)?;
    push_field(out, b" partitions ", head.partitions)?;
    push_field(out, b" threads ", head.threads)?;
    push_plain(out, head)?;
    push_byte(out, b'\n')
}

// Appends how many partitions are plain, where the head tells it.
fn push_plain(out: &mut Text, head: Head) -> Result<(), OutOfMemory>
    ensures pushed { OnOk result (out.new ≡ out.old ++ plain_text (tells_plain head.version) head.plain) }
    ensures kept { OnErr result (StartsWith out.new out.old) }
{
    if tells_plain(head.version) {
        push_field(out, b" plain ", head.plain)?;
    }
    Ok(())
}

// Appends the line and an LF. If memory runs out, a first part of it may have been appended.
pub(crate) fn print_line(out: &mut Text, line: Line) -> Result<(), OutOfMemory>
    ensures pushed { OnOk result (out.new ≡ out.old ++ line_text line) }
    ensures kept { OnErr result (StartsWith out.new out.old) }
{
    match line {
        Line::Phase => push_bytes(out, b"phase\n"),
        Line::Do { thread, op } => {
            push_few(out, thread)?;
            push_op(out, op)?;
            push_byte(out, b'\n')
        }
    }
}

// Appends a space and the op.
#[inline(always)]
fn push_op(out: &mut Text, op: Op) -> Result<(), OutOfMemory>
    ensures pushed { OnOk result (out.new ≡ out.old ++ op_text op) }
    ensures kept { OnErr result (StartsWith out.new out.old) }
{
    match op {
        Op::Alloc {
            reg,
            partition,
            size,
        } => {
            push_field(out, b" A r", reg)?;
            push_field(out, b" p", partition)?;
            push_field(out, b" ", size)
        }
        Op::Copy { from, to } => {
            push_field(out, b" C r", from)?;
            push_field(out, b" r", to)
        }
        Op::Reset { reg } => push_field(out, b" R r", reg),
        Op::Free { reg } => push_field(out, b" F r", reg),
        Op::Write { reg, value } => {
            push_field(out, b" W r", reg)?;
            push_byte(out, b' ')?;
            push_word(out, value)
        }
        Op::Read { reg, place } => {
            push_field(out, b" D r", reg)?;
            push_field(out, b" ", place)
        }
        Op::Swap { cell, reg } => {
            push_field(out, b" X c", cell)?;
            push_field(out, b" r", reg)
        }
        Op::Purge => push_bytes(out, b" P"),
    }
}

// Appends a word and the number after it.
#[inline(always)]
fn push_field(out: &mut Text, word: &[u8], n: u32) -> Result<(), OutOfMemory>
    ensures pushed { OnOk result (out.new ≡ out.old ++ word_then_number word.now n) }
    ensures kept { OnErr result (StartsWith out.new out.old) }
{
    push_bytes(out, word)?;
    push_few(out, n)
}

// Appends a number, of which most have one digit.
#[tactic(auto, using(pa_text::proofs::Digits::one))]
#[inline(always)]
fn push_few(out: &mut Text, n: u32) -> Result<(), OutOfMemory>
    ensures pushed { OnOk result (out.new ≡ out.old ++ decimal n) }
    ensures same { OnErr result (out.new ≡ out.old) }
{
    if n < 10 {
        return push_byte(out, b'0' + n as u8);
    }
    push_number(out, u64::from(n))
}

// What is printed of a head of one of the versions is its text.
pub(crate) fn head_is(head: Head)
    requires version { IsVersionTo last_version head.version }
    requires plain { IsToldPlain head }
    ensures { IsHeadLine last_version head (head_text head) }
{}

// What is printed of a line is its text.
#[tactic(auto, using(crate::proofs::Printed::line_spelled))]
pub(crate) fn line_is(line: Line)
    ensures { IsBodyLine line (line_text line) }
{
    line_fits(line);
}

// Each number of a line has the bits of its type.
fn line_fits(line: Line)
    ensures { LineInBits line }
{}
