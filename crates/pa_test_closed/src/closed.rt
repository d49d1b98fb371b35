//! What a run of a trace leaves in the words of the closed region.
ghost use Rattle.std.specs.Prelude.{◌≡◌, ◌*◌, ◌≤◌, IfOk, IfSome, length};

use pa_region::Closed;
use pa_runner::{NoGate, run_trace};
use pa_slot::OutOfMemory;
use pa_text::{Text, push_bytes, push_number};
use pa_trace::read_trace;
use std::alloc::Global;
use std::marker::Sync;
use std::sync::Wait;
use std::test::Fail;
use std::thread::Threads;

// This many lines of a trace that are alike: the pieces of one, and between each two of them the line's number among these, from 0 on.
pub(crate) type Lines = (u32, &'static [&'static [u8]]);

// The text of a trace: its first lines, and those after them.
fn text_of(alloc: Global, first: &[u8], rest: &[Lines]) -> Result<Text, OutOfMemory> {
    let mut text = Text::new(alloc);
    push_bytes(&mut text, first)?;
    for lines in rest {
        let (count, pieces) = *lines;
        for number in 0..count {
            push_line(&mut text, pieces, number)?;
        }
    }
    Ok(text)
}

fn push_line(text: &mut Text, pieces: &[&[u8]], number: u32) -> Result<(), OutOfMemory> {
    let mut first = true;
    for piece in pieces {
        if !first {
            push_number(text, u64::from(number))?;
        }
        push_bytes(text, piece)?;
        first = false;
    }
    Ok(())
}

// How many super pages the trace's region has, and its words after the trace was played. None if the text is no trace.
pub(crate) fn closed_after<R: Threads + Wait + Sync>(
    rt: &R,
    alloc: Global,
    first: &[u8],
    rest: &[Lines],
) -> Result<Option<(u32, Closed)>, Fail>
    ensures few { IfOk result (λ some. IfSome some (λ left. left.0 ≤ 64)) }
    ensures long { IfOk result (λ some. IfSome some (λ left. length left.1 ≡ 262144 * left.0)) }
{
    let text = text_of(alloc, first, rest)?;
    let Ok(trace) = read_trace(alloc, text.as_slice()) else {
        return Ok(None);
    };
    let (_, words) = run_trace(rt, alloc, &trace, &NoGate)?;
    Ok(Some((trace.region, words)))
}

// The lines after the head of a trace of one thread, whose list passes its limit.
pub(crate) const OVERFLOW: &[Lines] = &[
    (64, &[b"0 A r", b" p0 8\n"]),
    (1, &[b"0 X c0 r0\n0 A r0 p0 8\n"]),
    (64, &[b"0 F r", b"\n"]),
    (1, &[b"0 X c0 r0\n0 F r0\n"]),
];

// The lines after the head of a trace of one thread, of which seventeen spans become empty, one after the other.
pub(crate) const RING: &[Lines] = &[
    (17, &[b"0 A r", b" p0 65528\n"]),
    (17, &[b"0 F r", b"\n"]),
    (1, &[b"0 A r17 p0 65528\n"]),
];

// Whether this word of this many super pages is there, and is this one.
pub(crate) fn has_word(supers: u32, words: &Closed, at: u32, word: u64) -> bool
    requires few { supers ≤ 64 }
    requires long { length words.now ≡ 262144 * supers }
{
    at % 8 == 0 && at < 2_097_152 * supers && words.word(at) == word
}
