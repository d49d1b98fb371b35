ghost use Rattle.std.specs.Prelude.{◌≡◌, ◌++◌, codes, OnOk, OnErr};
ghost use Rattle.std.specs.Fmt.{decimal};
ghost use Rattle.std.specs.Io.{StartsWith};
ghost use Rattle.pa_text.specs.Hex.{hex};
ghost use Rattle.pa_record.specs.Text.{answer_text, entry_text, field_text, seen_text, seen_text_if, spaced_slot};

use crate::{Answer, Entry, Seen};
use pa_slot::OutOfMemory;
use pa_text::{Text, push_byte, push_bytes, push_number, push_slot, push_word};

/// Appends the line of the record, with its LF. If memory runs out, a first part of it may have been appended.
pub fn push_entry(out: &mut Text, entry: &Entry) -> Result<(), OutOfMemory>
    ensures pushed { OnOk result (out.new ≡ out.old ++ entry_text entry.now) }
    ensures kept { OnErr result (StartsWith out.new out.old) }
{
    push_place(out, entry.line, entry.thread)?;
    push_answer(out, entry.answer)?;
    push_byte(out, b'\n')
}

// Appends `e LINE THREAD` and a space.
#[inline(always)]
fn push_place(out: &mut Text, line: u32, thread: u32) -> Result<(), OutOfMemory>
    ensures pushed { OnOk result
        (out.new ≡ out.old ++ (codes "e " ++ decimal line ++ codes " " ++ decimal thread ++ codes " ")) }
    ensures kept { OnErr result (StartsWith out.new out.old) }
{
    push_bytes(out, b"e ")?;
    push_number(out, u64::from(line))?;
    push_byte(out, b' ')?;
    push_number(out, u64::from(thread))?;
    push_byte(out, b' ')
}

// Appends the answer's words.
fn push_answer(out: &mut Text, answer: Answer) -> Result<(), OutOfMemory>
    ensures pushed { OnOk result (out.new ≡ out.old ++ answer_text answer) }
    ensures kept { OnErr result (StartsWith out.new out.old) }
{
    match answer {
        Answer::Made { seen, usable } => push_made(out, seen, usable),
        Answer::Done { seen } => push_seen(out, b"done", seen),
        Answer::Value { seen, value } => push_read(out, b"word", seen, value),
        Answer::Dangling { seen, value } => push_read(out, b"dangling", seen, value),
        Answer::SecondFree { seen } => push_seen_if(out, b"second-free", seen),
        Answer::NotOwner { seen } => push_seen(out, b"not-owner", seen),
        Answer::StaleReset => push_bytes(out, b"stale-reset"),
        Answer::StaleUse { seen } => push_seen_if(out, b"stale-use", seen),
        Answer::Nothing => push_bytes(out, b"nothing"),
        Answer::Filled => push_bytes(out, b"filled"),
        Answer::NotRef => push_bytes(out, b"not-ref"),
        Answer::Shared { seen } => push_seen(out, b"shared", seen),
        Answer::OutOfRange => push_bytes(out, b"out-of-range"),
        Answer::TooLarge => push_bytes(out, b"too-large"),
        Answer::Full { entry } => push_field(out, b"full ", u64::from(entry)),
        Answer::Swapped { entry } => push_field(out, b"swapped ", u64::from(entry)),
        Answer::Purged { slots } => push_field(out, b"purged ", u64::from(slots)),
        Answer::Uncounted => push_bytes(out, b"uncounted"),
    }
}

// Appends `made SLOT USABLE FOUND`.
#[inline(always)]
fn push_made(out: &mut Text, seen: Seen, usable: u32) -> Result<(), OutOfMemory>
    ensures pushed { OnOk result (out.new ≡ out.old ++ answer_text (Answer.Made seen usable)) }
    ensures kept { OnErr result (StartsWith out.new out.old) }
{
    push_bytes(out, b"made ")?;
    push_slot(out, seen.slot)?;
    push_byte(out, b' ')?;
    push_number(out, u64::from(usable))?;
    push_byte(out, b' ')?;
    push_word(out, seen.found.0)
}

// Appends `WORD SLOT FOUND`.
#[inline(always)]
fn push_seen(out: &mut Text, word: &[u8], seen: Seen) -> Result<(), OutOfMemory>
    ensures pushed { OnOk result (out.new ≡ out.old ++ (word.now ++ seen_text seen)) }
    ensures kept { OnErr result (StartsWith out.new out.old) }
{
    push_bytes(out, word)?;
    push_byte(out, b' ')?;
    push_slot(out, seen.slot)?;
    push_byte(out, b' ')?;
    push_word(out, seen.found.0)
}

// Appends `WORD SLOT FOUND`, or the word alone.
fn push_seen_if(out: &mut Text, word: &[u8], seen: Option<Seen>) -> Result<(), OutOfMemory>
    ensures pushed { OnOk result (out.new ≡ out.old ++ (word.now ++ seen_text_if seen)) }
    ensures kept { OnErr result (StartsWith out.new out.old) }
{
    match seen {
        Some(seen) => push_seen(out, word, seen),
        None => push_bytes(out, word),
    }
}

// Appends `WORD SLOT FOUND VALUE`.
fn push_read(out: &mut Text, word: &[u8], seen: Seen, value: u64) -> Result<(), OutOfMemory>
    ensures pushed { OnOk result (out.new ≡ out.old ++ (word.now ++ seen_text seen ++ codes " " ++ hex 16 value)) }
    ensures kept { OnErr result (StartsWith out.new out.old) }
{
    push_seen(out, word, seen)?;
    push_byte(out, b' ')?;
    push_word(out, value)
}

// Appends a word and a number.
pub(crate) fn push_field(out: &mut Text, word: &[u8], n: u64) -> Result<(), OutOfMemory>
    ensures pushed { OnOk result (out.new ≡ out.old ++ field_text word.now n) }
    ensures kept { OnErr result (StartsWith out.new out.old) }
{
    push_bytes(out, word)?;
    push_number(out, n)
}
