ghost use Rattle.std.specs.Prelude.{◌≡◌, ◌++◌, IfOk, OnOk};
ghost use Rattle.std.specs.Fmt.{decimal};
ghost use Rattle.pa_summary.specs.SummaryText.{count_line, count_lines, title_line, tally_line, summary_text};

use crate::counts::{ANSWERS, counts_of, name_at};
use crate::sums::{Sums, ends_of};
use pa_record::{Entry, Run};
use pa_slot::OutOfMemory;
use pa_text::{Text, push_byte, push_bytes, push_number};
use std::alloc::Global;

/// The summary of a run of the trace of this many rounds and this key: a line with both, a line for each answer that some line has, with
/// how many have it, and the slots and bytes that are live and quarantined at the end, in all partitions.
pub fn write_summary(
    alloc: Global,
    rounds: u32,
    key: u64,
    run: &Run,
) -> Result<Vec<u8>, OutOfMemory>
    ensures text { IfOk result (λ text. text.items ≡ summary_text rounds key run.now) }
{
    let mut out = Text::new(alloc);
    push_title(&mut out, rounds, key)?;
    push_counts(&mut out, &run.entries)?;
    let ends = ends_of(&run.report);
    push_sums(&mut out, b"live ", ends.live)?;
    push_sums(&mut out, b"quarantined ", ends.quarantined)?;
    Ok(out.into_vec())
}

// Appends the rounds and the key.
fn push_title(out: &mut Text, rounds: u32, key: u64) -> Result<(), OutOfMemory>
    ensures pushed { OnOk result (out.new ≡ out.old ++ title_line rounds key) }
{
    push_bytes(out, b"gen ")?;
    push_number(out, u64::from(rounds))?;
    push_byte(out, b' ')?;
    push_number(out, key)?;
    push_byte(out, b'\n')
}

// Appends a line for each answer that there is, in the order of their numbers.
#[tactic(auto, unfolding(crate::specs::SummaryText::count_lines))]
fn push_counts(out: &mut Text, entries: &[Entry]) -> Result<(), OutOfMemory>
    ensures pushed { OnOk result (out.new ≡ out.old ++ count_lines entries.now) }
{
    let counts = counts_of(entries);
    for place in 0..ANSWERS {
        push_count(out, name_at(place), counts[place])?;
    }
    Ok(())
}

// Appends the line of an answer that this many lines have, if any has it.
fn push_count(out: &mut Text, name: &[u8], number: u64) -> Result<(), OutOfMemory>
    ensures pushed { OnOk result (out.new ≡ out.old ++ count_line name.now number) }
{
    if number == 0 {
        return Ok(());
    }
    push_bytes(out, name)?;
    push_byte(out, b' ')?;
    push_number(out, number)?;
    push_byte(out, b'\n')
}

// Appends a word, slots and bytes.
fn push_sums(out: &mut Text, word: &[u8], sums: Sums) -> Result<(), OutOfMemory>
    ensures pushed { OnOk result (out.new ≡ out.old ++ tally_line word.now (record { slots = sums.slots; bytes = sums.bytes })) }
{
    push_bytes(out, word)?;
    push_wide(out, sums.slots)?;
    push_byte(out, b' ')?;
    push_wide(out, sums.bytes)?;
    push_byte(out, b'\n')
}

// Appends the number in decimal.
fn push_wide(out: &mut Text, n: u128) -> Result<(), OutOfMemory>
    ensures pushed { OnOk result (out.new ≡ out.old ++ decimal n) }
{
    let mut digits = itoa::Buffer::new();
    push_bytes(out, digits.format(n).as_bytes())
}
