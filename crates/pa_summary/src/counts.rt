ghost use Rattle.std.specs.Prelude.{◌≡◌, ℕ, ◌+◌, ◌<◌, [], slice_index_or};
ghost use Rattle.pa_summary.specs.SummaryText.{answer_number, answer_names, answer_count};

use pa_record::{Answer, Entry};

// How many answers there are.
pub(crate) const ANSWERS: usize = 18;

// How many records have each answer, in the order of their numbers, from number 1 on.
pub(crate) fn counts_of(entries: &[Entry]) -> [u64; 18]
    ensures { (k : ℕ) → k < 18 → slice_index_or result k 0 ≡ answer_count (k + 1) entries.now }
{
    let mut counts = [0u64; 18];
    for entry in entries {
        counts[place_of(entry.answer)] += 1;
    }
    counts
}

// The name of the answer at this place, the answer of number 1 being at place 0.
pub(crate) fn name_at(place: usize) -> &'static [u8]
    requires { place < 18 }
    ensures { result.now ≡ slice_index_or answer_names place [] }
{
    match place {
        0 => b"made",
        1 => b"done",
        2 => b"word",
        3 => b"dangling",
        4 => b"second-free",
        5 => b"not-owner",
        6 => b"stale-reset",
        7 => b"stale-use",
        8 => b"nothing",
        9 => b"filled",
        10 => b"not-ref",
        11 => b"shared",
        12 => b"out-of-range",
        13 => b"too-large",
        14 => b"full",
        15 => b"swapped",
        16 => b"purged",
        _ => b"uncounted",
    }
}

// The place of the answer, which is its number less 1.
fn place_of(answer: Answer) -> usize
    ensures number { result + 1 ≡ answer_number answer }
    ensures place { result < 18 }
{
    match answer {
        Answer::Made { seen: _, usable: _ } => 0,
        Answer::Done { seen: _ } => 1,
        Answer::Value { seen: _, value: _ } => 2,
        Answer::Dangling { seen: _, value: _ } => 3,
        Answer::SecondFree { seen: _ } => 4,
        Answer::NotOwner { seen: _ } => 5,
        Answer::StaleReset => 6,
        Answer::StaleUse { seen: _ } => 7,
        Answer::Nothing => 8,
        Answer::Filled => 9,
        Answer::NotRef => 10,
        Answer::Shared { seen: _ } => 11,
        Answer::OutOfRange => 12,
        Answer::TooLarge => 13,
        Answer::Full { entry: _ } => 14,
        Answer::Swapped { entry: _ } => 15,
        Answer::Purged { slots: _ } => 16,
        Answer::Uncounted => 17,
    }
}
