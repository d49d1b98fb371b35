ghost use Rattle.std.specs.Prelude.{◌≡◌, ℕ, List, Option};
ghost use Rattle.pa_trace.specs.Reading.{Gives, behind, number_in, field_in, word_in, ended, one_in, two_in, fields_in, three_in, field_and_word_in, below, within};

use pa_text::{number_at, word_at};

/// Why a line isn't read: it is outside the grammar, or it is in the grammar and a number passes its limit.
#[derive(Clone, Copy, Debug, PartialEq, Eq)]
pub enum LineFault {
    Outside,
    Past,
}

// The bytes after a word with which they begin.
#[tactic(auto, unfolding(crate::specs::Reading::behind), using(pa_text::proofs::Fronts::front_found, pa_text::proofs::Fronts::front_none))]
#[inline(always)]
pub fn behind<'a>(word: &[u8], bytes: &'a [u8]) -> Result<&'a [u8], LineFault>
    ensures { Gives (λ x. x.now) result (behind word.now bytes.now) }
{
    match pa_text::behind(word, bytes) {
        Some(rest) => Ok(rest),
        None => Err(LineFault::Outside),
    }
}

// The number at the start, and the bytes after it. It is `None` if it has more than 32 bits.
#[inline(always)]
pub fn number_in(bytes: &[u8]) -> Result<(Option<u32>, &[u8]), LineFault>
    ensures { Gives {Y = Option ℕ × List ℕ} (λ x. (x.0, x.1.now)) result (number_in bytes.now) }
{
    match number_at(bytes) {
        Some(found) => Ok(found),
        None => Err(LineFault::Outside),
    }
}

// A word and the number after it.
#[tactic(auto, unfolding(crate::specs::Reading::field_in))]
#[inline(always)]
pub fn field_in<'a>(word: &[u8], bytes: &'a [u8]) -> Result<(Option<u32>, &'a [u8]), LineFault>
    ensures { Gives {Y = Option ℕ × List ℕ} (λ x. (x.0, x.1.now)) result (field_in word.now bytes.now) }
{
    let rest = behind(word, bytes)?;
    number_in(rest)
}

// The word that the first sixteen digits spell, and the bytes after them.
fn word_in(bytes: &[u8]) -> Result<(u64, &[u8]), LineFault>
    ensures { Gives {Y = ℕ × List ℕ} (λ x. (x.0, x.1.now)) result (word_in bytes.now) }
{
    match word_at(bytes) {
        Some(found) => Ok(found),
        None => Err(LineFault::Outside),
    }
}

// Nothing is left of the line.
#[inline(always)]
pub fn ended(bytes: &[u8]) -> Result<(), LineFault>
    ensures { Gives (λ x. x) result (ended bytes.now) }
{
    if bytes.is_empty() {
        Ok(())
    } else {
        Err(LineFault::Outside)
    }
}

// What is left of the line is a word and a number.
#[tactic(auto, unfolding(crate::specs::Reading::one_in))]
pub fn one_number(bytes: &[u8], first: &[u8]) -> Result<Option<u32>, LineFault>
    ensures { Gives (λ x. x) result (one_in bytes.now first.now) }
{
    let (one, rest) = field_in(first, bytes)?;
    ended(rest)?;
    Ok(one)
}

// What is left of the line is two words, each with a number.
#[tactic(auto, unfolding(crate::specs::Reading::two_in))]
pub fn two_numbers(
    bytes: &[u8],
    first: &[u8],
    second: &[u8],
) -> Result<(Option<u32>, Option<u32>), LineFault>
    ensures { Gives (λ x. x) result (two_in bytes.now first.now second.now) }
{
    let (one, rest) = field_in(first, bytes)?;
    let (two, rest) = field_in(second, rest)?;
    ended(rest)?;
    Ok((one, two))
}

// Three words, each with a number, and the bytes after them.
#[tactic(auto, unfolding(crate::specs::Reading::fields_in))]
#[inline(always)]
pub fn three_fields<'a>(
    bytes: &'a [u8],
    first: &[u8],
    second: &[u8],
    third: &[u8],
) -> Result<(Option<u32>, Option<u32>, Option<u32>, &'a [u8]), LineFault>
    ensures { Gives {Y = Option ℕ × Option ℕ × Option ℕ × List ℕ} (λ x. (x.0, x.1, x.2, x.3.now)) result
        (fields_in bytes.now first.now second.now third.now) }
{
    let (one, rest) = field_in(first, bytes)?;
    let (two, rest) = field_in(second, rest)?;
    let (three, rest) = field_in(third, rest)?;
    Ok((one, two, three, rest))
}

/// What is left of the line is three words, each with a number.
#[tactic(auto, unfolding(crate::specs::Reading::three_in))]
pub fn three_numbers(
    bytes: &[u8],
    first: &[u8],
    second: &[u8],
    third: &[u8],
) -> Result<(Option<u32>, Option<u32>, Option<u32>), LineFault>
    ensures { Gives (λ x. x) result (three_in bytes.now first.now second.now third.now) }
{
    let (one, two, three, rest) = three_fields(bytes, first, second, third)?;
    ended(rest)?;
    Ok((one, two, three))
}

// What is left of the line is a word with a number, a space, and sixteen digits.
#[tactic(auto, unfolding(crate::specs::Reading::field_and_word_in))]
pub fn number_and_word(bytes: &[u8], first: &[u8]) -> Result<(Option<u32>, u64), LineFault>
    ensures { Gives (λ x. x) result (field_and_word_in bytes.now first.now) }
{
    let (one, rest) = field_in(first, bytes)?;
    let rest = behind(b" ", rest)?;
    let (value, rest) = word_in(rest)?;
    ended(rest)?;
    Ok((one, value))
}

/// The number if it is below the limit.
#[inline(always)]
pub fn below(number: Option<u32>, limit: u32) -> Result<u32, LineFault>
    ensures { result ≡ below number limit }
{
    match number {
        Some(value) if value < limit => Ok(value),
        _ => Err(LineFault::Past),
    }
}

/// The number if it has 32 bits.
#[inline(always)]
pub fn within(number: Option<u32>) -> Result<u32, LineFault>
    ensures { result ≡ within number }
{
    match number {
        Some(value) => Ok(value),
        None => Err(LineFault::Past),
    }
}
