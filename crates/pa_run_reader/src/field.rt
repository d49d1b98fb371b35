ghost use Rattle.std.specs.Prelude.{◌≡◌, ℕ, ◌<◌, ◌≤◌, ◌^◌, List, ◌++◌, codes, IfSome};
ghost use Rattle.std.specs.Fmt.{decimal};
ghost use Rattle.pa_slot.specs.declared.word.SlotName.{SlotName};
ghost use Rattle.pa_text.specs.Hex.{hex, slot_text, SlotFits};
ghost use Rattle.pa_record.specs.Text.{field_text};
ghost use Rattle.pa_run_reader.specs.Reading.{Yields, after_word, below_at, wide_at, below_in, wide_in, hexes_in, slot_in};

use crate::digits::{below, hexes, number};
use pa_slot::SlotName;

// One more than the greatest number of 32 bits.
pub const NUMBERS: u64 = 1 << 32;

// The bytes after a word with which they begin.
#[tactic(auto, using(crate::proofs::Fields::behind_takes))]
pub fn behind<'a>(word: &[u8], bytes: &'a [u8]) -> Option<&'a [u8]>
    ensures read { Yields (λ x. x.now) result (after_word word.now bytes.now) }
    ensures found { IfSome result (λ x. bytes.now ≡ word.now ++ x.now) }
{
    rest_behind(word, bytes)
}

// The bytes after a word with which they begin, compared byte by byte.
#[tactic(auto, unfolding(crate::specs::Reading::after_word), using(pa_text::proofs::Fronts::front_found, pa_text::proofs::Fronts::front_none))]
fn rest_behind<'a>(word: &[u8], bytes: &'a [u8]) -> Option<&'a [u8]>
    ensures { Yields (λ x. x.now) result (after_word word.now bytes.now) }
{
    pa_text::behind(word, bytes)
}

// The number at the start, if it is below the limit.
#[tactic(auto, using(crate::proofs::Fields::below_takes))]
pub fn small(limit: u64, bytes: &[u8]) -> Option<(u32, &[u8])>
    requires { limit ≤ 4294967296 }
    ensures read { Yields {Y = ℕ × List ℕ} (λ x. (x.0, x.1.now)) result (below_at limit bytes.now) }
    ensures found { IfSome result (λ x. (x.0 < limit) × (bytes.now ≡ decimal x.0 ++ x.1.now)) }
{
    below(limit, bytes)
}

// A word, and the number after it, which is below the limit.
#[tactic(auto, unfolding(crate::specs::Reading::below_in))]
pub fn field<'a>(word: &[u8], limit: u64, bytes: &'a [u8]) -> Option<(u32, &'a [u8])>
    requires { limit ≤ 4294967296 }
    ensures read { Yields {Y = ℕ × List ℕ} (λ x. (x.0, x.1.now)) result (below_in word.now limit bytes.now) }
    ensures found { IfSome result (λ x. (x.0 < limit) × (bytes.now ≡ word.now ++ (decimal x.0 ++ x.1.now))) }
{
    let rest = behind(word, bytes)?;
    small(limit, rest)
}

// A word, and the number of at most 64 bits after it.
#[tactic(auto, unfolding(crate::specs::Reading::wide_in), using(crate::proofs::Fields::wide_takes))]
pub fn wide<'a>(word: &[u8], bytes: &'a [u8]) -> Option<(u64, &'a [u8])>
    ensures read { Yields {Y = ℕ × List ℕ} (λ x. (x.0, x.1.now)) result (wide_in word.now bytes.now) }
    ensures found { IfSome result (λ x. bytes.now ≡ word.now ++ (decimal x.0 ++ x.1.now)) }
{
    let rest = behind(word, bytes)?;
    number(rest)
}

// A space, and the sixteen hexadecimal digits after it.
#[tactic(auto, unfolding(crate::specs::Reading::hexes_in), using(crate::proofs::Fields::hexes_taken))]
pub fn word(bytes: &[u8]) -> Option<(u64, &[u8])>
    ensures read { Yields {Y = ℕ × List ℕ} (λ x. (x.0, x.1.now)) result (hexes_in bytes.now) }
    ensures found { IfSome result (λ x. bytes.now ≡ codes " " ++ (hex 16 x.0 ++ x.1.now)) }
{
    let rest = behind(b" ", bytes)?;
    hexes(16, rest)
}

// A slot's name.
#[tactic(auto, unfolding(crate::specs::Reading::slot_in), using(crate::proofs::Fields::slot_takes))]
pub fn slot(bytes: &[u8]) -> Option<(SlotName, &[u8])>
    ensures read { Yields {Y = SlotName × List ℕ} (λ x. (x.0, x.1.now)) result (slot_in bytes.now) }
    ensures found { IfSome result (λ x. SlotFits x.0 × (bytes.now ≡ slot_text x.0 ++ x.1.now)) }
{
    let (start, rest) = hexes(8, bytes)?;
    let (born, rest) = field(b".", NUMBERS, rest)?;
    let start = start as u32;
    Some((SlotName { start, born }, rest))
}
