ghost use Rattle.std.specs.Prelude.{◌≡◌, ℕ, ◌<◌, List, ◌++◌, Option, IfSome, IfNone};
ghost use Rattle.std.specs.Option.{option_map};
ghost use Rattle.pa_text.specs.Hex.{hex};
ghost use Rattle.pa_text.specs.Reading.{hex_at, hex_value};

/// The word that the first sixteen bytes spell, as lower-case hexadecimal digits, and the bytes after them. Nothing is
/// read if the bytes begin with fewer than sixteen such digits.
pub fn word_at(bytes: &[u8]) -> Option<(u64, &[u8])>
    ensures found { IfSome result (λ x. (x.0 < 18446744073709551616) × (bytes.now ≡ hex 16 x.0 ++ x.1.now)) }
    ensures none { IfNone result ((n : ℕ) (rest : List ℕ) → n < 18446744073709551616 → bytes.now ≡ hex 16 n ++ rest → ⊥) }
{
    let mut value = 0;
    let mut rest = bytes;
    for _ in 0..16u32 {
        let (digit, after) = hex_at(rest)?;
        value = 16 * value + digit;
        rest = after;
    }
    Some((value, rest))
}

// The first hexadecimal digit, and the bytes after it.
fn hex_at(bytes: &[u8]) -> Option<(u64, &[u8])>
    ensures digit { option_map {U = ℕ × List ℕ} (λ x. (x.0, x.1.now)) result ≡ hex_at bytes.now }
    ensures small { IfSome result (λ x. x.0 < 16) }
{
    let [byte, rest @ ..] = bytes else {
        return None;
    };
    Some((hex_value(*byte)?, rest))
}

// The value of a hexadecimal digit. It is chosen between two values, since a branch on the kind of each digit is often guessed
// wrong.
#[inline(always)]
fn hex_value(byte: u8) -> Option<u64>
    ensures digit { result ≡ hex_value byte }
    ensures small { IfSome result (λ d. d < 16) }
{
    let decimal = byte.wrapping_sub(b'0');
    let letter = byte.wrapping_sub(b'a');
    let value = if decimal < 10 {
        decimal
    } else {
        letter.wrapping_add(10)
    };
    if decimal < 10 || letter < 6 {
        Some(u64::from(value))
    } else {
        None
    }
}
