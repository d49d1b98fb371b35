ghost use Rattle.std.specs.Prelude.{◌≡◌, ℕ, ◌<◌, ◌≤◌, ◌^◌, List, ◌++◌, IfSome};
ghost use Rattle.std.specs.Fmt.{decimal};
ghost use Rattle.pa_text.specs.Hex.{hex};
ghost use Rattle.pa_text.specs.Reading.{digit_at, digits_from, hex_at, hexes_at};
ghost use Rattle.pa_run_reader.specs.Reading.{Yields, narrowed, wide_at, below_at};

// The number at the start, if it has at most 64 bits, and the bytes after its last digit.
#[tactic(auto, unfolding(crate::specs::Reading::wide_at, pa_text::specs::Reading::number_at))]
pub fn number(bytes: &[u8]) -> Option<(u64, &[u8])>
    ensures read { Yields {Y = ℕ × List ℕ} (λ x. (x.0, x.1.now)) result (wide_at bytes.now) }
{
    let (first, rest) = digit(bytes)?;
    if first == 0 && digit(rest).is_some() {
        return None;
    }
    digits(first, rest)
}

// The number at the start, if it is below the limit, and the bytes after its last digit.
#[tactic(auto, unfolding(crate::specs::Reading::below_at))]
pub fn below(limit: u64, bytes: &[u8]) -> Option<(u32, &[u8])>
    requires { limit ≤ 4294967296 }
    ensures read { Yields {Y = ℕ × List ℕ} (λ x. (x.0, x.1.now)) result (below_at limit bytes.now) }
{
    let (value, rest) = number(bytes)?;
    if value < limit {
        Some((value as u32, rest))
    } else {
        None
    }
}

// The first digit, and the bytes after it.
fn digit(bytes: &[u8]) -> Option<(u64, &[u8])>
    ensures read { Yields {Y = ℕ × List ℕ} (λ x. (x.0, x.1.now)) result (digit_at bytes.now) }
    ensures small { IfSome result (λ x. x.0 < 10) }
{
    match bytes {
        [digit @ b'0'..=b'9', rest @ ..] => Some((u64::from(*digit - b'0'), rest)),
        _ => None,
    }
}

// The number that the leading digits spell after a first one, if it has at most 64 bits, and the bytes after them.
fn digits(first: u64, bytes: &[u8]) -> Option<(u64, &[u8])>
    ensures read { Yields {Y = ℕ × List ℕ} (λ x. (x.0, x.1.now)) result (narrowed (digits_from first bytes.now)) }
{
    let mut value = first;
    let mut rest = bytes;
    while let Some((digit, after)) = digit(rest) {
        if value > (u64::MAX - digit) / 10 {
            return None;
        }
        value = 10 * value + digit;
        rest = after;
    }
    Some((value, rest))
}

// The number that this many hexadecimal digits spell, and the bytes after them.
pub fn hexes(count: u32, bytes: &[u8]) -> Option<(u64, &[u8])>
    requires { count ≤ 16 }
    ensures read { Yields {Y = ℕ × List ℕ} (λ x. (x.0, x.1.now)) result (hexes_at count bytes.now) }
    ensures small { IfSome result (λ x. x.0 < 16 ^ count) }
{
    let mut value = 0;
    let mut rest = bytes;
    for _ in 0..count {
        let Some((digit, after)) = hex_digit(rest) else {
            return None;
        };
        value = 16 * value + digit;
        rest = after;
    }
    Some((value, rest))
}

// The first hexadecimal digit, and the bytes after it.
fn hex_digit(bytes: &[u8]) -> Option<(u64, &[u8])>
    ensures read { Yields {Y = ℕ × List ℕ} (λ x. (x.0, x.1.now)) result (hex_at bytes.now) }
    ensures small { IfSome result (λ x. x.0 < 16) }
{
    match bytes {
        [digit @ b'0'..=b'9', rest @ ..] => Some((u64::from(*digit - b'0'), rest)),
        [digit @ b'a'..=b'f', rest @ ..] => Some((u64::from(*digit - b'a' + 10), rest)),
        _ => None,
    }
}
