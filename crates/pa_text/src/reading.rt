ghost use Rattle.std.specs.Prelude.{◌≡◌, ℕ, ◌<◌, ◌^◌, List, ◌++◌, Option, IfSome, IfNone};
ghost use Rattle.std.specs.Fmt.{decimal};
ghost use Rattle.std.specs.Option.{option_map};
ghost use Rattle.pa_text.specs.Numeral.{IsNumeral};
ghost use Rattle.pa_text.specs.Reading.{BeginsWith, IsStop, fit, fitted, digit_at, digits_from, number_at};
ghost use Rattle.pa_text.specs.Hex.{SlotFits, hex, slot_text};
ghost use Rattle.pa_slot.specs.declared.word.SlotName.{SlotName};

// Numbers from here on don't fit in 32 bits.
const TOO_LARGE: u64 = 1 << 32;

/// The number with which the bytes begin, and the bytes after its last digit. A number of any length is read; its value is
/// `None` if it has more than 32 bits. Nothing is read if the bytes don't begin with a digit, or begin with `0` and a digit.
pub fn number_at(bytes: &[u8]) -> Option<(Option<u32>, &[u8])>
    ensures found { IfSome result (λ x. (n : ℕ) × BeginsWith bytes.now n x.1.now × (x.0 ≡ fit n)) }
    ensures none { IfNone result ((n : ℕ) (rest : List ℕ) → BeginsWith bytes.now n rest → ⊥) }
{
    number_of(bytes)
}

/// The bytes after a word with which they begin. Nothing is read if they don't begin with it.
#[inline(always)]
pub fn behind<'a>(word: &[u8], bytes: &'a [u8]) -> Option<&'a [u8]>
    ensures found { IfSome result (λ x. bytes.now ≡ word.now ++ x.now) }
    ensures none { IfNone result ((rest : List ℕ) → bytes.now ≡ word.now ++ rest → ⊥) }
{
    let mut rest = bytes;
    for byte in word {
        match rest {
            [first, after @ ..] if *first == *byte => rest = after,
            _ => return None,
        }
    }
    Some(rest)
}

/// A number has one spelling, and a spelling belongs to one number, however long it is.
pub fn one_spelling()
    ensures spelling { (n : ℕ) (a b : List ℕ) → IsNumeral n a → IsNumeral n b → a ≡ b }
    ensures number { (m n : ℕ) (text : List ℕ) → IsNumeral m text → IsNumeral n text → m ≡ n }
    // The printed form of a number spells it.
    ensures printed { (n : ℕ) → n < 2 ^ 64 → IsNumeral n (decimal n) }
{}

/// The printed form of a number, a word or a slot's name, if no digit follows it, determines it and what follows it.
pub fn one_front()
    ensures number { (m n : ℕ) (x y : List ℕ) → m < 2 ^ 64 → n < 2 ^ 64 → IsStop x → IsStop y → decimal m ++ x ≡ decimal n ++ y → (m ≡ n)
        × (x ≡ y) }
    ensures word { (m n : ℕ) (x y : List ℕ) → m < 2 ^ 64 → n < 2 ^ 64 → hex 16 m ++ x ≡ hex 16 n ++ y → (m ≡ n) × (x ≡ y) }
    ensures slot { (s t : SlotName) (x y : List ℕ) → SlotFits s → SlotFits t → IsStop x → IsStop y → slot_text s ++ x ≡ slot_text t ++ y →
        (s ≡ t) × (x ≡ y) }
{}

// What `number_at` returns, read byte by byte.
#[tactic(auto, unfolding(crate::specs::Reading::number_at))]
fn number_of(bytes: &[u8]) -> Option<(Option<u32>, &[u8])>
    ensures { option_map {U = Option ℕ × List ℕ} (λ x. (x.0, x.1.now)) result ≡ option_map fitted (number_at bytes.now) }
{
    let (first, rest) = digit_at(bytes)?;
    if first == 0 && digit_at(rest).is_some() {
        return None;
    }
    Some(digits_from(first, rest))
}

// The first digit, and the bytes after it.
#[inline(always)]
fn digit_at(bytes: &[u8]) -> Option<(u64, &[u8])>
    ensures digit { option_map {U = ℕ × List ℕ} (λ x. (x.0, x.1.now)) result ≡ digit_at bytes.now }
    ensures small { IfSome result (λ x. x.0 < 10) }
{
    match bytes {
        [digit @ b'0'..=b'9', rest @ ..] => Some((u64::from(*digit - b'0'), rest)),
        _ => None,
    }
}

// The number that the leading digits spell behind a digit that was read already, and the bytes after them.
fn digits_from(first: u64, bytes: &[u8]) -> (Option<u32>, &[u8])
    requires { first < 10 }
    ensures value { result.0 ≡ fit (digits_from first bytes.now).0 }
    ensures rest { result.1.now ≡ (digits_from first bytes.now).1 }
{
    let mut value = first;
    let mut rest = bytes;
    while let Some((digit, after)) = digit_at(rest) {
        if value < TOO_LARGE {
            value = 10 * value + digit;
        }
        rest = after;
    }
    (u32::try_from(value).ok(), rest)
}
