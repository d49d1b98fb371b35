ghost use Rattle.std.specs.Prelude.{◌≡◌, ◌+◌, ◌%◌, ◌<◌, ◌≤◌, [], ◌∷◌, ◌++◌, length, OnOk, OnErr};
ghost use Rattle.std.specs.Fmt.{decimal};
ghost use Rattle.std.specs.Io.{StartsWith};
ghost use Rattle.pa_text.specs.Hex.{hex, slot_text};

use crate::text::Text;
use pa_slot::{OutOfMemory, SlotName};

/// Appends the bytes. If memory runs out, none of them is appended; it doesn't if there are none.
#[inline(always)]
pub fn push_bytes(out: &mut Text, bytes: &[u8]) -> Result<(), OutOfMemory>
    ensures pushed { OnOk result (out.new ≡ out.old ++ bytes.now) }
    ensures same { OnErr result (out.new ≡ out.old) }
    ensures asks { OnErr result (0 < length bytes.now) }
{
    out.push(bytes)
}

/// Appends the byte. If memory runs out, it isn't appended.
#[inline(always)]
pub fn push_byte(out: &mut Text, byte: u8) -> Result<(), OutOfMemory>
    ensures pushed { OnOk result (out.new ≡ out.old ++ byte ∷ []) }
    ensures same { OnErr result (out.new ≡ out.old) }
{
    out.push(&[byte])
}

/// Appends the number in decimal. If memory runs out, none of its digits is appended.
#[tactic(auto, using(crate::proofs::Digits::one))]
pub fn push_number(out: &mut Text, n: u64) -> Result<(), OutOfMemory>
    ensures pushed { OnOk result (out.new ≡ out.old ++ decimal n) }
    ensures same { OnErr result (out.new ≡ out.old) }
{
    if n < 10 {
        return push_byte(out, digit(n as u32));
    }
    if n < 100_000 {
        return push_few(out, n as u32);
    }
    push_many(out, n)
}

// Appends a number of any length, by way of a buffer.
#[inline(never)]
fn push_many(out: &mut Text, n: u64) -> Result<(), OutOfMemory>
    ensures pushed { OnOk result (out.new ≡ out.old ++ decimal n) }
    ensures same { OnErr result (out.new ≡ out.old) }
{
    let mut digits = itoa::Buffer::new();
    push_bytes(out, digits.format(n).as_bytes())
}

// Appends the number, which has two to five digits, as most numbers of a run have. They are written in place, with no copy.
#[tactic(auto, using(crate::proofs::Digits::two, crate::proofs::Digits::three, crate::proofs::Digits::four, crate::proofs::Digits::five))]
#[inline(always)]
fn push_few(out: &mut Text, n: u32) -> Result<(), OutOfMemory>
    requires more { 10 ≤ n }
    requires few { n < 100000 }
    ensures pushed { OnOk result (out.new ≡ out.old ++ decimal n) }
    ensures same { OnErr result (out.new ≡ out.old) }
{
    if n >= 10_000 {
        let digits = [
            digit(n / 10_000),
            digit(n / 1000),
            digit(n / 100),
            digit(n / 10),
            digit(n),
        ];
        push_bytes(out, &digits)
    } else if n >= 1000 {
        let digits = [digit(n / 1000), digit(n / 100), digit(n / 10), digit(n)];
        push_bytes(out, &digits)
    } else if n >= 100 {
        let digits = [digit(n / 100), digit(n / 10), digit(n)];
        push_bytes(out, &digits)
    } else {
        let digits = [digit(n / 10), digit(n)];
        push_bytes(out, &digits)
    }
}

// The last digit of the number.
#[inline(always)]
fn digit(n: u32) -> u8
    ensures { result ≡ 48 + n % 10 }
{
    b'0' + (n % 10) as u8
}

/// Appends the word as sixteen lower-case hexadecimal digits. If memory runs out, none of them is appended.
#[tactic(auto, using(crate::proofs::Hex::word_digits))]
pub fn push_word(out: &mut Text, w: u64) -> Result<(), OutOfMemory>
    ensures pushed { OnOk result (out.new ≡ out.old ++ hex 16 w) }
    ensures same { OnErr result (out.new ≡ out.old) }
{
    let mut digits = [0; 16];
    hex::encode_to_slice(w.to_be_bytes(), &mut digits).unwrap();
    push_bytes(out, &digits)
}

/// Appends the slot's name, as `00004000.0`. If memory runs out, a first part of it may have been appended.
#[tactic(auto, using(crate::proofs::Hex::start_digits, crate::proofs::Joining::slot_joined, crate::proofs::Joining::starts_more))]
pub fn push_slot(out: &mut Text, s: SlotName) -> Result<(), OutOfMemory>
    ensures pushed { OnOk result (out.new ≡ out.old ++ slot_text s) }
    ensures kept { OnErr result (StartsWith out.new out.old) }
{
    let mut digits = [0; 8];
    hex::encode_to_slice(s.start.to_be_bytes(), &mut digits).unwrap();
    push_bytes(out, &digits)?;
    push_byte(out, b'.')?;
    push_number(out, u64::from(s.born))
}
