ghost use Rattle.std.specs.Prelude.{◌≡◌, ◌++◌, IfOk, OnOk};
ghost use Rattle.std.specs.Fmt.{decimal};
ghost use Rattle.std.specs.List.{flat_map};
ghost use Rattle.pa_dangle.specs.Text.{use_text, pair_text, dangling_text};

use crate::found::{Found, Pair, Use};
use pa_slot::OutOfMemory;
use pa_text::{Text, push_bytes, push_number};
use std::alloc::Global;

// The word for a use.
fn word(how: Use) -> &'static [u8]
    ensures { result.now ≡ use_text how }
{
    match how {
        Use::Copied => b"copy",
        Use::WasReset => b"reset",
        Use::WasFreed => b"free",
        Use::Written => b"write",
        Use::WasRead => b"read",
    }
}

// Appends the line of a pair.
fn push_pair(out: &mut Text, pair: Pair) -> Result<(), OutOfMemory>
    ensures { OnOk result (out.new ≡ out.old ++ pair_text pair) }
{
    push_bytes(out, b"pair made ")?;
    push_number(out, u64::from(pair.made))?;
    push_bytes(out, b" free ")?;
    push_number(out, u64::from(pair.free))?;
    push_bytes(out, b" later ")?;
    push_number(out, u64::from(pair.later))?;
    push_bytes(out, b" ")?;
    push_bytes(out, word(pair.how))?;
    push_bytes(out, b" origin ")?;
    push_number(out, u64::from(pair.origin))?;
    push_bytes(out, b"\n")
}

// Appends the lines of the pairs.
fn push_pairs(out: &mut Text, pairs: &[Pair]) -> Result<(), OutOfMemory>
    ensures { OnOk result (out.new ≡ out.old ++ flat_map pair_text pairs.now) }
{
    for pair in pairs {
        push_pair(out, *pair)?;
    }
    Ok(())
}

// Appends the number in decimal.
fn push_wide(out: &mut Text, n: u128) -> Result<(), OutOfMemory>
    ensures { OnOk result (out.new ≡ out.old ++ decimal n) }
{
    let mut digits = itoa::Buffer::new();
    push_bytes(out, digits.format(n).as_bytes())
}

/// The text of what was found in a run: a line for each pair, and then how many frees found `raw_ptr`s, how many slots are left in
/// quarantine and how many pairs there are.
pub fn found_text(alloc: Global, found: &Found) -> Result<Text, OutOfMemory>
    ensures { IfOk result (λ text. text ≡ dangling_text found.now.pairs.items found.now.freed found.now.left) }
{
    let mut out = Text::new(alloc);
    push_bytes(&mut out, b"dangling 1\n")?;
    push_pairs(&mut out, found.pairs.as_slice())?;
    push_bytes(&mut out, b"freed ")?;
    push_number(&mut out, u64::from(found.freed))?;
    push_bytes(&mut out, b" open ")?;
    push_wide(&mut out, found.left)?;
    push_bytes(&mut out, b" pairs ")?;
    push_number(&mut out, found.pairs.len() as u64)?;
    push_bytes(&mut out, b"\nend\n")?;
    Ok(out)
}
