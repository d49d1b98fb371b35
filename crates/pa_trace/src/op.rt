ghost use Rattle.std.specs.Prelude.{◌≡◌};
ghost use Rattle.pa_trace.specs.Reading.{op_in, alloc_in, copy_in, reset_in, free_in, write_in, read_in, swap_in, purge_in};

use crate::field::{
    LineFault, below, ended, number_and_word, one_number, three_numbers, two_numbers, within,
};
use crate::script::Op;

/// How many registers a thread has.
pub const REGISTERS: u32 = 64;

/// How many cells a heap has.
pub const CELLS: u32 = 64;

// The op, which is the whole rest of the line.
#[tactic(auto, unfolding(crate::specs::Reading::op_in))]
#[inline(always)]
pub fn op_in(partitions: u32, bytes: &[u8]) -> Result<Op, LineFault>
    ensures { result ≡ op_in partitions bytes.now }
{
    match bytes {
        [b'A', rest @ ..] => alloc_in(partitions, rest),
        [b'C', rest @ ..] => copy_in(rest),
        [b'R', rest @ ..] => reset_in(rest),
        [b'F', rest @ ..] => free_in(rest),
        [b'W', rest @ ..] => write_in(rest),
        [b'D', rest @ ..] => read_in(rest),
        [b'X', rest @ ..] => swap_in(rest),
        [b'P', rest @ ..] => purge_in(rest),
        _ => Err(LineFault::Outside),
    }
}

#[tactic(auto, unfolding(crate::specs::Reading::alloc_in))]
fn alloc_in(partitions: u32, bytes: &[u8]) -> Result<Op, LineFault>
    ensures { result ≡ alloc_in partitions bytes.now }
{
    let (reg, partition, size) = three_numbers(bytes, b" r", b" p", b" ")?;
    Ok(Op::Alloc {
        reg: below(reg, REGISTERS)?,
        partition: below(partition, partitions)?,
        size: within(size)?,
    })
}

#[tactic(auto, unfolding(crate::specs::Reading::copy_in))]
fn copy_in(bytes: &[u8]) -> Result<Op, LineFault>
    ensures { result ≡ copy_in bytes.now }
{
    let (from, to) = two_numbers(bytes, b" r", b" r")?;
    Ok(Op::Copy {
        from: below(from, REGISTERS)?,
        to: below(to, REGISTERS)?,
    })
}

#[tactic(auto, unfolding(crate::specs::Reading::reset_in))]
fn reset_in(bytes: &[u8]) -> Result<Op, LineFault>
    ensures { result ≡ reset_in bytes.now }
{
    let reg = one_number(bytes, b" r")?;
    Ok(Op::Reset {
        reg: below(reg, REGISTERS)?,
    })
}

#[tactic(auto, unfolding(crate::specs::Reading::free_in))]
fn free_in(bytes: &[u8]) -> Result<Op, LineFault>
    ensures { result ≡ free_in bytes.now }
{
    let reg = one_number(bytes, b" r")?;
    Ok(Op::Free {
        reg: below(reg, REGISTERS)?,
    })
}

#[tactic(auto, unfolding(crate::specs::Reading::write_in))]
fn write_in(bytes: &[u8]) -> Result<Op, LineFault>
    ensures { result ≡ write_in bytes.now }
{
    let (reg, value) = number_and_word(bytes, b" r")?;
    Ok(Op::Write {
        reg: below(reg, REGISTERS)?,
        value,
    })
}

#[tactic(auto, unfolding(crate::specs::Reading::read_in))]
fn read_in(bytes: &[u8]) -> Result<Op, LineFault>
    ensures { result ≡ read_in bytes.now }
{
    let (reg, place) = two_numbers(bytes, b" r", b" ")?;
    Ok(Op::Read {
        reg: below(reg, REGISTERS)?,
        place: within(place)?,
    })
}

#[tactic(auto, unfolding(crate::specs::Reading::swap_in))]
fn swap_in(bytes: &[u8]) -> Result<Op, LineFault>
    ensures { result ≡ swap_in bytes.now }
{
    let (cell, reg) = two_numbers(bytes, b" c", b" r")?;
    Ok(Op::Swap {
        cell: below(cell, CELLS)?,
        reg: below(reg, REGISTERS)?,
    })
}

#[tactic(auto, unfolding(crate::specs::Reading::purge_in))]
fn purge_in(bytes: &[u8]) -> Result<Op, LineFault>
    ensures { result ≡ purge_in bytes.now }
{
    ended(bytes)?;
    Ok(Op::Purge)
}
