ghost use Rattle.std.specs.Prelude.{◌≡◌, ◌<◌, ◌++◌, length, OnOk, OnErr};
ghost use Rattle.std.specs.Io.{StartsWith};
ghost use Rattle.pa_record.specs.Text.{field_text, number_or, pool_act_text, pool_text, pools_text};

use crate::root_lines::push_number_or;
use crate::writing::push_field;
use crate::{PoolAct, PoolEntry};
use pa_slot::OutOfMemory;
use pa_text::{Text, push_byte};

/// Appends the lines of the pool's entries, from entry 0 on. If memory runs out, a first part of it may have been appended; it doesn't
/// if there are none.
#[tactic(auto, using(crate::proofs::Joining::starts_through))]
pub fn push_pool(out: &mut Text, entries: &[PoolEntry]) -> Result<(), OutOfMemory>
    ensures pushed { OnOk result (out.new ≡ out.old ++ pools_text entries.now) }
    ensures kept { OnErr result (StartsWith out.new out.old) }
    ensures asks { OnErr result (0 < length entries.now) }
{
    let mut index = 0;
    for entry in entries {
        push_turn(out, index, entry)?;
        index += 1;
    }
    Ok(())
}

// Appends the line of one entry, with its LF.
#[tactic(auto, using(pa_text::proofs::Joining::starts_before))]
fn push_turn(out: &mut Text, index: u64, entry: &PoolEntry) -> Result<(), OutOfMemory>
    ensures pushed { OnOk result (out.new ≡ out.old ++ pool_text index entry.now) }
    ensures kept { OnErr result (StartsWith out.new out.old) }
{
    push_field(out, b"p ", index)?;
    push_field(out, b" ", u64::from(entry.line))?;
    push_field(out, b" ", u64::from(entry.partition))?;
    push_byte(out, b' ')?;
    push_act(out, entry.act)?;
    push_byte(out, b'\n')
}

// Appends `take COUNT FIRST`, whose first may be `none`, or `give COUNT FIRST`.
fn push_act(out: &mut Text, act: PoolAct) -> Result<(), OutOfMemory>
    ensures pushed { OnOk result (out.new ≡ out.old ++ pool_act_text act) }
    ensures kept { OnErr result (StartsWith out.new out.old) }
{
    match act {
        PoolAct::Take { count, first } => {
            push_field(out, b"take ", u64::from(count))?;
            push_byte(out, b' ')?;
            push_number_or(out, b"none", first)
        }
        PoolAct::Give { count, first } => {
            push_field(out, b"give ", u64::from(count))?;
            push_field(out, b" ", u64::from(first))
        }
    }
}
