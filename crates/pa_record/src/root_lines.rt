ghost use Rattle.std.specs.Prelude.{◌≡◌, ◌++◌, codes, OnOk, OnErr, length, ◌≤◌};
ghost use Rattle.std.specs.Fmt.{decimal};
ghost use Rattle.std.specs.Io.{StartsWith};
ghost use Rattle.pa_text.specs.Hex.{slot_text};
ghost use Rattle.pa_record.specs.Act.{act_of};
ghost use Rattle.pa_record.specs.Text.{field_text, number_or, numbered_text, slots_text, root_act_text, root_text, journal_text, roots_text};
ghost use Rattle.pa_record.specs.declared.root.RootAct.TheVariants as acts;

use crate::act::Act;
use crate::lent_entry::LentEntry;
use crate::writing::push_field;
use crate::{Journal, Numbered, RootEntry};
use pa_buckets::Class;
use pa_slot::{OutOfMemory, SlotName};
use pa_text::{Text, push_byte, push_bytes, push_number, push_slot};

// Appends the lines of all journals, from partition 0 on.
pub(crate) fn push_roots(out: &mut Text, journals: &[Journal]) -> Result<(), OutOfMemory>
    ensures pushed { OnOk result (out.new ≡ out.old ++ roots_text journals.now) }
{
    let mut partition = 0;
    for journal in journals {
        push_journal(out, partition, journal.entries())?;
        partition += 1;
    }
    Ok(())
}

// Appends the lines of the journal of one partition.
fn push_journal(out: &mut Text, partition: u64, entries: &[RootEntry]) -> Result<(), OutOfMemory>
    ensures pushed { OnOk result (out.new ≡ out.old ++ journal_text partition entries.now) }
{
    let mut index = 0;
    for entry in entries {
        push_root(out, partition, index, &entry.lent())?;
        index += 1;
    }
    Ok(())
}

/// Appends the line of the entry at this index of a partition's journal, with its LF. If memory runs out, a first part of it
/// may have been appended.
#[tactic(auto, using(pa_text::proofs::Joining::starts_before))]
pub fn push_root(
    out: &mut Text,
    partition: u64,
    index: u64,
    entry: &LentEntry<'_>,
) -> Result<(), OutOfMemory>
    ensures pushed { OnOk result (out.new ≡ out.old ++ root_text partition index entry.now) }
    ensures kept { OnErr result (StartsWith out.new out.old) }
{
    push_field(out, b"r ", partition)?;
    push_field(out, b" ", index)?;
    push_field(out, b" ", u64::from(entry.line()))?;
    push_byte(out, b' ')?;
    push_act(out, entry.act())?;
    push_byte(out, b'\n')
}

// Appends what the root did.
fn push_act(out: &mut Text, act: &Act<'_>) -> Result<(), OutOfMemory>
    ensures pushed { OnOk result (out.new ≡ out.old ++ root_act_text (act_of act.now)) }
    ensures kept { OnErr result (StartsWith out.new out.old) }
{
    match act {
        Act::Fill { class, pool, slots } => push_fill(out, *class, *pool, slots.lent().items()),
        Act::Map { pool, slot, len } => push_map(out, *pool, *slot, *len),
        Act::Full { class, pool } => push_full(out, *class, *pool),
        Act::Give { slots } => push_give(out, slots.lent().items()),
        Act::Unmap { pool, slot } => push_unmap(out, *pool, *slot),
        Act::Purge => push_bytes(out, b"purge"),
    }
}

// Appends `fill CLASS POOL SLOT@K ..`.
fn push_fill(
    out: &mut Text,
    class: Class,
    pool: Option<u32>,
    slots: &[Numbered],
) -> Result<(), OutOfMemory>
    ensures pushed { OnOk result (out.new ≡ out.old ++ root_act_text (acts.Fill class pool slots.now)) }
    ensures kept { OnErr result (StartsWith out.new out.old) }
{
    push_field(out, b"fill ", u64::from(class.number()))?;
    push_byte(out, b' ')?;
    push_number_or(out, b"-", pool)?;
    push_slots(out, slots)
}

// Appends `map POOL SLOT@0 LEN`.
fn push_map(out: &mut Text, pool: u32, slot: SlotName, len: u32) -> Result<(), OutOfMemory>
    ensures pushed { OnOk result (out.new ≡ out.old ++ root_act_text (acts.Map pool slot len)) }
    ensures kept { OnErr result (StartsWith out.new out.old) }
{
    push_field(out, b"map ", u64::from(pool))?;
    push_byte(out, b' ')?;
    push_slot(out, slot)?;
    push_field(out, b"@0 ", u64::from(len))
}

// Appends `full CLASS POOL`, whose class may be `direct`.
fn push_full(out: &mut Text, class: Option<Class>, pool: u32) -> Result<(), OutOfMemory>
    ensures pushed { OnOk result (out.new ≡ out.old ++ root_act_text (acts.Full class pool)) }
    ensures kept { OnErr result (StartsWith out.new out.old) }
{
    push_bytes(out, b"full ")?;
    match class {
        Some(class) => push_number(out, u64::from(class.number()))?,
        None => push_bytes(out, b"direct")?,
    }
    push_field(out, b" ", u64::from(pool))
}

// Appends `give SLOT@K ..`.
fn push_give(out: &mut Text, slots: &[Numbered]) -> Result<(), OutOfMemory>
    ensures pushed { OnOk result (out.new ≡ out.old ++ root_act_text (acts.Give slots.now)) }
    ensures kept { OnErr result (StartsWith out.new out.old) }
{
    push_bytes(out, b"give")?;
    push_slots(out, slots)
}

// Appends `unmap POOL SLOT@K`.
fn push_unmap(out: &mut Text, pool: u32, slot: Numbered) -> Result<(), OutOfMemory>
    ensures pushed { OnOk result (out.new ≡ out.old ++ root_act_text (acts.Unmap pool slot)) }
    ensures kept { OnErr result (StartsWith out.new out.old) }
{
    push_field(out, b"unmap ", u64::from(pool))?;
    push_byte(out, b' ')?;
    push_numbered(out, slot)
}

// Appends the slots, a space before each.
#[tactic(auto, using(crate::proofs::Joining::starts_through))]
fn push_slots(out: &mut Text, slots: &[Numbered]) -> Result<(), OutOfMemory>
    ensures pushed { OnOk result (out.new ≡ out.old ++ slots_text slots.now) }
    ensures kept { OnErr result (StartsWith out.new out.old) }
{
    for slot in slots {
        push_byte(out, b' ')?;
        push_numbered(out, *slot)?;
    }
    Ok(())
}

// Appends `SLOT@K`.
#[inline(always)]
fn push_numbered(out: &mut Text, slot: Numbered) -> Result<(), OutOfMemory>
    ensures pushed { OnOk result (out.new ≡ out.old ++ numbered_text slot) }
    ensures kept { OnErr result (StartsWith out.new out.old) }
{
    push_slot(out, slot.slot)?;
    push_field(out, b"@", slot.number)
}

// Appends the number, or the word if there is none.
pub(crate) fn push_number_or(out: &mut Text, word: &[u8], n: Option<u32>) -> Result<(), OutOfMemory>
    ensures pushed { OnOk result (out.new ≡ out.old ++ number_or word.now n) }
    ensures kept { OnErr result (StartsWith out.new out.old) }
{
    match n {
        Some(n) => push_number(out, u64::from(n)),
        None => push_bytes(out, word),
    }
}
