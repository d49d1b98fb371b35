ghost use Rattle.std.specs.Prelude.{◌≡◌, ◌<◌, ◌++◌, codes, length, OnOk, OnErr, List, Contains};
ghost use Rattle.std.specs.Io.{StartsWith};
ghost use Rattle.pa_text.specs.Hex.{slot_text};
ghost use Rattle.pa_record.specs.Text.{field_text, held_text, cell_text, history_text, cells_text};

use crate::writing::push_field;
use crate::{CellEntry, Held, History};
use pa_slot::{OutOfMemory, SlotName};
use pa_text::{Text, push_byte, push_bytes, push_slot};

/// Appends the lines of all exchanges, by cell from cell 0 on and by index. If memory runs out, a first part of it
/// may have been appended; it doesn't if no cell has an exchange.
#[tactic(auto, using(crate::proofs::Joining::starts_through))]
pub fn push_cells(out: &mut Text, cells: &[History]) -> Result<(), OutOfMemory>
    ensures pushed { OnOk result (out.new ≡ out.old ++ cells_text cells.now) }
    ensures kept { OnErr result (StartsWith out.new out.old) }
    ensures asks { OnErr result ((history : List CellEntry) × Contains cells.now history × (0 < length history)) }
{
    let mut cell = 0;
    for history in cells {
        push_history(out, cell, history.entries())?;
        cell += 1;
    }
    Ok(())
}

// Appends the lines of the history of one cell.
#[tactic(auto, using(crate::proofs::Joining::starts_through))]
fn push_history(out: &mut Text, cell: u64, entries: &[CellEntry]) -> Result<(), OutOfMemory>
    ensures pushed { OnOk result (out.new ≡ out.old ++ history_text cell entries.now) }
    ensures kept { OnErr result (StartsWith out.new out.old) }
    ensures asks { OnErr result (0 < length entries.now) }
{
    let mut index = 0;
    for entry in entries {
        push_exchange(out, cell, index, entry)?;
        index += 1;
    }
    Ok(())
}

// Appends the line of one exchange, with its LF.
fn push_exchange(
    out: &mut Text,
    cell: u64,
    index: u64,
    entry: &CellEntry,
) -> Result<(), OutOfMemory>
    ensures pushed { OnOk result (out.new ≡ out.old ++ cell_text cell index entry.now) }
    ensures kept { OnErr result (StartsWith out.new out.old) }
{
    push_place(out, cell, index, entry.line)?;
    push_handles(out, entry.gave, entry.found)?;
    push_byte(out, b'\n')
}

// Appends `c K J LINE` and a space.
fn push_place(out: &mut Text, cell: u64, index: u64, line: u32) -> Result<(), OutOfMemory>
    ensures pushed { OnOk result
        (out.new ≡ out.old ++
        (field_text (codes "c ") cell ++ field_text (codes " ") index ++ field_text (codes " ") line ++ codes " ")) }
    ensures kept { OnErr result (StartsWith out.new out.old) }
{
    push_field(out, b"c ", cell)?;
    push_field(out, b" ", index)?;
    push_field(out, b" ", u64::from(line))?;
    push_byte(out, b' ')
}

// Appends `GAVE FOUND`.
#[tactic(auto, using(pa_text::proofs::Joining::starts_before))]
fn push_handles(out: &mut Text, gave: Held, found: Held) -> Result<(), OutOfMemory>
    ensures pushed { OnOk result (out.new ≡ out.old ++ (held_text gave ++ codes " " ++ held_text found)) }
    ensures kept { OnErr result (StartsWith out.new out.old) }
{
    push_held(out, gave)?;
    push_byte(out, b' ')?;
    push_held(out, found)
}

// Appends `-`, `own:SLOT` or `ref:SLOT`.
fn push_held(out: &mut Text, held: Held) -> Result<(), OutOfMemory>
    ensures pushed { OnOk result (out.new ≡ out.old ++ held_text held) }
    ensures kept { OnErr result (StartsWith out.new out.old) }
{
    match held {
        Held::Nothing => push_byte(out, b'-'),
        Held::Own(slot) => push_handle(out, b"own:", slot),
        Held::Ref(slot) => push_handle(out, b"ref:", slot),
    }
}

// Appends the word and the slot's name.
fn push_handle(out: &mut Text, word: &[u8], slot: SlotName) -> Result<(), OutOfMemory>
    ensures pushed { OnOk result (out.new ≡ out.old ++ (word.now ++ slot_text slot)) }
    ensures kept { OnErr result (StartsWith out.new out.old) }
{
    push_bytes(out, word)?;
    push_slot(out, slot)
}
