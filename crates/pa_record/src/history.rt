ghost use Rattle.std.specs.Prelude.{◌≡◌, [], ◌∷◌, ◌++◌, OnOk, OnErr};

use pa_slot::{OutOfMemory, SlotName};
use std::alloc::Global;
use std::marker::Model;

/// What a cell or a register has: nothing, the Own handle of a slot, or a Ref handle.
#[derive(Clone, Copy, Debug, PartialEq, Eq)]
pub enum Held {
    Nothing,
    Own(SlotName),
    Ref(SlotName),
}

/// One exchange with a cell: the line of the trace whose op made it, what it put into the cell, and what it found.
#[derive(Clone, Copy, Debug, PartialEq, Eq)]
pub struct CellEntry {
    pub line: u32,
    pub gave: Held,
    pub found: Held,
}

/// The exchanges with one cell, in order. It is seen as the list of them.
#[derive(Debug, Drop)]
pub struct History {
    items: Vec<CellEntry>,
}

impl Model for History {
    ghost use Rattle.std.specs.Prelude.{List};
    ghost use Rattle.pa_record.specs.declared.history.CellEntry.{CellEntry};

    ghost Value = { List CellEntry };

    ghost view = { λ history. history.items.items };
}

impl History {
    /// A history of no exchanges.
    pub fn new(alloc: Global) -> History
        ensures empty { result ≡ [] }
    {
        History {
            items: Vec::new(alloc),
        }
    }

    /// Appends an exchange. If memory runs out, the history is unchanged.
    pub fn push(&mut self, entry: CellEntry) -> Result<(), OutOfMemory>
        ensures pushed { OnOk result (self.new ≡ self.old ++ entry ∷ []) }
        ensures same { OnErr result (self.new ≡ self.old) }
    {
        self.items.push(entry)?;
        Ok(())
    }

    /// The exchanges in order.
    pub fn entries(&self) -> &[CellEntry]
        ensures entries { result.now ≡ self.now }
    {
        self.items.as_slice()
    }
}
