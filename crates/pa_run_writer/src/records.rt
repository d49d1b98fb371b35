ghost use Rattle.std.specs.Prelude.{◌≡◌, [], ◌∷◌, ◌++◌, IfOk, OnOk, OnErr};
ghost use Rattle.pa_run_writer.specs.Lines.{IsRecordsText};

use pa_record::{Entry, entry_fits, push_entry};
use pa_slot::OutOfMemory;
use pa_text::{Past, Text, push_bytes};
use std::alloc::Global;
use std::marker::Model;

// The bytes of a record's line, for the memory that is reserved ahead: few are longer.
const LINE_BYTES: usize = 72;

/// The records of a run so far, kept as their text. They are seen as the list of them.
#[derive(Drop)]
pub struct Records {
    text: Text,
    past: Past<Entry>,
}

impl Model for Records {
    ghost use Rattle.std.specs.Prelude.{List};
    ghost use Rattle.pa_record.specs.declared.entry.Entry.{Entry};

    ghost Value = { List Entry };

    ghost use Rattle.pa_run_writer.specs.Lines.{IsRecordsText};

    ghost view = { λ records. records.past.items };

    ghost invariant = { λ records. IsRecordsText records.past.items records.text };
}

impl Records {
    /// No records. Memory is reserved for those of that many lines.
    pub fn new(alloc: Global, lines: usize) -> Result<Records, OutOfMemory>
        ensures none { IfOk result (λ records. records ≡ []) }
    {
        let mut text = Text::with_capacity(alloc, lines.saturating_mul(LINE_BYTES))?;
        push_bytes(&mut text, b"run 1\n")?;
        Ok(Records {
            text,
            past: Past::new(),
        })
    }

    /// Appends a record. If memory runs out, the records are as before.
    pub fn push(&mut self, entry: Entry) -> Result<(), OutOfMemory>
        ensures pushed { OnOk result (self.new ≡ self.old ++ entry ∷ []) }
        ensures kept { OnErr result (self.new ≡ self.old) }
    {
        entry_fits(entry);
        let len = self.text.len();
        match push_entry(&mut self.text, &entry) {
            Ok(()) => {
                self.past = self.past.and(&entry);
                Ok(())
            }
            Err(error) => {
                self.text.truncate(len);
                Err(error)
            }
        }
    }

    /// The text of a run's first line and of its records.
    pub(crate) fn into_text(self) -> Text
        ensures text { IsRecordsText self result }
    {
        self.text
    }
}
