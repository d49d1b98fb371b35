ghost use Rattle.std.specs.Prelude.{◌≡◌, ◌<◌, ◌^◌, [], ◌∷◌, ◌++◌, IfOk, OnOk, OnErr, length};
ghost use Rattle.std.specs.List.{AllByRecursion};
ghost use Rattle.pa_record.specs.Bits.{RootInBits};
ghost use Rattle.pa_record.specs.Text.{journal_text};

use crate::past::and_lent;
use pa_record::{LentEntry, RootEntry, push_root, root_fits};
use pa_slot::OutOfMemory;
use pa_text::{Past, Text};
use std::alloc::Global;
use std::marker::Model;

// The journal of one root so far, kept as its text.
#[derive(Drop)]
pub(crate) struct Lines {
    text: Text,
    partition: u32,
    len: u64,
    past: Past<RootEntry>,
}

impl Model for Lines {
    ghost use Rattle.pa_run_writer.specs.Lines.{OneJournal, IsJournalText};

    ghost Value = { OneJournal };

    ghost view = { λ lines. record { partition = lines.partition; entries = lines.past.items } };

    ghost invariant = { λ lines. IsJournalText (record { partition = lines.partition; entries = lines.past.items }) lines.len lines.text };
}

impl Lines {
    // The journal of a partition, with no entries.
    pub(crate) fn new(alloc: Global, partition: u32) -> Lines
        ensures none { result ≡ record { partition = partition; entries = [] } }
    {
        Lines {
            text: Text::new(alloc),
            partition,
            len: 0,
            past: Past::new(),
        }
    }

    // Appends an entry, and returns its index. If memory runs out, the entries are as before.
    #[inline(always)]
    pub(crate) fn push(&mut self, entry: &LentEntry<'_>) -> Result<u32, OutOfMemory>
        requires few { length self.old.entries < 2 ^ 32 }
        ensures partition { self.new.partition ≡ self.old.partition }
        ensures place { IfOk result (λ place. place ≡ length self.old.entries) }
        ensures pushed { OnOk result (self.new ≡ record self.old { entries = self.old.entries ++ entry.now ∷ [] }) }
        ensures kept { OnErr result (self.new ≡ self.old) }
    {
        root_fits(entry);
        let place = self.len;
        let len = self.text.len();
        match push_root(&mut self.text, u64::from(self.partition), place, entry) {
            Ok(()) => {
                self.past = and_lent(&self.past, entry);
                self.len += 1;
                Ok(place as u32)
            }
            Err(error) => {
                self.text.truncate(len);
                Err(error)
            }
        }
    }

    // The text of the journal's lines.
    pub(crate) fn text(&self) -> &[u8]
        ensures text { result.now ≡ journal_text self.now.partition self.now.entries }
        ensures fits { AllByRecursion RootInBits self.now.entries }
    {
        self.text.as_slice()
    }
}
