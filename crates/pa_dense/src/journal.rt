ghost use Rattle.std.specs.Prelude.{◌≡◌, [], ◌∷◌, ◌++◌, IfOk, OnErr, OnOk};

use crate::entry::DenseEntry;
use pa_record::{Journal, LentEntry};
use pa_slot::OutOfMemory;
use std::alloc::Global;
use std::marker::Model;

/// What one root did, in order, as `Journal`, in entries that take no more memory than they need. It is seen as the list of its
/// entries.
#[derive(Drop)]
pub struct DenseJournal {
    items: Vec<DenseEntry>,
    alloc: Global,
}

impl Model for DenseJournal {
    ghost use Rattle.std.specs.Prelude.{List};
    ghost use Rattle.pa_record.specs.declared.root.RootEntry.{RootEntry};

    ghost Value = { List RootEntry };

    ghost view = { λ journal. journal.items.items };
}

impl DenseJournal {
    /// A journal of no entries.
    pub fn new(alloc: Global) -> DenseJournal
        ensures empty { result ≡ [] }
    {
        DenseJournal {
            items: Vec::new(alloc),
            alloc,
        }
    }

    /// Appends the entry. If memory runs out, the journal is as before.
    pub fn push(&mut self, entry: &LentEntry<'_>) -> Result<(), OutOfMemory>
        ensures pushed { OnOk result (self.new ≡ self.old ++ entry.now ∷ []) }
        ensures same { OnErr result (self.new ≡ self.old) }
    {
        let dense = DenseEntry::of(self.alloc, entry)?;
        self.items.push(dense)?;
        Ok(())
    }

    /// The journal, kept densely.
    pub fn of(alloc: Global, journal: &Journal) -> Result<DenseJournal, OutOfMemory>
        ensures entries { IfOk result (λ dense. dense ≡ journal.now) }
    {
        let mut dense = DenseJournal::new(alloc);
        for entry in journal.entries() {
            dense.push(&entry.lent())?;
        }
        Ok(dense)
    }

    /// The entries in order.
    pub fn entries(&self) -> &[DenseEntry]
        ensures entries { result.now ≡ self.now }
    {
        self.items.as_slice()
    }

    // The journal with each entry as `RootEntry` has it.
    pub(crate) fn to_journal(&self, alloc: Global) -> Result<Journal, OutOfMemory>
        ensures journal { IfOk result (λ journal. journal ≡ self.now) }
    {
        let mut entries = Vec::with_capacity(alloc, self.items.len())?;
        for entry in self.entries() {
            entries.push(entry.to_entry())?;
        }
        Ok(Journal::of(entries))
    }
}

/// The journals, each with its entries as `RootEntry` has them.
pub fn journals_of(alloc: Global, dense: &[DenseJournal]) -> Result<Vec<Journal>, OutOfMemory>
    ensures journals { IfOk result (λ journals. journals.items ≡ dense.now) }
{
    let mut journals = Vec::with_capacity(alloc, dense.len())?;
    for journal in dense {
        let one = journal.to_journal(alloc)?;
        journals.push(one)?;
    }
    Ok(journals)
}
