ghost use Rattle.std.specs.Prelude.{◌≡◌, ◌<◌, ◌^◌, [], IfOk, OnOk, OnErr, length};
ghost use Rattle.pa_player.specs.Begun.{AreEmpty};
ghost use Rattle.pa_player.specs.Books.{Books, kept_acts, with_kept_act, with_kept_entry};

use pa_dense::{DenseJournal, journals_of};
use pa_record::{Entry, Journal, LentEntry};
use pa_run_writer::{Journals, Records};
use pa_slot::OutOfMemory;
use std::alloc::Global;

/// Where a player sends its records and its journals. `books` is what it was sent.
pub trait Output: Drop {
    ghost books: { Self → Books };

    /// One more record. If memory runs out, there are those of before.
    fn record(&mut self, entry: Entry) -> Result<(), OutOfMemory>
        ensures recorded { OnOk result (books self.new ≡ with_kept_entry entry (books self.old)) }
        ensures same { OnErr result (books self.new ≡ books self.old) };

    /// One more entry of a partition's journal. Returns its index there. If memory runs out, the journals are as before.
    fn act(&mut self, partition: u32, entry: &LentEntry<'_>) -> Result<u32, OutOfMemory>
        requires partition { partition < length (books self.old).journals }
        requires few { length (kept_acts (books self.old) partition) < 2 ^ 32 }
        ensures place { IfOk result (λ place. place ≡ length (kept_acts (books self.old) partition)) }
        ensures after { OnOk result (books self.new ≡ with_kept_act partition entry.now (books self.old)) }
        ensures same { OnErr result (books self.new ≡ books self.old) };
}

/// The records and the journals as lists.
#[derive(Drop)]
pub struct ListOutput {
    pub(crate) entries: Vec<Entry>,
    pub(crate) journals: Vec<DenseJournal>,
}

impl ListOutput {
    /// No records, and `partitions` journals with no entries. Memory is reserved for the records of `lines` lines.
    pub fn new(alloc: Global, partitions: u32, lines: usize) -> Result<ListOutput, OutOfMemory>
        ensures entries { IfOk result (λ lists. lists.entries.items ≡ []) }
        ensures journals { IfOk result (λ lists. AreEmpty partitions lists.journals.items) }
    {
        let mut journals = Vec::with_capacity(alloc, partitions as usize)?;
        for _ in 0..partitions {
            journals.push(DenseJournal::new(alloc))?;
        }
        Ok(ListOutput {
            entries: Vec::with_capacity(alloc, lines)?,
            journals,
        })
    }

    // The lists.
    pub(crate) fn into_lists(self, alloc: Global) -> Result<(Vec<Entry>, Vec<Journal>), OutOfMemory>
        ensures entries { IfOk result (λ lists. lists.0.items ≡ self.entries.items) }
        ensures journals { IfOk result (λ lists. lists.1.items ≡ self.journals.items) }
    {
        let roots = journals_of(alloc, self.journals.as_slice())?;
        Ok((self.entries, roots))
    }
}

impl Output for ListOutput {
    ghost books = { λ lists. record { entries = lists.entries.items; journals = lists.journals.items } };

    fn record(&mut self, entry: Entry) -> Result<(), OutOfMemory> {
        self.entries.push(entry)?;
        Ok(())
    }

    fn act(&mut self, partition: u32, entry: &LentEntry<'_>) -> Result<u32, OutOfMemory> {
        let journal = &mut self.journals[partition as usize];
        let place = journal.entries().len() as u32;
        journal.push(entry)?;
        Ok(place)
    }
}

/// The records and the journals as their texts.
#[derive(Drop)]
pub struct TextOutput {
    pub(crate) records: Records,
    pub(crate) journals: Journals,
}

impl TextOutput {
    /// No records, and `partitions` journals with no entries. Memory is reserved for the texts of the records of `lines` lines.
    pub fn new(alloc: Global, partitions: u32, lines: usize) -> Result<TextOutput, OutOfMemory>
        ensures records { IfOk result (λ texts. texts.records ≡ []) }
        ensures journals { IfOk result (λ texts. AreEmpty partitions texts.journals) }
    {
        Ok(TextOutput {
            records: Records::new(alloc, lines)?,
            journals: Journals::new(alloc, partitions)?,
        })
    }
}

impl Output for TextOutput {
    ghost books = { λ texts. record { entries = texts.records; journals = texts.journals } };

    fn record(&mut self, entry: Entry) -> Result<(), OutOfMemory> {
        self.records.push(entry)
    }

    #[inline(always)]
    fn act(&mut self, partition: u32, entry: &LentEntry<'_>) -> Result<u32, OutOfMemory> {
        self.journals.push(partition, entry)
    }
}
