ghost use Rattle.std.specs.Prelude.{◌≡◌, ℕ, ◌+◌, ◌<◌, ◌≤◌, ◌^◌, ◌↔◌, [], ◌∷◌, All, IfNone, IfOk, IfSome, IsTrue, length};
ghost use Rattle.pa_trace.specs.Limits.{most_partitions, most_threads};
ghost use Rattle.pa_audit_records.specs.ByKeys.{value_at};
ghost use Rattle.pa_dense.specs.Act.{act_of};
ghost use Rattle.pa_slot.specs.declared.word.SlotName.{SlotName as Name};
ghost use Rattle.pa_record.specs.declared.root.RootAct.{RootAct};
ghost use Rattle.pa_rules.specs.Caches.{NoActs, OnlyActs, acts_of};
ghost use Rattle.pa_rules.specs.RecordDemands.{IsRecord};
ghost use Rattle.pa_rules.specs.Roots.{journal_at};
ghost use Rattle.pa_audit_holders.specs.Books.{IsRecordsLine, page_of};
ghost use Rattle.pa_audit_holders.specs.Homes.{HasOneHome, KnowsHomes, TellsHome};
ghost use Rattle.pa_audit_holders.specs.Lines.{ArePlacesOf, NoneBut};
ghost use Rattle.pa_audit_holders.specs.Rows.{IsOfThreads, NamesPartition};

use crate::homes::{Home, key};
use crate::lines::{ByLine, journal_of, lines_below, lines_of};
use pa_audit_records::ByKey;
use pa_dense::{Act, DenseEntry, DenseJournal};
use pa_record::Answer;
use pa_rules::Played;
use pa_slot::{OutOfMemory, SlotName};
use std::alloc::Global;
use std::marker::Model;

/// The books of a run: its records and the journals of its roots, with the indices of each line's entries there, and the homes
/// of the slots. They are seen as the records and the journals.
#[derive(Drop)]
pub struct Books<'a> {
    version: u32,
    partitions: u32,
    records: &'a [Played],
    roots: &'a [DenseJournal],
    lines: Vec<ByLine>,
    homes: &'a ByKey<Home>,
}

impl<'a> Model for Books<'a> {
    ghost use Rattle.pa_audit_records.specs.ByKeys.{value_at};
    ghost use Rattle.pa_audit_holders.specs.Books.{AreBooks, RunBooks};

    ghost Value = { RunBooks };

    ghost view = { λ b. record { version = b.version; partitions = b.partitions; records = b.records.now; roots = b.roots.now } };

    ghost invariant = { λ b.
        AreBooks (record { version = b.version; partitions = b.partitions; records = b.records.now; roots = b.roots.now }) b.lines.items
        (value_at b.homes.now) };
}

impl<'a> Books<'a> {
    /// The books of these records and journals. The records are of at most 16 threads and four partitions and of the version, and each slot
    /// of the journals is of one partition, and of one class of the version or a direct map, as the table of homes has it.
    pub fn of(
        alloc: Global,
        version: u32,
        partitions: u32,
        records: &'a [Played],
        roots: &'a [DenseJournal],
        homes: &'a ByKey<Home>,
    ) -> Result<Books<'a>, OutOfMemory>
        requires partitions { partitions ≤ most_partitions }
        requires few { length records.now < 2 ^ 32 }
        requires within { All (IsOfThreads version) records.now }
        requires four { length roots.now ≤ most_partitions }
        requires entries { (p : ℕ) → length (journal_at roots.now p) < 2 ^ 32 }
        requires homes { KnowsHomes (journal_at roots.now) (value_at homes.now) }
        requires kinds { (s : Name) → HasOneHome version (journal_at roots.now) s }
        ensures { IfOk result (λ books. books ≡
            record { version = version; partitions = partitions; records = records.now; roots = roots.now }) }
    {
        let lines = lines_of(alloc, lines_below(records), roots)?;
        Ok(Books {
            version,
            partitions,
            records,
            roots,
            lines,
            homes,
        })
    }

    // The version of the run.
    pub(crate) fn version(&self) -> u32
        ensures { result ≡ self.now.version }
    {
        self.version
    }

    fn partitions(&self) -> u32
        ensures partitions { result ≡ self.now.partitions }
        ensures few { result ≤ most_partitions }
    {
        self.partitions
    }

    // How many records there are.
    pub(crate) fn count(&self) -> usize
        ensures count { result ≡ length self.now.records }
        ensures few { result < 2 ^ 32 }
    {
        self.records.len()
    }

    fn roots(&self) -> &[DenseJournal]
        ensures roots { result.now ≡ self.now.roots }
        ensures four { length result.now ≤ most_partitions }
    {
        self.roots
    }

    // The page of the record at this index.
    pub(crate) fn page(&self, at: usize) -> Page<'_>
        requires { at < length self.now.records }
        ensures page { (x : Played) → IsRecord self.now.records at x → result ≡ page_of self.now x }
        ensures few { at < 2 ^ 32 }
        ensures kinds { (s : Name) → HasOneHome self.now.version (journal_at self.now.roots) s }
    {
        let records = self.records;
        let told = records[at];
        Page { books: self, told }
    }

    // The indices of the entries of a record's line in a partition's journal.
    fn places(&self, line: u32, partition: u32) -> &[u32]
        requires { IsRecordsLine self.now.records line }
        ensures { ArePlacesOf (journal_at self.now.roots partition) result.now (acts_of (journal_at self.now.roots) line partition) }
    {
        match self.lines.get(partition as usize) {
            Some(table) => table.places(line),
            None => &[],
        }
    }

    // The home of a slot. None if no entry handed it out.
    fn home_of(&self, slot: SlotName) -> Option<Home>
        ensures home { TellsHome (journal_at self.now.roots) slot result }
        ensures partition { IfSome result (λ home. home.partition < most_partitions) }
        ensures one { HasOneHome self.now.version (journal_at self.now.roots) slot }
    {
        match self.homes.find(key(slot)) {
            Some(home) => Some(home),
            None => None,
        }
    }
}

// The books, open at one record.
#[derive(Drop)]
pub(crate) struct Page<'a> {
    books: &'a Books<'a>,
    told: Played,
}

impl<'a> Model for Page<'a> {
    ghost use Rattle.pa_audit_holders.specs.Books.{IsOnPage, RecordPage, page_of};

    ghost Value = { RecordPage };

    ghost view = { λ p. page_of p.books.now p.told };

    ghost invariant = { λ p. IsOnPage p.books.now p.told };
}

impl<'a> Page<'a> {
    pub(crate) fn partitions(&self) -> u32
        ensures partitions { result ≡ self.now.partitions }
        ensures few { result ≤ most_partitions }
    {
        self.books.partitions()
    }

    fn roots(&self) -> &[DenseJournal]
        ensures roots { result.now ≡ self.now.roots }
        ensures four { length result.now ≤ most_partitions }
    {
        self.books.roots()
    }

    pub(crate) fn thread(&self) -> u32
        ensures thread { result ≡ self.now.told.thread }
        ensures few { result < most_threads }
    {
        self.told.thread
    }

    pub(crate) fn told(&self) -> Played
        ensures told { result ≡ self.now.told }
        ensures partition { NamesPartition result.op }
        ensures version { result.rules.version ≡ self.now.version }
    {
        self.told
    }

    pub(crate) fn answer(&self) -> Answer
        ensures { result ≡ self.now.told.answer }
    {
        self.told.answer
    }

    // The home of a slot. None if no entry handed it out.
    pub(crate) fn home_of(&self, slot: SlotName) -> Option<Home>
        ensures home { TellsHome (journal_at self.now.roots) slot result }
        ensures partition { IfSome result (λ home. home.partition < most_partitions) }
        ensures one { HasOneHome self.now.version (journal_at self.now.roots) slot }
    {
        self.books.home_of(slot)
    }

    // The entries of a partition's journal, and none if it has no journal.
    pub(crate) fn journal(&self, partition: u32) -> &[DenseEntry]
        ensures { result.now ≡ journal_at self.now.roots partition }
    {
        journal_of(self.books.roots(), partition)
    }

    // The indices of the line's entries in a partition's journal.
    pub(crate) fn places(&self, partition: u32) -> &[u32]
        ensures { ArePlacesOf (journal_at self.now.roots partition) result.now
            (acts_of (journal_at self.now.roots) self.now.told.line partition) }
    {
        self.books.places(self.told.line, partition)
    }

    // Whether the line has no entries in this partition's journal.
    fn is_quiet(&self, partition: u32) -> bool
        ensures { IsTrue result ↔ (acts_of (journal_at self.now.roots) self.now.told.line partition ≡ []) }
    {
        self.places(partition).is_empty()
    }

    // Whether this partition is the other one, or the line has no entries in its journal.
    fn is_quiet_but(&self, partition: u32, other: u32) -> bool
        ensures { IsTrue result ↔
            ((partition ≡ other → ⊥) → acts_of (journal_at self.now.roots) self.now.told.line partition ≡ []) }
    {
        partition == other || self.is_quiet(partition)
    }

    // Whether no journal but this partition's has entries of the line.
    pub(crate) fn none_but(&self, partition: u32) -> bool
        ensures { IsTrue result ↔ NoneBut (journal_at self.now.roots) self.now.told.line partition }
    {
        let mut at: u32 = 0;
        for _journal in self.roots() {
            if !self.is_quiet_but(at, partition) {
                return false;
            }
            at += 1;
        }
        true
    }

    // Whether the line has no entries.
    pub(crate) fn has_none(&self) -> bool
        ensures { IsTrue result ↔ NoActs (journal_at self.now.roots) self.now.told.line }
    {
        self.is_quiet(0) && self.none_but(0)
    }

    // What the line's only entry did, which is of this partition. None if there is no such entry, or there are others.
    pub(crate) fn only_act(&self, partition: u32) -> Option<Act<'_>>
        ensures some { IfSome result (λ a. OnlyActs (journal_at self.now.roots) self.now.told.line partition (act_of a ∷ [])) }
        ensures none { IfNone result
            ((a : RootAct) → OnlyActs (journal_at self.now.roots) self.now.told.line partition (a ∷ []) → ⊥) }
    {
        if !self.none_but(partition) {
            return None;
        }
        let places = self.places(partition);
        if places.len() != 1 {
            return None;
        }
        Some(self.journal(partition)[places[0] as usize].act())
    }
}
