ghost use Rattle.std.specs.Prelude.{◌≡◌, ℕ, ◌<◌, ◌++◌, [], ◌∷◌, All, IfOk, OnErr, OnOk, length, slice_index_or, slice_set};
ghost use Rattle.pa_rules.specs.Roots.{journal_at};
ghost use Rattle.pa_audit_holders.specs.Lines.{AreOnLines, HaveLines};

use pa_dense::{DenseEntry, DenseJournal};
use pa_rules::Played;
use pa_slot::OutOfMemory;
use smallvec::SmallVec;
use std::alloc::Global;
use std::marker::Model;

// Indices into a journal. Four of them need no memory of their own. They are seen as the list of them.
#[derive(Drop)]
pub(crate) struct Places {
    of: SmallVec<u32, 4>,
}

impl Model for Places {
    ghost use Rattle.std.specs.Prelude.{ℕ, List};

    ghost Value = { List ℕ };

    ghost view = { λ p. p.of.items };
}

impl Places {
    fn new(alloc: Global) -> Places
        ensures { result ≡ [] }
    {
        Places {
            of: SmallVec::new(alloc),
        }
    }

    fn push(&mut self, place: u32) -> Result<(), OutOfMemory>
        ensures pushed { OnOk result (self.new ≡ self.old ++ place ∷ []) }
        ensures same { OnErr result (self.new ≡ self.old) }
    {
        self.of.push(place)?;
        Ok(())
    }

    fn items(&self) -> &[u32]
        ensures { result.now ≡ self.now }
    {
        self.of.as_slice()
    }
}

// The indices of a journal's entries, by their lines. They are seen as the list of these lists.
#[derive(Drop)]
pub(crate) struct ByLine {
    lines: Vec<Places>,
}

impl Model for ByLine {
    ghost use Rattle.std.specs.Prelude.{ℕ, List};

    ghost Value = { List (List ℕ) };

    ghost view = { λ b. b.lines.items };
}

impl ByLine {
    // That many lines without entries.
    fn new(alloc: Global, count: usize) -> Result<ByLine, OutOfMemory>
        ensures count { IfOk result (λ b. length b ≡ count) }
        ensures empty { IfOk result (λ b. (l : ℕ) → slice_index_or b l [] ≡ []) }
    {
        let mut lines = Vec::with_capacity(alloc, count)?;
        for _ in 0..count {
            lines.push(Places::new(alloc))?;
        }
        Ok(ByLine { lines })
    }

    // Appends an index to those of its line, if the line is there.
    fn enter(&mut self, line: usize, place: u32) -> Result<(), OutOfMemory>
        ensures entered { OnOk result (self.new ≡ slice_set self.old line (slice_index_or self.old line [] ++ place ∷ [])) }
        ensures same { OnErr result (self.new ≡ self.old) }
    {
        if line < self.lines.len() {
            self.lines[line].push(place)?;
        }
        Ok(())
    }

    // The indices of the entries of each line that is below this number. A journal of no entries needs no memory for its lines.
    #[tactic(auto, using(crate::proofs::Indexing::no_lines))]
    fn of(alloc: Global, count: usize, journal: &DenseJournal) -> Result<ByLine, OutOfMemory>
        requires few { length journal.now < 4294967296 }
        ensures { IfOk result (AreOnLines journal.now count) }
    {
        if journal.entries().is_empty() {
            Ok(ByLine::empty(alloc))
        } else {
            ByLine::of_entries(alloc, count, journal)
        }
    }

    // No lines.
    fn empty(alloc: Global) -> ByLine
        ensures { result ≡ [] }
    {
        ByLine {
            lines: Vec::new(alloc),
        }
    }

    // The indices of the entries, with room for each line below this number.
    fn of_entries(
        alloc: Global,
        count: usize,
        journal: &DenseJournal,
    ) -> Result<ByLine, OutOfMemory>
        requires few { length journal.now < 4294967296 }
        ensures { IfOk result (AreOnLines journal.now count) }
    {
        let mut by_line = ByLine::new(alloc, count)?;
        let mut place: u32 = 0;
        for entry in journal.entries() {
            by_line.enter(entry.line() as usize, place)?;
            place += 1;
        }
        Ok(by_line)
    }

    // The indices of the entries of a line, and none if there is no such line.
    pub(crate) fn places(&self, line: u32) -> &[u32]
        ensures { result.now ≡ slice_index_or self.now line [] }
    {
        match self.lines.get(line as usize) {
            Some(places) => places.items(),
            None => &[],
        }
    }
}

// A number above the lines of all records.
pub(crate) fn lines_below(records: &[Played]) -> usize
    ensures { All (λ x. x.line < result) records.now }
{
    let mut most: u32 = 0;
    for record in records {
        most = most.max(record.line);
    }
    most as usize + 1
}

// The indices of the entries of all journals on lines below this number.
pub(crate) fn lines_of(
    alloc: Global,
    count: usize,
    roots: &[DenseJournal],
) -> Result<Vec<ByLine>, OutOfMemory>
    requires few { (p : ℕ) → length (journal_at roots.now p) < 4294967296 }
    ensures { IfOk result (λ tables. HaveLines roots.now count tables.items) }
{
    let mut tables = Vec::new(alloc);
    for journal in roots {
        let table = ByLine::of(alloc, count, journal)?;
        tables.push(table)?;
    }
    Ok(tables)
}

// The entries of a partition's journal, and none if it has no journal.
pub(crate) fn journal_of(roots: &[DenseJournal], partition: u32) -> &[DenseEntry]
    ensures { result.now ≡ journal_at roots.now partition }
{
    match roots.get(partition as usize) {
        Some(journal) => journal.entries(),
        None => &[],
    }
}
