ghost use Rattle.std.specs.Prelude.{◌≡◌, IfOk};
ghost use Rattle.pa_dense.specs.Lists.{HasListsOf};

use crate::journal::DenseJournal;
use pa_record::{CellEntry, Entry, History, Journal, PoolEntry, ReportLine, Run};
use pa_slot::OutOfMemory;
use std::alloc::Global;
use std::marker::Model;

/// What a run contains, as `Run`, with its journals kept densely. It is seen as that run.
#[derive(Drop)]
pub struct DenseRun {
    entries: Vec<Entry>,
    roots: Vec<DenseJournal>,
    pool: Vec<PoolEntry>,
    cells: Vec<History>,
    report: Vec<ReportLine>,
}

impl Model for DenseRun {
    ghost use Rattle.pa_record.specs.declared.run.Run.{Run};

    ghost Value = { Run };

    ghost view = { λ r. record {
      entries = r.entries;
      roots = r.roots;
      pool = r.pool;
      cells = r.cells;
      report = r.report;
    } };
}

impl DenseRun {
    /// The run with these parts.
    pub fn of(
        entries: Vec<Entry>,
        roots: Vec<DenseJournal>,
        pool: Vec<PoolEntry>,
        cells: Vec<History>,
        report: Vec<ReportLine>,
    ) -> DenseRun
        ensures entries { result.entries.items ≡ entries.items }
        ensures roots { result.roots.items ≡ roots.items }
        ensures pool { result.pool.items ≡ pool.items }
        ensures cells { result.cells.items ≡ cells.items }
        ensures report { result.report.items ≡ report.items }
    {
        DenseRun {
            entries,
            roots,
            pool,
            cells,
            report,
        }
    }

    /// The run with its journals kept densely.
    pub fn of_run(alloc: Global, run: &Run) -> Result<DenseRun, OutOfMemory>
        ensures { IfOk result (HasListsOf run.now) }
    {
        Ok(DenseRun {
            entries: Vec::from_slice(alloc, run.entries.as_slice())?,
            roots: dense_of(alloc, run.roots.as_slice())?,
            pool: Vec::from_slice(alloc, run.pool.as_slice())?,
            cells: histories_of(alloc, run.cells.as_slice())?,
            report: Vec::from_slice(alloc, run.report.as_slice())?,
        })
    }

    /// The records.
    pub fn entries(&self) -> &[Entry]
        ensures entries { result.now ≡ self.now.entries.items }
    {
        self.entries.as_slice()
    }

    /// The journals, by their partitions.
    pub fn roots(&self) -> &[DenseJournal]
        ensures roots { result.now ≡ self.now.roots.items }
    {
        self.roots.as_slice()
    }

    /// The entries of the pool.
    pub fn pool(&self) -> &[PoolEntry]
        ensures pool { result.now ≡ self.now.pool.items }
    {
        self.pool.as_slice()
    }

    /// The histories, by their cells.
    pub fn cells(&self) -> &[History]
        ensures cells { result.now ≡ self.now.cells.items }
    {
        self.cells.as_slice()
    }

    /// The lines of the report.
    pub fn report(&self) -> &[ReportLine]
        ensures report { result.now ≡ self.now.report.items }
    {
        self.report.as_slice()
    }
}

// The journals, kept densely.
fn dense_of(alloc: Global, journals: &[Journal]) -> Result<Vec<DenseJournal>, OutOfMemory>
    ensures { IfOk result (λ dense. dense.items ≡ journals.now) }
{
    let mut dense = Vec::with_capacity(alloc, journals.len())?;
    for journal in journals {
        let one = DenseJournal::of(alloc, journal)?;
        dense.push(one)?;
    }
    Ok(dense)
}

// A copy of these histories.
fn histories_of(alloc: Global, cells: &[History]) -> Result<Vec<History>, OutOfMemory>
    ensures { IfOk result (λ histories. histories.items ≡ cells.now) }
{
    let mut histories = Vec::with_capacity(alloc, cells.len())?;
    for history in cells {
        let one = history_of(alloc, history.entries())?;
        histories.push(one)?;
    }
    Ok(histories)
}

// The history of these exchanges.
fn history_of(alloc: Global, entries: &[CellEntry]) -> Result<History, OutOfMemory>
    ensures { IfOk result (λ history. history ≡ entries.now) }
{
    let mut history = History::new(alloc);
    for entry in entries {
        history.push(*entry)?;
    }
    Ok(history)
}
