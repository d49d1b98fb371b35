ghost use Rattle.std.specs.Prelude.{◌≡◌, [], ◌∷◌, ◌++◌, IfOk, OnOk, OnErr};
ghost use Rattle.pa_run_reader.specs.Gathered.{gathered_with, HasListOf, IsUngathered, TellsGathered};

use crate::Item;
use pa_dense::{DenseJournal, DenseRun, journals_of};
use pa_record::{Entry, History, PoolEntry, ReportLine, Run};
use pa_slot::OutOfMemory;
use pa_trace::{CELLS, MOST_PARTITIONS};
use std::alloc::Global;
use std::marker::Model;

// What was read of a run so far: a journal for each partition, a history for each cell. It is seen as its lists.
#[derive(Drop)]
pub struct Draft {
    entries: Vec<Entry>,
    roots: Vec<DenseJournal>,
    pool: Vec<PoolEntry>,
    cells: Vec<History>,
    report: Vec<ReportLine>,
}

impl Model for Draft {
    ghost use Rattle.pa_run_reader.specs.Gathered.{Gathered};

    ghost Value = { Gathered };

    ghost view = { λ d. record {
      entries = d.entries.items;
      roots = d.roots.items;
      pool = d.pool.items;
      cells = d.cells.items;
      report = d.report.items;
    } };
}

impl Draft {
    // A draft of a run of which nothing was read yet.
    pub fn new(alloc: Global) -> Result<Draft, OutOfMemory>
        ensures { IfOk result IsUngathered }
    {
        let mut roots = Vec::with_capacity(alloc, MOST_PARTITIONS as usize)?;
        for _ in 0..MOST_PARTITIONS {
            roots.push(DenseJournal::new(alloc))?;
        }
        let mut cells = Vec::with_capacity(alloc, CELLS as usize)?;
        for _ in 0..CELLS {
            cells.push(History::new(alloc))?;
        }
        Ok(Draft {
            entries: Vec::new(alloc),
            roots,
            pool: Vec::new(alloc),
            cells,
            report: Vec::new(alloc),
        })
    }

    // Appends the item to its list, which must be there. If memory runs out, the lists are as they were.
    pub fn put(&mut self, item: Item) -> Result<(), OutOfMemory>
        requires { HasListOf item self.old }
        ensures gathered { OnOk result (self.new ≡ gathered_with item self.old) }
        ensures same { OnErr result (self.new ≡ self.old) }
    {
        match item {
            Item::Record(entry) => self.entries.push(entry)?,
            Item::Root {
                partition,
                entry,
                ..
            } => self.roots[partition as usize].push(&entry.lent())?,
            Item::Pool { entry, .. } => self.pool.push(entry)?,
            Item::Cell { cell, entry, .. } => self.cells[cell as usize].push(entry)?,
            Item::Report(line) => self.report.push(line)?,
            Item::Head | Item::End => {}
        }
        Ok(())
    }

    // The run that was read.
    pub fn into_run(self, alloc: Global) -> Result<Run, OutOfMemory>
        ensures { IfOk result (TellsGathered self) }
    {
        Ok(Run {
            entries: self.entries,
            roots: journals_of(alloc, self.roots.as_slice())?,
            pool: self.pool,
            cells: self.cells,
            report: self.report,
        })
    }

    // The run that was read, with its journals kept densely.
    pub fn into_dense(self) -> DenseRun
        ensures { TellsGathered self result }
    {
        DenseRun::of(self.entries, self.roots, self.pool, self.cells, self.report)
    }
}
