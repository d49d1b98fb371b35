use pa_record::{CellEntry, Entry, PoolEntry, ReportLine, RootEntry};

/// What one line of a run's text contains. Indices count from 0.
#[derive(Debug, Drop, PartialEq, Eq)]
pub enum Item {
    /// The first line, `run 1`.
    Head,
    /// The record of an op.
    Record(Entry),
    /// An entry of the journal of a partition, 0 to 3.
    Root {
        partition: u32,
        index: u32,
        entry: RootEntry,
    },
    /// An entry of the pool.
    Pool {
        index: u32,
        entry: PoolEntry,
    },
    /// An exchange with a cell, 0 to 63.
    Cell {
        cell: u32,
        index: u32,
        entry: CellEntry,
    },
    /// A line of the report.
    Report(ReportLine),
    /// The last line, `end`.
    End,
}
