/// The clauses of a legal run, in the order in which they are tested.
#[derive(Clone, Copy, Debug, PartialEq, Eq)]
pub enum Clause {
    Lines,
    Cells,
    Registers,
    Slots,
    Contents,
    Pool,
    Roots,
    Titles,
    Holders,
    Caches,
    Seen,
    Report,
}

/// Whether a run is legal; else the first clause that fails, and the first line of the run's text at which it fails.
#[derive(Clone, Copy, Debug, PartialEq, Eq)]
pub enum Verdict {
    Legal,
    Broken(Clause, u32),
}

/// A place of a run's text, which has one line.
#[derive(Clone, Copy, Debug, PartialEq, Eq)]
pub enum Place {
    /// The record of this index; after the last one, the line after the records.
    Record(u32),
    /// An entry of a root's journal, by its partition and index.
    Root(u32, u32),
    /// An entry of the pool.
    Pool(u32),
    /// An exchange, by its cell and its index in the cell's history.
    Cell(u32, u32),
    /// A line of the report, by its index; after the last one, the line that ends the run.
    Report(u32),
}
