use crate::{Entry, History, Journal, PoolEntry, ReportLine};

/// All that a run contains: a record for each op line, the journals of the partitions' roots from partition 0 on, the
/// entries of the pool, the histories of the cells from cell 0 on, and the report by phase and partition.
#[derive(Debug, Drop)]
pub struct Run {
    pub entries: Vec<Entry>,
    pub roots: Vec<Journal>,
    pub pool: Vec<PoolEntry>,
    pub cells: Vec<History>,
    pub report: Vec<ReportLine>,
}
