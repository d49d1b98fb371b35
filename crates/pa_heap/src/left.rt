use pa_record::{History, Journal, PoolEntry};
use pa_region::Closed;
use pa_trace::MOST_PARTITIONS;

/// What a heap leaves when it is closed: the journals of the four partitions' roots, the entries of the pool, the histories of
/// the 64 cells, and the region's words.
pub struct Left {
    pub roots: [Journal; MOST_PARTITIONS as usize],
    pub pool: Vec<PoolEntry>,
    pub cells: Vec<History>,
    pub region: Closed,
}
