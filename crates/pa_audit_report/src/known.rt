use pa_audit_heap::Censuses;
use pa_audit_holders::Home;
use pa_audit_records::ByKey;
use pa_record::Tally;
use pa_trace::MOST_PARTITIONS;

/// What the checkers of earlier clauses leave for that of the report: how many records are of the first phases, from phase 1 on, the
/// homes of the slots that journals handed out, what the threads' lists have of each of four partitions at the end of each phase, and
/// what the root of each partition has then.
#[derive(Drop)]
pub struct Known {
    pub ends: Vec<usize>,
    pub homes: ByKey<Home>,
    pub cached: Vec<[Tally; MOST_PARTITIONS as usize]>,
    pub censuses: Vec<Censuses>,
}
