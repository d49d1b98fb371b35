//! The records of all threads, merged by the trace's lines.
ghost use Rattle.std.specs.Prelude.{◌≡◌, ℕ, ◌<◌, ◌≤◌, IfOk, List, length};
ghost use Rattle.std.specs.List.{AllByRecursion};
ghost use Rattle.pa_trace.specs.Limits.{IsLineWithin, most_threads};
ghost use Rattle.pa_record.specs.declared.entry.Entry.{Entry};
ghost use Rattle.pa_runner.specs.Merging.{IsMergeOf};

use pa_heap::Worker;
use pa_record::Entry;
use pa_region::Name;
use pa_slot::OutOfMemory;
use pa_trace::{Line, MOST_THREADS};
use std::alloc::Global;

/// The records of all workers in the order of the trace's lines. Each thread's are in the order of its lines, so the next line's
/// record is the next one of its thread.
pub fn merge_records<N: Name>(
    alloc: Global,
    lines: &[Line],
    workers: &[Worker<N>],
) -> Result<Vec<Entry>, OutOfMemory>
    requires few { length workers.now ≤ most_threads }
    requires threads { (partitions : ℕ) × AllByRecursion (IsLineWithin partitions (length workers.now)) lines.now }
    requires whole { (es : List Entry) × IsMergeOf lines.now workers.now es }
    ensures { IfOk result (λ v. (es : List Entry) → IsMergeOf lines.now workers.now es → v.items ≡ es) }
{
    let mut merged = Vec::new(alloc);
    let mut next = [0usize; MOST_THREADS as usize];
    for line in lines {
        match *line {
            Line::Phase => {}
            Line::Do { thread, op: _ } => {
                let k = thread as usize;
                let records = workers[k].records();
                let at = next[k];
                merged.push(records[at])?;
                next[k] = at + 1;
            }
        }
    }
    Ok(merged)
}
