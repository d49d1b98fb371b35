ghost use Rattle.std.specs.Prelude.{◌≡◌, ℕ, ◌<◌, ◌^◌, ◌↔◌, IsTrue, List, length};
ghost use Rattle.pa_dense.specs.Act.{act_of};
ghost use Rattle.pa_record.specs.declared.pool.PoolEntry.{PoolEntry};
ghost use Rattle.pa_record.specs.declared.root.RootEntry.{RootEntry as Line};
ghost use Rattle.pa_rules.specs.declared.verdict.Place.TheVariants as places;
ghost use Rattle.pa_rules.specs.Roots.{IsEntry, IsFull, journal_at};
ghost use Rattle.pa_rules.specs.HeapDemands.{RootsDemand};
ghost use Rattle.pa_audit_heap.specs.Parts.{NamesFull};
ghost use Rattle.pa_rules.specs.Tells.{TellsFirst};

use pa_dense::{Act, DenseJournal};
use pa_record::Answer;
use pa_rules::Played;
use pa_trace::Op;

/// The first record that doesn't meet what the clause `roots` requires of it, by its index: it was refused, and the entry of the
/// journal that it names isn't a Full of its line.
pub fn refusals_meet(records: &[Played], roots: &[DenseJournal]) -> Option<u32>
    requires { length records.now < 2 ^ 32 }
    ensures { (partitions : ℕ) (pools : List PoolEntry) →
        TellsFirst (λ i. RootsDemand partitions records.now pools (journal_at roots.now) (places.Record i)) result }
{
    let mut at = 0;
    for found in records {
        if !names_full(*found, roots) {
            return Some(at);
        }
        at += 1;
    }
    None
}

// Whether the record names a Full of its line, if its answer is Full.
fn names_full(found: Played, roots: &[DenseJournal]) -> bool
    ensures { IsTrue result ↔ NamesFull (journal_at roots.now) found }
{
    match found.answer {
        Answer::Full { entry } => match found.op {
            Op::Alloc { partition, .. } => has_full(roots, partition, entry, found.line),
            _ => true,
        },
        _ => true,
    }
}

// Whether this entry of the partition's journal is a Full of the line.
fn has_full(roots: &[DenseJournal], partition: u32, entry: u32, line: u32) -> bool
    ensures { IsTrue result ↔ ((e : Line) × IsEntry (journal_at roots.now) partition entry e × (e.line ≡ line) × IsFull e.act) }
{
    match roots.get(partition as usize) {
        Some(journal) => match journal.entries().get(entry as usize) {
            Some(entry) => entry.line() == line && is_full(entry.act()),
            None => false,
        },
        None => false,
    }
}

fn is_full(act: Act<'_>) -> bool
    ensures { IsTrue result ↔ IsFull (act_of act.entry) }
{
    matches!(act, Act::Full { .. })
}
