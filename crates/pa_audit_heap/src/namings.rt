ghost use Rattle.std.specs.Prelude.{◌≡◌, ◌+◌, ◌<◌, ◌≤◌, ◌^◌, ◌↔◌, IfOk, IsTrue, length, slice_index_or, slice_set};
ghost use Rattle.pa_dense.specs.Act.{act_of};
ghost use Rattle.pa_record.specs.Root.{asked_by};
ghost use Rattle.pa_rules.specs.Roots.{journal_at};
ghost use Rattle.pa_audit_heap.specs.Namings.{AreNamings, named_by};

use pa_dense::{Act, DenseJournal};
use pa_slot::OutOfMemory;
use std::alloc::Global;

// How the journals name an entry of the pool: no entry of theirs does, exactly one does,
// which is of this partition and line, or more than one does.
#[derive(Clone, Copy, Debug, PartialEq, Eq)]
pub(crate) enum Naming {
    Nobody,
    Once { partition: u32, line: u32 },
    Again,
}

// How the journals name each of the pool's entries.
pub(crate) fn namings_of(
    alloc: Global,
    size: usize,
    roots: &[DenseJournal],
) -> Result<Vec<Naming>, OutOfMemory>
    requires few { length roots.now < 2 ^ 32 }
    ensures { IfOk result (λ namings. AreNamings (journal_at roots.now) (length roots.now) 0 size namings.items) }
{
    let mut namings = vec![in alloc; Naming::Nobody; size]?;
    let mut partition = 0;
    for journal in roots {
        name_all(&mut namings, roots, partition, journal);
        partition += 1;
    }
    Ok(namings)
}

// Takes the entries of a partition's journal into account.
fn name_all(
    namings: &mut Vec<Naming>,
    roots: &[DenseJournal],
    partition: u32,
    journal: &DenseJournal,
)
    requires journal { journal_at roots.now partition ≡ journal.now }
    requires before { AreNamings (journal_at roots.now) partition 0 (length namings.old.items) namings.old.items }
    ensures after { AreNamings (journal_at roots.now) (partition + 1) 0 (length namings.old.items) namings.new.items }
{
    for entry in journal.entries() {
        if let Some(pool) = asked_by(entry.act()) {
            let naming = Naming::Once {
                partition,
                line: entry.line(),
            };
            name(namings, pool as usize, naming);
        }
    }
}

// Names an entry of the pool, if it exists: it is then named once, or once more.
fn name(namings: &mut Vec<Naming>, pool: usize, naming: Naming)
    ensures { namings.new.items ≡ slice_set namings.old.items pool (named_by (slice_index_or namings.old.items pool Naming.Nobody) naming) }
{
    if pool < namings.len() {
        namings[pool] = match namings[pool] {
            Naming::Nobody => naming,
            _ => Naming::Again,
        };
    }
}

// The entry of the pool that an entry of a journal names.
pub(crate) fn asked_by(act: Act<'_>) -> Option<u32>
    ensures { result ≡ asked_by (act_of act.entry) }
{
    match act {
        Act::Fill { pool, .. } => pool,
        Act::Map { pool, .. } => Some(pool),
        Act::Full { pool, .. } => Some(pool),
        Act::Give { .. } => None,
        Act::Unmap { pool, .. } => Some(pool),
        Act::Purge => None,
    }
}
