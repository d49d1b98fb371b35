ghost use Rattle.std.specs.Prelude.{◌≡◌, ◌≤◌, IfOk, length};
ghost use Rattle.pa_dense.specs.Act.{act_of};

use crate::kept::Kept;
use pa_record::{Act, ActWith, Batch, LentEntry, Numbered, RootAct, RootEntry};
use pa_slot::OutOfMemory;
use std::alloc::Global;
use std::marker::Model;

/// An entry of a root's journal that takes no more memory than its slots need. It is seen as that entry.
#[derive(Drop)]
pub struct DenseEntry {
    line: u32,
    did: ActWith<Kept>,
}

impl Model for DenseEntry {
    ghost use Rattle.pa_record.specs.declared.root.RootEntry.{RootEntry};

    ghost Value = { RootEntry };

    ghost use Rattle.pa_dense.specs.Act.{act_of};

    ghost view = { λ e. record { line = e.line; act = act_of e.did } };
}

impl DenseEntry {
    // The entry, kept densely.
    pub(crate) fn of(alloc: Global, entry: &LentEntry<'_>) -> Result<DenseEntry, OutOfMemory>
        ensures entry { IfOk result (λ dense. dense ≡ entry.now) }
    {
        Ok(DenseEntry {
            line: entry.line(),
            did: did_of(alloc, entry.act())?,
        })
    }

    /// The line of the trace whose op made it.
    pub fn line(&self) -> u32
        ensures line { result ≡ self.now.line }
    {
        self.line
    }

    // The entry as `RootEntry` has it.
    pub(crate) fn to_entry(&self) -> RootEntry
        ensures entry { result ≡ self.now }
    {
        RootEntry {
            line: self.line,
            act: root_act_of(self.act()),
        }
    }

    /// What the root did.
    pub fn act(&self) -> Act<'_>
        ensures act { act_of result ≡ self.now.act }
    {
        match &self.did {
            ActWith::Fill { class, pool, slots } => Act::Fill {
                class: *class,
                pool: *pool,
                slots: slots.lent(),
            },
            ActWith::Map { pool, slot, len } => Act::Map {
                pool: *pool,
                slot: *slot,
                len: *len,
            },
            ActWith::Full { class, pool } => Act::Full {
                class: *class,
                pool: *pool,
            },
            ActWith::Give { slots } => Act::Give {
                slots: slots.lent(),
            },
            ActWith::Unmap { pool, slot } => Act::Unmap {
                pool: *pool,
                slot: *slot,
            },
            ActWith::Purge => Act::Purge,
        }
    }
}

// What the act did, with its slots in a list of their own.
fn did_of(alloc: Global, act: &Act<'_>) -> Result<ActWith<Kept>, OutOfMemory>
    ensures act { IfOk result (λ did. act_of did ≡ act_of act.now) }
{
    match act {
        Act::Fill { class, pool, slots } => Ok(ActWith::Fill {
            class: *class,
            pool: *pool,
            slots: Kept::of(alloc, slots.lent().items())?,
        }),
        Act::Map { pool, slot, len } => Ok(ActWith::Map {
            pool: *pool,
            slot: *slot,
            len: *len,
        }),
        Act::Full { class, pool } => Ok(ActWith::Full {
            class: *class,
            pool: *pool,
        }),
        Act::Give { slots } => Ok(ActWith::Give {
            slots: Kept::of(alloc, slots.lent().items())?,
        }),
        Act::Unmap { pool, slot } => Ok(ActWith::Unmap {
            pool: *pool,
            slot: *slot,
        }),
        Act::Purge => Ok(ActWith::Purge),
    }
}

// The act, with its slots in a batch.
fn root_act_of(act: Act<'_>) -> RootAct
    ensures act { result ≡ act_of act.entry }
{
    match act {
        Act::Fill { class, pool, slots } => RootAct::Fill {
            class,
            pool,
            slots: batch_of(slots.items()),
        },
        Act::Map { pool, slot, len } => RootAct::Map { pool, slot, len },
        Act::Full { class, pool } => RootAct::Full { class, pool },
        Act::Give { slots } => RootAct::Give {
            slots: batch_of(slots.items()),
        },
        Act::Unmap { pool, slot } => RootAct::Unmap { pool, slot },
        Act::Purge => RootAct::Purge,
    }
}

// The batch of these slots.
fn batch_of(slots: &[Numbered]) -> Batch
    requires few { length slots.now ≤ 16 }
    ensures batch { result ≡ slots.now }
{
    let mut batch = Batch::new();
    for slot in slots {
        batch.push(*slot);
    }
    batch
}
