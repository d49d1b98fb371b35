ghost use Rattle.std.specs.Prelude.{◌≡◌, ◌<◌, ◌^◌, IfOk, length};
ghost use Rattle.std.specs.Ordering.{nat_cmp};
ghost use Rattle.std.specs.BTreeMap.{get};
ghost use Rattle.pa_audit_order.specs.Numbers.{seen_by, IsOneAt, AreByNumber};

use crate::keys::key;
use pa_record::{Answer, Seen};
use pa_rules::Played;
use pa_slot::{OutOfMemory, number};
use pa_trace::Op;
use std::alloc::Global;
use std::collections::BTreeMap;

/// What records do with a slot.
#[derive(Clone, Copy)]
pub enum Kind {
    /// They fill it, by making it or by a write.
    Fill,
    /// They make it.
    Issue,
    /// They free it.
    Free,
}

// What a record saw of the slot that it filled, made or freed, as the kind says.
fn seen_of(kind: Kind, op: Op, answer: Answer) -> Option<Seen>
    ensures { result ≡ seen_by kind op answer }
{
    match kind {
        Kind::Fill => match answer {
            Answer::Made { seen, .. } => Some(seen),
            Answer::Done { seen } => match op {
                Op::Write { .. } => Some(seen),
                _ => None,
            },
            _ => None,
        },
        Kind::Issue => match answer {
            Answer::Made { seen, .. } => Some(seen),
            _ => None,
        },
        Kind::Free => match answer {
            Answer::Done { seen } => match op {
                Op::Free { .. } => Some(seen),
                _ => None,
            },
            _ => None,
        },
    }
}

/// The indices of the records that filled, made or freed a slot, as the kind says,
/// by the key of the slot and its number. An error means out of memory.
pub fn by_number(
    alloc: Global,
    records: &[Played],
    kind: Kind,
) -> Result<BTreeMap<u128, u32>, OutOfMemory>
    requires few { length records.now < 2 ^ 32 }
    requires one { IsOneAt kind records.now }
    ensures { IfOk result (λ m. AreByNumber kind records.now (get nat_cmp m) (length records.now)) }
{
    let mut table = BTreeMap::new(alloc);
    let mut at: u32 = 0;
    for record in records {
        if let Some(seen) = seen_of(kind, record.op, record.answer) {
            table.insert(key(seen.slot, number(seen.found)), at)?;
        }
        at += 1;
    }
    Ok(table)
}
