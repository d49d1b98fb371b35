ghost use Rattle.std.specs.Prelude.{◌≡◌, ℕ, ◌<◌, ◌+◌, ◌^◌, Contains, IfOk, IfSome, IfNone, length};
ghost use Rattle.std.specs.Ordering.{nat_cmp};
ghost use Rattle.std.specs.BTreeMap.{get};
ghost use Rattle.pa_slot.specs.Count.{number_of};
ghost use Rattle.pa_slot.specs.Run.{Mark, Slots};
ghost use Rattle.pa_rules.specs.Played.{marks_of};
ghost use Rattle.pa_rules.specs.Rising.{RiseByLine};
ghost use Rattle.pa_dangle.specs.Steps.{AreStepsOf, IsLastStep, NoStepBelow};

use pa_audit_order::{by_number, greatest, key};
use pa_rules::Played;
use pa_slot::{OutOfMemory, SlotName, number};
use std::alloc::Global;
use std::collections::BTreeMap;

// Which steps of the slots a table has.
#[derive(Clone, Copy)]
pub(crate) enum Kind {
    Issued,
    Freed,
}

// The steps of the kind by slot and number.
pub(crate) fn steps_by_number(
    alloc: Global,
    records: &[Played],
    kind: Kind,
) -> Result<BTreeMap<u128, u32>, OutOfMemory>
    requires few { length records.now < 2 ^ 32 }
    requires rising { RiseByLine records.now }
    requires slots { Slots (marks_of records.now) }
    ensures { IfOk result (λ m. AreStepsOf kind records.now (get nat_cmp m) (length records.now)) }
{
    match kind {
        Kind::Issued => by_number(alloc, records, pa_audit_order::Kind::Issue),
        Kind::Freed => by_number(alloc, records, pa_audit_order::Kind::Free),
    }
}

// The line of the slot's last step of the kind below a number, and the number that it found.
pub(crate) fn last_step(
    table: &BTreeMap<u128, u32>,
    records: &[Played],
    kind: Kind,
    slot: SlotName,
    below: u64,
) -> Option<(u32, u64)>
    requires table { AreStepsOf kind records.now (get nat_cmp table.now) (length records.now) }
    ensures some { IfSome result (λ e. (m : Mark) × IsLastStep kind (marks_of records.now) slot below e.0 e.1 m) }
    ensures none { IfNone result (NoStepBelow kind (marks_of records.now) slot below) }
{
    let low = key(slot, 0);
    let high = key(slot, below);
    let (at, index) = greatest(table, low, high)?;
    Some((records[index as usize].line, (at - low) as u64))
}
