ghost use Rattle.std.specs.Prelude.{◌≡◌, ℕ, ◌+◌, ◌<◌, ◌↔◌, [], ◌∷◌, ◌++◌, IfNone, IfSome, IsTrue, List, OnOk, take};
ghost use Rattle.pa_dense.specs.Act.{act_of};
ghost use Rattle.pa_audit_records.specs.ByKeys.{value_at};
ghost use Rattle.pa_record.specs.declared.root.RootAct.TheVariants as acts;
ghost use Rattle.pa_record.specs.declared.numbered.Numbered.{Numbered as Slot};
ghost use Rattle.pa_record.specs.declared.root.RootEntry.{RootEntry as Line};
ghost use Rattle.pa_audit_records.specs.Keys.{name_key};
ghost use Rattle.pa_audit_holders.specs.Gone.{HasGone, IsUnmapped, NoneGone};

use crate::homes::key;
use pa_audit_records::ByKey;
use pa_dense::{Act, DenseEntry};
use pa_record::Numbered;
use pa_slot::{OutOfMemory, SlotName};

// Whether the table has the slot.
fn has(gone: &ByKey<u64>, slot: SlotName) -> bool
    ensures { (before : List Line) → HasGone before (value_at gone.now)
        → IsTrue result ↔ ((n : ℕ) × IsUnmapped before slot n) }
{
    match gone.find(key(slot)) {
        Some(_number) => true,
        None => false,
    }
}

// Whether the number is below all at which an entry took the slot away.
pub(crate) fn is_there(gone: &ByKey<u64>, slot: Numbered) -> bool
    ensures { (before : List Line) → HasGone before (value_at gone.now)
        → IsTrue result ↔ ((n : ℕ) → IsUnmapped before slot.slot n → slot.number < n) }
{
    match gone.find(key(slot.slot)) {
        Some(least) => is_below(slot.number, least),
        None => true,
    }
}

fn is_below(number: u64, other: u64) -> bool
    ensures { IsTrue result ↔ (number < other) }
{
    number < other
}

// Whether the table has none of the slots.
pub(crate) fn none_gone(gone: &ByKey<u64>, slots: &[Numbered]) -> bool
    ensures { (before : List Line) → HasGone before (value_at gone.now) → IsTrue result ↔ NoneGone before slots.now }
{
    for slot in slots {
        if has(gone, slot.slot) {
            return false;
        }
    }
    true
}

// The slot that an entry of this act takes away for good.
fn unmapped(act: Act<'_>) -> Option<Numbered>
    ensures some { IfSome result (λ slot. (asked : ℕ) × (act_of act.entry ≡ acts.Unmap asked slot)) }
    ensures none { IfNone result ((asked : ℕ) (slot : Slot) → act_of act.entry ≡ acts.Unmap asked slot → ⊥) }
{
    match act {
        Act::Unmap { slot, .. } => Some(slot),
        _ => None,
    }
}

// Enters the slot that an entry takes away for good.
pub(crate) fn enter_gone(gone: &mut ByKey<u64>, entry: &DenseEntry) -> Result<(), OutOfMemory>
    ensures { OnOk result ((before : List Line) → HasGone before (value_at gone.old)
        → HasGone (before ++ entry.now ∷ []) (value_at gone.new)) }
{
    match unmapped(entry.act()) {
        Some(slot) => enter_unmapped(gone, entry, slot),
        None => Ok(()),
    }
}

fn enter_unmapped(
    gone: &mut ByKey<u64>,
    entry: &DenseEntry,
    slot: Numbered,
) -> Result<(), OutOfMemory>
    requires { (asked : ℕ) × (entry.now.act ≡ acts.Unmap asked slot) }
    ensures { OnOk result ((before : List Line) → HasGone before (value_at gone.old)
        → HasGone (before ++ entry.now ∷ []) (value_at gone.new)) }
{
    let key = key(slot.slot);
    let before = gone.replace(key, slot.number)?;
    if let Some(least) = before {
        gone.put(key, least.min(slot.number))?;
    }
    Ok(())
}
