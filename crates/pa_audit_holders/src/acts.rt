ghost use Rattle.std.specs.Prelude.{◌≡◌, ℕ, ◌≤◌, [], ◌∷◌, ◌↔◌, IfNone, IfSome, IsTrue, List, Option, Some, None, length};
ghost use Rattle.pa_dense.specs.Act.{act_of};
ghost use Rattle.pa_record.specs.declared.numbered.Numbered.{Numbered as Listed};
ghost use Rattle.pa_record.specs.declared.root.RootAct.TheVariants as acts;
ghost use Rattle.pa_rules.specs.Caches.{unmap_at};

use pa_buckets::Class;
use pa_dense::Act;
use pa_record::Numbered;
use pa_slot::SlotName;

// The slots that the entry filled from the class.
pub(crate) fn filled_by(act: Act<'_>, class: Class) -> Option<&[Numbered]>
    ensures some { IfSome result (λ slots. (asked : Option ℕ) × (act_of act.entry ≡ acts.Fill class asked slots.now)) }
    ensures none { IfNone result ((asked : Option ℕ) (slots : List Listed) → act_of act.entry ≡ acts.Fill class asked slots → ⊥) }
    ensures few { IfSome result (λ slots. length slots.now ≤ 16) }
{
    match act {
        Act::Fill {
            class: filled,
            slots,
            ..
        } => {
            if filled.number() == class.number() {
                Some(slots.items())
            } else {
                None
            }
        }
        _ => None,
    }
}

// Whether the entry made a direct map whose slot this is.
pub(crate) fn maps(act: Act<'_>, slot: SlotName) -> bool
    ensures { IsTrue result ↔ ((asked len : ℕ) × (act_of act.entry ≡ acts.Map asked slot len)) }
{
    match act {
        Act::Map { slot: mapped, .. } => is_slot(mapped, slot),
        _ => false,
    }
}

// Whether the entry found no room for a slot of the class.
pub(crate) fn lacks_class(act: Act<'_>, class: Class) -> bool
    ensures { IsTrue result ↔ ((asked : ℕ) × (act_of act.entry ≡ acts.Full (Some class) asked)) }
{
    match act {
        Act::Full {
            class: Some(lacking),
            ..
        } => lacking.number() == class.number(),
        _ => false,
    }
}

// Whether the entry found no room for a direct map.
pub(crate) fn lacks_map(act: Act<'_>) -> bool
    ensures { IsTrue result ↔ ((asked : ℕ) × (act_of act.entry ≡ acts.Full None asked)) }
{
    matches!(act, Act::Full { class: None, .. })
}

// Whether the entry gave a direct map back whose slot this is.
pub(crate) fn unmaps(act: Act<'_>, slot: SlotName) -> bool
    ensures { IsTrue result ↔ ((asked number : ℕ) × (act_of act.entry ≡ unmap_at asked slot number)) }
{
    match act {
        Act::Unmap { slot: back, .. } => is_slot(back.slot, slot),
        _ => false,
    }
}

// Whether these are one slot.
pub(crate) fn is_slot(a: SlotName, b: SlotName) -> bool
    ensures { IsTrue result ↔ (a ≡ b) }
{
    a.start == b.start && a.born == b.born
}

// Whether these are one slot at one number.
pub(crate) fn is_same(a: Numbered, b: Numbered) -> bool
    ensures { IsTrue result ↔ (a ≡ b) }
{
    is_slot(a.slot, b.slot) && a.number == b.number
}

// Whether the entry purged its root.
pub(crate) fn is_purge(act: Act<'_>) -> bool
    ensures { IsTrue result ↔ (act_of act.entry ≡ acts.Purge) }
{
    matches!(act, Act::Purge)
}
