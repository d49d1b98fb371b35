ghost use Rattle.std.specs.Prelude.{◌≡◌, ℕ, ◌<◌, ◌≤◌, ◌↔◌, [], ◌∷◌, All, IsTrue, drop, length, map};
ghost use Rattle.pa_dense.specs.Act.{act_of};
ghost use Rattle.pa_record.specs.declared.root.RootAct.TheVariants as acts;
ghost use Rattle.pa_audit_holders.specs.Lines.{did_at};
ghost use Rattle.pa_rules.specs.Caches.{gives};
ghost use Rattle.pa_audit_holders.specs.Gives.{TellsGives};

use crate::acts::{is_purge, is_same};
use pa_dense::{Act, DenseEntry};
use pa_record::Numbered;

// The most slots that go back to a root at once.
const BATCH: usize = 16;

// The position after those of the entries at these indices that, from position `at` on, give these slots back, 16 each and the rest in
// the last. None if they don't.
pub(crate) fn gives_from(
    journal: &[DenseEntry],
    places: &[u32],
    at: usize,
    slots: &[Numbered],
) -> Option<usize>
    requires among { All (λ j. j < length journal.now) places.now }
    requires within { at ≤ length places.now }
    ensures { TellsGives (map (did_at journal.now) places.now) at slots.now result }
{
    let mut next = at;
    let mut from = 0;
    'batches: while from < slots.len() {
        let to = slots.len().min(from + BATCH);
        if next >= places.len() {
            return None;
        }
        if !is_give(journal[places[next] as usize].act(), &slots[from..to]) {
            return None;
        }
        next += 1;
        from = to;
    }
    Some(next)
}

// Whether the entries at these indices give these slots back, and are no more.
pub(crate) fn all_give(journal: &[DenseEntry], places: &[u32], slots: &[Numbered]) -> bool
    requires among { All (λ j. j < length journal.now) places.now }
    ensures { IsTrue result ↔ (map (did_at journal.now) places.now ≡ gives slots.now) }
{
    match gives_from(journal, places, 0, slots) {
        Some(end) => end == places.len(),
        None => false,
    }
}

// Whether the entry gives these slots back.
fn is_give(act: Act<'_>, slots: &[Numbered]) -> bool
    ensures { IsTrue result ↔ (act_of act.entry ≡ acts.Give slots.now) }
{
    match act {
        Act::Give { slots: given } => are_same(given.items(), slots),
        _ => false,
    }
}

// Whether these are the same slots at the same numbers.
fn are_same(a: &[Numbered], b: &[Numbered]) -> bool
    ensures { IsTrue result ↔ (a.now ≡ b.now) }
{
    if a.len() != b.len() {
        return false;
    }
    for at in 0..a.len() {
        if !is_same(a[at], b[at]) {
            return false;
        }
    }
    true
}

// Whether the last of the entries at these indices is at this one, and is a purge.
pub(crate) fn ends_with_purge(journal: &[DenseEntry], places: &[u32], at: usize) -> bool
    requires among { All (λ j. j < length journal.now) places.now }
    requires within { at ≤ length places.now }
    ensures { IsTrue result ↔ (drop at (map (did_at journal.now) places.now) ≡ acts.Purge ∷ []) }
{
    if at + 1 != places.len() {
        return false;
    }
    is_purge(journal[places[at] as usize].act())
}
