ghost use Rattle.std.specs.Prelude.{◌≡◌, ℕ, IfNone, IfSome};
ghost use Rattle.pa_rules.specs.Played.{step_of};
ghost use Rattle.pa_rules.specs.Roots.{AsksForClass, AsksForMap};

use pa_audit_records::{class_for, is_map_size};
use pa_buckets::Class;
use pa_rules::Played;
use pa_slot::Step;
use pa_trace::Op;

// A partition, and a class of its slots.
#[derive(Clone, Copy)]
pub(crate) struct Bin {
    pub(crate) partition: u32,
    pub(crate) class: Class,
}

// The partition and the class for which the record asks.
pub(crate) fn class_asked(told: Played) -> Option<Bin>
    ensures some { IfSome result (λ bin. AsksForClass told bin.partition bin.class) }
    ensures none { IfNone result ((p class : ℕ) → AsksForClass told p class → ⊥) }
{
    match told.op {
        Op::Alloc {
            partition,
            size,
            ..
        } => match class_for(told.rules.version, size) {
            Some(class) => Some(Bin { partition, class }),
            None => None,
        },
        _ => None,
    }
}

// The partition that the record asks for a direct map.
pub(crate) fn map_asked(told: Played) -> Option<u32>
    ensures some { IfSome result (λ p. (size : ℕ) × AsksForMap told p size) }
    ensures none { IfNone result ((p size : ℕ) → AsksForMap told p size → ⊥) }
{
    match told.op {
        Op::Alloc {
            partition,
            size,
            ..
        } => {
            if is_map_size(told.rules.version, size) {
                Some(partition)
            } else {
                None
            }
        }
        _ => None,
    }
}

// The step that an op makes if its answer is `done`.
pub(crate) fn step_of(op: Op) -> Option<Step>
    ensures { result ≡ step_of op }
{
    match op {
        Op::Copy { .. } => Some(Step::Copy),
        Op::Reset { .. } => Some(Step::Reset),
        Op::Free { .. } => Some(Step::Free),
        Op::Write { .. } => Some(Step::Write),
        _ => None,
    }
}
