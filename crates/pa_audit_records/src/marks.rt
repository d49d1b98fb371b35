ghost use Rattle.std.specs.Prelude.{◌≡◌, ℕ, IfSome, IfNone};
ghost use Rattle.std.specs.Option.{option_map};
ghost use Rattle.pa_rules.specs.Played.{mark_of, look_at, step_of};
ghost use Rattle.pa_audit_records.specs.Marks.{mark_with, IsSized};
ghost use Rattle.pa_audit_records.specs.Steps.{IsStepOf, IsSizedMark};

use crate::keys::key_word;
use pa_record::{Answer, Seen};
use pa_rules::Played;
use pa_slot::{SlotName, Step, Word};
use pa_trace::Op;

// What a record reports of a slot: the word that it found there, and the step that it made.
#[derive(Clone, Copy)]
pub(crate) struct Marked {
    pub slot: SlotName,
    pub found: Word,
    pub step: Option<Step>,
}

// The number of the slot at the word at which a record made a step, if it made one.
pub(crate) fn step_key(told: Played) -> Option<u128>
    ensures key { IfSome result (IsStepOf told) }
    ensures none { IfNone result ((q : ℕ) → IsStepOf told q → ⊥) }
    ensures sized { IsSizedMark told }
{
    let mark = told_mark(told)?;
    let _step = mark.step?;
    Some(key_word(mark.slot, mark.found))
}

// The step that an op makes if it is done.
fn step_by(op: Op) -> Option<Step>
    ensures { result ≡ step_of op }
{
    match op {
        Op::Copy { .. } => Some(Step::Copy),
        Op::Reset { .. } => Some(Step::Reset),
        Op::Free { .. } => Some(Step::Free),
        Op::Write { .. } => Some(Step::Write),
        Op::Alloc { .. } | Op::Read { .. } | Op::Swap { .. } | Op::Purge => None,
    }
}

fn mark(seen: Seen, step: Option<Step>) -> Marked
    ensures slot { result.slot ≡ seen.slot }
    ensures found { result.found ≡ seen.found }
    ensures step { result.step ≡ step }
    ensures sized { IsSized result.slot result.found.0 }
{
    Marked {
        slot: seen.slot,
        found: seen.found,
        step,
    }
}

fn look(seen: Option<Seen>) -> Option<Marked>
    ensures mark { (line : ℕ) → look_at line seen ≡ option_map (mark_with line) result }
    ensures sized { IfSome result (λ m. IsSized m.slot m.found.0) }
{
    match seen {
        Some(seen) => Some(mark(seen, None)),
        None => None,
    }
}

// What a record reports of a slot, if it reports one.
pub(crate) fn told_mark(told: Played) -> Option<Marked>
    ensures mark { mark_of told ≡ option_map (mark_with told.line) result }
    ensures sized { IfSome result (λ m. IsSized m.slot m.found.0) }
{
    match told.answer {
        Answer::Made { seen, .. } => Some(mark(seen, Some(Step::Issue))),
        Answer::Done { seen } => Some(mark(seen, step_by(told.op))),
        Answer::Value { seen, .. }
        | Answer::Dangling { seen, .. }
        | Answer::NotOwner { seen }
        | Answer::Shared { seen } => Some(mark(seen, None)),
        Answer::SecondFree { seen } | Answer::StaleUse { seen } => look(seen),
        _ => None,
    }
}
