ghost use Rattle.std.specs.Prelude.{◌≡◌, ◌+◌, ◌^◌, ◌<◌, if◌then◌else◌};
ghost use Rattle.std.specs.Option.{is_some, option_map};
ghost use Rattle.pa_slot.specs.Count.{number_of};
ghost use Rattle.pa_rules.specs.Played.{mark_of, step_of};
ghost use Rattle.pa_audit_order.specs.Looks.{look_by};

use pa_record::{Answer, Seen};
use pa_rules::Played;
use pa_slot::{SlotName, number};
use pa_trace::Op;

// What a record reports of a slot: the number that it found there, and the one that it left.
#[derive(Clone, Copy)]
pub(crate) struct Look {
    pub slot: SlotName,
    pub found: u64,
    pub left: u64,
}

// Whether an op makes a step if it is done.
fn makes_step(op: Op) -> bool
    ensures { result ≡ is_some (step_of op) }
{
    match op {
        Op::Copy { .. } | Op::Reset { .. } | Op::Free { .. } | Op::Write { .. } => true,
        Op::Alloc { .. } | Op::Read { .. } | Op::Swap { .. } | Op::Purge => false,
    }
}

fn looked(seen: Seen, steps: bool) -> Look
    ensures slot { result.slot ≡ seen.slot }
    ensures found { result.found ≡ number_of seen.found.0 }
    ensures left { result.left ≡ number_of seen.found.0 + (if steps then 1 else 0) }
{
    let found = number(seen.found);
    let left = if steps { found + 1 } else { found };
    Look {
        slot: seen.slot,
        found,
        left,
    }
}

// What a record reports, if it reports a slot.
pub(crate) fn look_of(told: Played) -> Option<Look>
    ensures { result ≡ option_map look_by (mark_of told) }
{
    match told.answer {
        Answer::Made { seen, .. } => Some(looked(seen, true)),
        Answer::Done { seen } => Some(looked(seen, makes_step(told.op))),
        Answer::Value { seen, .. }
        | Answer::Dangling { seen, .. }
        | Answer::NotOwner { seen }
        | Answer::Shared { seen } => Some(looked(seen, false)),
        Answer::SecondFree { seen } | Answer::StaleUse { seen } => match seen {
            Some(seen) => Some(looked(seen, false)),
            None => None,
        },
        _ => None,
    }
}
