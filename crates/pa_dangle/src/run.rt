ghost use Rattle.std.specs.Prelude.{◌≡◌, IfOk};
ghost use Rattle.pa_trace.specs.Limits.{IsWithinLimits};
ghost use Rattle.pa_trace.specs.Rules.{rules_of};
ghost use Rattle.pa_rules.specs.Cells.{history_at};
ghost use Rattle.pa_rules.specs.Legal.{IsLegal};
ghost use Rattle.pa_rules.specs.Played.{played};
ghost use Rattle.pa_dangle.specs.Pairs.{AreFound};

use crate::found::Found;
use crate::gather::pairs_of;
use pa_audit_records::{records_are_within, records_of};
use pa_dense::DenseRun;
use pa_slot::OutOfMemory;
use pa_trace::Trace;
use std::alloc::Global;

/// The pairs of a run that is legal for the trace. `left` is how many slots are in quarantine at the end, as the last report says.
pub fn pairs_dense(
    alloc: Global,
    trace: &Trace,
    run: &DenseRun,
    left: u128,
) -> Result<Found, OutOfMemory>
    requires limits { IsWithinLimits trace.now }
    requires legal { IsLegal trace.now run.now }
    ensures found { IfOk result
        (λ f. AreFound (history_at run.now.cells.items) (played (rules_of trace.now) trace.now.lines run.now.entries.items)
        f.pairs.items f.freed) }
    ensures left { IfOk result (λ f. f.left ≡ left) }
{
    let records = records_of(alloc, trace.rules(), trace.lines.as_slice(), run.entries())?;
    records_are_within();
    pairs_of(alloc, records.as_slice(), run.cells(), left)
}
