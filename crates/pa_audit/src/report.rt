ghost use Rattle.std.specs.Prelude.{◌≡◌, IfOk};
ghost use Rattle.std.specs.Option.{option_map};
ghost use Rattle.pa_rules.specs.declared.verdict.Clause.TheVariants as clauses;
ghost use Rattle.pa_rules.specs.declared.verdict.Place.TheVariants as places;
ghost use Rattle.pa_rules.specs.Verdicts.{turn};
ghost use Rattle.pa_audit.specs.Lined.{CanBeAudited, KnowsBefore, TellsLine};

use crate::places::line_where;
use pa_audit_report::{Known, report_meets};
use pa_dense::DenseRun;
use pa_rules::{Place, Played};
use pa_slot::OutOfMemory;
use pa_trace::Trace;
use std::alloc::Global;

/// The first line of the report that isn't the one due there, or the line that ends the run if one is missing after the last.
pub fn report_fails(
    alloc: Global,
    trace: &Trace,
    run: &DenseRun,
    records: &[Played],
    known: &Known,
) -> Result<Option<u32>, OutOfMemory>
    requires can { CanBeAudited clauses.Report trace.now run.now records.now }
    requires known { KnowsBefore (turn clauses.Report) trace.now run.now records.now known.now }
    ensures { IfOk result (TellsLine clauses.Report trace.now run.now) }
{
    let at = report_meets(alloc, trace, run, records, known)?;
    Ok(line_where(run, report_place(at)))
}

// A line of the report as a place.
fn report_place(at: Option<u32>) -> Option<Place>
    ensures { result ≡ option_map places.Report at }
{
    match at {
        Some(at) => Some(Place::Report(at)),
        None => None,
    }
}
