ghost use Rattle.std.specs.Prelude.{◌≡◌, ℕ, ◌-◌, ◌<◌, ◌≤◌, ◌^◌, ◌↔◌, IfOk, IfSome, IsTrue, Some, length, slice_get};
ghost use Rattle.pa_trace.specs.Limits.{IsWithinLimits};
ghost use Rattle.pa_rules.specs.declared.verdict.Clause.TheVariants as clauses;
ghost use Rattle.pa_rules.specs.declared.verdict.Place.TheVariants as places;
ghost use Rattle.pa_rules.specs.Tells.{TellsFirst};
ghost use Rattle.pa_rules.specs.Told.{told_by};
ghost use Rattle.pa_rules.specs.Verdicts.{Demand};
ghost use Rattle.pa_audit_report.specs.Given.{AreRecordsOf, HoldBefore};
ghost use Rattle.pa_audit_report.specs.Known.{KnowsHeap};

use crate::due::due_report;
use crate::known::Known;
use pa_dense::DenseRun;
use pa_record::ReportLine;
use pa_rules::Played;
use pa_slot::OutOfMemory;
use pa_trace::Trace;
use std::alloc::Global;

/// The place of the first line of the report that isn't the one that is due,
/// and the one after the last line if one is missing. None if each is.
pub fn report_meets(
    alloc: Global,
    trace: &Trace,
    run: &DenseRun,
    records: &[Played],
    known: &Known,
) -> Result<Option<u32>, OutOfMemory>
    requires limits { IsWithinLimits trace.now }
    requires records { AreRecordsOf trace.now run.now records.now }
    requires lines { length run.now.report.items < 2 ^ 32 - 1 }
    requires few { length records.now < 65536 }
    requires before { HoldBefore trace.now run.now }
    requires known { KnowsHeap trace.now run.now records.now known.now }
    ensures first { IfOk result (TellsFirst (λ i. Demand clauses.Report trace.now (told_by run.now) (places.Report i))) }
    ensures there { IfOk result (λ at. IfSome at (λ i. i ≤ length run.now.report.items)) }
{
    let due = due_report(alloc, trace, run, records, known)?;
    Ok(first_other(run.report(), due.as_slice()))
}

/// The first index at which the lists of lines differ.
pub fn first_other(lines: &[ReportLine], due: &[ReportLine]) -> Option<u32>
    requires { length lines.now < 2 ^ 32 - 1 }
    ensures first { TellsFirst (λ i. slice_get lines.now i ≡ slice_get due.now i) result }
    ensures there { IfSome result (λ i. i ≤ length lines.now) }
{
    let mut at: u32 = 0;
    for line in lines {
        if !stands_at(due, at, *line) {
            return Some(at);
        }
        at += 1;
    }
    if lines.len() < due.len() {
        Some(at)
    } else {
        None
    }
}

// Whether this line is at this index.
fn stands_at(due: &[ReportLine], at: u32, line: ReportLine) -> bool
    ensures { IsTrue result ↔ (slice_get due.now at ≡ Some line) }
{
    (at as usize) < due.len() && is_same(due[at as usize], line)
}

// Whether these are one line.
fn is_same(a: ReportLine, b: ReportLine) -> bool
    ensures { IsTrue result ↔ (a ≡ b) }
{
    a == b
}
