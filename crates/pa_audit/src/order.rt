ghost use Rattle.std.specs.Prelude.{IfOk};
ghost use Rattle.pa_rules.specs.declared.verdict.Clause.TheVariants as clauses;
ghost use Rattle.pa_audit.specs.Lined.{CanBeAudited, TellsLine};

use crate::records::record_line;
use pa_audit_order::{contents_meet, seen_meets};
use pa_audit_records::Salt;
use pa_dense::DenseRun;
use pa_rules::Played;
use pa_slot::OutOfMemory;
use pa_trace::Trace;
use std::alloc::Global;

/// The first line at which a record read a value which it may not report.
pub fn contents_fail(
    alloc: Global,
    trace: &Trace,
    run: &DenseRun,
    records: &[Played],
) -> Result<Option<u32>, OutOfMemory>
    requires { CanBeAudited clauses.Contents trace.now run.now records.now }
    ensures { IfOk result (TellsLine clauses.Contents trace.now run.now) }
{
    let at = contents_meet(alloc, records, run.cells())?;
    Ok(record_line(at))
}

/// The first line at which a record is before itself, or saw less of its slot than a record that is before it left.
pub fn seen_fails(
    alloc: Global,
    salt: Salt,
    trace: &Trace,
    run: &DenseRun,
    records: &[Played],
) -> Result<Option<u32>, OutOfMemory>
    requires { CanBeAudited clauses.Seen trace.now run.now records.now }
    ensures { IfOk result (TellsLine clauses.Seen trace.now run.now) }
{
    let at = seen_meets(alloc, salt, records, run.cells())?;
    Ok(record_line(at))
}
