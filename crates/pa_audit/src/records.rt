ghost use Rattle.std.specs.Prelude.{◌≡◌, ◌+◌, ◌<◌, ◌-◌, ◌^◌, IfOk, IfSome};
ghost use Rattle.std.specs.Option.{option_map};
ghost use Rattle.pa_trace.specs.Limits.{IsWithinLimits};
ghost use Rattle.pa_rules.specs.declared.verdict.Clause.TheVariants as clauses;
ghost use Rattle.pa_audit.specs.Lined.{CanBeAudited, HasLines32, TellsLine};

use pa_audit_records::{Salt, lines_meet, records_are_within, registers_meet, slots_meet};
use pa_dense::DenseRun;
use pa_rules::Played;
use pa_slot::OutOfMemory;
use pa_trace::Trace;
use std::alloc::Global;

// The line of a record.
pub(crate) fn record_line(at: Option<u32>) -> Option<u32>
    requires { IfSome at (λ i. i < 2 ^ 32 - 2) }
    ensures { result ≡ option_map (λ i. 2 + i) at }
{
    match at {
        Some(at) => Some(at + 2),
        None => None,
    }
}

/// The first line at which the records aren't those that are due.
pub fn lines_fail(trace: &Trace, run: &DenseRun) -> Option<u32>
    requires limits { IsWithinLimits trace.now }
    requires short { HasLines32 run.now }
    ensures { TellsLine clauses.Lines trace.now run.now result }
{
    record_line(lines_meet(trace.lines.as_slice(), run.entries()))
}

/// The first line at which a record's answer isn't one that its thread's registers ask for.
pub fn registers_fail(
    alloc: Global,
    salt: Salt,
    trace: &Trace,
    run: &DenseRun,
    records: &[Played],
) -> Result<Option<u32>, OutOfMemory>
    requires { CanBeAudited clauses.Registers trace.now run.now records.now }
    ensures { IfOk result (TellsLine clauses.Registers trace.now run.now) }
{
    records_are_within();
    let at = registers_meet(alloc, salt, trace.version, records, run.cells())?;
    Ok(record_line(at))
}

/// The first line at which a record found a word that isn't of its slot's run, or made another step than the run.
pub fn slots_fail(
    alloc: Global,
    salt: Salt,
    trace: &Trace,
    run: &DenseRun,
    records: &[Played],
) -> Result<Option<u32>, OutOfMemory>
    requires { CanBeAudited clauses.Slots trace.now run.now records.now }
    ensures { IfOk result (TellsLine clauses.Slots trace.now run.now) }
{
    let at = slots_meet(alloc, salt, records)?;
    Ok(record_line(at))
}
