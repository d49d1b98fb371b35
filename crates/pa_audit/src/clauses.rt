ghost use Rattle.std.specs.Prelude.{◌≡◌, ◌+◌, ◌<◌, IfOk, None, OnErr};
ghost use Rattle.pa_trace.specs.Limits.{IsWithinLimits};
ghost use Rattle.pa_record.specs.RunText.{IsPrintable};
ghost use Rattle.pa_rules.specs.Verdicts.{IsVerdict, turn};
ghost use Rattle.pa_audit_records.specs.Cuts.{RiseByPhase};
ghost use Rattle.pa_audit_report.specs.Known.{KnowsEnds};
ghost use Rattle.pa_audit.specs.Lined.{CanBeAudited, HasLines32, KnowsBefore, TellsLine};

use crate::cells::cells_fail;
use crate::heap::{pool_fails, roots_fail};
use crate::holders::{caches_fail, holders_fail};
use crate::order::{contents_fail, seen_fails};
use crate::records::{lines_fail, registers_fail, slots_fail};
use crate::report::report_fails;
use pa_audit_records::{ByKey, Salt, phases_in, record_ends, records_of};
use pa_audit_report::Known;
use pa_dense::DenseRun;
use pa_record::Run;
use pa_rules::{Clause, Played, Verdict};
use pa_slot::OutOfMemory;
use pa_trace::Trace;
use pa_verdict::{legal_is, titles_never_fail};
use std::alloc::Global;

// How many clauses there are.
const CLAUSES: u32 = 12;

/// The verdict on a run of a trace: legal, or the first clause that fails, in the order of the clauses, and the first line of
/// the run's text at which it does. Out of memory is the only error.
pub fn audit(alloc: Global, trace: &Trace, run: &Run) -> Result<Verdict, OutOfMemory>
    requires limits { IsWithinLimits trace.now }
    requires printable { IsPrintable run.now }
    requires short { HasLines32 run.now }
    ensures { IfOk result (λ v. IsVerdict v trace.now run.now) }
{
    let dense = DenseRun::of_run(alloc, run)?;
    audit_dense(alloc, trace, &dense)
}

/// The verdict on a run of a trace, as `audit` returns it, for a run whose journals are kept densely.
pub fn audit_dense(alloc: Global, trace: &Trace, run: &DenseRun) -> Result<Verdict, OutOfMemory>
    requires limits { IsWithinLimits trace.now }
    requires printable { IsPrintable run.now }
    requires short { HasLines32 run.now }
    ensures { IfOk result (λ v. IsVerdict v trace.now run.now) }
{
    let records = records_of(alloc, trace.rules(), trace.lines.as_slice(), run.entries())?;
    let salt = Salt::of(records.as_slice(), run.roots());
    let mut known = known_at_first(alloc, salt, trace, records.as_slice())?;
    for at in 0..CLAUSES {
        let clause = clause_of(at);
        match clause_fails(
            alloc,
            salt,
            trace,
            run,
            records.as_slice(),
            &mut known,
            clause,
        )? {
            Some(line) => return Ok(Verdict::Broken(clause, line)),
            None => {}
        }
    }
    legal_is();
    Ok(Verdict::Legal)
}

// What is known for the report before any clause was tested.
fn known_at_first(
    alloc: Global,
    salt: Salt,
    trace: &Trace,
    records: &[Played],
) -> Result<Known, OutOfMemory>
    requires limits { IsWithinLimits trace.now }
    requires rising { RiseByPhase records.now }
    ensures { IfOk result (λ known. KnowsEnds trace.now records.now known) }
{
    let ends = record_ends(alloc, records, phases_in(trace.lines.as_slice()))?;
    Ok(Known {
        ends,
        homes: ByKey::new(alloc, salt),
        cached: Vec::new(alloc),
        censuses: Vec::new(alloc),
    })
}

// The clause by its index.
fn clause_of(at: u32) -> Clause
    requires { at < 12 }
    ensures { turn result ≡ at }
{
    match at {
        0 => Clause::Lines,
        1 => Clause::Cells,
        2 => Clause::Registers,
        3 => Clause::Slots,
        4 => Clause::Contents,
        5 => Clause::Pool,
        6 => Clause::Roots,
        7 => Clause::Titles,
        8 => Clause::Holders,
        9 => Clause::Caches,
        10 => Clause::Seen,
        _ => Clause::Report,
    }
}

// The first line at which a clause fails, if those before it hold. If it doesn't fail, what it leaves for the report is known.
// If memory runs out, what was known stays.
fn clause_fails(
    alloc: Global,
    salt: Salt,
    trace: &Trace,
    run: &DenseRun,
    records: &[Played],
    known: &mut Known,
    clause: Clause,
) -> Result<Option<u32>, OutOfMemory>
    requires can { CanBeAudited clause trace.now run.now records.now }
    requires known { KnowsBefore (turn clause) trace.now run.now records.now known.old }
    ensures line { IfOk result (TellsLine clause trace.now run.now) }
    ensures known { IfOk result (λ line. line ≡ None → KnowsBefore (turn clause + 1) trace.now run.now records.now known.new) }
    ensures same { OnErr result (known.new ≡ known.old) }
{
    match clause {
        Clause::Lines => Ok(lines_fail(trace, run)),
        Clause::Cells => cells_fail(alloc, salt, trace, run, records),
        Clause::Registers => registers_fail(alloc, salt, trace, run, records),
        Clause::Slots => slots_fail(alloc, salt, trace, run, records),
        Clause::Contents => contents_fail(alloc, trace, run, records),
        Clause::Pool => pool_fails(alloc, trace, run, records),
        Clause::Roots => roots_fail(alloc, trace, run, records, known),
        Clause::Titles => {
            titles_never_fail();
            Ok(None)
        }
        Clause::Holders => holders_fail(alloc, salt, trace, run, records),
        Clause::Caches => caches_fail(alloc, salt, trace, run, records, known),
        Clause::Seen => seen_fails(alloc, salt, trace, run, records),
        Clause::Report => report_fails(alloc, trace, run, records, known),
    }
}
