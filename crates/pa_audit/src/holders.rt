ghost use Rattle.std.specs.Prelude.{◌≡◌, IfOk, None, OnErr};
ghost use Rattle.pa_rules.specs.declared.verdict.Clause.TheVariants as clauses;
ghost use Rattle.pa_audit_report.specs.Known.{KnowsEnds, KnowsLists};
ghost use Rattle.pa_audit.specs.Lined.{CanBeAudited, TellsLine};

use crate::places::line_where;
use crate::records::record_line;
use pa_audit_holders::{Books, caches_meet, holders_meet, homes_of};
use pa_audit_records::Salt;
use pa_audit_report::Known;
use pa_dense::DenseRun;
use pa_rules::Played;
use pa_slot::OutOfMemory;
use pa_trace::Trace;
use std::alloc::Global;

/// The first line at which a slot isn't where the run says: a record's or an entry's of a journal.
pub fn holders_fail(
    alloc: Global,
    salt: Salt,
    trace: &Trace,
    run: &DenseRun,
    records: &[Played],
) -> Result<Option<u32>, OutOfMemory>
    requires { CanBeAudited clauses.Holders trace.now run.now records.now }
    ensures { IfOk result (TellsLine clauses.Holders trace.now run.now) }
{
    let place = holders_meet(alloc, salt, records, run.roots())?;
    Ok(line_where(run, place))
}

/// The first line at which the threads' lists of free slots require another answer or other entries. If there is none, it is
/// known what the lists have at the end of each phase, and which home each slot has. If memory runs out, what was known stays.
pub fn caches_fail(
    alloc: Global,
    salt: Salt,
    trace: &Trace,
    run: &DenseRun,
    records: &[Played],
    known: &mut Known,
) -> Result<Option<u32>, OutOfMemory>
    requires can { CanBeAudited clauses.Caches trace.now run.now records.now }
    requires ends { KnowsEnds trace.now records.now known.old }
    ensures line { IfOk result (TellsLine clauses.Caches trace.now run.now) }
    ensures lists { IfOk result (λ line. line ≡ None → KnowsLists trace.now run.now records.now known.new) }
    ensures ends { known.new.ends.items ≡ known.old.ends.items }
    ensures censuses { known.new.censuses.items ≡ known.old.censuses.items }
    ensures same { OnErr result (known.new ≡ known.old) }
{
    let homes = homes_of(alloc, salt, run.roots())?;
    let found = {
        let books = Books::of(
            alloc,
            trace.version,
            trace.partitions,
            records,
            run.roots(),
            &homes,
        )?;
        caches_meet(alloc, &books, trace.threads, known.ends.as_slice())?
    };
    known.homes = homes;
    known.cached = found.cached;
    Ok(record_line(found.misfit))
}
