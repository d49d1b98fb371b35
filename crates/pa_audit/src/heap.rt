ghost use Rattle.std.specs.Prelude.{◌≡◌, ℕ, IfOk, None, OnErr};
ghost use Rattle.std.specs.Option.{option_map};
ghost use Rattle.pa_record.specs.RunText.{journal_of};
ghost use Rattle.pa_rules.specs.declared.verdict.Clause.TheVariants as clauses;
ghost use Rattle.pa_rules.specs.declared.verdict.Place.TheVariants as places;
ghost use Rattle.pa_rules.specs.HeapDemands.{RootsDemand};
ghost use Rattle.pa_rules.specs.Legal.{phases_in};
ghost use Rattle.pa_audit_heap.specs.Censuses.{HaveAllCensuses};
ghost use Rattle.pa_audit_heap.specs.Tells.{TellsEntry};
ghost use Rattle.pa_audit_report.specs.Known.{KnowsCensuses};
ghost use Rattle.pa_audit.specs.Lined.{CanBeAudited, TellsLine};
ghost use Rattle.pa_audit.specs.Placed.{TellsPlace};

use crate::places::line_where;
use pa_audit_heap::{Censuses, journals_meet, pool_meets, refusals_meet};
use pa_audit_records::phases_in;
use pa_audit_report::Known;
use pa_dense::DenseRun;
use pa_rules::{Place, Played};
use pa_slot::OutOfMemory;
use pa_trace::Trace;
use std::alloc::Global;

/// The first line at which an entry of the pool isn't right.
pub fn pool_fails(
    alloc: Global,
    trace: &Trace,
    run: &DenseRun,
    records: &[Played],
) -> Result<Option<u32>, OutOfMemory>
    requires { CanBeAudited clauses.Pool trace.now run.now records.now }
    ensures { IfOk result (TellsLine clauses.Pool trace.now run.now) }
{
    let pools = run.pool();
    let at = pool_meets(alloc, trace.region, records, pools, run.roots())?;
    Ok(line_where(run, pool_place(at)))
}

// An entry of the pool as a place.
fn pool_place(at: Option<u32>) -> Option<Place>
    ensures { result ≡ option_map places.Pool at }
{
    match at {
        Some(at) => Some(Place::Pool(at)),
        None => None,
    }
}

/// The first line at which a journal isn't right: a record's that was refused and names no Full of its line, or an entry's. If there is
/// none, it is known what each root has at the end of each phase. It needs memory only if no record fails;
/// if that runs out, what was known stays.
pub fn roots_fail(
    alloc: Global,
    trace: &Trace,
    run: &DenseRun,
    records: &[Played],
    known: &mut Known,
) -> Result<Option<u32>, OutOfMemory>
    requires { CanBeAudited clauses.Roots trace.now run.now records.now }
    ensures line { IfOk result (TellsLine clauses.Roots trace.now run.now) }
    ensures censuses { IfOk result (λ line. line ≡ None → KnowsCensuses trace.now run.now records.now known.new) }
    ensures ends { known.new.ends.items ≡ known.old.ends.items }
    ensures same { OnErr result (known.new ≡ known.old) }
    ensures asks { OnErr result ((i : ℕ) →
        RootsDemand trace.now.partitions records.now run.now.pool.items (journal_of run.now) (places.Record i)) }
{
    let place = first_place(alloc, trace, run, records, &mut known.censuses)?;
    Ok(line_where(run, place))
}

// The first place at which the journals aren't right. If there is none, what the roots have is known.
fn first_place(
    alloc: Global,
    trace: &Trace,
    run: &DenseRun,
    records: &[Played],
    censuses: &mut Vec<Censuses>,
) -> Result<Option<Place>, OutOfMemory>
    requires { CanBeAudited clauses.Roots trace.now run.now records.now }
    ensures place { IfOk result
        (TellsPlace (RootsDemand trace.now.partitions records.now run.now.pool.items (journal_of run.now))) }
    ensures censuses { IfOk result (λ place. place ≡ None → HaveAllCensuses trace.now.partitions (phases_in trace.now.lines) records.now
        run.now.pool.items (journal_of run.now) censuses.new.items) }
    ensures same { OnErr result (censuses.new ≡ censuses.old) }
    ensures asks { OnErr result ((i : ℕ) →
        RootsDemand trace.now.partitions records.now run.now.pool.items (journal_of run.now) (places.Record i)) }
{
    match refusals_meet(records, run.roots()) {
        Some(at) => Ok(Some(Place::Record(at))),
        None => {
            let first = first_entry(alloc, trace, run, records, censuses)?;
            match first {
                Some((partition, at)) => Ok(Some(Place::Root(partition, at))),
                None => Ok(None),
            }
        }
    }
}

// The first entry of the journals that isn't right, by its partition and its index there. If there is none, what the roots have is known.
fn first_entry(
    alloc: Global,
    trace: &Trace,
    run: &DenseRun,
    records: &[Played],
    censuses: &mut Vec<Censuses>,
) -> Result<Option<(u32, u32)>, OutOfMemory>
    requires { CanBeAudited clauses.Roots trace.now run.now records.now }
    ensures entry { IfOk result
        (TellsEntry (λ p j. RootsDemand trace.now.partitions records.now run.now.pool.items (journal_of run.now) (places.Root p j))) }
    ensures censuses { IfOk result (λ entry. entry ≡ None → HaveAllCensuses trace.now.partitions (phases_in trace.now.lines) records.now
        run.now.pool.items (journal_of run.now) censuses.new.items) }
    ensures same { OnErr result (censuses.new ≡ censuses.old) }
{
    let pools = run.pool();
    let roots = run.roots();
    let found = journals_meet(
        alloc,
        trace.region,
        trace.partitions,
        phases_in(trace.lines.as_slice()),
        records,
        pools,
        roots,
    )?;
    *censuses = found.censuses;
    Ok(found.misfit)
}
