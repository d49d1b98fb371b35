ghost use Rattle.std.specs.Prelude.{◌≡◌, ℕ, ◌+◌, ◌-◌, ◌<◌, ◌≤◌, ◌^◌, IfOk, List, Option, length};
ghost use Rattle.pa_trace.specs.Limits.{IsWithinLimits, most_partitions};
ghost use Rattle.pa_rules.specs.Roots.{journal_at};
ghost use Rattle.pa_rules.specs.Legal.{phases_in};
ghost use Rattle.pa_rules.specs.Report.{IsReport};
ghost use Rattle.pa_rules.specs.declared.played.Played.{Played as Record};
ghost use Rattle.pa_rules.specs.Roots.{Journals};
ghost use Rattle.pa_record.specs.declared.pool.PoolEntry.{PoolEntry as Entry};
ghost use Rattle.pa_audit_report.specs.Counts.{HaveUses};
ghost use Rattle.pa_audit_holders.specs.declared.homes.Home.{Home as SlotHome};
ghost use Rattle.pa_audit_holders.specs.Homes.{KnowsHomes};
ghost use Rattle.pa_audit_records.specs.Cuts.{HasEach};
ghost use Rattle.pa_audit_heap.specs.Censuses.{HaveCensuses};
ghost use Rattle.pa_audit_holders.specs.Cached.{HaveCached};
ghost use Rattle.pa_audit_report.specs.Due.{AreColumns, IsColumn, IsDueAt, line_by};
ghost use Rattle.pa_audit_report.specs.Known.{KnowsHeap};
ghost use Rattle.pa_audit_report.specs.Given.{IsGiven};

use crate::counts::{InUse, in_use_of};
use crate::known::Known;
use pa_audit_records::phases_in;
use pa_dense::DenseRun;
use pa_record::{Census, ReportLine, Tally};
use pa_rules::Played;
use pa_slot::OutOfMemory;
use pa_trace::{MOST_PARTITIONS, Trace};
use std::alloc::Global;
use std::marker::Model;

// The lines of a report that speak of one partition, from phase 1 on. They are seen as the list of them.
#[derive(Drop)]
pub(crate) struct Column {
    lines: Vec<ReportLine>,
}

impl Model for Column {
    ghost use Rattle.std.specs.Prelude.{List};
    ghost use Rattle.pa_record.specs.declared.report.ReportLine.{ReportLine};

    ghost Value = { List ReportLine };

    ghost view = { λ c. c.lines.items };
}

impl Column {
    fn items(&self) -> &[ReportLine]
        ensures { result.now ≡ self.now }
    {
        self.lines.as_slice()
    }
}

// The report that is due.
pub(crate) fn due_report(
    alloc: Global,
    trace: &Trace,
    run: &DenseRun,
    records: &[Played],
    known: &Known,
) -> Result<Vec<ReportLine>, OutOfMemory>
    requires limits { IsWithinLimits trace.now }
    requires few { length records.now < 65536 }
    requires given { IsGiven trace.now.region trace.now.partitions records.now run.now.pool.items (journal_at run.now.roots.items) }
    requires known { KnowsHeap trace.now run.now records.now known.now }
    ensures { IfOk result (λ lines. IsReport (phases_in trace.now.lines) trace.now.partitions trace.now.threads records.now
        run.now.pool.items (journal_at run.now.roots.items) lines.items) }
{
    let phases = phases_in(trace.lines.as_slice());
    let mut columns = Vec::new(alloc);
    for partition in 0..trace.partitions {
        let column = column_of(alloc, trace, run, records, known, phases, partition)?;
        columns.push(column)?;
    }
    let lines = by_phases(alloc, phases, trace.partitions, columns.as_slice())?;
    Ok(lines)
}

// The lines of a partition.
fn column_of(
    alloc: Global,
    trace: &Trace,
    run: &DenseRun,
    records: &[Played],
    known: &Known,
    phases: u32,
    partition: u32,
) -> Result<Column, OutOfMemory>
    requires limits { IsWithinLimits trace.now }
    requires few { length records.now < 65536 }
    requires given { IsGiven trace.now.region trace.now.partitions records.now run.now.pool.items (journal_at run.now.roots.items) }
    requires known { KnowsHeap trace.now run.now records.now known.now }
    requires phases { phases ≡ phases_in trace.now.lines }
    requires few_phases { phases < 2 ^ 32 - 1 }
    requires partition { partition < trace.now.partitions }
    ensures long { IfOk result (λ lines. length lines ≡ phases) }
    ensures column { IfOk result (λ lines. IsColumn trace.now.partitions trace.now.threads records.now run.now.pool.items
        (journal_at run.now.roots.items) partition lines) }
{
    let uses = in_use_of(
        alloc,
        partition,
        records,
        known.ends.as_slice(),
        &known.homes,
    )?;
    let censuses = known.censuses[partition as usize].items();
    let mut lines = Vec::new(alloc);
    for at in 0..phases {
        let line = line_at(
            uses.as_slice(),
            known.cached.as_slice(),
            censuses,
            partition,
            at,
        );
        lines.push(line)?;
    }
    Ok(Column { lines })
}

// The line of a partition at the end of a phase, by its index in the lists.
fn line_at(
    uses: &[InUse],
    cached: &[[Tally; MOST_PARTITIONS as usize]],
    censuses: &[Census],
    partition: u32,
    at: u32,
) -> ReportLine
    requires partition { partition < most_partitions }
    requires at { at < 2 ^ 32 - 1 }
    requires used { at < length uses.now }
    requires listed { at < length cached.now }
    requires counted { at < length censuses.now }
    ensures { (supers partitions threads : ℕ) (ps : List Record) (pools : List Entry) (roots : Journals) (homes : ℕ → Option SlotHome) →
        IsGiven supers partitions ps pools roots → KnowsHomes roots homes → HaveUses homes partition ps uses.now →
        HaveCached partitions threads roots ps cached.now → HaveCensuses ps pools roots partition censuses.now →
        IsDueAt partitions threads ps pools roots (at + 1) partition result }
{
    let place = at as usize;
    let listed = cached[place][partition as usize];
    line_of(at + 1, partition, uses[place], listed, censuses[place])
}

fn line_of(phase: u32, partition: u32, used: InUse, cached: Tally, census: Census) -> ReportLine
    ensures { result ≡ line_by phase partition used cached census }
{
    ReportLine {
        phase,
        partition,
        live: used.live,
        quarantined: used.quarantined,
        cached,
        root: census.root,
        committed: census.committed,
        reserved: census.reserved,
        full: census.full,
        active: census.active,
        empty: census.empty,
        decommitted: census.decommitted,
    }
}

// All lines, by phases and then by partitions.
fn by_phases(
    alloc: Global,
    phases: u32,
    partitions: u32,
    columns: &[Column],
) -> Result<Vec<ReportLine>, OutOfMemory>
    requires many { length columns.now ≡ partitions }
    requires long { HasEach (λ p lines. length lines ≡ phases) columns.now }
    ensures { IfOk result (λ all. (threads : ℕ) (ps : List Record) (pools : List Entry) (roots : Journals) →
        AreColumns phases partitions threads ps pools roots partitions columns.now →
        IsReport phases partitions threads ps pools roots all.items) }
{
    let mut lines = Vec::new(alloc);
    for at in 0..phases {
        for partition in 0..partitions {
            let column = columns[partition as usize].items();
            lines.push(column[at as usize])?;
        }
    }
    Ok(lines)
}
