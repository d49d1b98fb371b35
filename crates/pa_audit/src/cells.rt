ghost use Rattle.std.specs.Prelude.{◌<◌, ◌≤◌, IfOk, length};
ghost use Rattle.pa_record.specs.RunText.{history_of};
ghost use Rattle.pa_trace.specs.Limits.{cell_count};
ghost use Rattle.pa_rules.specs.declared.verdict.Clause.TheVariants as clauses;
ghost use Rattle.pa_rules.specs.RecordDemands.{CellsDemand};
ghost use Rattle.pa_rules.specs.Rising.{RiseByLine};
ghost use Rattle.pa_audit.specs.Lined.{CanBeAudited, HasLines32, TellsLine};
ghost use Rattle.pa_audit.specs.Placed.{TellsPlace};

use crate::places::line_where;
use pa_audit_records::{Salt, exchanges_meet, swaps_meet};
use pa_dense::DenseRun;
use pa_rules::{Place, Played};
use pa_slot::OutOfMemory;
use pa_trace::Trace;
use std::alloc::Global;

/// The first line at which an exchange isn't right: a record's that doesn't name its own, or one of a cell's history.
pub fn cells_fail(
    alloc: Global,
    salt: Salt,
    trace: &Trace,
    run: &DenseRun,
    records: &[Played],
) -> Result<Option<u32>, OutOfMemory>
    requires { CanBeAudited clauses.Cells trace.now run.now records.now }
    ensures { IfOk result (TellsLine clauses.Cells trace.now run.now) }
{
    let place = first_place(alloc, salt, run, records)?;
    Ok(line_where(run, place))
}

// The first place at which the cells aren't right.
fn first_place(
    alloc: Global,
    salt: Salt,
    run: &DenseRun,
    records: &[Played],
) -> Result<Option<Place>, OutOfMemory>
    requires few { length records.now < 65536 }
    requires rising { RiseByLine records.now }
    requires cells { length run.now.cells.items ≤ cell_count }
    requires short { HasLines32 run.now }
    ensures { IfOk result (TellsPlace (CellsDemand (history_of run.now) records.now)) }
{
    let cells = run.cells();
    match swaps_meet(records, cells) {
        Some(at) => Ok(Some(Place::Record(at))),
        None => {
            let first = exchanges_meet(alloc, salt, records, cells)?;
            match first {
                Some((cell, at)) => Ok(Some(Place::Cell(cell, at as u32))),
                None => Ok(None),
            }
        }
    }
}
