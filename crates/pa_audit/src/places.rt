ghost use Rattle.std.specs.Prelude.{◌≡◌, ◌+◌, ◌-◌, ◌<◌, ◌≤◌, ◌^◌, IfSome, length, sum_by, take};
ghost use Rattle.std.specs.Option.{option_map};
ghost use Rattle.pa_rules.specs.declared.verdict.Place.TheVariants as places;
ghost use Rattle.pa_rules.specs.Places.{line_at, roots_at, pool_at, cells_at, report_at};
ghost use Rattle.pa_audit.specs.Lined.{HasLines32};
ghost use Rattle.pa_audit.specs.Placed.{IsThere};

use pa_dense::{DenseJournal, DenseRun};
use pa_record::History;
use pa_rules::Place;

// How many entries the first journals have.
fn entries_before(roots: &[DenseJournal], end: usize) -> u32
    requires end { end ≤ length roots.now }
    requires short { sum_by length roots.now < 2 ^ 32 - 1 }
    ensures { result ≡ sum_by length (take end roots.now) }
{
    let mut count: u32 = 0;
    for at in 0..end {
        count += roots[at].entries().len() as u32;
    }
    count
}

// How many exchanges the first histories have.
fn exchanges_before(cells: &[History], end: usize) -> u32
    requires end { end ≤ length cells.now }
    requires short { sum_by length cells.now < 2 ^ 32 - 1 }
    ensures { result ≡ sum_by length (take end cells.now) }
{
    let mut count: u32 = 0;
    for at in 0..end {
        count += cells[at].entries().len() as u32;
    }
    count
}

// The first line of the journals.
fn journals_line(run: &DenseRun) -> u32
    requires { HasLines32 run.now }
    ensures { result ≡ roots_at run.now }
{
    2 + run.entries().len() as u32
}

// The first line of the pool.
fn pool_line(run: &DenseRun) -> u32
    requires { HasLines32 run.now }
    ensures { result ≡ pool_at run.now }
{
    journals_line(run) + entries_before(run.roots(), run.roots().len())
}

// The first line of the histories.
fn histories_line(run: &DenseRun) -> u32
    requires { HasLines32 run.now }
    ensures { result ≡ cells_at run.now }
{
    pool_line(run) + run.pool().len() as u32
}

// The first line of the report.
fn report_line(run: &DenseRun) -> u32
    requires { HasLines32 run.now }
    ensures { result ≡ report_at run.now }
{
    histories_line(run) + exchanges_before(run.cells(), run.cells().len())
}

// The line of an entry of a partition's journal.
fn entry_line(run: &DenseRun, partition: u32, at: u32) -> u32
    requires there { IsThere run.now (places.Root partition at) }
    requires short { HasLines32 run.now }
    ensures { result ≡ line_at run.now (places.Root partition at) }
{
    journals_line(run) + entries_before(run.roots(), partition as usize) + at
}

// The line of an exchange with a cell.
fn exchange_line(run: &DenseRun, cell: u32, at: u32) -> u32
    requires there { IsThere run.now (places.Cell cell at) }
    requires short { HasLines32 run.now }
    ensures { result ≡ line_at run.now (places.Cell cell at) }
{
    histories_line(run) + exchanges_before(run.cells(), cell as usize) + at
}

// The line of a place of the run's text.
fn line_of(run: &DenseRun, place: Place) -> u32
    requires there { IsThere run.now place }
    requires short { HasLines32 run.now }
    ensures { result ≡ line_at run.now place }
{
    match place {
        Place::Record(at) => 2 + at,
        Place::Root(partition, at) => entry_line(run, partition, at),
        Place::Pool(at) => pool_line(run) + at,
        Place::Cell(cell, at) => exchange_line(run, cell, at),
        Place::Report(at) => report_line(run) + at,
    }
}

// The line of a place, if there is one.
pub(crate) fn line_where(run: &DenseRun, place: Option<Place>) -> Option<u32>
    requires there { IfSome place (IsThere run.now) }
    requires short { HasLines32 run.now }
    ensures { result ≡ option_map (line_at run.now) place }
{
    match place {
        Some(place) => Some(line_of(run, place)),
        None => None,
    }
}
