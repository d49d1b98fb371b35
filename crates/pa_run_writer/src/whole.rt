ghost use Rattle.std.specs.Prelude.{IfOk};
ghost use Rattle.pa_record.specs.declared.run.Run.{Run};
ghost use Rattle.pa_record.specs.RunText.{IsPrintable};
ghost use Rattle.pa_run_writer.specs.Whole.{HasLists, IsTextOfLists};

use crate::{Journals, Records};
use pa_record::{
    History, PoolEntry, ReportLine, histories_fit, pool_fits, push_cells, push_pool, push_report,
    report_fits,
};
use pa_slot::OutOfMemory;
use pa_text::push_bytes;

/// The text of the run with these records, journals, entries of the pool, histories of the cells and lines of the report. Each
/// fill and each give names at least one slot, and there are at most 4 journals and 64 histories.
pub fn run_text(
    records: Records,
    journals: Journals,
    pool: Vec<PoolEntry>,
    cells: Vec<History>,
    report: Vec<ReportLine>,
) -> Result<Vec<u8>, OutOfMemory>
    requires { (r : Run) → HasLists records journals pool.items cells.items report.items r → IsPrintable r }
    ensures text { IfOk result (λ text. IsTextOfLists records journals pool.items cells.items report.items text.items) }
{
    pool_fits(&pool);
    histories_fit(&cells);
    report_fits(&report);
    let mut out = records.into_text();
    journals.push_all(&mut out)?;
    push_pool(&mut out, &pool)?;
    push_cells(&mut out, &cells)?;
    push_report(&mut out, &report)?;
    push_bytes(&mut out, b"end\n")?;
    Ok(out.into_vec())
}
