ghost use Rattle.std.specs.Prelude.{◌≡◌, ℕ, List, ◌++◌, IfOk, OnOk};
ghost use Rattle.std.specs.List.{flat_map};
ghost use Rattle.pa_record.specs.declared.run.Run.{Run};
ghost use Rattle.pa_record.specs.Text.{entry_text};
ghost use Rattle.pa_record.specs.RunText.{IsPrintable, IsRunText, IsSameRun};

use crate::cell_lines::push_cells;
use crate::pool_lines::push_pool;
use crate::report_lines::push_report;
use crate::root_lines::push_roots;
use crate::{Entry, Run, push_entry, run_fits};
use pa_slot::OutOfMemory;
use pa_text::{Text, push_bytes};
use std::alloc::Global;

// The bytes of a line of a record, the pool or a cell, for the memory that is reserved ahead: few are longer.
const LINE_BYTES: usize = 72;
// The bytes of a line of a journal, for the memory that is reserved ahead: few are longer.
const JOURNAL_BYTES: usize = 160;
// The bytes of a line of the report, for the memory that is reserved ahead: few are longer.
const REPORT_BYTES: usize = 256;

/// The run's one text. Each fill and each give names at least one slot, and there are at most 4 journals and 64
/// histories.
pub fn write_run(alloc: Global, run: &Run) -> Result<Vec<u8>, OutOfMemory>
    requires { IsPrintable run.now }
    ensures text { IfOk result (λ text. IsRunText run.now text.items) }
{
    run_fits(run);
    let mut out = Text::with_capacity(alloc, room(run))?;
    push_bytes(&mut out, b"run 1\n")?;
    push_entries(&mut out, &run.entries)?;
    push_roots(&mut out, &run.roots)?;
    push_pool(&mut out, &run.pool)?;
    push_cells(&mut out, &run.cells)?;
    push_report(&mut out, &run.report)?;
    push_bytes(&mut out, b"end\n")?;
    Ok(out.into_vec())
}

/// A text belongs to one run, and a run has one text: two runs have the same text exactly when they have the same contents. A
/// journal or a history that isn't there is an empty one.
pub fn one_run_for_a_text()
    ensures run { (a b : Run) (text : List ℕ) → IsRunText a text → IsRunText b text → IsSameRun a b }
    ensures text { (a b : Run) (s t : List ℕ) → IsRunText a s → IsRunText b t → IsSameRun a b → s ≡ t }
{}

// An estimate of how many bytes the text has.
fn room(run: &Run) -> usize {
    let mut lines = run.entries.len().saturating_add(run.pool.len());
    for history in &run.cells {
        lines = lines.saturating_add(history.entries().len());
    }
    let mut journal_lines = 0usize;
    for journal in &run.roots {
        journal_lines = journal_lines.saturating_add(journal.entries().len());
    }
    lines
        .saturating_mul(LINE_BYTES)
        .saturating_add(journal_lines.saturating_mul(JOURNAL_BYTES))
        .saturating_add(run.report.len().saturating_mul(REPORT_BYTES))
}

// Appends the lines of the records.
fn push_entries(out: &mut Text, entries: &[Entry]) -> Result<(), OutOfMemory>
    ensures pushed { OnOk result (out.new ≡ out.old ++ flat_map entry_text entries.now) }
{
    for entry in entries {
        push_entry(out, entry)?;
    }
    Ok(())
}
