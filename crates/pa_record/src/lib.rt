//! What a run contains: a record for each op line of the trace, with the answer that its thread got; the journals of
//! the partitions' roots; the entries of the pool; the histories of the cells; and the report.
#![tactic(auto)]

mod act;
mod batch;
mod cell_lines;
mod census;
mod entry;
mod fits;
mod history;
mod journal;
mod laws;
mod lent_entry;
mod numbered;
mod numbers;
mod pool;
mod pool_lines;
mod report;
mod report_lines;
mod root;
mod root_lines;
mod run;
mod taken;
mod whole;
mod writing;

pub use act::{Act, ActWith, LentSlots};
pub use batch::Batch;
pub use cell_lines::push_cells;
pub use census::{Census, Mapped, mapped_of};
pub use entry::{Answer, Entry, Seen};
pub use fits::{entry_fits, histories_fit, pool_fits, report_fits, root_fits, run_fits};
pub use history::{CellEntry, Held, History};
pub use journal::Journal;
pub use laws::{
    calls_fit, entry_is_one, entry_keeps, fill_keeps, journal_grows, journal_leaves, one_is_chosen,
    out_is_left, out_is_out, pool_answers, pool_grows, pool_is_sound, return_keeps, root_adds_up,
    roots_are_taken, spans_are_used, titles_are_asked, turns_choose, worked_runs_fit,
};
pub use lent_entry::LentEntry;
pub use numbered::Numbered;
pub use numbers::{cell_numbers, one_entry_for_its_numbers, pool_numbers, root_numbers};
pub use pool::{PoolAct, PoolEntry};
pub use pool_lines::push_pool;
pub use report::{ReportLine, Tally};
pub use report_lines::push_report;
pub use root::{RootAct, RootEntry};
pub use root_lines::push_root;
pub use run::Run;
pub use taken::{SuperPage, Taken};
pub use whole::{one_run_for_a_text, write_run};
pub use writing::push_entry;
