//! Reading the text of a run: each line as the item that it contains, and the run that the items make.
#![tactic(auto)]

mod answer;
mod digits;
mod draft;
mod fault;
mod field;
mod item;
mod laws;
mod line;
mod other;
mod place;
mod reading;
mod root;

pub use fault::RunFault;
pub use item::Item;
pub use laws::{items_in_order_are_runs, one_bad_line, one_reading, runs_are_in_order};
pub use line::line_at;
pub use reading::{read_dense_run, read_run};
