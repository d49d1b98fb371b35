//! A trace that is played line after line in a region, with a queue of freed slots before the lists of each thread: what the workers do
//! with lists and queues makes its delayed run.
#![tactic(auto)]

mod close;
mod laws;
mod lines;
mod report;
mod run;
mod turn;

pub use close::close_delayed;
pub use laws::{delayed_is_told, records_lead, waits_free};
pub use lines::play_lines;
pub use report::report_phase;
pub use run::play_delayed;
pub use turn::play_turn;
