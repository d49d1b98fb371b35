//! Plays a trace in a heap, each thread's lines of a phase on a thread of its own.
#![tactic(auto)]

mod counting;
mod gate;
mod merging;
mod opening;
mod passed;
mod phase;
mod phases;
mod queue;
mod report;
mod thread_lines;
mod whole;

pub use counting::count_lines;
pub use gate::{Gate, NoGate};
pub use merging::merge_records;
pub use opening::open_workers;
pub use phase::{hear, hear_all, tell, tell_all};
pub use phases::Playing;
pub use queue::Queue;
pub use report::{NO_SLOTS, cached_by};
pub use thread_lines::LineOp;
pub use whole::{close_run, close_turns, run_trace};
