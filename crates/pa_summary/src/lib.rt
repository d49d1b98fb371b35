//! The summary of a run: how many lines have each answer, and what is live and quarantined at the end.
#![tactic(auto)]

mod counts;
mod laws;
mod sums;
mod text;

pub use laws::names_are_of_records;
pub use sums::{Ends, Sums, ends_of};
pub use text::write_summary;
