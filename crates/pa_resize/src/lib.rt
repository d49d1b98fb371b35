//! What a script comes to: its resizes become ops of a trace as it is played, and each has a verdict.
#![tactic(auto)]

mod laws;
mod lines;
mod sizes;
mod verdict;
mod whole;

pub use laws::{moves_keep, others_stay, spare_stays_free};
pub use verdict::Verdict;
pub use whole::{Expanded, ExpandedText, expand, expand_input};
