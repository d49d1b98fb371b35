//! The text of a run as it grows: each record and each entry of a journal is printed when it is reported, and its index is all
//! that is kept of it. In the end the rest is appended.
#![tactic(auto)]

mod journals;
mod lines;
mod past;
mod records;
mod whole;

pub use journals::Journals;
pub use records::Records;
pub use whole::run_text;
