//! A trace has at most one legal run in the order of its lines. Laws over the definitions of a legal run; nothing here runs.
#![tactic(auto)]

mod laws;

pub use laws::{one_file_run, one_thread_in_file_order};
