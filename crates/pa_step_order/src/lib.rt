//! From the one order of all logs to an order of all steps of the run. There are only laws, and nothing here runs.
#![tactic(auto)]

mod laws;

pub use laws::{segments_follow, shapes_have_signs, timeline_follows};
