//! Each run in the order of its lines has a timeline: an order of all steps in which it could have been played.
//! A law alone; nothing here runs.
#![tactic(auto)]

mod laws;

pub use laws::file_runs_have_a_timeline;
