//! The counted steps of a slot, each by its name: what a heap, an owner and a `raw_ptr` do to the count word. Each is
//! one atomic step, takes no lock and no memory, and refuses nothing.
#![tactic(auto)]

mod steps;

pub use steps::{Fate, copy, free, issue, issue_sealed, look, reset, wrote};
