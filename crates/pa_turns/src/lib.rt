//! A run whose lines are played one after the other is in the order of its lines. A law alone; nothing here runs.
#![tactic(auto)]

mod laws;

pub use laws::turns_are_in_order;
