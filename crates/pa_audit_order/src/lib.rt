//! The clauses of a legal run that compare records along the order of their slots and of time: what was read, and what was
//! seen. For each, the first record at which it isn't met.
#![tactic(auto)]

mod contents;
mod cuts;
mod hands;
mod keys;
mod looks;
mod numbers;
mod rises;
mod seen;

pub use contents::contents_meet;
pub use keys::{greatest, key};
pub use numbers::{Kind, by_number};
pub use seen::seen_meets;
