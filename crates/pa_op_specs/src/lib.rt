//! What an op of a worker says of its own seat, and what follows of ops that were played one after the other:
//! definitions and laws. Nothing here runs.
//!
//! A worker has a seat of the region, 64 registers, and for each partition and class a list of free slots. What an op says
//! of its own seat alone is an annotated record. The run is legal by the laws over all of them.
#![tactic(auto)]

mod counts;
mod laws;

pub use counts::Count;
pub use laws::{plays_follow, settlings_end_phases, settlings_end_turns};
