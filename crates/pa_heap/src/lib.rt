//! The workers of a heap, and what they play: each op makes one record, and its contract says what its seat's log and lists got.
//!
//! A worker has its thread's state, its records and what it counted of its steps. What an op says of its own seat alone is an
//! annotated record. The run is legal by the laws over all of them.
#![tactic(auto)]

mod account;
mod allocs;
mod closing;
mod copies;
mod counts;
mod delayed;
mod delayed_purge;
mod exchanges;
mod frees;
mod left;
mod purges;
mod queues;
mod reads;
mod resets;
mod worker;
mod writes;

pub use closing::close;
pub use left::Left;
pub use worker::Worker;
