//! A thread's cache of the free slots of one class, whose list is a chain: each slot has the link to the next one in its
//! first content word, so that the cache takes no memory of its own.
#![tactic(auto)]

mod cache;
mod laws;

pub use cache::Cache;
pub use laws::{lists_stay, other_lists_stay};
