//! Chains: lists of free slots that are kept in the slots themselves. The first content word of each has the link to the
//! next one, and beside the region there are the front and the length alone.
#![tactic(auto)]

mod chain;
mod laws;
mod link;

pub use chain::{Chain, ChainParts};
pub use laws::{chains_are_listed, chains_stay, links_elsewhere, links_stay};
