//! What a run that is played line by line on one thread and one that is played by many share: from the clauses of a legal
//! run that are known one by one, and a few facts of its slots, the whole legal run. Laws alone; nothing here runs.
#![tactic(auto)]

mod laws;

pub use laws::{
    cached_out, caches_flow, clauses_follow, handles_are_put, holders_balance, holders_follow,
    legal_follows, legal_has_handles, legal_is_known, new_maps, numbers_grow, one_kind, out_none,
    owners_find_the_bit, tallies_follow, unnamed,
};
