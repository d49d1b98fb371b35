//! What the logs and the lists of a region say at the end of the run that was played in it: the clauses of a legal run that
//! speak of steps, looks, reads and what was seen, and what the closed region's words are.
//! There are only laws, and nothing here runs.
#![tactic(auto)]

mod laws;

pub use laws::{
    acts_are_theirs, cells_follow, clauses_are_told, closes_holding, content_follows,
    contents_follow, entries_in_order, held_follows, histories_follow, homes_follow,
    indices_follow, layers_follow, layers_tell_all, legal_is_told, lengths_follow,
    lines_have_theirs, listed_wait, logs_are_told, orders_follow, reads_follow, report_follows,
    seats_know, seen_follows, slots_follow, stands_held, stands_uncut, swaps_follow,
    tells_its_mark, threads_merge, usable_follows, worked_is_read_off, worked_is_seen,
};
