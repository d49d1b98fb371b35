//! What ties each clause of a legal run to what it requires of each place of the run. Laws alone; nothing here runs.
#![tactic(auto)]

mod laws;

pub use laws::{
    caches_are_places, cells_are_places, contents_are_places, holders_are_places, legal_is,
    lines_are_places, one_verdict, pool_is_places, registers_are_places, report_is_places,
    roots_are_places, seen_is_places, slots_are_places, titles_are_places, titles_never_fail,
};
