//! The root of a partition over the region.
#![tactic(auto)]

mod append;
mod asks;
mod backs;
mod cuts;
mod fault;
mod fill;
mod laws;
mod lends;
mod map;
mod numbers;
mod room;
mod root;
mod slots;
mod takes;
mod unmap;

pub use cuts::{cut_beside, cut_map};
pub use fault::FillFault;
pub use laws::{
    a_map_that_comes_back_is_mapped, a_new_root_is_sound, cuts_go_on, entries_are_new,
    entries_are_told, fills_hand_out, fills_keep_a_root, gives_keep_a_root,
    idle_entries_keep_a_root, journals_fit_the_pool, made_slots_are_whole, maps_are_taken,
    maps_can_be_cut, maps_hand_out, maps_keep_a_root, opening_keeps_a_root, pools_are_read,
    purges_keep_slots, rewriting_keeps_a_root, roots_are_ready, seeing_more_keeps_a_root,
    turns_are_few, unmaps_hand_back, unmaps_keep_a_root, what_comes_back_is_out,
    what_is_made_can_be_cut, what_is_seen_is_in_the_journal,
};
pub use lends::{show_seen, uncut_with};
pub use numbers::{number_seen, numbers_seen};
pub use root::Root;
