//! What one more line of a trace does to the pool, the roots and the caches: each op has one effect, and all else is one law.
//! Laws alone; nothing here runs.
#![tactic(auto)]

mod laws;

pub use laws::{
    caches_stay, fill_is_done, front_leaves, full_is_done, full_map_is_done, line_extends,
    line_passes, line_replays, lists_are_out, map_is_done, maps_are_taken, nothing_moves,
    parts_are_out, phase_ends, placed_are_roots, pool_extends, purge_is_done, return_is_done,
    run_goes_on, same_is_placed, starts_empty, titles_share_no_byte, unmap_is_done,
};
