//! Runs that were worked out by hand: legal ones, what annotated records and logs say of them, and wrong ones. There are only laws:
//! nothing is on them, and nothing here runs.
#![tactic(auto)]

mod laws;

pub use laws::{
    astray_fails, direct_map_closes, direct_map_has_lists, direct_map_is_told,
    first_version_is_kept, maps_fail, other_reads_are_legal, other_reads_fit,
    plain_partitions_are_last, plain_run_is_registered, purge_closes, purge_has_lists,
    purge_is_told, refused_fails, threads_close, threads_say, two_threads_are_told,
    two_threads_have_lists, worked_direct_maps_are_legal, worked_early_read_is_legal,
    worked_purge_is_legal, worked_runs_are_known, worked_runs_are_played,
    worked_runs_are_the_only_ones, worked_threads_are_legal, worked_words_are_held,
    worked_writes_are_legal,
};
