//! How the records of a run in the order of its lines are played as events of the core. Laws alone; nothing here runs.
#![tactic(auto)]

mod laws;

pub use laws::{
    file_runs_are_played, made_records_are_played, played_records_make_a_run,
    purged_records_are_played, quiet_records_are_played, refused_records_are_played,
    spilled_records_are_played, titles_come_and_go, unmapped_records_are_played,
};
