//! What a legal run is: the definitions that need the ops of a trace and the answers of a run at once. The players,
//! the checker and the top call cite them. The only code here is what an op does by its register alone, for players, workers and checker,
//! and where each of a thread's lists is.
#![tactic(auto)]

mod laws;
mod lists;
mod looked;
mod played;
mod register;
mod verdict;

pub use laws::{
    caches_keep, copies_are_next, frees_are_next, handles_stay, issues_return, lines_differ,
    places_add_up, reads_are_next, records_are_lines, report_adds_up, resets_are_next, runs_until,
    sizes_fit, titles_follow, worked_caches_fit, worked_counts_fit, writes_are_next,
};
pub use lists::{cache_place, changed_by, class_total, has_class, no_sums};
pub use looked::{looked_free, looked_read, looked_write};
pub use played::Played;
pub use register::{Next, Register};
pub use verdict::{Clause, Place, Verdict};
