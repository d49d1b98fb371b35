//! How a run of several workers went, turn after turn, and that then each layer meets its obligations. There are only
//! definitions and laws, and nothing here runs.
#![tactic(auto)]

mod laws;

pub use laws::{
    all_turns_go, courses_grow, courses_leave_none_past, courses_tell_all, courses_tell_cells,
    courses_tell_heap, courses_tell_lines, courses_tell_lists, courses_tell_pool,
    courses_tell_roots, courses_tell_runner, courses_tell_timeline, one_lends_again,
    small_course_fits, turns_grow, turns_tell, workers_have_theirs, workers_hear, workers_tell,
};
