//! What a timeline of a run is: an order of all steps in which it could have been played. Definitions, and laws of small runs that have
//! one or have none; nothing here runs.
#![tactic(auto)]

mod laws;

pub use laws::{
    journal_and_cell_have_no_timeline, poison_then_content_has_no_timeline,
    purges_have_no_timeline, read_before_copies_has_no_timeline, read_before_free_has_no_timeline,
    second_word_first_has_no_timeline, slot_and_cell_have_no_timeline, threads_have_a_timeline,
    timelines_have_outlines, two_slots_have_no_timeline,
};
