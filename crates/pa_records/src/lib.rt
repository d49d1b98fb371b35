//! What words say of a root: the records of its spans, and the chains of their free slots.
#![tactic(auto)]

mod laws;

pub use laws::{
    changed_is_stored, entered_is_stored, spans_stay, stored_is_in_words, stored_is_recorded,
    worked_records,
};
