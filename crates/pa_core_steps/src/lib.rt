//! What can happen in the core: each enabled event, and the whole turn of an op. Laws alone; nothing here runs.
#![tactic(auto)]

mod laws;

pub use laws::{
    copies_can_happen, events_can_happen, frees_can_happen, issues_can_happen, resets_can_happen,
    runs_join, writes_can_happen,
};
