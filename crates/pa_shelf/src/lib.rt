//! The spans of a root in records of the metadata pages, with their free slots in chains.
#![tactic(auto)]

mod adds;
mod backs;
mod changes;
mod counts;
mod cuts;
mod finds;
mod laws;
mod maps;
mod opens;
mod shelf;
mod takes;

pub use cuts::NewSlots;
pub use laws::{
    cuts_keep_shown, no_shelf_is_new, shown_is_in_words, shown_stays, takes_are_in_parts,
};
pub use shelf::Shelf;
