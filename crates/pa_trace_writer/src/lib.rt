//! The lines of a trace as they come: kept as a list, or as the text of the trace, which is printed line by line.
#![tactic(auto)]

mod keeping;

pub use keeping::{Keeper, Kept, LineList, LineText};
