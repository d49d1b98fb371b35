//! The player on one thread: it plays a trace line by line over the plain placement, and returns the whole run.
#![tactic(auto)]

mod player;
mod whole;

pub use player::{Handed, Player};
pub use whole::{play, play_input};
