//! The player on one thread, line by line: it plays each line of a trace over the plain placement, and sends its records and
//! journals to an output, as lists or as their texts.
#![tactic(auto)]

mod alloc;
mod caches;
mod free_list;
mod heap;
mod output;
mod phases;
mod player;
mod purge;
mod reads;
mod registers;
mod returns;
mod roots;
mod steps;
mod swap;
mod table;
mod tallies;
mod told;

pub use output::{ListOutput, Output, TextOutput};
pub use player::Player;
pub use told::Told;
