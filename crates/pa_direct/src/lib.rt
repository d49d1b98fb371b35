//! Direct maps: the requests that are too large for a bucket, each with super pages of its own.
//!
//! PartitionAlloc.md has direct maps with a guard at both ends. Their sizes are this project's profile.
#![tactic(auto)]

mod laws;
mod maps;
mod sizes;

pub use laws::shapes_leave_room;
pub use maps::Shape;
pub use sizes::{GREATEST_IN_CLASS, GREATEST_SIZE, shape};
