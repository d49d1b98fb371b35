//! Cells in which threads exchange handles: 64 of them behind one lock.
//!
//! Each exchange puts something into a cell and takes out what the exchange before put there. All of them are in one
//! list of the region, in the order in which they were made, and each cell's history is read off that list.
#![tactic(auto)]

mod cells;
mod handle;
mod laws;
mod numbers;

pub use cells::Cells;
pub use handle::{Handle, Parked};
pub use laws::{
    givers_lack_handles, places_stay, slots_stay_seen, takers_have_handles,
    what_was_handed_can_wait,
};
pub use numbers::exchange_numbers;
