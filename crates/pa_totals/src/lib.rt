//! The totals words of the region as sums of bytes: what a thread still owes to them, and the bytes of live and of
//! quarantined slots, which are differences of them.
#![tactic(auto)]

mod laws;
mod owed;
mod sums;

pub use laws::{settlings_leave, whole_settlings_leave};
pub use owed::{Owed, settle, settle_all};
pub use sums::balance;
