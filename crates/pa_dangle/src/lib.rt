//! The uses of what was freed while `raw_ptr`s pointed to it: which they are, that each is of one free, and of a run all of them, each
//! with its free, the object's allocation and the copy from which the `raw_ptr` came.
#![tactic(auto)]

mod found;
mod gather;
mod laws;
mod numbers;
mod run;
mod text;
mod ways;

pub use found::{Found, Pair, Use};
pub use gather::pairs_of;
pub use laws::{uses_are_paired, uses_have_origins, worked_uses_fit};
pub use run::pairs_dense;
pub use text::found_text;
