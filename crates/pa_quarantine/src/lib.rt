//! The content of a slot on its way out and back: it is zeroed before an issue, written by its owner, and poisoned
//! before a free, so that any `raw_ptr` left to it reads poison. A slot whose Own is sealed has no `raw_ptr`, and its free
//! returns it at once.
#![tactic(auto)]

mod fill;
mod leave;
mod sealed;

pub use fill::{poison, write, zero_fill};
pub use leave::{free_owned, read, release};
pub use sealed::{free_sealed, issue_sealed};
