//! The records of slot spans in the metadata pages of super pages: 32 bytes for each partition page, written and read back.
#![tactic(auto)]

mod meta;
mod numbers;
mod store;
mod words;

pub use meta::{read_meta, read_state, write_meta};
pub use store::MetaStore;
