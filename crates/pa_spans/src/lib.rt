//! Slot spans of a root, whatever they are kept in: the record of one, and a store that has one for each payload page.
#![tactic(auto)]

mod laws;
mod lists;
mod span;
mod store;

pub use laws::lists_begin;
pub use lists::SpanLists;
pub use span::Span;
pub use store::SpanStore;
