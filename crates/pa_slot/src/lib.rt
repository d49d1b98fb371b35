//! A slot: its name, its bytes as a title, its count word, and the five steps that may change the word.
//!
//! A slot's last word holds three things at once, so that one atomic addition changes them together: whether
//! the allocator still holds the slot, how many `raw_ptr`s point to it, and how many steps were made so far.
#![tactic(auto)]

mod fault;
mod title;
mod word;

pub use fault::OutOfMemory;
pub use title::{OwnState, POISON, Title};
pub use word::{SlotName, Step, Word, apply, held, next, number, refs, returns};
