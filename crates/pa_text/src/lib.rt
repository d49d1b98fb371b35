//! The spellings that all texts share: numbers, words and slot names, as they are written and as they are read; and the text that
//! grows, with the list of what it is of, which only proofs read.
#![tactic(auto)]

mod past;
mod reading;
mod text;
mod word;
mod writing;

pub use past::Past;
pub use reading::{behind, number_at, one_front, one_spelling};
pub use text::Text;
pub use word::word_at;
pub use writing::{push_byte, push_bytes, push_number, push_slot, push_word};
