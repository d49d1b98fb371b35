//! Sources and sinks of bytes: a program reads its input from any `Source` and writes its output to any `Sink`.
//!
//! Each counts its faults, so that an answer that blames one can be held to it. There are two of each: in memory,
//! with faults that the caller chooses, and over a reader or writer of std, as standard input and output.
#![tactic(auto)]

mod memory;
mod standard;
mod traits;

pub use memory::{MemSink, MemSource};
pub use standard::{StdSink, StdSource};
pub use traits::{Failed, Sink, Source};
