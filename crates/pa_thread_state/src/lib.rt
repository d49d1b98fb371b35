//! What the workers of a heap share, what each of them has, and the single calls that its ops are made of.
//!
//! A heap has the region and, each behind a lock of its own, the pool, the roots and the cells. A worker's thread state is its seat of
//! the region, its registers and its lists of free slots. Each call here says how it changes the thread state.
#![tactic(auto)]

mod asks;
mod census;
mod exchanges;
mod fills;
mod giving;
mod handles;
mod heap;
mod homes;
mod listing;
mod lists;
mod opening;
mod purges;
mod releases;
mod roots;
mod settles;
mod stock;
mod takes;

pub use heap::{Heap, HeapParts};
pub use stock::Stock;
