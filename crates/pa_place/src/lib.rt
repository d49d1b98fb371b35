//! The plain placement, over lists: the pool of super pages, and the root of one partition. It says what each call of an
//! allocator's root has to return, in the words of the definitions of what such a call is.
#![tactic(auto)]

mod blanks;
mod homes;
mod lists;
mod looks;
mod placed;
mod placement;
mod plain_root;
mod plain_span;
mod pool_plan;
mod returned;
mod returns;
mod room;
mod scans;
mod states;
mod store;
mod takes;

pub use placed::{Made, Out, Placed};
pub use placement::{Placement, ask};
pub use plain_root::PlainRoot;
pub use pool_plan::PoolPlan;
