//! The pool of super pages over the region, kept behind a lock: the thread that holds the lock takes the lowest super pages that
//! are free, or gives some back.
//!
//! The pool has the super pages that aren't taken as raw bytes, and the lease of each take that was given back. So a lease that
//! comes back shows that its take wasn't given back before.
#![tactic(auto)]

mod fault;
mod laws;
mod pool;
mod run;

pub use fault::PoolFault;
pub use laws::{runs_are_handed, seen_takes_stay};
pub use pool::Pool;
pub use run::hand_run;
