//! The auditor: the verdict on a run of a trace, and of each clause the first line of the run's text at which it fails.
#![tactic(auto)]

mod cells;
mod clauses;
mod heap;
mod holders;
mod order;
mod places;
mod records;
mod report;

pub use cells::cells_fail;
pub use clauses::{audit, audit_dense};
pub use heap::{pool_fails, roots_fail};
pub use holders::{caches_fail, holders_fail};
pub use order::{contents_fail, seen_fails};
pub use records::{lines_fail, registers_fail, slots_fail};
pub use report::report_fails;
