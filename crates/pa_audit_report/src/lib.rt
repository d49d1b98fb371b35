//! The checker for the clause of a legal run that speaks of the report: it works the whole report out, and returns the first
//! line that isn't the one that is due.
#![tactic(auto)]

mod counts;
mod due;
mod known;
mod report;

pub use known::Known;
pub use report::{first_other, report_meets};
