//! The input of `audit`, a trace followed by a run: where the run begins, the first faulty line, and the verdict.
#![tactic(auto)]

mod judging;
mod laws;
mod parts;
mod run_part;

pub use judging::{Judgement, judge, judged};
pub use laws::{early_audit_fault, one_audit_answer, trace_and_run_are_input};
pub use run_part::MOST_AUDITED;
