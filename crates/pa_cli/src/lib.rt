//! The program's one call: it takes the words of a command, a source and a sink, and returns a status, and for `replay`, `delay`
//! and `gen` the run and the closed region.
//!
//! Refusals come in this order: the words, a fault of the source, the first faulty line, memory, a run that isn't legal, a fault of
//! the sink. The output is made whole before its first byte is written, so running out of memory never follows a written byte.
#![tactic(auto)]

mod alone;
mod answers;
mod command;
mod input;
mod laws;
mod outcome;
mod output;
mod printed;
mod scripts;
mod status;
mod top;

pub use alone::run_alone;
pub use command::plays_in_region;
pub use laws::{
    a_read_fault_comes_first, delay_of_nothing_prints_as_model, delayed_runs_are_legal_as_modelled,
    one_thread_prints_as_model, only_audit_refutes, printed_runs_are_legal_inputs,
};
pub use outcome::Outcome;
pub use status::Status;
pub use top::run;
