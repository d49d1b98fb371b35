//! A journal whose entries lie close together: a walk over it touches a fifth of the memory that `Journal` takes.
#![tactic(auto)]

mod entry;
mod journal;
mod kept;
mod run;

pub use entry::DenseEntry;
pub use journal::{DenseJournal, journals_of};
pub use pa_record::{Act, ActWith};
pub use run::DenseRun;
