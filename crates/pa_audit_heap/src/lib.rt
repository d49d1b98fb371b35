//! Checkers for the clauses of a legal run that speak of the heap's journals: each returns the first place at which its clause
//! isn't met, or that there is none.
#![tactic(auto)]

mod censuses;
mod first;
mod laws;
mod lookup;
mod made;
mod namings;
mod order;
mod pool;
mod pool_acts;
mod refusals;
mod replay;
mod roots;
mod walk;

pub use censuses::Censuses;
pub use laws::records_have_lines;
pub use pool::pool_meets;
pub use refusals::refusals_meet;
pub use roots::{JournalsFound, journals_meet};
