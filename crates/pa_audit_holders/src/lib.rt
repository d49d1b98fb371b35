//! Checkers for the clauses of a legal run that speak of free slots: who holds them, the threads' caches, and the report. Each
//! returns the first place at which its clause isn't met, or that there is none.
#![tactic(auto)]

mod acts;
mod asks;
mod books;
mod cached;
mod caches;
mod gives;
mod gone;
mod held;
mod holders;
mod homes;
mod laws;
mod lines;
mod lists;
mod moves;
mod owners;
mod purges;
mod returns;
mod rows;
mod tables;

pub use books::Books;
pub use caches::{CachesFound, caches_meet};
pub use holders::holders_meet;
pub use homes::{Home, found_home, homes_of};
pub use laws::one_home;
