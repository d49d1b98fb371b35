//! The clauses of a legal run that speak of records: for each, the first place at which it isn't met.
#![tactic(auto)]

mod along;
mod asked;
mod by_key;
mod cells;
mod changes;
mod ends;
mod keys;
mod known;
mod lines;
mod marks;
mod phases;
mod records;
mod registers;
mod rows;
mod salt;
mod slots;
mod steps;
mod usable;
mod walk;

pub use asked::{class_for, is_map_size};
pub use by_key::ByKey;
pub use cells::{exchanges_meet, swaps_meet};
pub use ends::ends_of;
pub use lines::lines_meet;
pub use phases::{phases_in, record_ends};
pub use records::{record_near, record_on, records_are_within, records_of};
pub use registers::Registers;
pub use rows::exchange;
pub use salt::Salt;
pub use slots::slots_meet;
pub use walk::registers_meet;
