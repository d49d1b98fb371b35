//! The tests of the lists of spans, over spans in a vector.
#![tactic(auto)]

#[cfg(test)]
mod moves;
#[cfg(test)]
mod table;
