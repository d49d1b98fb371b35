//! The tests of the words that a closed region has after a run.
#![tactic(auto)]

#[cfg(test)]
mod closed;
#[cfg(test)]
mod links;
#[cfg(test)]
mod records;
