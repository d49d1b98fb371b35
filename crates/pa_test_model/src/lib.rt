//! The tests of the player on one thread.
#![tactic(auto)]

#[cfg(test)]
mod model;
