//! The tests of the player that others drive, and of what scripts come to.
#![tactic(auto)]

#[cfg(test)]
mod lines;
#[cfg(test)]
mod scripts;
