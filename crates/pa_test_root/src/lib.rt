//! The tests of pa_root: its single moves, and lists of calls.
#![tactic(auto)]

#[cfg(test)]
mod root;
#[cfg(test)]
mod root_plain;
#[cfg(test)]
mod root_rows;
#[cfg(test)]
mod root_scripts;
