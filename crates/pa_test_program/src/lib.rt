//! The tests of the program's one call.
#![tactic(auto)]

#[cfg(test)]
mod cli;
#[cfg(test)]
mod cli_audit;
#[cfg(test)]
mod cli_dangling;
#[cfg(test)]
mod cli_delay;
#[cfg(test)]
mod cli_faults;
#[cfg(test)]
mod cli_gate;
#[cfg(test)]
mod cli_replay;
#[cfg(test)]
mod cli_scripts;
