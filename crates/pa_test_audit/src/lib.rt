//! The tests of the crates that audit: for each clause of a legal run, which place is returned, and which verdict.
#![tactic(auto)]

#[cfg(test)]
mod audit;
#[cfg(test)]
mod cached;
#[cfg(test)]
mod caches;
#[cfg(test)]
mod contents;
#[cfg(test)]
mod heap;
#[cfg(test)]
mod holders;
#[cfg(test)]
mod homed;
#[cfg(test)]
mod input;
#[cfg(test)]
mod plain;
#[cfg(test)]
mod purges;
#[cfg(test)]
mod records;
#[cfg(test)]
mod report;
#[cfg(test)]
mod seen;
#[cfg(test)]
mod versions;
