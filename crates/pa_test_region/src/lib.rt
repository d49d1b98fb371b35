//! The tests of the crates over the region: its seats, counted steps, chains, caches, the pool, cells and queues.
#![tactic(auto)]

#[cfg(test)]
mod cache;
#[cfg(test)]
mod cells;
#[cfg(test)]
mod count;
#[cfg(test)]
mod delay;
#[cfg(test)]
mod lending;
#[cfg(test)]
mod link;
#[cfg(test)]
mod pool;
#[cfg(test)]
mod quarantine;
#[cfg(test)]
mod quarantine_threads;
