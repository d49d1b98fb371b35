//! The tests of the workers of pa_heap.
#![tactic(auto)]

#[cfg(test)]
mod heap;
#[cfg(test)]
mod heap_ops;
