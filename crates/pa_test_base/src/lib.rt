//! The tests of the crates at the bottom: the machine, layouts, texts, the placement, and what traces and runs are read from.
#![tactic(auto)]

#[cfg(test)]
mod buckets;
#[cfg(test)]
mod direct;
#[cfg(test)]
mod generator;
#[cfg(test)]
mod layout;
#[cfg(test)]
mod machine;
#[cfg(test)]
mod place;
#[cfg(test)]
mod reader;
#[cfg(test)]
mod reader_runs;
#[cfg(test)]
mod record;
#[cfg(test)]
mod run_texts;
#[cfg(test)]
mod script;
#[cfg(test)]
mod sources;
#[cfg(test)]
mod text;
#[cfg(test)]
mod trace;
#[cfg(test)]
mod trace_heads;
