//! The size classes: which bucket serves a raw size, the shape of its slot spans, and how much of it a thread keeps.
//!
//! Buckets of fixed slot sizes, slot spans and the four states of a span are PartitionAlloc's. The sizes of both
//! versions, the rule for the shape of a span, and the limits and batches of a thread's cache are this project's profile.
#![tactic(auto)]

mod classes;
mod laws;
mod spans;
mod table;

pub use classes::{
    Class, cache_limit, class_in, class_of, class_of_2, fill_count, first_class, past_class,
    raw_of, slot_size, span_of,
};
pub use laws::{classes_are_dense, rows_follow_the_rule, rows_have_bounds, rule_gives_one_span};
pub use spans::{SpanShape, State};
pub use table::{CLASSES, SPARSE_CLASSES};
