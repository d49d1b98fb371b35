use pa_buckets::{Class, State};

/// What is kept of a slot span, which is named by the offset of its first page in bytes.
#[derive(Clone, Copy, Debug, PartialEq, Eq)]
pub struct Span {
    pub class: Class,
    pub state: State,
    /// How many of its slots are out of the root.
    pub allocated: u16,
    /// How many of its slots were cut out of its pages and not given back to them since.
    pub provisioned: u16,
    /// How many of its system pages are committed.
    pub committed: u16,
    /// How many slots it has had so far.
    pub made: u32,
    /// Where the front of its free list starts, 0 for none.
    pub head: u32,
    /// The span of its class and state with the next greater turn, 0 for none.
    pub previous: u32,
    /// The span of its class and state with the next lesser turn, 0 for none.
    pub next: u32,
    /// When it entered its state: a greater turn is later.
    pub turn: u64,
}
