/// The shape of a class's slot spans. PartitionAlloc.md has spans of 1 to 4 partition pages for the small buckets
/// and of one slot for the larger ones; which of them each class has is this project's profile.
#[derive(Clone, Copy, Debug, PartialEq, Eq)]
pub struct SpanShape {
    /// Partition pages of a span.
    pub pages: u32,
    /// System pages of it that slots use, from its first on.
    pub system_pages: u32,
    /// Slots of a span.
    pub slots: u32,
    /// Bytes at the end of the last system page that no slot uses.
    pub waste: u32,
}

/// The state of a slot span, as PartitionAlloc.md has them, with one more for a span that isn't in use yet.
#[derive(Clone, Copy, Debug, PartialEq, Eq)]
pub enum State {
    /// The span isn't in use yet.
    None,
    /// Some of its slots are allocated, and not all.
    Active,
    /// No slot is allocated.
    Empty,
    /// No slot is allocated, and its pages aren't committed.
    Decommitted,
    /// All slots are allocated.
    Full,
}
