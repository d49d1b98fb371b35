use pa_slot::{SlotName, Word};

/// The record of one op line: the line's number in the trace, whose head is line 1, the thread that played it,
/// and its answer.
#[derive(Clone, Copy, Debug, PartialEq, Eq)]
pub struct Entry {
    pub line: u32,
    pub thread: u32,
    pub answer: Answer,
}

/// A slot, and the count word that was found there: before the step if the op made one, else as it was looked at.
#[derive(Clone, Copy, Debug, PartialEq, Eq)]
pub struct Seen {
    pub slot: SlotName,
    pub found: Word,
}

/// The answer of one op. They are numbered from 1 in this order.
#[derive(Clone, Copy, Debug, PartialEq, Eq)]
pub enum Answer {
    /// An allocation got this slot; `usable` bytes of it are the object's.
    Made { seen: Seen, usable: u32 },
    /// A copy, reset, free or write was made.
    Done { seen: Seen },
    /// A read of a slot that the allocator holds.
    Value { seen: Seen, value: u64 },
    /// A read of a slot that was freed: a use after free, which reads poison.
    Dangling { seen: Seen, value: u64 },
    /// A free of what was freed before, by its owner or through a `raw_ptr`.
    SecondFree { seen: Option<Seen> },
    /// A free or a write through a `raw_ptr`, which doesn't own.
    NotOwner { seen: Seen },
    /// A reset of a `raw_ptr` that was reset before.
    StaleReset,
    /// A use of a register whose handle is gone, or a write through a `raw_ptr` to what was freed.
    StaleUse { seen: Option<Seen> },
    /// The register is empty.
    Nothing,
    /// The register to be filled has a handle already.
    Filled,
    /// A reset of what is no `raw_ptr`.
    NotRef,
    /// A write to a slot to which `raw_ptr`s point.
    Shared { seen: Seen },
    /// A read past the object's words.
    OutOfRange,
    /// A request above the greatest size.
    TooLarge,
    /// No room: the entry of the partition's journal that says so.
    Full { entry: u32 },
    /// An exchange with a cell: its entry in the cell's history.
    Swapped { entry: u32 },
    /// A purge, which gave back this many slots.
    Purged { slots: u32 },
    /// A copy of the owner of a slot in a partition without reference counts.
    Uncounted,
}
