/// What an op did with a slot in quarantine, a use of what was freed.
#[derive(Clone, Copy, Debug, PartialEq, Eq)]
pub enum Use {
    /// A handle was copied: one more `raw_ptr` points to the slot.
    Copied,
    /// A `raw_ptr` was reset, as it ends or is given another object.
    WasReset,
    /// The slot was to be freed once more.
    WasFreed,
    /// The slot was to be written.
    Written,
    /// The slot was read, and gave poison.
    WasRead,
}

/// A free of an object to which `raw_ptr`s pointed, and a use of what it freed. `made`, `free`, `later` and `origin` are lines of
/// the trace: of the object's allocation, of the free, of the use,
/// and of the copy from which the `raw_ptr` came that the use went through.
#[derive(Clone, Copy, Debug, PartialEq, Eq)]
pub struct Pair {
    pub made: u32,
    pub free: u32,
    pub later: u32,
    pub how: Use,
    pub origin: u32,
}

/// The pairs of a run, by the line of the free and then of the use, the number of frees that found `raw_ptr`s, with or without a use, and
/// the number of slots that are left in quarantine at the end.
#[derive(Debug, Drop)]
pub struct Found {
    pub pairs: Vec<Pair>,
    pub freed: u32,
    pub left: u128,
}
