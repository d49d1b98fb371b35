/// What a resize came to. The verdicts are tried in this order.
#[derive(Clone, Copy, Debug, PartialEq, Eq)]
pub enum Verdict {
    /// The register owns no object.
    NotOwn,
    /// `raw_ptr`s point to the object, which stays in its slot.
    Shared,
    /// The size is above the greatest that is served.
    TooLarge,
    /// The object's slot is as long as one for that size, so it stays there.
    Kept,
    /// There was no room for another slot.
    NoRoom,
    /// The object has another slot, and what it contained is there.
    Moved,
}
