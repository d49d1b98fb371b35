use arrayvec::ArrayVec;
use pa_slot::Title;

/// What a fill or a direct map did: the index of the pool's entry that it made, if it asked the pool, and the slots that
/// it took, in order. There are none exactly when there was no room.
#[derive(Debug, Drop, PartialEq, Eq)]
pub struct Placed {
    pub pool: Option<u32>,
    pub titles: ArrayVec<Title, 16>,
}

/// Slots of one span that were made together for the first time: `count` of them, 1 to 1,024, contiguous from the first
/// on.
#[derive(Clone, Copy, Debug, Default, PartialEq, Eq)]
pub struct Made {
    pub first: Title,
    pub count: u32,
}

/// What is out of a root under a name.
#[derive(Clone, Copy, Debug, PartialEq, Eq)]
pub enum Out {
    /// A slot of a span, which may be given back.
    Slot(Title),
    /// A direct map, which may be unmapped.
    Map(Title),
}
