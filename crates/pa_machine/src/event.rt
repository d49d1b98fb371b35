use pa_slot::{Step, Title};

/// What one actor may hand to another: raw bytes, a free title, the Own handle of a title, or one Ref handle of it.
#[derive(Clone, Copy, Debug, PartialEq, Eq)]
pub enum Item {
    Raw { start: u32, len: u32 },
    Free(Title),
    Own(Title),
    Ref(Title),
}

/// One event of the core. Offsets and lengths are in bytes, actors are numbered from 0.
#[derive(Clone, Copy, Debug, PartialEq, Eq)]
pub enum Event {
    /// A step on the title's count word.
    Count {
        actor: u32,
        title: Title,
        step: Step,
    },
    /// An Issue whose Own is sealed: it can't be copied.
    Sealed {
        actor: u32,
        title: Title,
    },
    /// A write to a raw word or to a content word.
    Store {
        actor: u32,
        at: u32,
        value: u64,
    },
    /// The next content word of an Own becomes poison.
    Poison {
        actor: u32,
        title: Title,
    },
    /// A read.
    Load {
        actor: u32,
        at: u32,
    },
    /// An item moves from one actor to another.
    Hand {
        from: u32,
        to: u32,
        item: Item,
    },
    /// Raw bytes become a free title.
    Cut {
        actor: u32,
        title: Title,
    },
    /// A free title becomes raw bytes again.
    Uncut {
        actor: u32,
        title: Title,
    },
}

/// Why an event didn't happen: its condition fails, or there was no memory for what it gives.
#[derive(Clone, Copy, Debug, PartialEq, Eq)]
pub enum StepFault {
    NotEnabled,
    OutOfMemory,
}
