use pa_slot::{OwnState, Step, Title};
use std::collections::LinkedList;

/// A range of raw bytes that a seat holds: offsets in bytes, multiples of 8.
pub struct RawRange {
    pub start: u32,
    pub len: u32,
    /// A title that is cut out of these bytes has a `born` of at least this.
    pub floor: u32,
}

/// An Own handle that a seat holds.
pub struct OwnTitle {
    pub title: Title,
    pub state: OwnState,
    /// It was found that no Ref of the title is left.
    pub idle: bool,
    /// It can't be copied, so no Ref of the title can be made.
    pub sealed: bool,
}

/// What a seat did since the last entry of its least stake's log: whether it handed something over, stored, or
/// poisoned. A read that follows a look carries this.
pub struct Deeds {
    pub handed: bool,
    pub stored: bool,
    pub poisoned: bool,
}

/// One thing that was done with a stake.
pub enum Entry {
    /// A step on the title's count word, with the word that it found. A write also has the value written.
    Counted {
        title: Title,
        step: Step,
        found: u64,
        value: u64,
    },
    /// A load of the title's count word, with the word that it found.
    Looked {
        title: Title,
        found: u64,
    },
    /// A load of the title's content word with the index `place`, with the value that it gave. It also has what the seat did
    /// since the entry before it, whether the seat held the title's Own, and whether it held it in a state other than clean.
    Read {
        title: Title,
        place: u32,
        value: u64,
        since: Deeds,
        owned: bool,
        unclean: bool,
    },
    /// An addition of this many bytes to a totals word, numbered from 0.
    Added {
        word: u32,
        bytes: u64,
    },
    /// An entry in a keeper's list.
    Entered {
        keeper: u32,
        made: Made,
    },
    /// The title was uncut.
    Uncut {
        title: Title,
    },
}

/// An entry of a keeper's list: the stake it was made with, its numbers, and what its maker had seen then.
pub struct Made {
    pub stake: u32,
    pub numbers: LinkedList<u64>,
    pub seen: LinkedList<SeenNumber>,
}

/// The right to make steps, one for each thread number from 0 to 15, with the log of what was done with it, in order.
pub struct Stake {
    pub number: u32,
    pub log: LinkedList<Entry>,
}

/// The right to append to a keeper's list, with the list. The keepers are 0 to 3 for the roots,
/// 4 for the pool and 5 for the cells.
pub struct Keeper {
    pub number: u32,
    pub entries: LinkedList<Made>,
}

/// The leases that a seat has: these, and all from some number on. A lease is the number of a pool entry.
pub struct Leases {
    pub single: LinkedList<u32>,
    pub from: LinkedList<u32>,
}

/// A number of a title's count word that a seat has seen.
pub struct SeenNumber {
    pub title: Title,
    pub number: u64,
}

/// A beginning of a keeper's list that a seat has seen.
pub struct SeenList {
    pub keeper: u32,
    pub entries: LinkedList<Made>,
}

/// What a seat holds and knows. No value of it is ever made: it exists only in proofs.
pub struct View {
    pub raws: LinkedList<RawRange>,
    /// The titles that the seat holds free.
    pub frees: LinkedList<Title>,
    /// The titles that the seat uncut, with whatever stake.
    pub uncut: LinkedList<Title>,
    pub owns: LinkedList<OwnTitle>,
    /// Each Ref handle that the seat holds, as many times as it holds it.
    pub refs: LinkedList<Title>,
    /// The region's words as the seat knows them: those that are raw here, those of its free titles, and the content
    /// words of its Owns. What the list has at any other place says nothing.
    pub words: LinkedList<u64>,
    /// How many counted steps the seat may still make.
    pub budget: u32,
    pub stakes: LinkedList<Stake>,
    pub since: Deeds,
    pub keepers: LinkedList<Keeper>,
    pub leases: Leases,
    pub seen: LinkedList<SeenNumber>,
    pub seen_lists: LinkedList<SeenList>,
}
