ghost use Rattle.std.specs.Prelude.{◌≡◌, ℕ, ◌+◌, ◌/◌, ◌≤◌, ◌<◌, ◌↔◌, IsTrue};
ghost use Rattle.pa_slot.specs.Titles.{content_count, count_place, progress, Covers, IsContentOf};

/// The word that fills the content of a title before it is freed, and that a read of a freed slot returns: 8 times the byte ef.
pub const POISON: u64 = 0xefef_efef_efef_efef;

/// A title: the bytes `start` to `start + len - 1` as one slot, its last 8 bytes the count word and those before it
/// the content words. `born` distinguishes titles that use the same bytes one after the other.
#[derive(Clone, Copy, Debug, PartialEq, Eq, Default)]
pub struct Title {
    pub start: u32,
    pub len: u32,
    pub born: u32,
}

impl Title {
    /// The number of the title's first word, counted in words from the region's first.
    pub fn first_word(self) -> usize
        ensures { result ≡ self.start / 8 }
    {
        self.start as usize / 8
    }

    /// The number of content words: all words of the title but its last.
    pub fn content_words(self) -> u32
        ensures { result ≡ content_count self }
    {
        (self.len / 8).saturating_sub(1)
    }

    /// The number of the title's count word, counted in words from the region's first.
    pub fn count_place(self) -> usize
        ensures { result ≡ count_place self }
    {
        self.first_word() + self.content_words() as usize
    }

    /// Whether the byte `at` of the region lies in the title.
    pub fn covers(self, at: u32) -> bool
        ensures { IsTrue result ↔ Covers self at }
    {
        self.start <= at && at - self.start < self.len
    }

    /// Whether the word at byte `at` of the region is one of the title's content words.
    pub fn has_content(self, at: u32) -> bool
        ensures { IsTrue result ↔ IsContentOf self at }
    {
        self.start <= at && u64::from(at - self.start) + 8 < u64::from(self.len)
    }
}

/// How an owner has left the content: as its last write left it, changed since, or with that many of its first
/// words poisoned, on the way to a free.
#[derive(Clone, Copy, Debug, PartialEq, Eq)]
pub enum OwnState {
    Clean,
    Dirty,
    Poisoned(u32),
}

impl OwnState {
    /// The number of content words that are poisoned so far, from the first one on.
    pub fn progress(self) -> u32
        ensures { result ≡ progress self }
    {
        match self {
            OwnState::Clean => 0,
            OwnState::Dirty => 0,
            OwnState::Poisoned(words) => words,
        }
    }
}
