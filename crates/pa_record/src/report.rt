ghost use Rattle.std.specs.Prelude.{◌≡◌, ◌+◌, ◌<◌, ◌^◌};

/// A number of slots, and the sum of their sizes in bytes, count words included.
#[derive(Clone, Copy, Debug, PartialEq, Eq)]
pub struct Tally {
    pub slots: u64,
    pub bytes: u64,
}

impl Tally {
    /// The sum of two tallies, in slots and in bytes, each below 2^64.
    pub fn and(self, other: Tally) -> Tally
        requires slots { self.slots + other.slots < 2 ^ 64 }
        requires bytes { self.bytes + other.bytes < 2 ^ 64 }
        ensures { result ≡ record { slots = self.slots + other.slots; bytes = self.bytes + other.bytes } }
    {
        Tally {
            slots: self.slots + other.slots,
            bytes: self.bytes + other.bytes,
        }
    }
}

/// The heap of one partition after the last line of a phase. Phases count from 1.
#[derive(Clone, Copy, Debug, PartialEq, Eq)]
pub struct ReportLine {
    pub phase: u32,
    pub partition: u32,
    /// The slots that the allocator's bit holds.
    pub live: Tally,
    /// The slots that were freed, and to which `raw_ptr`s still point.
    pub quarantined: Tally,
    /// The free slots in the threads' caches.
    pub cached: Tally,
    /// The free slots that are with the root.
    pub root: Tally,
    /// Bytes of committed system pages, and of the slots of direct maps.
    pub committed: u64,
    /// Bytes of the super pages that the partition holds.
    pub reserved: u64,
    /// How many spans are full.
    pub full: u32,
    /// How many spans are active.
    pub active: u32,
    /// How many spans are empty.
    pub empty: u32,
    /// How many spans are decommitted.
    pub decommitted: u32,
}
