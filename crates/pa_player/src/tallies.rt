ghost use Rattle.std.specs.Prelude.{◌≡◌, ◌+◌, ◌-◌, ◌<◌, ◌≤◌, ◌^◌, length, slice_set};
ghost use Rattle.pa_trace.specs.Limits.{most_partitions};
ghost use Rattle.pa_player.specs.Tallies.{tally_at, IsNone};

use pa_record::Tally;
use pa_trace::MOST_PARTITIONS;

// What the partitions have of one count of the report.
#[derive(Clone, Copy)]
pub(crate) struct Tallies {
    pub(crate) of: [Tally; MOST_PARTITIONS as usize],
}

impl Tallies {
    // Nothing in any partition.
    pub(crate) fn new() -> Tallies
        ensures { IsNone result.of }
    {
        Tallies {
            of: [Tally { slots: 0, bytes: 0 }; MOST_PARTITIONS as usize],
        }
    }

    // One more slot of `len` bytes.
    pub(crate) fn add(&mut self, partition: u32, len: u32)
        requires partition { partition < most_partitions }
        requires slots { (tally_at self.old.of partition).slots < 2 ^ 32 }
        requires bytes { (tally_at self.old.of partition).bytes < 2 ^ 63 }
        ensures { self.new.of ≡ slice_set self.old.of partition
            (record { slots = (tally_at self.old.of partition).slots + 1; bytes = (tally_at self.old.of partition).bytes + len }) }
    {
        let tally = &mut self.of[partition as usize];
        tally.slots += 1;
        tally.bytes += u64::from(len);
    }

    // That many slots and bytes less.
    pub(crate) fn remove(&mut self, partition: u32, slots: u64, bytes: u64)
        requires partition { partition < most_partitions }
        requires slots { slots ≤ (tally_at self.old.of partition).slots }
        requires bytes { bytes ≤ (tally_at self.old.of partition).bytes }
        ensures { self.new.of ≡ slice_set self.old.of partition
            (record { slots = (tally_at self.old.of partition).slots - slots; bytes = (tally_at self.old.of partition).bytes - bytes }) }
    {
        let tally = &mut self.of[partition as usize];
        tally.slots -= slots;
        tally.bytes -= bytes;
    }
}
