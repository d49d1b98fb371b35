ghost use Rattle.std.specs.Prelude.{◌≡◌, ◌↔◌, ◌<◌, ◌≤◌, length, IsTrue};
ghost use Rattle.pa_buckets.specs.Limits.{class_count};
ghost use Rattle.pa_buckets.specs.Bands.{limit_of};
ghost use Rattle.pa_trace.specs.Limits.{most_partitions};
ghost use Rattle.pa_rules.specs.Caches.{listed_slots};
ghost use Rattle.pa_rules.specs.Report.{listed_bytes};
ghost use Rattle.pa_rules.specs.Sizes.{HasClass};
ghost use Rattle.pa_link.specs.Chains.{Relinked};
ghost use Rattle.pa_op_specs.specs.Stocks.{listed_in, titles_in};
ghost use Rattle.pa_thread_state.specs.Changes.{BecomesFront, CanList, IsBack, IsPut};

use crate::stock::Stock;
use pa_buckets::{Class, cache_limit, rows_have_bounds};
use pa_cache::other_lists_stay;
use pa_cells::Handle;
use pa_record::Tally;
use pa_region::{Name, Region};
use pa_rules::has_class;

impl<N: Name> Stock<N> {
    // Puts the free title of a handle at the front of the list of its partition and class, which has room.
    pub(crate) fn list(&mut self, region: &Region, handle: &Handle, class: Class)
        requires region { region.now ≡ N.region }
        requires can { CanList handle.now class self.old }
        requires class { HasClass self.old.caches.version class }
        ensures { BecomesFront handle.now class self.old self.new }
    {
        other_lists_stay();
        self.kept();
        self.caches.push(
            region,
            &mut self.seat,
            handle.partition,
            class,
            handle.title,
        );
    }

    // How many titles the list of a partition and a class has.
    pub(crate) fn count_listed(&self, partition: u32, class: Class) -> u32
        requires partition { partition < most_partitions }
        requires class { HasClass self.now.caches.version class }
        ensures count { result ≡ length (titles_in self.now.caches partition class) }
        ensures few { result ≤ 64 }
    {
        rows_have_bounds();
        self.kept();
        self.caches.len(partition, class)
    }

    // Whether the list of a partition and a class has room for one more title. A class of another version has no list.
    pub(crate) fn room(&self, partition: u32, class: Class) -> bool
        requires partition { partition < most_partitions }
        ensures { IsTrue result
            ↔ (HasClass self.now.caches.version class × (length (titles_in self.now.caches partition class) < limit_of class)) }
    {
        if has_class(self.version(), class) {
            self.count_listed(partition, class) < cache_limit(class)
        } else {
            false
        }
    }

    // Whether slots of the class are kept in lists: the version has it, and its limit isn't 0.
    pub(crate) fn keeps_list(&self, class: Class) -> bool
        ensures { IsTrue result ↔ (HasClass self.now.caches.version class × (0 < limit_of class)) }
    {
        has_class(self.version(), class) && 0 < cache_limit(class)
    }

    /// How many slots the lists of a partition have, and their bytes.
    pub fn cached(&self, partition: u32) -> Tally
        requires { partition < most_partitions }
        ensures slots { result.slots ≡ listed_slots (listed_in self.now partition) 0 class_count }
        ensures bytes { result.bytes ≡ listed_bytes (λ class. length (listed_in self.now partition class)) 0 class_count }
        ensures few { result.slots ≤ 10880 }
    {
        self.caches.sum(partition)
    }

    // Puts the title of a slot that is back at the front of its list, if that has room.
    pub(crate) fn put(&mut self, region: &Region, handle: &Handle) -> bool
        requires region { region.now ≡ N.region }
        requires back { IsBack handle.now self.old }
        ensures is { IsPut result handle.now self.old self.new }
        ensures view { Relinked self.old.view self.new.view }
    {
        match handle.class {
            None => false,
            Some(class) => {
                if self.room(handle.partition, class) {
                    self.seat.placed(handle.title);
                    self.list(region, handle, class);
                    true
                } else {
                    false
                }
            }
        }
    }
}
