ghost use Rattle.std.specs.Prelude.{◌≡◌, ◌≢◌, ◌↔◌, ◌+◌, ◌*◌, ◌%◌, ◌<◌, ◌≤◌, [], ◌∷◌, All, AllPairs, Contains, IfOk, IfSome, IsNone, length, map};
ghost use Rattle.pa_slot.specs.declared.title.Title.{Title};
ghost use Rattle.pa_buckets.specs.Limits.{class_count, first_class};
ghost use Rattle.pa_buckets.specs.Table.{slot_of};
ghost use Rattle.pa_buckets.specs.Bands.{limit_of};
ghost use Rattle.pa_trace.specs.Limits.{most_partitions};
ghost use Rattle.pa_region.specs.declared.view.View.{View};
ghost use Rattle.pa_region.specs.Views.{free_of};
ghost use Rattle.pa_rules.specs.Lists.{IsTallyOf};
ghost use Rattle.pa_rules.specs.Sizes.{HasClass, class_total};
ghost use Rattle.pa_cache.specs.Caches.{HoldsFree, batch_after, rest_after};
ghost use Rattle.pa_cache.specs.Chained.{HoldsList, list_in};
ghost use Rattle.pa_op_specs.specs.Stocks.{AreNoLists};
ghost use Rattle.pa_thread_state.specs.Lists.{PopsFrom, RelinksCache, numbered_in, parts_of, titles_of};

use arrayvec::ArrayVec;
use pa_buckets::{Class, first_class, rows_have_bounds};
use pa_cache::Cache;
use pa_record::Tally;
use pa_region::{Region, Seat};
use pa_rules::{cache_place, changed_by, class_total, no_sums};
use pa_slot::{OutOfMemory, Title};
use pa_trace::MOST_PARTITIONS;
use std::alloc::Global;
use std::marker::Model;

// A worker's caches: of each of four partitions one of each class of the version.
// Beside them is what the lists of each partition have together.
#[derive(Drop)]
pub(crate) struct Lists {
    version: u32,
    caches: Vec<Cache>,
    sums: [Tally; MOST_PARTITIONS as usize],
}

impl Model for Lists {
    ghost use Rattle.pa_thread_state.specs.Lists.{AreSummed, WorkerCaches};

    ghost Value = { WorkerCaches };

    ghost view = { λ l. record { version = l.version; parts = l.caches.items } };

    ghost invariant = { λ l. AreSummed (record { version = l.version; parts = l.caches.items }) l.sums };
}

impl Lists {
    // Caches that are all empty.
    pub(crate) fn new(alloc: Global, version: u32) -> Result<Lists, OutOfMemory>
        ensures version { IfOk result (λ l. l.version ≡ version) }
        ensures lists { IfOk result
            (λ l. (v : View) → AreNoLists version (most_partitions * class_total version) (map (list_in v) l.parts)) }
        ensures holds { IfOk result (λ l. (v : View) → All (HoldsList v) l.parts) }
    {
        Ok(Lists {
            version,
            caches: no_lists(alloc, version)?,
            sums: no_sums(),
        })
    }

    // The version of the run.
    pub(crate) fn version(&self) -> u32
        ensures { result ≡ self.now.version }
    {
        self.version
    }

    // How many titles the cache of a partition and a class has, whatever the words are.
    pub(crate) fn len(&self, partition: u32, class: Class) -> u32
        requires partition { partition < most_partitions }
        requires class { HasClass self.now.version class }
        ensures count { (v : View) → result ≡ length (titles_of v partition class self.now) }
        ensures few { result ≤ 72 }
    {
        self.caches[cache_place(self.version, partition, class)].len()
    }

    // What the lists of a partition have together.
    pub(crate) fn sum(&self, partition: u32) -> Tally
        requires partition { partition < most_partitions }
        ensures { (v : View) → IsTallyOf (numbered_in v self.now partition) result }
    {
        self.sums[partition as usize]
    }

    // Takes the front title of a cache, or `None` if and only if it is empty.
    pub(crate) fn pop(
        &mut self,
        region: &Region,
        seat: &mut Seat,
        partition: u32,
        class: Class,
    ) -> Option<Title>
        requires region { seat.old.region ≡ region.now }
        requires partition { partition < most_partitions }
        requires class { HasClass self.old.version class }
        requires list { HoldsList seat.old.view (parts_of partition class self.old) }
        ensures none { IsNone result ↔ (titles_of seat.old.view partition class self.old ≡ []) }
        ensures size { IfSome result (λ t. t.len ≡ slot_of (parts_of partition class self.old).class) }
        ensures pops { PopsFrom partition class result seat.old.view self.old self.new }
        ensures seat { seat.new ≡ seat.old }
    {
        let at = cache_place(self.version, partition, class);
        let cache = &mut self.caches[at];
        let before = cache.len();
        let title = cache.pop(region, seat);
        let after = cache.len();
        let sum = changed_by(self.sums[partition as usize], class, before, after);
        self.sums[partition as usize] = sum;
        title
    }

    // Puts a free title at the front of a cache, which has room. A link is stored in its first content word.
    pub(crate) fn push(
        &mut self,
        region: &Region,
        seat: &mut Seat,
        partition: u32,
        class: Class,
        title: Title,
    )
        requires region { seat.old.region ≡ region.now }
        requires partition { partition < most_partitions }
        requires class { HasClass self.old.version class }
        requires list { HoldsList seat.old.view (parts_of partition class self.old) }
        requires few { length (titles_of seat.old.view partition class self.old) ≤ limit_of (parts_of partition class self.old).class }
        requires able { 0 < free_of seat.old.view title }
        requires size { title.len ≡ slot_of (parts_of partition class self.old).class }
        requires new { Contains (titles_of seat.old.view partition class self.old) title → ⊥ }
        ensures region { seat.new.region ≡ seat.old.region }
        ensures front { RelinksCache partition class (title ∷ titles_of seat.old.view partition class self.old)
            seat.old.view seat.new.view self.old self.new }
    {
        rows_have_bounds();
        let at = cache_place(self.version, partition, class);
        let cache = &mut self.caches[at];
        let before = cache.len();
        cache.push(region, seat, title);
        let after = cache.len();
        let sum = changed_by(self.sums[partition as usize], class, before, after);
        self.sums[partition as usize] = sum;
    }

    // Puts at most 8 free titles into an empty cache. The first becomes the front.
    pub(crate) fn load(
        &mut self,
        region: &Region,
        seat: &mut Seat,
        partition: u32,
        class: Class,
        titles: &[Title],
    )
        requires region { seat.old.region ≡ region.now }
        requires partition { partition < most_partitions }
        requires class { HasClass self.old.version class }
        requires empty { titles_of seat.old.view partition class self.old ≡ [] }
        requires few { length titles.now ≤ 8 }
        requires free { HoldsFree seat.old.view titles.now }
        requires size { All (λ t. t.len ≡ slot_of (parts_of partition class self.old).class) titles.now }
        requires different { AllPairs ◌≢◌ titles.now }
        ensures region { seat.new.region ≡ seat.old.region }
        ensures loaded { RelinksCache partition class titles.now seat.old.view seat.new.view self.old self.new }
    {
        let at = cache_place(self.version, partition, class);
        let cache = &mut self.caches[at];
        let before = cache.len();
        cache.load(region, seat, titles);
        let after = cache.len();
        let sum = changed_by(self.sums[partition as usize], class, before, after);
        self.sums[partition as usize] = sum;
    }

    // Takes out a cache's titles after the first `keep`, in order, at most 16.
    pub(crate) fn spill(
        &mut self,
        region: &Region,
        seat: &mut Seat,
        partition: u32,
        class: Class,
        keep: u32,
    ) -> ArrayVec<Title, 16>
        requires region { seat.old.region ≡ region.now }
        requires partition { partition < most_partitions }
        requires class { HasClass self.old.version class }
        requires list { HoldsList seat.old.view (parts_of partition class self.old) }
        ensures batch { result.items ≡ batch_after keep (titles_of seat.old.view partition class self.old) }
        ensures different { AllPairs ◌≢◌ result.items }
        ensures region { seat.new.region ≡ seat.old.region }
        ensures rest { RelinksCache partition class (rest_after keep (titles_of seat.old.view partition class self.old))
            seat.old.view seat.new.view self.old self.new }
    {
        let at = cache_place(self.version, partition, class);
        let cache = &mut self.caches[at];
        let before = cache.len();
        let batch = cache.spill(region, seat, keep);
        let after = cache.len();
        let sum = changed_by(self.sums[partition as usize], class, before, after);
        self.sums[partition as usize] = sum;
        batch
    }
}

// The class with this number.
pub(crate) fn class_numbered(number: u32) -> Class
    requires { number < class_count }
    ensures { result ≡ number }
{
    Class::of(number).unwrap()
}

// Empty caches for the version's classes of each partition.
fn no_lists(alloc: Global, version: u32) -> Result<Vec<Cache>, OutOfMemory>
    ensures lists { IfOk result (λ l. (v : View) → AreNoLists version (most_partitions * class_total version) (map (list_in v) l.items)) }
    ensures holds { IfOk result (λ l. (v : View) → All (HoldsList v) l.items) }
{
    let count = MOST_PARTITIONS * class_total(version);
    let mut caches = Vec::with_capacity(alloc, count as usize)?;
    for place in 0..count {
        caches.push(Cache::new(class_at(version, place)))?;
    }
    Ok(caches)
}

// The class of the list at this place.
fn class_at(version: u32, place: u32) -> Class
    ensures { result ≡ first_class version + place % class_total version }
{
    class_numbered(first_class(version) + place % class_total(version))
}
