ghost use Rattle.std.specs.Prelude.{◌≡◌, ◌<◌, ◌≤◌, ◌-◌, ◌%◌, ◌^◌, ◌≢◌, [], IfOk, All, AllPairs, Contains, map, length};
ghost use Rattle.std.specs.Prelude.{slice_index_or, slice_set};
ghost use Rattle.pa_layout.specs.Limits.{most_supers};
ghost use Rattle.pa_layout.specs.Pages.{super_page_at, supers_for};
ghost use Rattle.pa_record.specs.declared.taken.Taken.{Taken};
ghost use Rattle.pa_record.specs.Pool.{IsOneTake, gave};
ghost use Rattle.pa_record.specs.Spans.{name_of};
ghost use Rattle.pa_record.specs.Root.{IsOut, all_returned, new_root, purged, unmapped};
ghost use Rattle.pa_record.specs.Census.{census};
ghost use Rattle.pa_record.specs.Sound.{IsBornBelow};
ghost use Rattle.pa_place.specs.Placed.{FillDid, IsEmptyIfRefused, MapDid};
ghost use Rattle.pa_player.specs.Begun.{AreNew};

use arrayvec::ArrayVec;
use pa_buckets::Class;
use pa_place::{Placed, Placement, PoolPlan};
use pa_record::Census;
use pa_slot::{OutOfMemory, Title};
use std::alloc::Global;
use std::marker::Model;

// The roots, by their partitions. They are seen as the list of them.
#[derive(Drop)]
pub(crate) struct Roots {
    of: Vec<Placement>,
}

impl Model for Roots {
    ghost use Rattle.std.specs.Prelude.{List};
    ghost use Rattle.pa_record.specs.Root.{Root};

    ghost Value = { List Root };

    ghost view = { λ r. r.of.items };
}

impl Roots {
    // That many roots without a span.
    pub(crate) fn new(alloc: Global, partitions: u32) -> Result<Roots, OutOfMemory>
        ensures { IfOk result (AreNew partitions) }
    {
        let mut of = Vec::with_capacity(alloc, partitions as usize)?;
        for _ in 0..partitions {
            of.push(Placement::new(alloc)?)?;
        }
        Ok(Roots { of })
    }

    // What the root of a partition has.
    pub(crate) fn census(&self, partition: u32) -> Census
        requires among { partition < length self.now }
        ensures { result ≡ census (slice_index_or self.now partition new_root) }
    {
        self.of[partition as usize].census()
    }

    // Fills from the root of a partition: `want` slots of the class, or as many as there are, into the list, which must
    // have none. Returns the pool's entry, if the pool was asked.
    #[inline(always)]
    pub(crate) fn fill(
        &mut self,
        partition: u32,
        pool: &mut PoolPlan,
        class: Class,
        want: u32,
        titles: &mut ArrayVec<Title, 16>,
    ) -> Result<Option<u32>, OutOfMemory>
        requires among { partition < length self.old }
        requires some { 1 ≤ want }
        requires few { want ≤ 8 }
        requires turn { (slice_index_or self.old partition new_root).turn < 2 ^ 62 }
        requires entries { pool.old.entries < 2 ^ 32 - 1 }
        requires born { IsBornBelow pool.old.entries (slice_index_or self.old partition new_root) }
        requires no_titles { titles.old.items ≡ [] }
        ensures filled { IfOk result (λ asked. FillDid class want pool.old pool.new
            (slice_index_or self.old partition new_root) (slice_index_or self.new partition new_root)
            (record { pool = asked; titles = titles.new })) }
        ensures empty { IfOk result (λ asked. IsEmptyIfRefused 1 pool.old (record { pool = asked; titles = titles.new })) }
        ensures others { self.new ≡ slice_set self.old partition (slice_index_or self.new partition new_root) }
    {
        self.of[partition as usize].fill_into(pool, class, want, titles)
    }

    // Makes a direct map of a partition.
    #[inline(always)]
    pub(crate) fn map(
        &mut self,
        partition: u32,
        pool: &mut PoolPlan,
        slot: u32,
        supers: u32,
    ) -> Result<Placed, OutOfMemory>
        requires among { partition < length self.old }
        requires whole { slot % 4096 ≡ 0 }
        requires some { 0 < slot }
        requires supers { supers ≡ supers_for slot }
        requires few { supers ≤ most_supers }
        requires entries { pool.old.entries < 2 ^ 32 - 1 }
        requires born { IsBornBelow pool.old.entries (slice_index_or self.old partition new_root) }
        ensures mapped { IfOk result (MapDid slot pool.old pool.new
            (slice_index_or self.old partition new_root) (slice_index_or self.new partition new_root)) }
        ensures empty { IfOk result (IsEmptyIfRefused supers pool.old) }
        ensures others { self.new ≡ slice_set self.old partition (slice_index_or self.new partition new_root) }
    {
        self.of[partition as usize].map(pool, slot, supers)
    }

    // Gives slots back to the root of a partition.
    #[inline(always)]
    pub(crate) fn give(&mut self, partition: u32, titles: &[Title])
        requires among { partition < length self.old }
        requires few { length titles.now ≤ 16 }
        requires are_out { All (IsOut (slice_index_or self.old partition new_root)) (map name_of titles.now) }
        requires once { AllPairs ◌≢◌ (map name_of titles.now) }
        requires turn { (slice_index_or self.old partition new_root).turn < 2 ^ 62 }
        ensures { self.new ≡ slice_set self.old partition
            (all_returned (map name_of titles.now) (slice_index_or self.old partition new_root)) }
    {
        self.of[partition as usize].give(titles);
    }

    // Gives a direct map of a partition back, and its super pages to the pool. Returns the pool's entry.
    pub(crate) fn unmap(&mut self, partition: u32, pool: &mut PoolPlan, title: Title) -> u32
        requires among { partition < length self.old }
        requires mapped { Contains (slice_index_or self.old partition new_root).maps title }
        requires one_take { (t : Taken) × IsOneTake pool.old (super_page_at title.start) (supers_for title.len) t }
        requires entries { pool.old.entries < 2 ^ 32 - 1 }
        ensures entry { result ≡ pool.old.entries }
        ensures unmapped { self.new ≡ slice_set self.old partition (unmapped (name_of title) (slice_index_or self.old partition new_root)) }
        ensures pool { pool.new ≡ gave (super_page_at title.start) pool.old }
    {
        self.of[partition as usize].unmap(pool, title)
    }

    // Decommits every empty span of a partition.
    pub(crate) fn purge(&mut self, partition: u32)
        requires among { partition < length self.old }
        requires turn { (slice_index_or self.old partition new_root).turn < 2 ^ 62 }
        ensures { self.new ≡ slice_set self.old partition (purged (slice_index_or self.old partition new_root)) }
    {
        self.of[partition as usize].purge();
    }
}
