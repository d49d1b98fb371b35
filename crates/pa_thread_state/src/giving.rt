//! Slots of a list that go back to the root of their partition.
ghost use Rattle.std.specs.Prelude.{◌≡◌, ◌≢◌, ℕ, ◌+◌, ◌*◌, ◌<◌, ◌≤◌, length, map, take, AllPairs, Contains, OnOk, OnErr, IfErr};
ghost use Rattle.pa_record.specs.declared.root.RootAct.TheVariants.{Give};
ghost use Rattle.pa_trace.specs.Limits.{most_partitions};
ghost use Rattle.pa_region.specs.Views.{least_stake};
ghost use Rattle.pa_rules.specs.Sizes.{HasClass};
ghost use Rattle.pa_region.specs.Lending.{CanLend};
ghost use Rattle.pa_region.specs.Hands.{left_after, given_after, IsParted};
ghost use Rattle.pa_cache.specs.Caches.{HoldsFree, batch_after, rest_after};
ghost use Rattle.pa_root.specs.Filling.{frees_parcel, free_item};
ghost use Rattle.pa_root.specs.Handing.{HasOnly, HasSeenFill, GiveTakes};
ghost use Rattle.pa_op_specs.specs.Stocks.{titles_in};
ghost use Rattle.pa_op_specs.specs.Workers.{HasItsStake};
ghost use Rattle.pa_thread_state.specs.Allocating.{BecomesList};
ghost use Rattle.pa_thread_state.specs.Giving.{GivesTail, GivesBatch, HandsBack, TakesBack};
ghost use Rattle.pa_thread_state.specs.Stopping.{KeepsItsStake, RefusesBatch, StopsTail};

use crate::heap::Heap;
use crate::roots::with_root;
use crate::stock::Stock;
use arrayvec::ArrayVec;
use pa_buckets::Class;
use pa_cache::other_lists_stay;
use pa_cells::slots_stay_seen;
use pa_machine::Item;
use pa_region::{Name, Note, Region, Seat, kept_numbers_stay, seen_lists_join, seen_numbers_join};
use pa_root::Root;
use pa_slot::{OutOfMemory, Title};
use std::sync::{Mutex, Wait};

// How many titles go back in one entry.
const BATCH: u32 = 16;

impl<N: Name> Stock<N> {
    // Gives the titles of a list after its first `keep` back to the root of their partition, 16 at a time, each batch in
    // one entry of the line. If it runs out of memory, those that were given stay given, the seat has those of the batch that the
    // root refused, which are on no list, and the others stay on the list.
    pub(crate) fn give_tail<R: Wait>(
        &mut self,
        rt: &R,
        heap: &Heap<N>,
        line: u32,
        partition: u32,
        class: Class,
        keep: u32,
    ) -> Result<(), OutOfMemory>
        requires stake { HasItsStake self.old }
        requires partition { partition < most_partitions }
        requires class { HasClass self.old.caches.version class }
        ensures gives { OnOk result (GivesTail line partition class keep self.old self.new) }
        ensures stake { OnErr result (KeepsItsStake self.old self.new) }
        ensures stops { OnErr result (StopsTail line partition class keep self.old self.new) }
        ensures budget { self.new.view.budget ≡ self.old.view.budget }
    {
        self.kept();
        let batches = self.batches_behind(partition, class, keep);
        for done in 0..batches {
            let _ = done;
            self.kept();
            self.give_batch(rt, heap, line, partition, class, keep)?;
        }
        self.kept();
        Ok(())
    }

    // How many batches the titles of a list after its first `keep` make.
    fn batches_behind(&self, partition: u32, class: Class, keep: u32) -> u32
        requires partition { partition < most_partitions }
        requires class { HasClass self.now.caches.version class }
        ensures all { length (titles_in self.now.caches partition class) ≤ keep + 16 * result }
        ensures no_more { (n : ℕ) → n < result → keep + 16 * n < length (titles_in self.now.caches partition class) }
    {
        let count = self.count_listed(partition, class);
        if count <= keep {
            0
        } else {
            (count - keep - 1) / BATCH + 1
        }
    }

    // Takes the first 16 titles after the first `keep` off a list, or all of them if there are fewer. The seat still has them.
    fn take_batch(
        &mut self,
        region: &Region,
        partition: u32,
        class: Class,
        keep: u32,
    ) -> ArrayVec<Title, 16>
        requires region { region.now ≡ N.region }
        requires partition { partition < most_partitions }
        requires class { HasClass self.old.caches.version class }
        ensures titles { result.items ≡ batch_after keep (titles_in self.old.caches partition class) }
        ensures different { AllPairs ◌≢◌ result.items }
        ensures rest { BecomesList partition class (rest_after keep (titles_in self.old.caches partition class)) self.old self.new }
    {
        other_lists_stay();
        self.kept();
        self.caches
            .spill(region, &mut self.seat, partition, class, keep)
    }

    // Gives the first 16 titles of a list after its first `keep` back, or all of them if there are fewer. If it runs out of memory,
    // the seat has them, and they are on no list.
    fn give_batch<R: Wait>(
        &mut self,
        rt: &R,
        heap: &Heap<N>,
        line: u32,
        partition: u32,
        class: Class,
        keep: u32,
    ) -> Result<(), OutOfMemory>
        requires stake { HasItsStake self.old }
        requires partition { partition < most_partitions }
        requires class { HasClass self.old.caches.version class }
        requires some { keep < length (titles_in self.old.caches partition class) }
        ensures gives { OnOk result (GivesBatch line partition class keep self.old self.new) }
        ensures stake { OnErr result (KeepsItsStake self.old self.new) }
        ensures refused { OnErr result (RefusesBatch partition class keep self.old self.new) }
        ensures budget { self.new.view.budget ≡ self.old.view.budget }
    {
        kept_numbers_stay();
        slots_stay_seen();
        self.kept();
        let titles = self.take_batch(heap.region(), partition, class, keep);
        self.kept();
        give_titles(rt, heap, &mut self.seat, line, partition, titles)?;
        self.seat.aware();
        Ok(())
    }
}

// Hands these titles, which the seat holds free, over to the root of their partition.
// If it runs out of memory, the seat has them again.
fn give_titles<N: Name, R: Wait>(
    rt: &R,
    heap: &Heap<N>,
    seat: &mut Seat,
    line: u32,
    partition: u32,
    titles: ArrayVec<Title, 16>,
) -> Result<(), OutOfMemory>
    requires region { seat.old.region ≡ N.region }
    requires partition { partition < most_partitions }
    requires lender { CanLend seat.old.view }
    requires some { 1 ≤ length titles.items }
    requires free { HoldsFree seat.old.view titles.items }
    requires once { AllPairs ◌≢◌ titles.items }
    requires named { (t : Title) → Contains titles.items t → HasSeenFill partition seat.old.view t }
    ensures region { seat.new.region ≡ N.region }
    ensures gave { OnOk result
        (HandsBack (least_stake seat.old.view.stakes) line partition titles.items seat.old.view seat.new.view) }
    ensures back { OnErr result (TakesBack seat.old.view seat.new.view) }
{
    seen_numbers_join();
    seen_lists_join();
    seat.aware();
    let region = heap.region();
    let note = hand_free(region, seat, titles.as_slice());
    seat.aware();
    match give_to(rt, heap, seat, line, partition, note, titles) {
        Ok(()) => Ok(()),
        Err(note) => {
            region.take(seat, note);
            Err(OutOfMemory)
        }
    }
}

// Hands these titles over, and nothing else.
fn hand_free(region: &Region, seat: &mut Seat, titles: &[Title]) -> Note
    requires region { seat.old.region ≡ region.now }
    requires few { length titles.now ≤ 16 }
    requires free { HoldsFree seat.old.view titles.now }
    requires once { AllPairs ◌≢◌ titles.now }
    ensures regions { (seat.new.region ≡ region.now) × (result.region ≡ region.now) }
    ensures left { seat.new.view ≡ left_after (frees_parcel titles.now) seat.old.view }
    ensures given { result.view ≡ given_after (frees_parcel titles.now) seat.old.view }
    ensures parted { IsParted seat.old.view seat.new.view result.view }
{
    let items = free_items(titles);
    region.hand(seat, &items[..titles.len()], 0, &[])
}

// The first `titles.len()` items are these titles as free ones, which can be handed over.
fn free_items(titles: &[Title]) -> [Item; 16]
    requires few { length titles.now ≤ 16 }
    ensures items { take (length titles.now) result ≡ map free_item titles.now }
    ensures many { length result ≡ 16 }
{
    let none = Item::Raw { start: 0, len: 0 };
    let mut items = [none; 16];
    for i in 0..titles.len() {
        items[i] = Item::Free(titles[i]);
    }
    items
}

// Gives the titles of a note to the root of this partition. If this runs out of memory,
// the note comes back, and nothing changed.
fn give_to<N: Name, R: Wait>(
    rt: &R,
    heap: &Heap<N>,
    seat: &mut Seat,
    line: u32,
    partition: u32,
    note: Note,
    titles: ArrayVec<Title, 16>,
) -> Result<(), Note>
    requires regions { (seat.old.region ≡ N.region) × (note.region ≡ N.region) }
    requires partition { partition < most_partitions }
    requires lender { CanLend seat.old.view }
    requires some { 1 ≤ length titles.items }
    requires has { HasOnly titles.items note.view }
    requires once { AllPairs ◌≢◌ titles.items }
    requires named { (t : Title) → Contains titles.items t → HasSeenFill partition note.view t }
    ensures region { seat.new.region ≡ N.region }
    ensures took { OnOk result
        (GiveTakes (least_stake seat.old.view.stakes) partition line seat.old.view seat.new.view note.view titles.items) }
    ensures handed { IfErr result (λ n. n ≡ note) }
    ensures err { OnErr result (seat.new ≡ seat.old) }
{
    with_root!(heap, partition, root => give_in(rt, heap, root, seat, line, note, titles))
}

// Gives the titles of a note to the root behind this lock.
fn give_in<N: Name, R: Wait, const P: u32>(
    rt: &R,
    heap: &Heap<N>,
    root: &Mutex<Root<N, P>>,
    seat: &mut Seat,
    line: u32,
    note: Note,
    titles: ArrayVec<Title, 16>,
) -> Result<(), Note>
    requires regions { (seat.old.region ≡ N.region) × (note.region ≡ N.region) }
    requires lender { CanLend seat.old.view }
    requires some { 1 ≤ length titles.items }
    requires has { HasOnly titles.items note.view }
    requires once { AllPairs ◌≢◌ titles.items }
    requires named { (t : Title) → Contains titles.items t → HasSeenFill P note.view t }
    ensures region { seat.new.region ≡ N.region }
    ensures took { OnOk result
        (GiveTakes (least_stake seat.old.view.stakes) P line seat.old.view seat.new.view note.view titles.items) }
    ensures handed { IfErr result (λ n. n ≡ note) }
    ensures err { OnErr result (seat.new ≡ seat.old) }
{
    let mut locked = root.lock(rt);
    let root = &mut *locked;
    match root.give_back(heap.region(), seat, line, note, titles) {
        Ok(()) => Ok(()),
        Err((note, _)) => Err(note),
    }
}
