ghost use Rattle.std.specs.Prelude.{◌≡◌, ◌+◌, ◌<◌, ◌≤◌, [], OnOk, OnErr, All, drop, length, map, slice_range};
ghost use Rattle.pa_player.specs.Asks.{CanGive, CanPutBack, CanTakeBack, CanUnmap};
ghost use Rattle.pa_player.specs.Changes.{bytes_at, gave_back, given, list_in, taken_back, unmapped_at};
ghost use Rattle.pa_player.specs.Playing.{numbered_at};
ghost use Rattle.pa_player.specs.Tables.{slot_at};
ghost use Rattle.pa_player.specs.Told.{told_before};

use crate::output::Output;
use crate::player::Player;
use crate::table::{Table, fits};
use crate::told::Told;
use arrayvec::ArrayVec;
use pa_buckets::{Class, cache_limit};
use pa_layout::{super_page_of, supers_for};
use pa_record::{Act, Batch, LentSlots, PoolAct};
use pa_slot::{OutOfMemory, Title};

// The most slots that go back to a root at once.
const BATCH: usize = 16;

impl<O: Output> Player<Told<O>> {
    // A slot that a step of the thread returned: to its cache, or back to the pool.
    pub(crate) fn take_back(&mut self, thread: u32, place: u32) -> Result<(), OutOfMemory>
        requires place { place < length self.old.table }
        requires can { CanTakeBack thread place (slot_at self.old.table place).partition (slot_at self.old.table place).class self.old }
        ensures taken { OnOk result (self.new ≡ taken_back thread (slot_at self.old.table place).partition
            (slot_at self.old.table place).class place self.old) }
        ensures same { OnErr result (told_before self.new.told ≡ told_before self.old.told) }
    {
        let slot = self.table.slot(place);
        match slot.class {
            Some(class) => self.put_back(thread, place, slot.partition, class),
            None => self.unmap(place, slot.partition),
        }
    }

    // Puts a slot at the front of its list. If that is then longer than its limit,
    // the slots after half of the limit go back to the root.
    fn put_back(
        &mut self,
        thread: u32,
        place: u32,
        partition: u32,
        class: Class,
    ) -> Result<(), OutOfMemory>
        requires place { place < length self.old.table }
        requires can { CanPutBack thread place partition class self.old }
        ensures put { OnOk result (self.new ≡ taken_back thread partition (Some class) place self.old) }
        ensures same { OnErr result (told_before self.new.told ≡ told_before self.old.told) }
    {
        let limit = cache_limit(class) as usize;
        let at = self.list_of(thread, partition, class);
        let len = self.table.slot(place).title.len;
        self.caches.put(at, place);
        self.cached.add(partition, len);
        if self.caches.places(at).len() > limit {
            self.give(at, partition, limit / 2)?;
        }
        Ok(())
    }

    // Gives the slots of a list from this index on back to the root, in batches of at most 16.
    pub(crate) fn give(&mut self, at: usize, partition: u32, keep: usize) -> Result<(), OutOfMemory>
        requires at { at < length self.old.caches }
        requires can { CanGive partition (drop keep (list_in self.old at)) self.old }
        ensures given { OnOk result (self.new ≡ given partition at keep self.old) }
        ensures same { OnErr result (told_before self.new.told ≡ told_before self.old.told) }
    {
        let count = self.caches.places(at).len();
        let mut from = keep;
        'batches: while from < count {
            let to = count.min(from + BATCH);
            self.give_batch(at, partition, from, to)?;
            from = to;
        }
        self.caches.keep(at, keep);
        Ok(())
    }

    // Gives the slots of a part of a list back to the root, 1 to 16.
    #[inline(always)]
    fn give_batch(
        &mut self,
        at: usize,
        partition: u32,
        from: usize,
        to: usize,
    ) -> Result<(), OutOfMemory>
        requires at { at < length self.old.caches }
        requires some { from < to }
        requires few { to ≤ from + 16 }
        requires within { to ≤ length (list_in self.old at) }
        requires can { CanGive partition (slice_range (list_in self.old at) from to) self.old }
        ensures gave { OnOk result (self.new ≡ gave_back partition (slice_range (list_in self.old at) from to) self.old) }
        ensures same { OnErr result (self.new.told ≡ self.old.told) }
    {
        let places = &self.caches.places(at)[from..to];
        let mut titles = ArrayVec::new();
        let mut batch = Batch::new();
        let bytes = list_given(&self.table, places, &mut titles, &mut batch);
        self.heap.roots.give(partition, titles.as_slice());
        let slots = LentSlots::of(batch.items());
        self.told.root(partition, Act::Give { slots })?;
        self.cached.remove(partition, titles.len() as u64, bytes);
        Ok(())
    }

    // A direct map goes back, and its super pages to the pool.
    fn unmap(&mut self, place: u32, partition: u32) -> Result<(), OutOfMemory>
        requires place { place < length self.old.table }
        requires can { CanUnmap place partition self.old }
        ensures unmapped { OnOk result (self.new ≡ unmapped_at partition place self.old) }
        ensures same { OnErr result (told_before self.new.told ≡ told_before self.old.told) }
    {
        let title = self.table.slot(place).title;
        let pool = self.heap.roots.unmap(partition, &mut self.heap.pool, title);
        let first = super_page_of(title.start);
        let count = supers_for(title.len);
        self.told.pool(partition, PoolAct::Give { count, first })?;
        let slot = self.table.numbered(place);
        self.told.root(partition, Act::Unmap { pool, slot })?;
        Ok(())
    }
}

// Lists the titles of the slots at these indices, at most 16, and the slots with their step numbers. Returns their bytes.
#[inline(always)]
fn list_given(
    table: &Table,
    places: &[u32],
    titles: &mut ArrayVec<Title, 16>,
    slots: &mut Batch,
) -> u64
    requires few { length places.now ≤ 16 }
    requires among { All (λ i. i < length table.now) places.now }
    requires no_titles { titles.old.items ≡ [] }
    requires no_slots { slots.old ≡ [] }
    ensures titles { titles.new.items ≡ map (λ i. (slot_at table.now i).title) places.now }
    ensures slots { slots.new ≡ map (numbered_at table.now) places.now }
    ensures bytes { result ≡ bytes_at table.now places.now }
{
    let mut bytes = 0;
    for place in places {
        let title = table.slot(*place).title;
        fits(title.len);
        titles.push(title);
        slots.push(table.numbered(*place));
        bytes += u64::from(title.len);
    }
    bytes
}
