ghost use Rattle.std.specs.Prelude.{◌≡◌, ◌≢◌, ◌%◌, ◌<◌, ◌≤◌, ◌^◌, [], IfNone, IfOk, OnOk, OnErr, length};
ghost use Rattle.pa_layout.specs.Limits.{most_supers};
ghost use Rattle.pa_trace.specs.declared.script.Op.TheVariants as ops;
ghost use Rattle.pa_trace.specs.declared.script.Line.TheVariants.{Do};
ghost use Rattle.pa_heap_effects.specs.Ops.{found_by};
ghost use Rattle.pa_player.specs.Asks.{CanAllocateMap, CanAllocateSlot, CanIssue, CanIssueFront, CanPlace, CanPut};
ghost use Rattle.pa_layout.specs.Pages.{supers_for};
ghost use Rattle.pa_player.specs.Calls.{IsFillTold, IsMapTaken};
ghost use Rattle.pa_player.specs.Changes.{AllocatesMap, AllocatesSlot, ArePut, Fills, IsFrontIssued, Refills, asked_in};
ghost use Rattle.pa_player.specs.Changes.{issued, list_in, made_at};
ghost use Rattle.pa_player.specs.Playing.{list_place, register_at};
ghost use Rattle.pa_player.specs.Plays.{IsReady, Plays};
ghost use Rattle.pa_player.specs.Tables.{HasNone};
ghost use Rattle.pa_player.specs.Told.{journal_in, told_before};

use crate::output::Output;
use crate::player::Player;
use crate::table::{fits, name_of};
use crate::told::Told;
use arrayvec::ArrayVec;
use pa_buckets::{Class, class_in, fill_count, raw_of};
use pa_direct::{GREATEST_SIZE, Shape, shape};
use pa_layout::super_page_of;
use pa_place::Placed;
use pa_record::{Act, Answer, Batch, LentSlots, PoolAct};
use pa_rules::Register;
use pa_slot::{OutOfMemory, Step, Title};

// The bytes of a count word.
pub(crate) const COUNT_WORD: u32 = 8;

impl<O: Output> Player<Told<O>> {
    // An allocation into a register, which must have no handle.
    pub(crate) fn allocate(
        &mut self,
        thread: u32,
        reg: u32,
        partition: u32,
        size: u32,
    ) -> Result<Answer, OutOfMemory>
        requires { IsReady (Do thread (ops.Alloc reg partition size)) self.old }
        ensures played { IfOk result (Plays self.old thread (ops.Alloc reg partition size) self.new) }
        ensures same { OnErr result (told_before self.new.told ≡ told_before self.old.told) }
    {
        if self.register(thread, reg).has_handle() {
            Ok(Answer::Filled)
        } else {
            self.request(thread, reg, partition, size)
        }
    }

    // An allocation into a register that has no handle.
    fn request(
        &mut self,
        thread: u32,
        reg: u32,
        partition: u32,
        size: u32,
    ) -> Result<Answer, OutOfMemory>
        requires ready { IsReady (Do thread (ops.Alloc reg partition size)) self.old }
        requires none { HasNone (register_at self.old thread reg) }
        ensures played { IfOk result (Plays self.old thread (ops.Alloc reg partition size) self.new) }
        ensures same { OnErr result (told_before self.new.told ≡ told_before self.old.told) }
    {
        if size > GREATEST_SIZE {
            return Ok(Answer::TooLarge);
        }
        match class_in(self.version, raw_of(size)) {
            Some(class) => self.request_slot(thread, reg, partition, class),
            None => {
                let shape = shape(size).unwrap();
                self.request_map(thread, reg, partition, shape)
            }
        }
    }

    // An allocation of a slot of the class, from the thread's cache, which is filled first if it has none.
    fn request_slot(
        &mut self,
        thread: u32,
        reg: u32,
        partition: u32,
        class: Class,
    ) -> Result<Answer, OutOfMemory>
        requires { CanAllocateSlot thread reg partition class self.old }
        ensures allocates { IfOk result (AllocatesSlot thread reg partition
            (list_place self.old.version self.old.partitions thread partition class) class self.old self.new) }
        ensures same { OnErr result (told_before self.new.told ≡ told_before self.old.told) }
    {
        let at = self.list_of(thread, partition, class);
        if self.caches.places(at).is_empty() {
            return self.refill(thread, reg, partition, class);
        }
        Ok(self.issue_front(thread, reg, partition, at))
    }

    // An allocation of a slot of the class if the thread's cache has none.
    fn refill(
        &mut self,
        thread: u32,
        reg: u32,
        partition: u32,
        class: Class,
    ) -> Result<Answer, OutOfMemory>
        requires can { CanAllocateSlot thread reg partition class self.old }
        requires empty { list_in self.old (list_place self.old.version self.old.partitions thread partition class) ≡ [] }
        ensures refills { IfOk result (Refills thread reg partition
            (list_place self.old.version self.old.partitions thread partition class) class self.old self.new) }
        ensures same { OnErr result (told_before self.new.told ≡ told_before self.old.told) }
    {
        let at = self.list_of(thread, partition, class);
        match self.fill(at, partition, class)? {
            Some(entry) => Ok(Answer::Full { entry }),
            None => Ok(self.issue_front(thread, reg, partition, at)),
        }
    }

    // Issues the front of a list, which isn't empty.
    fn issue_front(&mut self, thread: u32, reg: u32, partition: u32, at: usize) -> Answer
        requires at { at < length self.old.caches }
        requires some { list_in self.old at ≢ [] }
        requires can { CanIssueFront thread reg partition at self.old }
        ensures { IsFrontIssued thread reg partition at self.old self.new result }
    {
        let place = self.caches.front(at).unwrap();
        let len = self.table.slot(place).title.len;
        self.cached.remove(partition, 1, u64::from(len));
        self.issue(thread, reg, place)
    }

    // Fills a list that is empty from the root. If there is no room, it returns the journal's entry that says so.
    #[inline(always)]
    fn fill(&mut self, at: usize, partition: u32, class: Class) -> Result<Option<u32>, OutOfMemory>
        requires at { at < length self.old.caches }
        requires empty { list_in self.old at ≡ [] }
        requires can { CanPlace partition self.old }
        ensures fills { IfOk result (Fills partition at class self.old self.new) }
        ensures at_list { OnOk result (at < length self.new.caches) }
        ensures some { IfOk result (λ o. IfNone o (list_in self.new at ≢ [])) }
        ensures same { OnErr result (told_before self.new.told ≡ told_before self.old.told) }
    {
        let want = fill_count(class);
        let mut titles = ArrayVec::new();
        let asked = self
            .heap
            .roots
            .fill(partition, &mut self.heap.pool, class, want, &mut titles)?;
        self.tell_asked(partition, 1, asked, titles.as_slice())?;
        if titles.is_empty() {
            let pool = asked.unwrap();
            let entry = self.told.refused(partition, Some(class), pool)?;
            return Ok(Some(entry));
        }
        self.tell_fill(at, partition, class, asked, titles.as_slice())?;
        Ok(None)
    }

    // Puts the slots that left the root into the list, in their order, and returns the journal's entry.
    fn tell_fill(
        &mut self,
        at: usize,
        partition: u32,
        class: Class,
        pool: Option<u32>,
        titles: &[Title],
    ) -> Result<(), OutOfMemory>
        requires at { at < length self.old.caches }
        requires empty { list_in self.old at ≡ [] }
        requires few { length titles.now ≤ 16 }
        requires can { CanPut partition self.old }
        requires journal { partition < length self.old.told.journals }
        requires entries { length (journal_in self.old.told partition) < 2 ^ 32 }
        ensures told { OnOk result (IsFillTold partition at class pool titles.now self.old self.new) }
        ensures at_list { OnOk result (at < length self.new.caches) }
        ensures many { OnOk result (length (list_in self.new at) ≡ length titles.now) }
        ensures same { OnErr result (self.new.told ≡ self.old.told) }
    {
        let mut batch = Batch::new();
        self.put_all(at, partition, class, titles, &mut batch)?;
        let slots = LentSlots::of(batch.items());
        self.told.root(partition, Act::Fill { class, pool, slots })?;
        Ok(())
    }

    // Records the pool's entry, if it was asked for `count` super pages.
    fn tell_asked(
        &mut self,
        partition: u32,
        count: u32,
        pool: Option<u32>,
        titles: &[Title],
    ) -> Result<(), OutOfMemory>
        ensures asked { OnOk result (self.new ≡ asked_in partition count titles.now pool self.old) }
        ensures same { OnErr result (self.new ≡ self.old) }
    {
        match pool {
            None => Ok(()),
            Some(_) => {
                let first = first_super(titles);
                self.told.pool(partition, PoolAct::Take { count, first })
            }
        }
    }

    // Puts the slots that left the root into the list, in their order.
    #[inline(always)]
    fn put_all(
        &mut self,
        at: usize,
        partition: u32,
        class: Class,
        titles: &[Title],
        batch: &mut Batch,
    ) -> Result<(), OutOfMemory>
        requires at { at < length self.old.caches }
        requires empty { list_in self.old at ≡ [] }
        requires few { length titles.now ≤ 16 }
        requires can { CanPut partition self.old }
        requires no_slots { batch.old ≡ [] }
        ensures put { OnOk result (ArePut partition at class titles.now self.old self.new batch.new) }
        ensures at_list { OnOk result (at < length self.new.caches) }
        ensures many { OnOk result (length (list_in self.new at) ≡ length titles.now) }
        ensures journals { self.new.told ≡ self.old.told }
    {
        for title in titles {
            fits(title.len);
            let place = self.table.home(*title, partition, Some(class))?;
            batch.push(self.table.numbered(place));
            self.caches.push(at, place);
            self.cached.add(partition, title.len);
        }
        Ok(())
    }

    // An allocation of a direct map of this shape.
    fn request_map(
        &mut self,
        thread: u32,
        reg: u32,
        partition: u32,
        shape: Shape,
    ) -> Result<Answer, OutOfMemory>
        requires { CanAllocateMap thread reg partition shape.slot shape.supers self.old }
        ensures allocates { IfOk result (AllocatesMap thread reg partition shape.slot shape.supers self.old self.new) }
        ensures same { OnErr result (told_before self.new.told ≡ told_before self.old.told) }
    {
        let placed = self.take_map(partition, shape)?;
        let pool = placed.pool.unwrap();
        let Some(title) = placed.titles.as_slice().first() else {
            let entry = self.told.refused(partition, None, pool)?;
            return Ok(Answer::Full { entry });
        };
        let slot = name_of(*title);
        let len = title.len;
        self.told.root(partition, Act::Map { pool, slot, len })?;
        let place = self.table.home(*title, partition, None)?;
        Ok(self.issue(thread, reg, place))
    }

    // Takes a direct map from the root of a partition, or none if there is no room.
    #[inline(always)]
    fn take_map(&mut self, partition: u32, shape: Shape) -> Result<Placed, OutOfMemory>
        requires whole { shape.slot % 4096 ≡ 0 }
        requires some { 0 < shape.slot }
        requires supers { shape.supers ≡ supers_for shape.slot }
        requires few { shape.supers ≤ most_supers }
        requires place { CanPlace partition self.old }
        ensures taken { IfOk result (IsMapTaken partition shape.slot shape.supers self.old self.new) }
        ensures same { OnErr result (self.new.told ≡ self.old.told) }
    {
        let count = shape.supers;
        let placed = self
            .heap
            .roots
            .map(partition, &mut self.heap.pool, shape.slot, count)?;
        self.tell_asked(partition, count, placed.pool, placed.titles.as_slice())?;
        Ok(placed)
    }

    // Issues a free slot to a register.
    fn issue(&mut self, thread: u32, reg: u32, place: u32) -> Answer
        requires can { CanIssue thread reg place self.old }
        ensures answer { result ≡ made_at self.old place }
        ensures issued { self.new ≡ issued thread reg place self.old }
    {
        let seen = self.table.step(place, Step::Issue);
        self.table.fill(place, 0);
        let slot = self.table.slot(place);
        let len = slot.title.len;
        self.set_register(thread, reg, Register::Own(place));
        self.live.add(slot.partition, len);
        let usable = len - COUNT_WORD;
        Answer::Made { seen, usable }
    }
}

// The super page in which the first of the titles lies.
fn first_super(titles: &[Title]) -> Option<u32>
    ensures { result ≡ found_by titles.now }
{
    titles.first().map(|title| super_page_of(title.start))
}
