ghost use Rattle.std.specs.Prelude.{◌≡◌, ◌≢◌, ℕ, ◌+◌, ◌<◌, ◌≤◌, ◌^◌, [], true, false, IfOk, IfSome, IfNone, OnOk, OnErr, All, AllPairs, Contains, is_none, length, map};
ghost use Rattle.pa_record.specs.Spans.{name_of};
ghost use Rattle.pa_record.specs.Root.{new_root, span_for, opened, takes, mapped, unmapped, all_returned, purged, IsOut};
ghost use Rattle.pa_record.specs.Census.{census};
ghost use Rattle.pa_record.specs.Sound.{IsSound, IsSettled, IsBornBelow};
ghost use Rattle.pa_place.specs.Made.{AreMadeNow};
ghost use Rattle.pa_place.specs.Out.{IsOutAs, IsNotOut};
ghost use Rattle.pa_place.specs.Placed.{IsStep, map_in};
ghost use Rattle.pa_place.specs.Roomy.{no_room, fill_room, map_room, opened_room, HasTakes};

use crate::blanks::Blanks;
use crate::placed::{Made, Out};
use crate::plain_span::PlainSpan;
use crate::room::Room;
use crate::store::Store;
use arrayvec::ArrayVec;
use pa_buckets::Class;
use pa_record::Census;
use pa_slot::{OutOfMemory, SlotName, Title};
use std::alloc::Global;
use std::marker::Model;
use std::mem;

/// The root of one partition, as lists, for a caller that asks the pool of super pages itself. `ready` makes room; after it the
/// pool may be asked if `asks` says so, and `open` and `take` can't fail; `ready_map` makes room for `map`. It is seen as
/// the root, which is sound and has at most 16 empty spans, with the room that was made. The other calls that
/// change it may use up the room. A list that would have more than 2,147,483,647 members is refused as out of memory.
#[derive(Drop)]
pub struct PlainRoot {
    store: Store,
    blanks: Blanks,
    room: Room,
    // the blank spans of the class for which there is room
    spare: Vec<PlainSpan>,
    alloc: Global,
}

impl Model for PlainRoot {
    ghost use Rattle.pa_place.specs.Roomy.{RoomyRoot};

    ghost Value = { RoomyRoot };

    ghost use Rattle.pa_place.specs.Store.{root_of, IsStoreSound, HasRooms};

    ghost view = { λ p. record { root = root_of p.store; room = p.room } };

    ghost invariant = { λ p. IsStoreSound p.store × HasRooms p.store p.spare.items p.room };
}

impl PlainRoot {
    /// A root with no super page.
    pub fn new(alloc: Global) -> Result<PlainRoot, OutOfMemory>
        ensures start { IfOk result (λ p. p.root ≡ new_root) }
    {
        let store = Store::new(alloc)?;
        let blanks = Blanks::new(alloc)?;
        Ok(PlainRoot {
            store,
            blanks,
            room: Room::none(),
            spare: Vec::new(alloc),
            alloc,
        })
    }

    /// What is known of every such root: it is sound, and at most 16 of its spans are empty.
    pub fn is_sound(&self)
        ensures sound { IsSound self.now.root }
        ensures settled { IsSettled self.now.root }
    {
        let _page = self.store.page;
    }

    /// Whether a fill of the class has to ask the pool for a super page: no span of it has a slot left, and the current super
    /// page has no room for one.
    pub fn asks(&self, class: Class) -> bool
        ensures { result ≡ is_none (span_for class self.now.root) }
    {
        !self.store.has_span(class)
    }

    /// Makes room for `want` takes of the class, 1 to 8, and for a super page: after it `open` and `take` need no memory.
    /// The root is unchanged, even if memory runs out; but then there is no room, not even what there was before.
    pub fn ready(&mut self, class: Class, want: u32) -> Result<(), OutOfMemory>
        requires some { 1 ≤ want }
        requires few { want ≤ 8 }
        ensures room { OnOk result (self.new.room ≡ fill_room class want) }
        ensures none { OnErr result (self.new.room ≡ no_room) }
        ensures root { self.new.root ≡ self.old.root }
    {
        self.room = Room::none();
        self.store.make_room(class, want)?;
        self.spare = self.blanks.take(self.alloc, class, want)?;
        self.room = Room::of_fill(class, want);
        Ok(())
    }

    /// Makes the super page, which this entry of the pool took, the current one. There must be room for it. It allocates nothing.
    pub fn open(&mut self, first: u32, entry: u32)
        requires room { self.old.room.super_page ≡ true }
        requires low { first < 64 }
        requires born { IsBornBelow entry self.old.root }
        ensures opened { self.new.root ≡ opened first entry self.old.root }
        ensures room { self.new.room ≡ opened_room self.old.room }
        ensures step { IsStep entry (entry + 1) self.old.root self.new.root }
        ensures maps { self.new.root.maps ≡ self.old.root.maps }
    {
        self.room = self.room.opened();
        self.store.open(first, entry);
    }

    /// Takes `want` slots of the class, 1 to 8, or as many as there are, and puts them into `titles`, which is empty. Returns
    /// the batches of slots that were made for the first time. There must be room for that many takes. It allocates nothing.
    #[inline(always)]
    pub fn take(
        &mut self,
        class: Class,
        want: u32,
        titles: &mut ArrayVec<Title, 16>,
    ) -> ArrayVec<Made, 8>
        requires some { 1 ≤ want }
        requires few { want ≤ 8 }
        requires room { HasTakes class want self.old.room }
        requires turn { self.old.root.turn < 2 ^ 62 }
        requires none { titles.old.items ≡ [] }
        ensures took { takes class want self.old.root ≡ record { root = self.new.root; titles = titles.new.items } }
        ensures made { AreMadeNow class self.old.root self.new.root result.items }
        ensures step { (n : ℕ) → IsStep n n self.old.root self.new.root }
        ensures maps { self.new.root.maps ≡ self.old.root.maps }
    {
        let mut blanks = mem::replace(&mut self.spare, Vec::new(self.alloc));
        let mut made = ArrayVec::new();
        self.store
            .takes(class, want, &mut blanks, &mut made, titles);
        self.blanks.put(class, blanks);
        self.room = Room::none();
        made
    }

    /// Makes room for a direct map: after it `map` needs no memory. The root is unchanged, even if memory runs out; but then there is
    /// no room, not even what there was before.
    pub fn ready_map(&mut self) -> Result<(), OutOfMemory>
        ensures room { OnOk result (self.new.room ≡ map_room) }
        ensures none { OnErr result (self.new.room ≡ no_room) }
        ensures root { self.new.root ≡ self.old.root }
    {
        self.room = Room::none();
        self.store.make_map_room()?;
        self.room = Room::of_map();
        Ok(())
    }

    /// Makes a direct map whose slot has `slot` bytes, in the super pages from `first` on, which this entry of the pool took
    /// for it. There must be room for it. It allocates nothing.
    pub fn map(&mut self, first: u32, slot: u32, entry: u32) -> Title
        requires room { self.old.room.map ≡ true }
        requires low { first < 64 }
        requires born { IsBornBelow entry self.old.root }
        ensures title { result ≡ map_in first slot entry }
        ensures mapped { self.new.root ≡ mapped result self.old.root }
        ensures turn { self.new.root.turn ≡ self.old.root.turn }
        ensures step { IsStep entry (entry + 1) self.old.root self.new.root }
    {
        self.room = Room::none();
        self.store.map(first, slot, entry)
    }

    /// Returns the slots one by one: at most 16, each of which is out of this root and is listed once. It allocates nothing.
    pub fn give(&mut self, titles: &[Title])
        requires few { length titles.now ≤ 16 }
        requires out { All (IsOut self.old.root) (map name_of titles.now) }
        requires once { AllPairs ◌≢◌ (map name_of titles.now) }
        requires turn { self.old.root.turn < 2 ^ 62 }
        ensures returned { self.new.root ≡ all_returned (map name_of titles.now) self.old.root }
        ensures step { (n : ℕ) → IsStep n n self.old.root self.new.root }
        ensures maps { self.new.root.maps ≡ self.old.root.maps }
    {
        self.room = Room::none();
        self.store.give_all(titles);
    }

    /// Removes a direct map of this root, whose super pages then go back to the pool. It allocates nothing.
    pub fn unmap(&mut self, title: Title)
        ensures unmapped { self.new.root ≡ unmapped (name_of title) self.old.root }
        ensures step { (n : ℕ) → IsStep n (n + 1) self.old.root self.new.root }
    {
        self.room = Room::none();
        self.store.unmap(title);
    }

    /// Decommits every empty span, the one that became empty first before the others. It allocates nothing.
    pub fn purge(&mut self)
        requires turn { self.old.root.turn < 2 ^ 62 }
        ensures purged { self.new.root ≡ purged self.old.root }
        ensures step { (n : ℕ) → IsStep n n self.old.root self.new.root }
        ensures maps { self.new.root.maps ≡ self.old.root.maps }
    {
        self.room = Room::none();
        self.store.purge();
    }

    /// The slot of a span, or the direct map, that has that name and is out of this root. `None` exactly when there is none.
    pub fn out(&self, slot: SlotName) -> Option<Out>
        ensures some { IfSome result (IsOutAs self.now.root slot) }
        ensures none { IfNone result (IsNotOut self.now.root slot) }
    {
        self.store.out(slot)
    }

    /// What the root has: its free slots, its bytes, and its spans by their states.
    pub fn census(&self) -> Census
        ensures { result ≡ census self.now.root }
    {
        self.store.census()
    }
}
