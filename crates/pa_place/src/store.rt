ghost use Rattle.std.specs.Prelude.{◌≡◌, ◌+◌, ◌<◌, ◌≤◌, ◌-◌, ◌^◌, OnOk, IfOk, IfSome, length, is_some, position, ◌==◌, ◌&&◌, vec_len};
ghost use Rattle.std.specs.Vec.{vec_capacity};
ghost use Rattle.pa_record.specs.Root.{new_root, span_for, opened, mapped, unmapped, without_map};
ghost use Rattle.pa_record.specs.Spans.{name_of};
ghost use Rattle.pa_place.specs.Placed.{map_in};
ghost use Rattle.pa_place.specs.Store.{root_of, IsReady, HasRoomFor, HasSuperRoom, HasMapRoom, IsFiled};

use crate::homes::Homes;
use crate::lists::Lists;
use crate::plain_span::PlainSpan;
use pa_buckets::Class;
use pa_layout::page_start;
use pa_record::SuperPage;
use pa_slot::{OutOfMemory, SlotName, Title};
use std::alloc::Global;

// The most members of a list of the store.
const MOST_MEMBERS: usize = 2_147_483_647;

// The root of a partition as lists: the super pages that fills took, of which the last is the current one; the next free
// partition page of the current one; the next turn; the direct maps; and the spans in the order in which they were made,
// with their lists by states, and for each partition page a hint which span lies over it.
#[derive(Drop)]
pub(crate) struct Store {
    pub(crate) supers: Vec<SuperPage>,
    pub(crate) page: u32,
    pub(crate) turn: u64,
    pub(crate) maps: Vec<Title>,
    pub(crate) spans: Vec<PlainSpan>,
    pub(crate) lists: Lists,
    pub(crate) homes: Homes,
}

impl Store {
    // A root with no super page.
    pub(crate) fn new(alloc: Global) -> Result<Store, OutOfMemory>
        ensures start { IfOk result (λ s. root_of s ≡ new_root) }
        ensures filed { IfOk result (λ s. IsFiled s) }
    {
        let supers = Vec::with_capacity(alloc, 1)?;
        let lists = Lists::new(alloc)?;
        let homes = Homes::new(alloc)?;
        Ok(Store {
            supers,
            page: 0,
            turn: 0,
            maps: Vec::new(alloc),
            spans: Vec::new(alloc),
            lists,
            homes,
        })
    }

    // Makes room for `spans` more spans of the class and for one super page. There is none in lists that are too long.
    pub(crate) fn make_room(&mut self, class: Class, spans: u32) -> Result<(), OutOfMemory>
        requires { IsFiled self.old }
        ensures same { root_of self.new ≡ root_of self.old }
        ensures filed { IsFiled self.new }
        ensures many { vec_len self.new.spans ≡ vec_len self.old.spans }
        ensures room { OnOk result (HasRoomFor self.new class spans) }
        ensures super_page { OnOk result (HasSuperRoom self.new) }
    {
        let spans = spans as usize;
        if self.supers.len() >= MOST_MEMBERS
            || self.spans.len().saturating_add(spans) > MOST_MEMBERS
        {
            return Err(OutOfMemory);
        }
        self.supers.reserve(1)?;
        self.spans.reserve(spans)?;
        let most = self.spans.len() + spans;
        self.lists.reserve(class, most)
    }

    // Makes room for one direct map.
    pub(crate) fn make_map_room(&mut self) -> Result<(), OutOfMemory>
        ensures same { root_of self.new ≡ root_of self.old }
        ensures lists { self.new.lists ≡ self.old.lists }
        ensures many { vec_len self.new.spans ≡ vec_len self.old.spans }
        ensures room { OnOk result (HasMapRoom self.new) }
    {
        if self.maps.len() >= MOST_MEMBERS {
            return Err(OutOfMemory);
        }
        self.maps.reserve(1)?;
        Ok(())
    }

    // Whether a slot of the class can be taken without asking the pool.
    pub(crate) fn has_span(&self, class: Class) -> bool
        requires ready { IsReady (root_of self.now) }
        requires filed { IsFiled self.now }
        ensures { result ≡ is_some (span_for class (root_of self.now)) }
    {
        self.listed(class).is_some() || self.room_for(class).is_some()
    }

    // Makes the super page, which this entry of the pool took, the current one.
    pub(crate) fn open(&mut self, first: u32, entry: u32)
        requires room { vec_len self.old.supers < vec_capacity self.old.supers }
        ensures opened { root_of self.new ≡ opened first entry (root_of self.old) }
        ensures spans { self.new.spans ≡ self.old.spans }
        ensures maps { self.new.maps ≡ self.old.maps }
        ensures lists { self.new.lists ≡ self.old.lists }
    {
        self.supers.push_reserved(SuperPage {
            number: first,
            born: entry,
        });
        self.page = 1;
    }

    // Makes the direct map in the super pages from `first` on, which this entry of the pool took. There must be room for one.
    pub(crate) fn map(&mut self, first: u32, slot: u32, entry: u32) -> Title
        requires room { vec_len self.old.maps < vec_capacity self.old.maps }
        requires low { first < 64 }
        ensures title { result ≡ map_in first slot entry }
        ensures mapped { root_of self.new ≡ mapped result (root_of self.old) }
        ensures lists { self.new.lists ≡ self.old.lists }
        ensures many { vec_len self.new.spans ≡ vec_len self.old.spans }
    {
        let title = Title {
            start: page_start(first, 1),
            len: slot,
            born: entry,
        };
        self.maps.push_reserved(title);
        title
    }

    // Removes the direct map.
    pub(crate) fn unmap(&mut self, title: Title)
        ensures unmapped { root_of self.new ≡ unmapped (name_of title) (root_of self.old) }
        ensures lists { self.new.lists ≡ self.old.lists }
        ensures many { vec_len self.new.spans ≡ vec_len self.old.spans }
    {
        let name = SlotName {
            start: title.start,
            born: title.born,
        };
        remove_map(&mut self.maps, name);
    }
}

// Removes the direct map of that name.
fn remove_map(maps: &mut Vec<Title>, name: SlotName)
    ensures { maps.new.items ≡ without_map name maps.old.items }
{
    if let Some(at) = place_named(maps, name) {
        maps.remove(at);
    }
}

// The index of the direct map of that name.
pub(crate) fn place_named(maps: &[Title], name: SlotName) -> Option<usize>
    ensures { result ≡ position (λ t. (t.start == name.start) && (t.born == name.born)) maps.now }
{
    maps.iter()
        .position(|map| map.start == name.start && map.born == name.born)
}
