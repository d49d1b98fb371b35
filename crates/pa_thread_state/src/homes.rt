//! Slots that a step returned and that their lists have no room for.
ghost use Rattle.std.specs.Prelude.{◌≡◌, ◌-◌, ◌/◌, ◌<◌, ◌≤◌, List, [], ◌∷◌, length, Some, OnOk, IfErr, OnErr};
ghost use Rattle.pa_slot.specs.declared.title.Title.{Title};
ghost use Rattle.pa_buckets.specs.Bands.{limit_of};
ghost use Rattle.pa_region.specs.Views.{least_stake};
ghost use Rattle.pa_rules.specs.Sizes.{HasClass};
ghost use Rattle.pa_region.specs.Hands.{IsParted, united};
ghost use Rattle.pa_region.specs.Lending.{CanLend};
ghost use Rattle.pa_root.specs.Handing.{HasOnly};
ghost use Rattle.pa_cells.specs.Handles.{HasSeenMade};
ghost use Rattle.pa_op_specs.specs.Workers.{HasItsStake};
ghost use Rattle.pa_thread_state.specs.Changes.{IsBack, NeedsRoot};
ghost use Rattle.pa_thread_state.specs.Homing.{ComesHome, GoesHome, Spills, IsSettled, without_title, note_of_title};
ghost use Rattle.pa_thread_state.specs.Stopping.{IsLeftOver, KeepsAll, KeepsItsStake, StopsTail};

use crate::heap::Heap;
use crate::roots::with_root;
use crate::stock::Stock;
use arrayvec::ArrayVec;
use pa_buckets::{Class, cache_limit};
use pa_cells::{Handle, slots_stay_seen};
use pa_machine::Item;
use pa_region::{Name, Note, Seat, beginnings_join, seen_lists_join, seen_numbers_join};
use pa_root::Root;
use pa_slot::OutOfMemory;
use std::sync::{Mutex, Wait};

impl<N: Name> Stock<N> {
    // Brings a slot that a step returned where it belongs, if its list has no room for it. If it runs out of memory, the seat has
    // its title, which is on no list.
    pub(crate) fn settle<R: Wait>(
        &mut self,
        rt: &R,
        heap: &Heap<N>,
        line: u32,
        handle: &Handle,
    ) -> Result<(), OutOfMemory>
        requires stake { HasItsStake self.old }
        requires back { IsBack handle.now self.old }
        requires root { NeedsRoot handle.now self.old }
        ensures settled { OnOk result (IsSettled line handle.now self.old self.new) }
        ensures stake { OnErr result (KeepsItsStake self.old self.new) }
        ensures left { OnErr result (IsLeftOver line handle.now self.old self.new) }
    {
        match handle.class {
            None => self.send_home(rt, heap, line, handle),
            Some(class) => {
                if self.keeps_list(class) {
                    self.spill(rt, heap, line, handle, class)
                } else {
                    self.send_home(rt, heap, line, handle)
                }
            }
        }
    }

    // Gives the tail of the slot's list back, and puts the slot at the front of what is left.
    fn spill<R: Wait>(
        &mut self,
        rt: &R,
        heap: &Heap<N>,
        line: u32,
        handle: &Handle,
        class: Class,
    ) -> Result<(), OutOfMemory>
        requires stake { HasItsStake self.old }
        requires back { IsBack handle.now self.old }
        requires class { handle.now.class ≡ Some class }
        requires real { HasClass self.old.caches.version class }
        requires some { 0 < limit_of class }
        ensures spills { OnOk result (Spills line handle.now class self.old self.new) }
        ensures stake { OnErr result (KeepsItsStake self.old self.new) }
        ensures stops { OnErr result (StopsTail line handle.now.partition class (limit_of class / 2 - 1) self.old self.new) }
        ensures back { OnErr result (IsBack handle.now self.new) }
    {
        slots_stay_seen();
        self.kept();
        let keep = (cache_limit(class) / 2).saturating_sub(1);
        self.give_tail(rt, heap, line, handle.partition, class, keep)?;
        self.kept();
        self.seat.placed(handle.title);
        self.list(heap.region(), handle, class);
        Ok(())
    }

    // Sends a free title that is on no list back to its root. If it runs out of memory, the seat has it again.
    fn send_home<R: Wait>(
        &mut self,
        rt: &R,
        heap: &Heap<N>,
        line: u32,
        handle: &Handle,
    ) -> Result<(), OutOfMemory>
        requires stake { HasItsStake self.old }
        requires back { IsBack handle.now self.old }
        ensures home { OnOk result (GoesHome line handle.now self.old self.new) }
        ensures stake { OnErr result (KeepsItsStake self.old self.new) }
        ensures keeps { OnErr result (KeepsAll self.old self.new) }
        ensures back { OnErr result (IsBack handle.now self.new) }
    {
        seen_numbers_join();
        seen_lists_join();
        slots_stay_seen();
        self.kept();
        let note = self.part_with(heap, handle);
        self.kept();
        match self.deliver(rt, heap, line, note, handle) {
            Ok(()) => {
                self.kept();
                Ok(())
            }
            Err(note) => {
                self.take_back(heap, note);
                Err(OutOfMemory)
            }
        }
    }

    // Hands over a free title that is on no list.
    fn part_with(&mut self, heap: &Heap<N>, handle: &Handle) -> Note
        requires stake { HasItsStake self.old }
        requires back { IsBack handle.now self.old }
        ensures left { self.new ≡ record self.old { view = without_title handle.now.title self.old.view } }
        ensures note { result.view ≡ note_of_title handle.now.title self.old.view }
        ensures parted { IsParted self.old.view self.new.view result.view }
        ensures region { result.region ≡ N.region }
        ensures stake { HasItsStake self.new }
    {
        self.kept();
        let region = heap.region();
        region.hand(&mut self.seat, &[Item::Free(handle.title)], 0, &[])
    }

    // Brings the title of a note into its root. The note comes back if this runs out of memory, and nothing changed then.
    fn deliver<R: Wait>(
        &mut self,
        rt: &R,
        heap: &Heap<N>,
        line: u32,
        note: Note,
        handle: &Handle,
    ) -> Result<(), Note>
        requires stake { HasItsStake self.old }
        requires note { note.region ≡ N.region }
        requires has { HasOnly (handle.now.title ∷ []) note.view }
        requires made { HasSeenMade handle.now note.view }
        ensures comes { OnOk result (ComesHome handle.now.class self.old.thread handle.now.partition line
            self.old.view self.new.view note.view handle.now.title) }
        ensures alone { OnOk result (self.new ≡ record self.old { view = self.new.view }) }
        ensures back { IfErr result (λ n. n ≡ note) }
        ensures same { OnErr result (self.new ≡ self.old) }
    {
        slots_stay_seen();
        self.kept();
        to_root(rt, heap, &mut self.seat, line, note, handle)
    }

    // Takes in a note that has free titles and nothing else.
    fn take_back(&mut self, heap: &Heap<N>, note: Note)
        requires stake { HasItsStake self.old }
        requires note { note.region ≡ N.region }
        requires has { (ts : List Title) × HasOnly ts note.view }
        ensures stake { KeepsItsStake self.old self.new }
        ensures joined { self.new ≡ record self.old { view = united self.old.view note.view } }
        ensures parted { IsParted self.new.view self.old.view note.view }
    {
        beginnings_join();
        slots_stay_seen();
        self.kept();
        note.aware();
        heap.region().take(&mut self.seat, note);
        self.seat.aware();
    }
}

// Brings the title of a note into the root of its partition.
fn to_root<N: Name, R: Wait>(
    rt: &R,
    heap: &Heap<N>,
    seat: &mut Seat,
    line: u32,
    note: Note,
    handle: &Handle,
) -> Result<(), Note>
    requires regions { (seat.old.region ≡ N.region) × (note.region ≡ N.region) }
    requires lender { CanLend seat.old.view }
    requires has { HasOnly (handle.now.title ∷ []) note.view }
    requires made { HasSeenMade handle.now note.view }
    ensures region { seat.new.region ≡ N.region }
    ensures comes { OnOk result (ComesHome handle.now.class (least_stake seat.old.view.stakes) handle.now.partition line
        seat.old.view seat.new.view note.view handle.now.title) }
    ensures back { IfErr result (λ n. n ≡ note) }
    ensures same { OnErr result (seat.new ≡ seat.old) }
{
    with_root!(heap, handle.partition, root => into_root(rt, heap, root, seat, line, note, handle))
}

// Brings the title of a note into this root, under its lock: a direct map is unmapped, a slot of a class given.
fn into_root<N: Name, const P: u32, R: Wait>(
    rt: &R,
    heap: &Heap<N>,
    root: &Mutex<Root<N, P>>,
    seat: &mut Seat,
    line: u32,
    note: Note,
    handle: &Handle,
) -> Result<(), Note>
    requires regions { (seat.old.region ≡ N.region) × (note.region ≡ N.region) }
    requires lender { CanLend seat.old.view }
    requires has { HasOnly (handle.now.title ∷ []) note.view }
    requires made { HasSeenMade handle.now note.view }
    requires partition { handle.now.partition ≡ P }
    ensures region { seat.new.region ≡ N.region }
    ensures comes { OnOk result (ComesHome handle.now.class (least_stake seat.old.view.stakes) P line
        seat.old.view seat.new.view note.view handle.now.title) }
    ensures back { IfErr result (λ n. n ≡ note) }
    ensures same { OnErr result (seat.new ≡ seat.old) }
{
    let region = heap.region();
    let mut locked = root.lock(rt);
    let root = &mut *locked;
    match handle.class {
        None => match root.unmap(rt, region, seat, &heap.pool, line, note, handle.title) {
            Ok(()) => Ok(()),
            Err((note, _)) => Err(note),
        },
        Some(_) => {
            let mut titles = ArrayVec::new();
            titles.push(handle.title);
            match root.give_back(region, seat, line, note, titles) {
                Ok(()) => Ok(()),
                Err((note, _)) => Err(note),
            }
        }
    }
}
