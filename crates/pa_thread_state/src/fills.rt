ghost use Rattle.std.specs.Prelude.{◌≡◌, ℕ, ◌<◌, [], None, Some, IfOk, IfErr, List, All};
ghost use Rattle.pa_buckets.specs.Bands.{fill_of};
ghost use Rattle.pa_trace.specs.Limits.{most_partitions};
ghost use Rattle.pa_rules.specs.Sizes.{HasClass};
ghost use Rattle.pa_cache.specs.Caches.{HoldsFree};
ghost use Rattle.pa_direct.specs.Shapes.{IsShape};
ghost use Rattle.pa_slot.specs.declared.title.Title.{Title};
ghost use Rattle.pa_slot.specs.Titles.{IsWellFormed};
ghost use Rattle.pa_region.specs.Shares.{byte_word_count};
ghost use Rattle.pa_root.specs.Handing.{FillGives, HasOnly, MapGives};
ghost use Rattle.pa_op_specs.specs.Stocks.{titles_in};
ghost use Rattle.pa_op_specs.specs.Workers.{HasItsStake};
ghost use Rattle.pa_thread_state.specs.Allocating.{BecomesList, CanLoad, FillsList, FindsNone, MapsTitle, Receives};

use crate::asks::{fill_from, map_from};
use crate::heap::Heap;
use crate::stock::Stock;
use arrayvec::ArrayVec;
use pa_buckets::Class;
use pa_cache::other_lists_stay;
use pa_cells::slots_stay_seen;
use pa_direct::Shape;
use pa_region::{Name, Note, Seat};
use pa_root::FillFault;
use pa_slot::Title;
use std::sync::Wait;

impl<N: Name> Stock<N> {
    /// Fills the empty list of a partition and a class, on this line, from its root. It returns the first title that came,
    /// and the others are the list then. If it runs out of memory, nothing changed.
    pub fn fill_list<R: Wait>(
        &mut self,
        rt: &R,
        heap: &Heap<N>,
        line: u32,
        partition: u32,
        class: Class,
    ) -> Result<Title, FillFault>
        requires stake { HasItsStake self.old }
        requires partition { partition < most_partitions }
        requires class { HasClass self.old.caches.version class }
        requires empty { titles_in self.old.caches partition class ≡ [] }
        ensures filled { IfOk result (λ t. FillsList line partition class t self.old self.new) }
        ensures none { IfErr result (FindsNone line partition 1 (Some class) self.old self.new) }
    {
        self.kept();
        match self.ask_fill(rt, heap, line, partition, class) {
            Ok((note, titles)) => {
                self.kept();
                let mut rest = titles;
                let title = rest.remove(0);
                self.receive(heap, note);
                self.kept();
                self.load(heap, partition, class, rest.as_slice());
                Ok(title)
            }
            Err(fault) => Err(fault),
        }
    }

    // Asks the root of a partition for a fill, with the seat's stake.
    fn ask_fill<R: Wait>(
        &mut self,
        rt: &R,
        heap: &Heap<N>,
        line: u32,
        partition: u32,
        class: Class,
    ) -> Result<(Note, ArrayVec<Title, 16>), FillFault>
        requires stake { HasItsStake self.old }
        requires partition { partition < most_partitions }
        ensures same { self.new ≡ record self.old { view = self.new.view } }
        ensures note { IfOk result (λ a. a.0.region ≡ N.region) }
        ensures gave { IfOk result (λ a. FillGives self.old.thread partition line class (fill_of class)
            self.old.view self.new.view a.0.view a.1.items) }
        ensures none { IfErr result (FindsNone line partition 1 (Some class) self.old self.new) }
    {
        slots_stay_seen();
        self.kept();
        fill_from(rt, heap, &mut self.seat, line, partition, class)
    }

    /// A direct map of this shape from the root of a partition, on this line. If it runs out of memory, nothing changed.
    pub fn map_title<R: Wait>(
        &mut self,
        rt: &R,
        heap: &Heap<N>,
        line: u32,
        partition: u32,
        shape: Shape,
    ) -> Result<Title, FillFault>
        requires stake { HasItsStake self.old }
        requires partition { partition < most_partitions }
        requires shape { IsShape shape }
        ensures mapped { IfOk result (λ t. MapsTitle line partition shape.slot t self.old self.new) }
        ensures none { IfErr result (FindsNone line partition shape.supers None self.old self.new) }
    {
        self.kept();
        match self.ask_map(rt, heap, line, partition, shape) {
            Ok((note, title)) => {
                self.kept();
                self.receive(heap, note);
                Ok(title)
            }
            Err(fault) => Err(fault),
        }
    }

    // Asks the root of a partition for a direct map, with the seat's stake.
    fn ask_map<R: Wait>(
        &mut self,
        rt: &R,
        heap: &Heap<N>,
        line: u32,
        partition: u32,
        shape: Shape,
    ) -> Result<(Note, Title), FillFault>
        requires stake { HasItsStake self.old }
        requires partition { partition < most_partitions }
        requires shape { IsShape shape }
        ensures same { self.new ≡ record self.old { view = self.new.view } }
        ensures note { IfOk result (λ a. a.0.region ≡ N.region) }
        ensures gave { IfOk result (λ a. MapGives self.old.thread partition line shape.slot
            self.old.view self.new.view a.0.view a.1) }
        ensures none { IfErr result (FindsNone line partition shape.supers None self.old self.new) }
    {
        slots_stay_seen();
        self.kept();
        map_from(rt, heap, &mut self.seat, line, partition, shape)
    }

    // Takes in a note that has free titles, and nothing else.
    fn receive(&mut self, heap: &Heap<N>, note: Note)
        requires region { note.region ≡ N.region }
        requires only { (titles : List Title) × HasOnly titles note.view }
        ensures { Receives note.view self.old self.new }
    {
        slots_stay_seen();
        self.kept();
        note.aware();
        heap.region().take(&mut self.seat, note);
        self.seat.aware();
    }

    // Loads these titles into the empty list of a partition and a class.
    fn load(&mut self, heap: &Heap<N>, partition: u32, class: Class, titles: &[Title])
        requires can { CanLoad partition class titles.now self.old }
        requires class { HasClass self.old.caches.version class }
        ensures loaded { BecomesList partition class titles.now self.old self.new }
    {
        other_lists_stay();
        self.kept();
        all_placed(&self.seat, titles);
        self.caches
            .load(heap.region(), &mut self.seat, partition, class, titles);
    }
}

// Each of these titles, which the seat holds free, lies in its region.
fn all_placed(seat: &Seat, titles: &[Title])
    requires { HoldsFree seat.now.view titles.now }
    ensures { All (IsWellFormed (byte_word_count seat.now.region)) titles.now }
{
    for title in titles {
        seat.placed(*title);
    }
}
