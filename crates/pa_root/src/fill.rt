//! Fills: slots of a class go out, each at its number.
ghost use Rattle.std.specs.Prelude.{◌≡◌, ◌<◌, length, Some, IfOk, IfErr, OnOk, OnErr};
ghost use Rattle.std.specs.Vec.{vec_capacity};
ghost use Rattle.pa_region.specs.Views.{least_stake};
ghost use Rattle.pa_region.specs.Lending.{CanLend};
ghost use Rattle.pa_root.specs.Kept.{IsKept, state_of};
ghost use Rattle.pa_root.specs.Steps.{IsOpenedFor};
ghost use Rattle.pa_root.specs.Telling.{FillTells, NoneGiven};

use crate::append::{append, make_room};
use crate::asks::Asking;
use crate::fault::FillFault;
use crate::root::{Ledger, Root};
use crate::takes::take_out;
use arrayvec::ArrayVec;
use pa_buckets::{Class, fill_count};
use pa_pool::Pool;
use pa_record::{RootAct, RootEntry};
use pa_region::{Name, Note, Region, Seat};
use pa_shelf::Shelf;
use pa_slot::Title;
use std::marker::PhantomData;
use std::sync::{Mutex, Wait};

impl<N: Name, const P: u32> Root<N, P> {
    /// Gives out as many free slots of the class as a thread asks for at once, or fewer if there are fewer, but at least
    /// one, as an op of the line asks. The pool is asked for a super page if no span has a slot of the class left and
    /// the current super page has no room for one. The note has the titles free, and nothing else. If there is no
    /// slot, the journal says so. If it runs out of memory, nothing changed.
    /// The only memory that it needs for the journal is the room for one entry.
    pub fn fill<R: Wait>(
        &mut self,
        rt: &R,
        region: &Region,
        seat: &mut Seat,
        pool: &Mutex<Pool<N>>,
        line: u32,
        class: Class,
    ) -> Result<(Note, ArrayVec<Title, 16>), FillFault>
        requires regions { (region.now ≡ N.region) × (seat.old.region ≡ N.region) }
        requires lender { CanLend seat.old.view }
        ensures region { seat.new.region ≡ N.region }
        ensures again { CanLend seat.new.view }
        ensures note { IfOk result (λ a. a.0.region ≡ N.region) }
        ensures gave { IfOk result (λ a. FillTells (least_stake seat.old.view.stakes) P line class
            seat.old.view seat.new.view a.0.view a.1.items self.old self.new) }
        ensures none { IfErr result
            (NoneGiven (least_stake seat.old.view.stakes) P line 1 (Some class) seat.old seat.new self.old self.new) }
    {
        let want = fill_count(class);
        make_room(&mut self.ledger.journal)?;
        let mut asking = Asking {
            region,
            seat: &mut *seat,
            line,
            of: PhantomData,
        };
        let asked = self
            .ledger
            .open_page(rt, &mut asking, &mut self.shelf, pool, class)?;
        let (note, titles, slots) = take_out(
            region,
            &mut self.ledger.seat,
            &mut self.shelf,
            class,
            want,
        );
        let entry = RootEntry {
            line,
            act: RootAct::Fill {
                class,
                pool: asked,
                slots,
            },
        };
        append(
            region,
            seat,
            &mut self.ledger.seat,
            P,
            &mut self.ledger.journal,
            entry,
        );
        Ok((note, titles))
    }
}

impl<const P: u32> Ledger<P> {
    // Makes a root ready for a fill of the class: if it has to ask the pool, it opens the super page that the pool gave, and
    // returns the pool's entry. If the pool has none, the journal, which has room for an entry, says so.
    fn open_page<N: Name, R: Wait>(
        &mut self,
        rt: &R,
        asking: &mut Asking<'_, N>,
        shelf: &mut Shelf,
        pool: &Mutex<Pool<N>>,
        class: Class,
    ) -> Result<Option<u32>, FillFault>
        requires region { self.old.seat.region ≡ N.region }
        requires lender { CanLend asking.old.seat.now.view }
        requires kept { IsKept P self.old.seat.view self.old.journal.items shelf.old }
        requires room { length self.old.journal.items < vec_capacity self.old.journal }
        requires few { length self.old.journal.items < 2147483647 }
        ensures same_reference { asking.new.seat.ghost_name ≡ asking.old.seat.ghost_name }
        ensures region { self.new.seat.region ≡ N.region }
        ensures again { CanLend asking.new.seat.now.view }
        ensures journal { OnOk result (self.new.journal ≡ self.old.journal) }
        ensures opened { IfOk result (λ asked. IsOpenedFor (least_stake asking.old.seat.now.view.stakes) P asking.old.line class asked
            (state_of self.old.seat.view self.old.journal.items)
            asking.old.seat.now.view asking.new.seat.now.view self.new.seat.view shelf.new) }
        ensures none { IfErr result (NoneGiven (least_stake asking.old.seat.now.view.stakes) P asking.old.line 1 (Some class)
            asking.old.seat.now asking.new.seat.now
            (state_of self.old.seat.view self.old.journal.items)
            (state_of self.new.seat.view self.new.journal.items)) }
        ensures kept { OnErr result (IsKept P self.new.seat.view self.new.journal.items shelf.new) }
    {
        self.seat.aware();
        if shelf.has_room_for(class) {
            return Ok(None);
        }
        let room = self.ask_room(rt, asking, pool, Some(class), 1);
        let (asked, first, note) = match room {
            Ok(found) => found,
            Err(fault) => return Err(fault),
        };
        self.seat.aware();
        note.aware();
        asking.region.take(&mut self.seat, note);
        self.seat.aware();
        shelf.placed();
        shelf.open(asking.region, &mut self.seat, first, asked);
        self.seat.aware();
        Ok(Some(asked))
    }
}
