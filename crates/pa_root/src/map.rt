//! Direct maps that go out.
ghost use Rattle.std.specs.Prelude.{◌≡◌, None, IfOk, IfErr};
ghost use Rattle.pa_direct.specs.Shapes.{IsShape};
ghost use Rattle.pa_region.specs.Views.{least_stake};
ghost use Rattle.pa_region.specs.Lending.{CanLend};
ghost use Rattle.pa_root.specs.Telling.{MapTells, NoneGiven};

use crate::append::{append, make_room};
use crate::asks::Asking;
use crate::cuts::cut_map;
use crate::fault::FillFault;
use crate::root::Root;
use pa_direct::Shape;
use pa_machine::Item;
use pa_pool::Pool;
use pa_record::{RootAct, RootEntry};
use pa_region::{Name, Note, Region, Seat};
use pa_slot::{SlotName, Title};
use std::marker::PhantomData;
use std::sync::{Mutex, Wait};

impl<N: Name, const P: u32> Root<N, P> {
    /// Makes a direct map of the shape, as an op of the line asks, in super pages that the pool is asked for. The note has its
    /// title free, on which no seat has seen a step, and nothing else. If the pool has no such super pages, the journal
    /// says so. If it runs out of memory, nothing changed.
    pub fn map<R: Wait>(
        &mut self,
        rt: &R,
        region: &Region,
        seat: &mut Seat,
        pool: &Mutex<Pool<N>>,
        line: u32,
        shape: Shape,
    ) -> Result<(Note, Title), FillFault>
        requires regions { (region.now ≡ N.region) × (seat.old.region ≡ N.region) }
        requires lender { CanLend seat.old.view }
        requires shape { IsShape shape }
        ensures region { seat.new.region ≡ N.region }
        ensures again { CanLend seat.new.view }
        ensures note { IfOk result (λ a. a.0.region ≡ N.region) }
        ensures gave { IfOk result (λ a. MapTells (least_stake seat.old.view.stakes) P line shape.slot
            seat.old.view seat.new.view a.0.view a.1 self.old self.new) }
        ensures none { IfErr result
            (NoneGiven (least_stake seat.old.view.stakes) P line shape.supers None seat.old seat.new self.old self.new) }
    {
        make_room(&mut self.ledger.journal)?;
        self.ledger.seat.aware();
        let mut asking = Asking {
            region,
            seat: &mut *seat,
            line,
            of: PhantomData,
        };
        let room = self
            .ledger
            .ask_room(rt, &mut asking, pool, None, shape.supers);
        let (asked, first, note) = match room {
            Ok(found) => found,
            Err(fault) => return Err(fault),
        };
        self.ledger.seat.aware();
        note.aware();
        region.take(&mut self.ledger.seat, note);
        self.ledger.seat.aware();
        let title = cut_map(region, &mut self.ledger.seat, first, asked, shape.slot);
        self.ledger.seat.aware();
        self.ledger.seat.placed(title);
        self.shelf.map(title);
        let note = region.hand(&mut self.ledger.seat, &[Item::Free(title)], 0, &[]);
        self.ledger.seat.aware();
        let (start, pool, len) = (title.start, asked, shape.slot);
        let slot = SlotName { start, born: pool };
        let act = RootAct::Map { pool, slot, len };
        let entry = RootEntry { line, act };
        append(
            region,
            seat,
            &mut self.ledger.seat,
            P,
            &mut self.ledger.journal,
            entry,
        );
        Ok((note, title))
    }
}
