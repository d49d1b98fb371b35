//! Direct maps that come back to a root.
ghost use Rattle.std.specs.Prelude.{◌≡◌, [], ◌∷◌, OnOk, IfErr, OnErr};
ghost use Rattle.pa_region.specs.Views.{least_stake};
ghost use Rattle.pa_region.specs.Lending.{CanLend};
ghost use Rattle.pa_root.specs.Handing.{HasOnly, HasSeenMap};
ghost use Rattle.pa_root.specs.Unmapping.{UnmapTells};

use crate::append::{append, make_room};
use crate::asks::Asking;
use crate::backs::{hand_map, take_title};
use crate::root::Root;
use pa_pool::Pool;
use pa_record::{Numbered, RootAct, RootEntry};
use pa_region::{Name, Note, Region, Seat};
use pa_slot::{SlotName, Title};
use std::marker::PhantomData;
use std::sync::{Mutex, Wait};

impl<N: Name, const P: u32> Root<N, P> {
    /// Takes a direct map back, as an op of the line lets it go: its title is uncut, and its super pages go to the
    /// pool. The note holds the title free and nothing else, and has seen the entry of this root that made it. That it is
    /// still mapped follows. The note and the title come back only if this runs out of memory, and nothing changed then.
    pub fn unmap<R: Wait>(
        &mut self,
        rt: &R,
        region: &Region,
        seat: &mut Seat,
        pool: &Mutex<Pool<N>>,
        line: u32,
        note: Note,
        title: Title,
    ) -> Result<(), (Note, Title)>
        requires regions { (region.now ≡ N.region) × (seat.old.region ≡ N.region) × (note.region ≡ N.region) }
        requires lender { CanLend seat.old.view }
        requires has { HasOnly (title ∷ []) note.view }
        requires named { HasSeenMap P note.view title }
        ensures region { seat.new.region ≡ N.region }
        ensures again { CanLend seat.new.view }
        ensures took { OnOk result
            (UnmapTells (least_stake seat.old.view.stakes) P line seat.old.view seat.new.view note.view title self.old self.new) }
        ensures handed { IfErr result (λ r. (r.0 ≡ note) × (r.1 ≡ title)) }
        ensures err { OnErr result ((self.new ≡ self.old) × (seat.new ≡ seat.old)) }
    {
        let Ok(()) = make_room(&mut self.ledger.journal) else {
            return Err((note, title));
        };
        let mut locked = pool.lock(rt);
        let pool = &mut *locked;
        let Ok(()) = pool.room() else {
            return Err((note, title));
        };
        self.ledger.seat.aware();
        let number = take_title(region, seat, &mut self.ledger.seat, note, title);
        let run = hand_map(region, &mut self.ledger.seat, title);
        let name = SlotName {
            start: title.start,
            born: title.born,
        };
        self.shelf.unmap(name);
        let taken = title.born;
        let mut asking = Asking {
            region,
            seat: &mut *seat,
            line,
            of: PhantomData,
        };
        let asked = asking.give_run(&mut self.ledger.seat, pool, P, taken, run);
        let slot = Numbered { slot: name, number };
        let act = RootAct::Unmap { pool: asked, slot };
        let entry = RootEntry { line, act };
        append(
            region,
            seat,
            &mut self.ledger.seat,
            P,
            &mut self.ledger.journal,
            entry,
        );
        Ok(())
    }
}
