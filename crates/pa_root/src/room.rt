//! Super pages for a root, or the entry of its journal that there are none.
ghost use Rattle.std.specs.Prelude.{◌≡◌, ℕ, ◌+◌, ◌<◌, ◌≤◌, [], length, Some, IfOk, IfErr, OnOk};
ghost use Rattle.std.specs.Vec.{vec_capacity};
ghost use Rattle.pa_layout.specs.Limits.{most_supers, region_supers};
ghost use Rattle.pa_region.specs.Views.{least_stake};
ghost use Rattle.pa_region.specs.Lists.{list_of};
ghost use Rattle.pa_region.specs.Lending.{CanLend, HostsKeeper, Lends};
ghost use Rattle.pa_root.specs.Asking.{IsAskedFor, IsRunNote};
ghost use Rattle.pa_root.specs.Steps.{RefusesRoom};

use crate::append::append;
use crate::asks::Asking;
use crate::fault::FillFault;
use crate::lends::show_seen;
use crate::root::Ledger;
use pa_buckets::Class;
use pa_pool::Pool;
use pa_record::{RootAct, RootEntry};
use pa_region::{Name, Note};
use std::sync::{Mutex, Wait};

impl<const P: u32> Ledger<P> {
    // Asks the pool for `count` super pages, as `ask_pool` does. It returns the index of the pool's entry, the first super page,
    // and a note that has them. If the pool has none, the journal, which has room for an entry, says so.
    // If it runs out of memory, nothing has changed.
    pub(crate) fn ask_room<N: Name, R: Wait>(
        &mut self,
        rt: &R,
        asking: &mut Asking<'_, N>,
        pool: &Mutex<Pool<N>>,
        class: Option<Class>,
        count: u32,
    ) -> Result<(u32, u32, Note), FillFault>
        requires region { self.old.seat.region ≡ N.region }
        requires lender { CanLend asking.old.seat.now.view }
        requires host { HostsKeeper P self.old.seat.view }
        requires count { (1 ≤ count) × (count ≤ most_supers) }
        requires listed { length (list_of P self.old.seat.view) ≡ length self.old.journal.items }
        requires room { length self.old.journal.items < vec_capacity self.old.journal }
        requires few { length self.old.journal.items < 2147483647 }
        ensures same_reference { asking.new.seat.ghost_name ≡ asking.old.seat.ghost_name }
        ensures region { self.new.seat.region ≡ N.region }
        ensures again { CanLend asking.new.seat.now.view }
        ensures asked { IfOk result (λ a. IsAskedFor (least_stake asking.old.seat.now.view.stakes) asking.old.line P count
            (Some a.1) a.0 asking.old.seat.now.view asking.new.seat.now.view self.new.seat.view) }
        ensures note { IfOk result (λ a. (a.2.region ≡ N.region) × IsRunNote a.1 count a.0 asking.new.seat.now.view a.2.view) }
        ensures low { IfOk result (λ a. a.1 + count ≤ region_supers) }
        ensures own { OnOk result ((r : ℕ) → Lends r [] self.old.seat.view self.new.seat.view) }
        ensures lists { OnOk result ((k : ℕ) → list_of k self.new.seat.view ≡ list_of k self.old.seat.view) }
        ensures journal { OnOk result (self.new.journal ≡ self.old.journal) }
        ensures refused { IfErr result (RefusesRoom (least_stake asking.old.seat.now.view.stakes) P asking.old.line count class
            asking.old.seat.now asking.new.seat.now self.old.seat self.new.seat self.old.journal.items self.new.journal.items) }
    {
        let line = asking.line;
        self.seat.aware();
        match asking.ask_pool(rt, &mut self.seat, pool, P, count)? {
            (asked, Some((first, note))) => Ok((asked, first, note)),
            (asked, None) => {
                let (region, seat) = (asking.region, &mut *asking.seat);
                show_seen(region, seat, &mut self.seat);
                let act = RootAct::Full { class, pool: asked };
                let entry = RootEntry { line, act };
                Err(FillFault::Full(append(
                    region,
                    seat,
                    &mut self.seat,
                    P,
                    &mut self.journal,
                    entry,
                )))
            }
        }
    }
}
