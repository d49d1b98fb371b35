//! Asking the pool for super pages, for a root.
ghost use Rattle.std.specs.Prelude.{◌≡◌, ℕ, ◌+◌, ◌≤◌, [], IfOk, IfSome, OnErr, option_map};
ghost use Rattle.pa_layout.specs.Limits.{most_supers, region_supers};
ghost use Rattle.pa_region.specs.Views.{least_stake};
ghost use Rattle.pa_region.specs.Lists.{list_of};
ghost use Rattle.pa_region.specs.Lending.{CanLend, Lends};
ghost use Rattle.pa_root.specs.Asking.{IsAskedFor, IsRunNote};

use crate::lends::show_seen;
use pa_pool::{Pool, PoolFault};
use pa_region::{Name, Note, Region, Seat};
use pa_slot::OutOfMemory;
use std::marker::PhantomData;
use std::sync::{Mutex, Wait};

// What a request to a root comes with: the region, the seat that lends its stake, and the line of the op. `N` names the region.
#[derive(Drop)]
pub(crate) struct Asking<'a, N: Name> {
    pub(crate) region: &'a Region,
    pub(crate) seat: &'a mut Seat,
    pub(crate) line: u32,
    pub(crate) of: PhantomData<N>,
    ghost regions: { (region.now ≡ N.region) × (seat.now.region ≡ N.region) },
}

impl<N: Name> Asking<'_, N> {
    // Asks the pool for `count` super pages for a partition, by the op of the line, with the seat's least stake. The root's seat
    // first shows the caller's what it has seen, so that the pool's entry is later. It returns the entry's index, and if there
    // are that many, the first super page and a note that has them. If it runs out of memory, no seat has changed.
    pub(crate) fn ask_pool<R: Wait>(
        &mut self,
        rt: &R,
        root: &mut Seat,
        pool: &Mutex<Pool<N>>,
        partition: u32,
        count: u32,
    ) -> Result<(u32, Option<(u32, Note)>), OutOfMemory>
        requires region { root.old.region ≡ N.region }
        requires lender { CanLend self.old.seat.now.view }
        requires count { (1 ≤ count) × (count ≤ most_supers) }
        ensures same_reference { self.new.seat.ghost_name ≡ self.old.seat.ghost_name }
        ensures region { root.new.region ≡ N.region }
        ensures again { CanLend self.new.seat.now.view }
        ensures same { OnErr result ((self.new.seat.now ≡ self.old.seat.now) × (root.new ≡ root.old)) }
        ensures root { (r : ℕ) → Lends r [] root.old.view root.new.view }
        ensures lists { (k : ℕ) → list_of k root.new.view ≡ list_of k root.old.view }
        ensures asked { IfOk result (λ a. IsAskedFor (least_stake self.old.seat.now.view.stakes) self.old.line partition count
            (option_map (λ n. n.0) a.1) a.0 self.old.seat.now.view self.new.seat.now.view root.new.view) }
        ensures note { IfOk result (λ a. IfSome a.1 (λ n.
            (n.1.region ≡ N.region) × IsRunNote n.0 count a.0 self.new.seat.now.view n.1.view)) }
        ensures low { IfOk result (λ a. IfSome a.1 (λ n. n.0 + count ≤ region_supers)) }
    {
        let mut locked = pool.lock(rt);
        let pool = &mut *locked;
        pool.room()?;
        show_seen(self.region, root, self.seat);
        self.seat.aware();
        pool.kept();
        match pool.take(self.region, self.seat, self.line, partition, count) {
            Ok((index, first, note)) => {
                self.seat.aware();
                Ok((index, Some((first, note))))
            }
            Err(PoolFault::NoRoom(index)) => {
                self.seat.aware();
                Ok((index, None))
            }
            Err(PoolFault::OutOfMemory) => unreachable!(),
        }
    }
}
