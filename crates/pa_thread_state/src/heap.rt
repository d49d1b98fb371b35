ghost use Rattle.std.specs.Prelude.{◌≡◌, ◌*◌, ◌≤◌, [], IfOk};
ghost use Rattle.pa_layout.specs.Limits.{region_supers};
ghost use Rattle.pa_region.specs.Start.{first_view};
ghost use Rattle.pa_region.specs.Waiting.{unclean_of};
ghost use Rattle.pa_region.specs.Lists.{list_of};
ghost use Rattle.pa_region.specs.Lending.{HostsKeeper};
ghost use Rattle.pa_region.specs.Shares.{byte_word_count};
ghost use Rattle.pa_pool.specs.Pools.{CanOpen};
ghost use Rattle.pa_root.specs.Laws.{IsFirstView};
ghost use Rattle.pa_region.specs.Hands.{left_after, given_after};
ghost use Rattle.pa_thread_state.specs.Starts.{HasAllStakes, keeper_parcel, stakes_parcel};

use pa_cells::Cells;
use pa_pool::Pool;
use pa_region::{Mark, Name, Note, Region, Seat};
use pa_root::Root;
use pa_slot::OutOfMemory;
use std::alloc::Global;
use std::marker::Model;
use std::sync::Mutex;

// All stakes of a region.
const STAKES: [Mark; 16] = [
    Mark::Stake(0),
    Mark::Stake(1),
    Mark::Stake(2),
    Mark::Stake(3),
    Mark::Stake(4),
    Mark::Stake(5),
    Mark::Stake(6),
    Mark::Stake(7),
    Mark::Stake(8),
    Mark::Stake(9),
    Mark::Stake(10),
    Mark::Stake(11),
    Mark::Stake(12),
    Mark::Stake(13),
    Mark::Stake(14),
    Mark::Stake(15),
];

/// What the workers of a run share: the region, and, each behind a lock of its own, the pool of super pages, the root of each
/// partition, and the 64 cells. `N` names the region.
#[derive(Drop)]
pub struct Heap<N: Name> {
    pub(crate) region: Region,
    pub(crate) pool: Mutex<Pool<N>>,
    pub(crate) first: Mutex<Root<N, 0>>,
    pub(crate) second: Mutex<Root<N, 1>>,
    pub(crate) third: Mutex<Root<N, 2>>,
    pub(crate) fourth: Mutex<Root<N, 3>>,
    pub(crate) cells: Mutex<Cells<N>>,
}

/// The parts of a heap: the region, and, each behind its lock, the pool, the roots of partitions 0 to 3, and the cells.
pub type HeapParts<N> = (
    Region,
    Mutex<Pool<N>>,
    Mutex<Root<N, 0>>,
    Mutex<Root<N, 1>>,
    Mutex<Root<N, 2>>,
    Mutex<Root<N, 3>>,
    Mutex<Cells<N>>,
);

impl<N: Name> Model for Heap<N> {
    ghost use Rattle.std.specs.Prelude.{◌≡◌};
    ghost use Rattle.atomic_table.specs.Seated.{TableId};

    ghost Value = { TableId };

    ghost view = { λ h. h.region };

    ghost invariant = { λ h. h.region ≡ N.region };
}

impl<N: Name> Heap<N> {
    /// A heap over a new region of this many super pages, 1 to 64, with the region's first seat. The seat that comes back has
    /// every stake, each with an empty log, and the whole budget. The heap has all else.
    pub fn open(
        alloc: Global,
        supers: u32,
        region: Region,
        seat: Seat,
        budget: u32,
    ) -> Result<(Heap<N>, Seat), OutOfMemory>
        requires region { (region ≡ N.region) × (seat.region ≡ N.region) }
        requires supers { supers ≤ region_supers }
        requires first { seat.view ≡ first_view (262144 * supers) budget }
        ensures regions { IfOk result (λ r. (r.0 ≡ N.region) × (r.1.region ≡ N.region)) }
        ensures stakes { IfOk result (λ r. HasAllStakes budget r.1.view) }
    {
        let mut seat = seat;
        is_whole(&seat, supers, budget);
        let (first, second, third, fourth, cells, workers) = part_all(
            &region, &mut seat, supers, budget,
        );
        let pool = Pool::open(alloc, seat.note(), supers)?;
        let heap = Heap {
            region,
            pool: Mutex::new(pool),
            first: Mutex::new(Root::open(alloc, first)?),
            second: Mutex::new(Root::open(alloc, second)?),
            third: Mutex::new(Root::open(alloc, third)?),
            fourth: Mutex::new(Root::open(alloc, fourth)?),
            cells: Mutex::new(Cells::new(alloc, cells)?),
        };
        Ok((heap, workers.seat()))
    }

    /// What the heap shared: the region, and, each behind its lock, the pool, the roots of partitions 0 to 3, and the cells.
    pub fn parts(self) -> HeapParts<N>
        ensures { result.0 ≡ N.region }
    {
        let Heap {
            region,
            pool,
            first,
            second,
            third,
            fourth,
            cells,
        } = self;
        (region, pool, first, second, third, fourth, cells)
    }

    /// The region.
    pub fn region(&self) -> &Region
        ensures { result.now ≡ N.region }
    {
        &self.region
    }
}

// A region with this first seat has the words of this many super pages.
fn is_whole(seat: &Seat, supers: u32, budget: u32)
    requires { seat.now.view ≡ first_view (262144 * supers) budget }
    ensures { byte_word_count seat.now.region ≡ 262144 * supers }
{
    let _ = (supers, budget);
    seat.aware();
}

// Parts the first seat of a region of this many super pages: a note for each root, one for the cells, and one with all stakes and
// the budget. The pool's part stays.
fn part_all(
    region: &Region,
    seat: &mut Seat,
    supers: u32,
    budget: u32,
) -> (Note, Note, Note, Note, Note, Note)
    requires region { seat.old.region ≡ region.now }
    requires supers { supers ≤ region_supers }
    requires first { seat.old.view ≡ first_view (262144 * supers) budget }
    ensures region { seat.new.region ≡ region.now }
    ensures notes { (result.0.region ≡ region.now) × (result.1.region ≡ region.now) × (result.2.region ≡ region.now)
        × (result.3.region ≡ region.now) × (result.4.region ≡ region.now) × (result.5.region ≡ region.now) }
    ensures first { IsFirstView 0 result.0.view }
    ensures second { IsFirstView 1 result.1.view }
    ensures third { IsFirstView 2 result.2.view }
    ensures fourth { IsFirstView 3 result.3.view }
    ensures cells { HostsKeeper 5 result.4.view × (list_of 5 result.4.view ≡ []) }
    ensures workers { HasAllStakes budget result.5.view }
    ensures pool { CanOpen supers seat.new.view }
    ensures clean { unclean_of seat.new.view ≡ 0 }
{
    let _ = supers;
    let first = part(region, seat, 0);
    let second = part(region, seat, 1);
    let third = part(region, seat, 2);
    let fourth = part(region, seat, 3);
    let cells = part(region, seat, 5);
    let workers = part_stakes(region, seat, budget);
    (first, second, third, fourth, cells, workers)
}

// Hands over a keeper, and nothing else.
fn part(region: &Region, seat: &mut Seat, keeper: u32) -> Note
    requires region { seat.old.region ≡ region.now }
    ensures regions { (seat.new.region ≡ seat.old.region) × (result.region ≡ seat.old.region) }
    ensures left { seat.new.view ≡ left_after (keeper_parcel keeper) seat.old.view }
    ensures given { result.view ≡ given_after (keeper_parcel keeper) seat.old.view }
{
    region.hand(seat, &[], 0, &[Mark::Keeper(keeper)])
}

// Hands over all stakes, and this many counted steps.
fn part_stakes(region: &Region, seat: &mut Seat, budget: u32) -> Note
    requires region { seat.old.region ≡ region.now }
    requires budget { budget ≤ seat.old.view.budget }
    requires clean { unclean_of seat.old.view ≡ 0 }
    ensures regions { (seat.new.region ≡ seat.old.region) × (result.region ≡ seat.old.region) }
    ensures left { seat.new.view ≡ left_after (stakes_parcel budget) seat.old.view }
    ensures given { result.view ≡ given_after (stakes_parcel budget) seat.old.view }
{
    region.hand(seat, &[], budget, &STAKES)
}
