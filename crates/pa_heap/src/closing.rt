//! The end of a heap: one seat takes all others in, and the region is closed.
ghost use Rattle.std.specs.Prelude.{◌≡◌, All, IfSome};
ghost use Rattle.pa_region.specs.Views.{HasEveryStake};
ghost use Rattle.pa_region.specs.Waiting.{unclean_of};
ghost use Rattle.pa_region.specs.Lending.{CanHost};
ghost use Rattle.pa_region.specs.Shares.{byte_word_count};
ghost use Rattle.pa_cells.specs.Cells.{IsOf};
ghost use Rattle.pa_heap.specs.Closing.{IsWithin, TakesOthersIn, LeavesPool, LeavesRoot, LeavesCells, LeavesWorker, HasTold, IsClosedBy};

use crate::left::Left;
use crate::worker::Worker;
use pa_cells::{Cells, Parked};
use pa_pool::Pool;
use pa_record::{History, Journal, PoolEntry};
use pa_region::{Name, Note, Region, Seat};
use pa_root::{Root, journals_fit_the_pool};
use pa_thread_state::Heap;
use std::sync::Mutex;

/// Takes all that the heap and its workers have into the seat, which has every stake, and closes the region. Each worker has
/// handed its stake over before.
pub fn close<N: Name>(heap: Heap<N>, workers: Vec<Worker<N>>, seat: Seat) -> Left
    requires region { seat.region ≡ N.region }
    requires stakes { HasEveryStake seat.view }
    requires clean { unclean_of seat.view ≡ 0 }
    requires told { All HasTold workers.items }
    ensures { IsClosedBy (byte_word_count N.region) workers.items seat.view result }
{
    let (region, pool, first, second, third, fourth, cells) = heap.parts();
    let mut seat = seat;
    take_workers(&region, &mut seat, workers);
    let pool = take_pool(&region, &mut seat, pool);
    let roots = [
        take_root(&region, &mut seat, first),
        take_root(&region, &mut seat, second),
        take_root(&region, &mut seat, third),
        take_root(&region, &mut seat, fourth),
    ];
    let cells = take_cells(&region, &mut seat, cells);
    seat.aware();
    journals_fit_the_pool();
    let region = region.close(seat);
    Left {
        roots,
        pool,
        cells,
        region,
    }
}

// Takes in a note that has no stake.
fn take_in(region: &Region, seat: &mut Seat, note: Note)
    requires regions { (seat.old.region ≡ region.now) × (note.region ≡ region.now) }
    requires host { CanHost note.view }
    ensures region { seat.new.region ≡ seat.old.region }
    ensures takes { TakesOthersIn seat.old.view seat.new.view }
    ensures within { IsWithin note.view seat.new.view }
{
    seat.aware();
    note.aware();
    region.take(seat, note);
    seat.aware();
}

// Takes in the seats of workers that handed their stakes over.
fn take_workers<N: Name>(region: &Region, seat: &mut Seat, workers: Vec<Worker<N>>)
    requires regions { (seat.old.region ≡ region.now) × (region.now ≡ N.region) }
    requires told { All HasTold workers.items }
    ensures region { seat.new.region ≡ seat.old.region }
    ensures takes { TakesOthersIn seat.old.view seat.new.view }
    ensures leaves { All (LeavesWorker seat.new.view) workers.items }
{
    for worker in workers {
        take_worker(region, seat, worker);
    }
}

// Takes in the seat of one worker.
fn take_worker<N: Name>(region: &Region, seat: &mut Seat, worker: Worker<N>)
    requires regions { (seat.old.region ≡ region.now) × (region.now ≡ N.region) }
    requires told { HasTold worker }
    ensures region { seat.new.region ≡ seat.old.region }
    ensures takes { TakesOthersIn seat.old.view seat.new.view }
    ensures leaves { LeavesWorker seat.new.view worker }
{
    worker.kept();
    take_in(region, seat, worker.into_note());
}

// Takes in the pool's seat, and returns the pool's entries.
fn take_pool<N: Name>(region: &Region, seat: &mut Seat, pool: Mutex<Pool<N>>) -> Vec<PoolEntry>
    requires regions { (seat.old.region ≡ region.now) × (region.now ≡ N.region) }
    ensures region { seat.new.region ≡ seat.old.region }
    ensures takes { TakesOthersIn seat.old.view seat.new.view }
    ensures leaves { LeavesPool (byte_word_count N.region) result.items seat.new.view }
{
    let (entries, note) = pool.into_inner().close();
    take_in(region, seat, note);
    entries
}

// Takes in the seat of a partition's root, and returns its journal.
fn take_root<N: Name, const P: u32>(
    region: &Region,
    seat: &mut Seat,
    root: Mutex<Root<N, P>>,
) -> Journal
    requires regions { (seat.old.region ≡ region.now) × (region.now ≡ N.region) }
    ensures region { seat.new.region ≡ seat.old.region }
    ensures takes { TakesOthersIn seat.old.view seat.new.view }
    ensures leaves { LeavesRoot P result seat.new.view }
{
    let (journal, note) = root.into_inner().close();
    take_in(region, seat, note);
    Journal::of(journal)
}

// Takes in the cells' seat and the handles that are still in the cells, and returns the cells' histories.
fn take_cells<N: Name>(region: &Region, seat: &mut Seat, cells: Mutex<Cells<N>>) -> Vec<History>
    requires regions { (seat.old.region ≡ region.now) × (region.now ≡ N.region) }
    ensures region { seat.new.region ≡ seat.old.region }
    ensures takes { TakesOthersIn seat.old.view seat.new.view }
    ensures leaves { LeavesCells result.items seat.new.view }
{
    let (histories, parked, note) = cells.into_inner().close();
    take_in(region, seat, note);
    for waiting in parked {
        take_parked::<N>(region, seat, waiting);
    }
    histories
}

// Takes in the handle that is still in a cell.
fn take_parked<N: Name>(region: &Region, seat: &mut Seat, waiting: Option<Parked>)
    requires regions { (seat.old.region ≡ region.now) × (region.now ≡ N.region) }
    requires waiting { IfSome waiting (IsOf N.region N.plain_from) }
    ensures region { seat.new.region ≡ seat.old.region }
    ensures takes { TakesOthersIn seat.old.view seat.new.view }
{
    if let Some(parked) = waiting {
        parked.kept();
        take_in(region, seat, parked.note);
    }
}
