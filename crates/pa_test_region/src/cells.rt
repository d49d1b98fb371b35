//! Handles go into cells and come out, on one thread and on two.
ghost use Rattle.std.specs.Prelude.{◌≡◌, ◌<◌, ◌&&◌, IfSome, IfOk, ℕ, true, false, [], ◌∷◌};
ghost use Rattle.pa_trace.specs.Limits.{cell_count};
ghost use Rattle.pa_slot.specs.declared.title.Title.{Title};
ghost use Rattle.pa_slot.specs.Titles.{same_title};
ghost use Rattle.pa_slot.specs.Holdings.{one};
ghost use Rattle.pa_region.specs.Views.{sealed_of, stake_of};
ghost use Rattle.pa_region.specs.Lists.{keeper_of, list_of};
ghost use Rattle.pa_region.specs.Hands.{HoldsGiven, first_sealed, is_clean_of, left_after};
ghost use Rattle.pa_region.specs.Marks.{parcel_of};
ghost use Rattle.pa_region.specs.Lending.{CanLend};
ghost use Rattle.pa_cells.specs.Handles.{HasSeenMade, TakesHandle, handle_item};
ghost use Rattle.pa_cells.specs.Cells.{IsOf};
ghost use Rattle.pa_test_region.specs.CellSlots.{test_slot, test_handle, test_entry, IsFresh, HasTestSlot, IsForCells, IsReadyIn, IsFoundIn};

use pa_cells::{
    Cells, Handle, Parked, givers_lack_handles, takers_have_handles, what_was_handed_can_wait,
};
use pa_machine::Item;
use pa_record::{CellEntry, Held, History, RootAct, RootEntry, root_numbers};
use pa_region::{
    Mark, Name, Note, Region, Seat, a_cut_leaves_zeros, a_new_region_can_be_cut,
    entries_stand_in_lists, entries_stand_in_logs, new_words_are_zero,
};
use pa_slot::{OutOfMemory, SlotName, Step, Title};
use std::alloc::Global;
use std::marker::Brand;
use std::process::Abort;
use std::sync::{Mutex, Wait};
use std::test::Fail;
use std::thread::{Threads, join};

// The name of the tests' slot.
const NAME: SlotName = SlotName {
    start: 16384,
    born: 0,
};

// The title of the tests' slot.
fn slot() -> Title
    ensures { result ≡ test_slot }
{
    Title {
        start: 16384,
        len: 32,
        born: 0,
    }
}

// The handle of the tests' slot.
fn handle() -> Handle
    ensures { result ≡ test_handle }
{
    Handle {
        title: slot(),
        partition: 0,
        class: None,
    }
}

// The Own of it, or a Ref.
fn item(own: bool) -> Item
    ensures { result ≡ handle_item own test_slot }
{
    if own {
        Item::Own(slot())
    } else {
        Item::Ref(slot())
    }
}

// Cuts the slot, enters it as a direct map in the list of partition 0, issues it and makes one copy.
fn make_slot(region: &Region, seat: &mut Seat)
    requires region { seat.old.region ≡ region.now }
    requires fresh { IsFresh seat.old.view }
    ensures region { seat.new.region ≡ region.now }
    ensures slot { HasTestSlot seat.new.view }
{
    a_cut_leaves_zeros();
    entries_stand_in_logs();
    entries_stand_in_lists();
    let entry = RootEntry {
        line: 2,
        act: RootAct::Map {
            pool: 0,
            slot: NAME,
            len: 32,
        },
    };
    region.cut(seat, slot());
    let numbers = root_numbers(&entry);
    region.enter(seat, 0, numbers.as_slice());
    region.count_step(seat, slot(), Step::Issue);
    region.count_step(seat, slot(), Step::Copy);
}

// Hands the Own or a Ref of the slot over, to be put into a cell.
fn park(region: &Region, seat: &mut Seat, own: bool) -> Parked
    requires region { seat.old.region ≡ region.now }
    requires holds { HoldsGiven (handle_item own test_slot) seat.old.view }
    requires made { HasSeenMade test_handle seat.old.view }
    ensures regions { (seat.new.region ≡ region.now) × (result.note.region ≡ region.now) }
    ensures left { seat.new.view ≡ left_after (parcel_of (handle_item own test_slot ∷ []) 0 []) seat.old.view }
    ensures handle { (result.handle ≡ test_handle) × (result.own ≡ own) }
    ensures sealed { (t : Title) → sealed_of result.note.view t
        ≡ one ((own && same_title test_slot t) && first_sealed (is_clean_of test_slot) seat.old.view.owns) }
{
    what_was_handed_can_wait();
    let note = region.hand(seat, &[item(own)], 0, &[]);
    Parked {
        handle: handle(),
        own,
        note,
    }
}

// The Own and a Ref of the slot, each on its way. Partition 0 isn't plain.
fn make_both<N: Name>(region: &Region, seat: &mut Seat) -> (Parked, Parked)
    requires region { (region.now ≡ N.region) × (seat.old.region ≡ region.now) }
    requires plain { N.plain_from ≡ 1 }
    requires fresh { IsFresh seat.old.view }
    ensures ready { IsReadyIn N.region seat.new }
    ensures own { IsOf N.region N.plain_from result.0 }
    ensures other { IsOf N.region N.plain_from result.1 }
{
    givers_lack_handles();
    make_slot(region, seat);
    let own = park(region, seat, true);
    let other = park(region, seat, false);
    (own, other)
}

// A new region, the seat that can make the slot, a second one, and the note for the cells.
fn start(alloc: Global) -> Result<(Region, Seat, Seat, Note), OutOfMemory>
    ensures regions { IfOk result (λ r. (r.1.region ≡ r.0) × (r.3.region ≡ r.0)) }
    ensures fresh { IfOk result (λ r. IsFresh r.1.view) }
    ensures second { IfOk result (λ r. IsReadyIn r.0 r.2) }
    ensures cells { IfOk result (λ r. IsForCells r.3.view) }
{
    a_new_region_can_be_cut();
    new_words_are_zero();
    let (region, mut seat) = Region::new(alloc, 1, 16)?;
    let keeper = region.hand(&mut seat, &[], 0, &[Mark::Keeper(5)]);
    let second = region.hand(&mut seat, &[], 0, &[Mark::Stake(1)]).seat();
    Ok((region, seat, second, keeper))
}

// One exchange. `None` means out of memory.
fn swap<N: Name>(
    cells: &mut Cells<N>,
    region: &Region,
    seat: &mut Seat,
    line: u32,
    cell: u32,
    given: Option<Parked>,
) -> Option<(u32, Option<Parked>)>
    requires region { region.now ≡ N.region }
    requires seat { IsReadyIn N.region seat.old }
    requires given { IsFoundIn N.region N.plain_from given }
    requires cell { cell < cell_count }
    ensures seat { IsReadyIn N.region seat.new }
    ensures found { IfSome result (λ r. IsFoundIn N.region N.plain_from r.1) }
{
    cells.exchange(region, seat, line, cell, given).ok()
}

// Whether the cell gave the slot's Own, or a Ref of it.
fn is_handle(found: &Option<Parked>, own: bool) -> bool {
    match found {
        Some(parked) => parked.own == own && parked.handle == handle(),
        None => false,
    }
}

// Whether the history has these entries.
fn is_history(history: Option<&History>, expected: &[CellEntry]) -> bool {
    match history {
        Some(history) => history.entries() == expected,
        None => false,
    }
}

// What one exchange gave and found, on this line.
fn entry(line: u32, gave: Held, found: Held) -> CellEntry {
    CellEntry { line, gave, found }
}

// Whether cells 3 and 7 have the histories that the exchanges below leave, and the last of 64 cells none.
fn are_histories(histories: &[History]) -> bool {
    let third = [
        entry(3, Held::Own(NAME), Held::Nothing),
        entry(5, Held::Nothing, Held::Own(NAME)),
        entry(7, Held::Ref(NAME), Held::Nothing),
    ];
    let seventh = [
        entry(4, Held::Ref(NAME), Held::Nothing),
        entry(6, Held::Own(NAME), Held::Ref(NAME)),
    ];
    is_history(histories.get(3), &third)
        && is_history(histories.get(7), &seventh)
        && is_history(histories.get(63), &[])
        && histories.get(64).is_none()
}

// Whether there is such a cell, and in it nothing, or the slot's Own, or a Ref of it.
fn is_parked(cell: Option<&Option<Parked>>, own: Option<bool>) -> bool {
    match (cell, own) {
        (Some(found), Some(own)) => is_handle(found, own),
        (Some(found), None) => found.is_none(),
        (None, _) => false,
    }
}

// Two cells: the Own goes into cell 3 and the Ref into cell 7, and from there the Ref goes on into cell 3.
fn exchange_here<N: Name, R: Abort>(
    rt: &R,
    alloc: Global,
    region: &Region,
    seat: &mut Seat,
    keeper: Note,
) -> Result<(), Fail>
    requires regions { (region.now ≡ N.region) × (seat.old.region ≡ N.region) × (keeper.region ≡ N.region) }
    requires plain { N.plain_from ≡ 1 }
    requires fresh { IsFresh seat.old.view }
    requires cells { IsForCells keeper.view }
{
    let (own, other) = make_both::<N>(region, seat);
    let mut cells = Cells::<N>::new(alloc, keeper)?;
    let (index, found) = swap(&mut cells, region, seat, 3, 3, Some(own)).ok_or("no memory")?;
    assert!(rt; index == 0 && found.is_none());
    let (index, found) = swap(&mut cells, region, seat, 4, 7, Some(other)).ok_or("no memory")?;
    assert!(rt; index == 0 && found.is_none());
    let (index, own) = swap(&mut cells, region, seat, 5, 3, None).ok_or("no memory")?;
    assert!(rt; index == 1 && is_handle(&own, true));
    let (index, other) = swap(&mut cells, region, seat, 6, 7, own).ok_or("no memory")?;
    assert!(rt; index == 1 && is_handle(&other, false));
    let (index, found) = swap(&mut cells, region, seat, 7, 3, other).ok_or("no memory")?;
    assert!(rt; index == 2 && found.is_none());
    let (histories, parked, _) = cells.close();
    assert!(rt; are_histories(&histories));
    assert!(rt; is_parked(parked.get(3), Some(false)));
    assert!(rt; is_parked(parked.get(7), Some(true)));
    assert!(rt; is_parked(parked.get(0), None));
    Ok(())
}

#[test]
fn handles_go_through_two_cells(rt: HostRuntime) -> Result<(), Fail> {
    let (region, mut seat, _, keeper) = start(rt.alloc())?;
    exchange_here::<Brand, _>(&rt, rt.alloc(), &region, &mut seat, keeper)
}

// One exchange under the lock, and the seat with which it was made.
fn swap_as<N: Name, R: Wait>(
    rt: &R,
    region: &Region,
    cells: &Mutex<Cells<N>>,
    seat: Seat,
    line: u32,
    cell: u32,
    given: Option<Parked>,
) -> Option<(Seat, u32, Option<Parked>)>
    requires region { region.now ≡ N.region }
    requires seat { IsReadyIn N.region seat }
    requires given { IsFoundIn N.region N.plain_from given }
    requires cell { cell < cell_count }
    ensures { IfSome result (λ r. IsReadyIn N.region r.0 × IsFoundIn N.region N.plain_from r.2) }
{
    let mut seat = seat;
    let mut held = cells.lock(rt);
    let (index, found) = swap(&mut held, region, &mut seat, line, cell, given)?;
    Some((seat, index, found))
}

// Takes what was found into the seat, which then has the handle.
fn take_in(region: &Region, seat: &mut Seat, found: Parked)
    requires regions { found.note.region ≡ region.now }
    requires ready { IsReadyIn region.now seat.old }
    ensures ready { IsReadyIn region.now seat.new }
    ensures handle { TakesHandle found seat.old.view seat.new.view }
{
    takers_have_handles();
    found.kept();
    let Parked { note, .. } = found;
    region.take(seat, note);
    seat.aware();
}

// Two threads: one parks the Ref in cell 9 while the other parks the Own in cell 10, and then each takes what the other left.
fn exchange_on_two<N: Name + Send + Sync, R: Threads + Wait + Abort + Sync>(
    rt: &R,
    alloc: Global,
    region: &Region,
    seat: Seat,
    second: Seat,
    keeper: Note,
) -> Result<(), Fail>
    requires regions { (region.now ≡ N.region) × (seat.region ≡ N.region) × (keeper.region ≡ N.region) }
    requires plain { N.plain_from ≡ 1 }
    requires fresh { IsFresh seat.view }
    requires second { IsReadyIn N.region second }
    requires cells { IsForCells keeper.view }
{
    let mut seat = seat;
    let (own, other) = make_both::<N>(region, &mut seat);
    let cells = Mutex::new(Cells::<N>::new(alloc, keeper)?);
    let (here, there) = join(
        rt,
        || -> Option<(Seat, u32, Option<Parked>)>
            requires region { region.now ≡ N.region }
            requires seat { IsReadyIn N.region seat }
            requires given { IsOf N.region N.plain_from other }
            ensures { IfSome result (λ r. IsReadyIn N.region r.0 × IsFoundIn N.region N.plain_from r.2) }
        { swap_as(rt, region, &cells, seat, 3, 9, Some(other)) },
        || -> Option<(Seat, u32, Option<Parked>)>
            requires region { region.now ≡ N.region }
            requires seat { IsReadyIn N.region second }
            requires given { IsOf N.region N.plain_from own }
            ensures { IfSome result (λ r. IsReadyIn N.region r.0 × IsFoundIn N.region N.plain_from r.2) }
        { swap_as(rt, region, &cells, second, 4, 10, Some(own)) },
    );
    let (seat, first, _) = here.ok_or("no memory")?;
    let (second, other, _) = there.ok_or("no memory")?;
    assert!(rt; first == 0 && other == 0);
    let (here, there) = join(
        rt,
        || -> Option<(Seat, u32, Option<Parked>)>
            requires region { region.now ≡ N.region }
            requires seat { IsReadyIn N.region seat }
            ensures { IfSome result (λ r. IsReadyIn N.region r.0 × IsFoundIn N.region N.plain_from r.2) }
        { swap_as(rt, region, &cells, seat, 5, 10, None) },
        || -> Option<(Seat, u32, Option<Parked>)>
            requires region { region.now ≡ N.region }
            requires seat { IsReadyIn N.region second }
            ensures { IfSome result (λ r. IsReadyIn N.region r.0 × IsFoundIn N.region N.plain_from r.2) }
        { swap_as(rt, region, &cells, second, 6, 9, None) },
    );
    let (_, index, found) = here.ok_or("no memory")?;
    assert!(rt; index == 1 && is_handle(&found, true));
    let (mut second, index, found) = there.ok_or("no memory")?;
    assert!(rt; index == 1 && is_handle(&found, false));
    take_in(region, &mut second, found.ok_or("nothing")?);
    Ok(())
}

#[test]
fn a_thread_finds_what_another_parked(rt: HostRuntime) -> Result<(), Fail> {
    let (region, seat, second, keeper) = start(rt.alloc())?;
    exchange_on_two::<Brand, _>(&rt, rt.alloc(), &region, seat, second, keeper)
}
