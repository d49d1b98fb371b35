ghost use Rattle.std.specs.Prelude.{◌≡◌, ◌<◌, ◌≤◌, ◌+◌, ℕ, [], ◌∷◌, ◌++◌, length, replicate, slice_set, slice_index_or, IfOk, IfErr, IfSome, IfNone, None};
ghost use Rattle.pa_record.specs.declared.history.CellEntry.{CellEntry};
ghost use Rattle.pa_trace.specs.Limits.{cell_count};
ghost use Rattle.pa_region.specs.Views.{stake_of};
ghost use Rattle.pa_region.specs.Lists.{keeper_of, list_of};
ghost use Rattle.pa_region.specs.Lending.{CanLend};
ghost use Rattle.pa_cells.specs.Cells.{IsCells, AreOf, IsOf, MakesExchange, cell_history, cell_holds, empty_cells, made_with_cell, pushed_at};

use crate::handle::{Parked, held_name};
use crate::numbers::exchange_numbers;
use pa_record::{CellEntry, History};
use pa_region::{Name, Note, Region, Seat, enter_with};
use pa_slot::OutOfMemory;
use std::alloc::Global;
use std::marker::{Model, PhantomData};
use std::mem;

// How many cells there are.
const CELLS: usize = pa_trace::CELLS as usize;

// How many entries a history has at most.
const MOST: usize = 2_147_483_647;

// The keeper with the list of all exchanges.
const KEEPER: u32 = 5;

/// The 64 cells, which are behind one lock. `N` names the region of their seat and of the notes in them, and the first partition
/// whose Owns are sealed. Contracts see
/// the view of the seat, the history of each cell, and what each holds.
#[derive(Drop)]
pub struct Cells<N: Name> {
    seat: Seat,
    histories: Vec<History>,
    parked: Vec<Option<Parked>>,
    of: PhantomData<N>,
}

impl<N: Name> Model for Cells<N> {
    ghost use Rattle.std.specs.Prelude.{◌≡◌};
    ghost use Rattle.pa_cells.specs.Cells.{CellsHeld, IsCells, AreOf};

    ghost Value = { CellsHeld };

    ghost view = { λ c. record { view = c.seat.view; histories = c.histories.items; parked = c.parked.items } };

    ghost invariant = { λ c.
        (c.seat.region ≡ N.region) × AreOf N.region N.plain_from c.parked.items
        × IsCells (record { view = c.seat.view; histories = c.histories.items; parked = c.parked.items }) };
}

impl<N: Name> Cells<N> {
    /// 64 empty cells. The note has keeper 5, with an empty list, and no stake.
    pub fn new(alloc: Global, note: Note) -> Result<Cells<N>, OutOfMemory>
        requires region { note.region ≡ N.region }
        requires keeper { 0 < keeper_of note.view 5 }
        requires stakes { (k : ℕ) → stake_of note.view k ≡ 0 }
        requires empty { list_of 5 note.view ≡ [] }
        ensures { IfOk result (λ c. c ≡ empty_cells note.view) }
    {
        let histories = no_histories(alloc)?;
        let parked = nothing_parked(alloc)?;
        Ok(Cells {
            seat: note.seat(),
            histories,
            parked,
            of: PhantomData,
        })
    }

    /// What the type keeps. It costs nothing.
    pub fn kept(&self)
        ensures cells { IsCells self.now }
        ensures notes { AreOf N.region N.plain_from self.now.parked }
    {
        // Naming the seat hands the proof what its type keeps.
        let _ = &self.seat;
    }

    /// One exchange, on this line of the trace: the cell gets what is given, and the caller what the exchange before gave,
    /// with the entry's place in the cell's history. The entry is made with the caller's least stake, which is lent and
    /// comes back. `Err` hands back what was given: there was no memory, or no room in the history. Nothing changed then.
    pub fn exchange(
        &mut self,
        region: &Region,
        seat: &mut Seat,
        line: u32,
        cell: u32,
        given: Option<Parked>,
    ) -> Result<(u32, Option<Parked>), Option<Parked>>
        requires regions { (region.now ≡ N.region) × (seat.old.region ≡ N.region) }
        requires given { IfSome given (IsOf N.region N.plain_from) }
        requires able { CanLend seat.old.view }
        requires cell { cell < cell_count }
        ensures region { seat.new.region ≡ seat.old.region }
        ensures again { CanLend seat.new.view }
        ensures index { IfOk result (λ r. r.0 ≡ length (cell_history self.old.histories cell)) }
        ensures place { IfOk result (λ r. r.0 ≡ length (made_with_cell cell (list_of 5 self.old.view))) }
        ensures found { IfOk result (λ r. r.1 ≡ cell_holds self.old.parked cell) }
        ensures note { IfOk result (λ r. IfSome r.1 (IsOf N.region N.plain_from)) }
        ensures made { IfOk result (λ _. MakesExchange line cell given seat.old.view seat.new.view self.old self.new) }
        ensures back { IfErr result (λ p. p ≡ given) }
        ensures same { IfErr result (λ _. (self.new ≡ self.old) × (seat.new ≡ seat.old)) }
    {
        let entry = CellEntry {
            line,
            gave: held_name(&given),
            found: held_name(&self.parked[cell as usize]),
        };
        let Some(index) = append(&mut self.histories, cell as usize, entry) else {
            return Err(given);
        };
        let numbers = exchange_numbers(cell, &entry);
        enter_with(region, seat, &mut self.seat, KEEPER, numbers.as_slice());
        let found = replace(&mut self.parked, cell as usize, given);
        Ok((index, found))
    }

    /// The histories of the cells, what each holds, and the whole seat.
    pub fn close(self) -> (Vec<History>, Vec<Option<Parked>>, Note)
        ensures histories { result.0.items ≡ self.histories }
        ensures parked { result.1.items ≡ self.parked }
        ensures note { (result.2.view ≡ self.view) × (result.2.region ≡ N.region) }
        ensures kept { IsCells self × AreOf N.region N.plain_from self.parked }
    {
        let Cells {
            seat,
            histories,
            parked,
            of: _,
        } = self;
        (histories, parked, seat.note())
    }
}

// Histories of no exchanges, one for each cell.
fn no_histories(alloc: Global) -> Result<Vec<History>, OutOfMemory>
    ensures { IfOk result (λ v. v.items ≡ replicate cell_count []) }
{
    let mut histories = Vec::with_capacity(alloc, CELLS)?;
    for _ in 0..CELLS {
        histories.push(History::new(alloc))?;
    }
    Ok(histories)
}

// Nothing in each cell.
fn nothing_parked(alloc: Global) -> Result<Vec<Option<Parked>>, OutOfMemory>
    ensures { IfOk result (λ v. v.items ≡ replicate cell_count None) }
{
    let mut parked: Vec<Option<Parked>> = Vec::with_capacity(alloc, CELLS)?;
    for _ in 0..CELLS {
        parked.push(None)?;
    }
    Ok(parked)
}

// Puts the entry after the others of the cell's history, and returns its place there. `None` if there is no memory, or no room
// in the history. The history is unchanged then.
fn append(histories: &mut Vec<History>, cell: usize, entry: CellEntry) -> Option<u32>
    requires { cell < length histories.old.items }
    ensures index { IfSome result (λ j. j ≡ length (cell_history histories.old.items cell)) }
    ensures room { IfSome result (λ j. j < 2147483647) }
    ensures pushed { IfSome result (λ _. histories.new.items ≡ pushed_at cell entry histories.old.items) }
    ensures same { IfNone result (histories.new.items ≡ histories.old.items) }
{
    let history = &mut histories[cell];
    let count = history.entries().len();
    if count >= MOST || history.push(entry).is_err() {
        return None;
    }
    Some(count as u32)
}

// Puts this in the cell, and returns what was there.
fn replace(parked: &mut Vec<Option<Parked>>, cell: usize, given: Option<Parked>) -> Option<Parked>
    requires { cell < length parked.old.items }
    ensures found { result ≡ cell_holds parked.old.items cell }
    ensures after { parked.new.items ≡ slice_set parked.old.items cell given }
{
    mem::replace(&mut parked[cell], given)
}
