ghost use Rattle.std.specs.Prelude.{◌≡◌, ◌∷◌};
ghost use Rattle.pa_cells.specs.Cells.{exchange_numbers};

use arrayvec::ArrayVec;
use pa_record::{CellEntry, cell_numbers};

/// The numbers of an exchange in the list: its line, its cell, and then what was given and what was found.
pub fn exchange_numbers(cell: u32, entry: &CellEntry) -> ArrayVec<u64, 64>
    ensures { result.items ≡ exchange_numbers (record { cell = cell; entry = entry.now }) }
{
    let mut numbers = cell_numbers(entry);
    numbers.insert(1, u64::from(cell));
    numbers
}
