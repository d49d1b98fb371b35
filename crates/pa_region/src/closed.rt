ghost use Rattle.std.specs.Prelude.{◌≡◌, ℕ, ◌*◌, ◌/◌, ◌%◌, ◌<◌, List, length, slice_index};
ghost use Rattle.core.specs.Mem.Slots.{slots_items, slots_len, IsFull};
ghost use Rattle.pa_region.specs.Views.{byte_words};

use std::alloc::Global;
use std::marker::Model;

/// The words of a region that was closed. Contracts see the words of its bytes.
pub struct Closed {
    table: atomic_table::Closed<(), Global>,
}

impl Model for Closed {
    ghost Value = { List ℕ };

    ghost view = { λ c. byte_words (slots_items c.table.words) };

    ghost invariant = { λ c. IsFull c.table.words × (slots_len c.table.slots ≡ 0) };
}

impl Closed {
    pub(crate) fn of(table: atomic_table::Closed<(), Global>) -> Closed
        requires { IsFull table.words × (slots_len table.slots ≡ 0) }
        ensures { result ≡ byte_words (slots_items table.words) }
    {
        Closed { table }
    }

    /// The word at the offset `at`, in bytes: a multiple of 8 inside the region.
    pub fn word(&self, at: u32) -> u64
        requires { (at % 8 ≡ 0) × (at < 8 * length self.now) }
        ensures { result ≡ slice_index self.now (at / 8) }
    {
        self.table.word((at / 8) as usize)
    }
}

impl Drop for Closed {
    fn drop(self) {
        let Closed { table } = self;
        table.free();
    }
}
