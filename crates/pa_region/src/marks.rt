ghost use Rattle.std.specs.Prelude.{◌≡◌, ℕ, ◌<◌, ◌≤◌, false, true, not, ◌&&◌, ◌||◌, ◌==◌, slice_index_or};
ghost use Rattle.pa_region.specs.Marks.{names_stake, marked_stake};

/// What is handed over besides items and a budget: the stake, the keeper or the lease with this number.
#[derive(Clone, Copy, Debug, PartialEq, Eq)]
pub enum Mark {
    Stake(u32),
    Keeper(u32),
    Lease(u32),
}

// Which of the 16 stakes a seat has.
pub(crate) type Stakes = [bool; 16];

// The number of the stake that the mark is, or 16 if it is none of the 16.
fn number_of(mark: Mark) -> usize
    ensures few { result ≤ 16 }
    ensures named { (k : ℕ) → k < 16 → names_stake k mark ≡ (result == k) }
{
    match mark {
        Mark::Stake(number) if number < 16 => number as usize,
        Mark::Stake(_) | Mark::Keeper(_) | Mark::Lease(_) => 16,
    }
}

// The stakes that are marked.
pub(crate) fn marked(stakes: &Stakes, marks: &[Mark]) -> Stakes
    ensures { (k : ℕ) → k < 16 → slice_index_or result k false ≡ (slice_index_or stakes.now k false && marked_stake marks.now k) }
{
    let mut has = [false; 16];
    for mark in marks {
        let k = number_of(*mark);
        if k < 16 {
            has[k] = stakes[k];
        }
    }
    has
}

// The stakes that aren't marked.
pub(crate) fn unmarked(stakes: &Stakes, marks: &[Mark]) -> Stakes
    ensures { (k : ℕ) → k < 16 → slice_index_or result k false ≡ (slice_index_or stakes.now k false && not (marked_stake marks.now k)) }
{
    let mut has = *stakes;
    for mark in marks {
        let k = number_of(*mark);
        if k < 16 {
            has[k] = false;
        }
    }
    has
}

// The stakes of two seats.
pub(crate) fn both(stakes: &Stakes, others: &Stakes) -> Stakes
    ensures { (k : ℕ) → k < 16 → slice_index_or result k false ≡ (slice_index_or stakes.now k false || slice_index_or others.now k false) }
{
    let mut has = [false; 16];
    for k in 0..16 {
        has[k] = stakes[k] | others[k];
    }
    has
}

// The least number of a stake, or 16 if there is none.
pub(crate) fn least(stakes: &Stakes) -> u32
    ensures few { result ≤ 16 }
    ensures none { (k : ℕ) → k < result → slice_index_or stakes.now k false ≡ false }
    ensures there { result < 16 → slice_index_or stakes.now result false ≡ true }
{
    for k in 0..16 {
        if stakes[k] {
            return k as u32;
        }
    }
    16
}
