ghost use Rattle.std.specs.Prelude.{◌≡◌, ◌*◌, ◌≤◌, ◌^◌, length, sum_by};
ghost use Rattle.pa_slot.specs.declared.title.Title.{Title as Slot};
ghost use Rattle.pa_layout.specs.Pages.{supers_for};

use crate::Tally;
use pa_layout::supers_for;
use pa_slot::Title;

/// What one root has: its free slots, its bytes, and how many of its spans are in each state.
#[derive(Clone, Copy, Debug, PartialEq, Eq)]
pub struct Census {
    /// The slots that were made and are with the root, listed or in decommitted pages.
    pub root: Tally,
    /// Bytes of committed system pages, and of the slots of direct maps.
    pub committed: u64,
    /// Bytes of the super pages that the root holds.
    pub reserved: u64,
    pub full: u32,
    pub active: u32,
    pub empty: u32,
    pub decommitted: u32,
}

/// The bytes of the direct maps' slots, and the super pages of the direct maps.
#[derive(Clone, Copy)]
pub struct Mapped {
    pub bytes: u64,
    pub supers: u64,
}

/// What these direct maps have together, counted in one pass.
pub fn mapped_of(maps: &[Title]) -> Mapped
    requires { length maps.now ≤ 2147483647 }
    ensures bytes { result.bytes ≡ sum_by (λ (t : Slot). t.len) maps.now }
    ensures low_bytes { result.bytes ≤ 2 ^ 63 }
    ensures supers { result.supers ≡ sum_by (λ (t : Slot). supers_for t.len) maps.now }
    ensures low_supers { result.supers ≤ 2049 * 2147483647 }
{
    let mut bytes = 0;
    let mut supers = 0;
    for map in maps {
        bytes += u64::from(map.len);
        supers += u64::from(supers_for(map.len));
    }
    Mapped { bytes, supers }
}
