//! Cutting of slots side by side, and of direct maps.
ghost use Rattle.std.specs.Prelude.{◌≡◌, ℕ, ◌+◌, ◌%◌, ◌<◌, ◌≤◌};
ghost use Rattle.pa_layout.specs.Pages.{supers_for};
ghost use Rattle.pa_region.specs.Views.{low_of, seen_of};
ghost use Rattle.pa_region.specs.Cuts.{after_cut};
ghost use Rattle.pa_root.specs.Keeping.{IsInRun};
ghost use Rattle.pa_root.specs.Filling.{CanCutAll, after_cuts};
ghost use Rattle.pa_root.specs.Cutting.{titles_beside, NoneSeen, map_beside};

use pa_region::{Region, Seat};
use pa_slot::Title;

/// Cuts `count` titles out of raw bytes, side by side, from the first one on. No seat has seen a step on any of them.
pub fn cut_beside(region: &Region, seat: &mut Seat, first: Title, count: u32)
    requires region { seat.old.region ≡ region.now }
    requires able { CanCutAll (titles_beside first 0 count) seat.old.view }
    ensures region { seat.new.region ≡ seat.old.region }
    ensures view { seat.new.view ≡ after_cuts (titles_beside first 0 count) seat.old.view }
    ensures new { NoneSeen seat.new.view (titles_beside first 0 count) }
{
    let mut next = first;
    for done in 0..count {
        region.cut(seat, next);
        seat.placed(next);
        next.start += next.len;
    }
}

/// Cuts the title of a direct map of `len` bytes out of the raw super pages from `first` on,
/// after their first partition page.
pub fn cut_map(region: &Region, seat: &mut Seat, first: u32, born: u32, len: u32) -> Title
    requires region { seat.old.region ≡ region.now }
    requires inside { first < 2048 }
    requires whole { (len % 8 ≡ 0) × (16 ≤ len) }
    requires raw { (b : ℕ) → IsInRun first (supers_for len) b → 0 < low_of seat.old.view b born }
    ensures region { seat.new.region ≡ seat.old.region }
    ensures title { result ≡ map_beside first born len }
    ensures view { seat.new.view ≡ after_cut result seat.old.view }
    ensures new { seen_of seat.new.view result ≡ 0 }
{
    let start = first * 2097152 + 16384;
    let title = Title { start, len, born };
    region.cut(seat, title);
    title
}
