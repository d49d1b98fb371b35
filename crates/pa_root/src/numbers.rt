//! The numbers of free titles.
ghost use Rattle.std.specs.Prelude.{◌≡◌, ◌<◌, ◌≤◌, All, length};
ghost use Rattle.pa_region.specs.Views.{free_of, seen_of};
ghost use Rattle.pa_root.specs.Handing.{numbered_by};

use pa_record::{Batch, Numbered};
use pa_region::{Region, Seat};
use pa_slot::{SlotName, Title, Word, number};

/// The number of a free title's count word, which is the one that its seat has seen.
pub fn number_seen(region: &Region, seat: &mut Seat, title: Title) -> u64
    requires region { seat.old.region ≡ region.now }
    requires free { 0 < free_of seat.old.view title }
    ensures region { seat.new.region ≡ seat.old.region }
    ensures view { seat.new.view ≡ seat.old.view }
    ensures number { result ≡ seen_of seat.old.view title }
{
    seat.placed(title);
    seat.aware();
    number(Word(region.load(seat, title.start + (title.len - 8))))
}

/// At most 16 free titles, each at the number of its count word.
pub fn numbers_seen(region: &Region, seat: &mut Seat, titles: &[Title]) -> Batch
    requires region { seat.old.region ≡ region.now }
    requires free { All (λ t. 0 < free_of seat.old.view t) titles.now }
    requires few { length titles.now ≤ 16 }
    ensures region { seat.new.region ≡ seat.old.region }
    ensures view { seat.new.view ≡ seat.old.view }
    ensures numbers { result ≡ numbered_by seat.old.view titles.now }
{
    let mut slots = Batch::new();
    for i in 0..titles.len() {
        let title = titles[i];
        let slot = SlotName {
            start: title.start,
            born: title.born,
        };
        let number = number_seen(region, seat, title);
        slots.push(Numbered { slot, number });
    }
    slots
}
