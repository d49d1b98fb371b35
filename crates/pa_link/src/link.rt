ghost use Rattle.std.specs.Prelude.{◌≡◌, ◌<◌};
ghost use Rattle.pa_slot.specs.Links.{link_to, linked_name, first_word};
ghost use Rattle.pa_record.specs.Spans.{name_of};
ghost use Rattle.pa_region.specs.Views.{free_of};
ghost use Rattle.pa_link.specs.Chains.{after_link};

use pa_region::{Region, Seat};
use pa_slot::{SlotName, Title};

// The link to the front of a list: 0 if there is none.
pub(crate) fn link_of(front: Option<SlotName>) -> u64
    ensures { result ≡ link_to front }
{
    match front {
        Some(name) => (u64::from(name.start) + (u64::from(name.born) << 32)).swap_bytes(),
        None => 0,
    }
}

// The slot to which a link leads.
fn name_in(link: u64) -> SlotName
    ensures { result ≡ linked_name link }
{
    let number = link.swap_bytes();
    SlotName {
        start: (number % (1 << 32)) as u32,
        born: (number >> 32) as u32,
    }
}

// Stores a link in the first content word of a title that the seat holds free.
pub(crate) fn store_link(region: &Region, seat: &mut Seat, title: Title, link: u64)
    requires region { seat.old.region ≡ region.now }
    requires able { 0 < free_of seat.old.view title }
    ensures region { seat.new.region ≡ seat.old.region }
    ensures view { seat.new.view ≡ after_link title link seat.old.view }
{
    seat.placed(title);
    region.store(seat, title.start, link);
}

// The slot to which the link in the first content word leads of a title that the seat holds free.
pub(crate) fn load_link(region: &Region, seat: &mut Seat, title: Title) -> SlotName
    requires region { seat.old.region ≡ region.now }
    requires able { 0 < free_of seat.old.view title }
    ensures seat { seat.new ≡ seat.old }
    ensures name { result ≡ linked_name (first_word seat.old.view.words (name_of title)) }
{
    seat.placed(title);
    name_in(region.load(seat, title.start))
}
