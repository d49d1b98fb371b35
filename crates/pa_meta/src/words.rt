ghost use Rattle.std.specs.Prelude.{◌≡◌, ◌/◌, ◌%◌, ◌^◌, ◌<◌, slice_index};
ghost use Rattle.pa_region.specs.Stores.{HasRawWord};
ghost use Rattle.pa_records.specs.Words.{record_byte};
ghost use Rattle.pa_meta.specs.Meta.{with_word};

use pa_layout::{meta_start, page_of, super_page_of};
use pa_region::{Region, Seat};

// Where the record of the page at this offset begins, in bytes.
pub(crate) fn record_start(at: u32) -> u32
    ensures { result ≡ record_byte at }
{
    meta_start(super_page_of(at), page_of(at))
}

// Stores a raw word.
pub(crate) fn store_word(region: &Region, seat: &mut Seat, at: u32, value: u64)
    requires region { seat.old.region ≡ region.now }
    requires able { (at % 8 ≡ 0) × HasRawWord seat.old.view at }
    ensures region { seat.new.region ≡ seat.old.region }
    ensures view { seat.new.view ≡ with_word (at / 8) value seat.old.view }
    ensures fits { value < 2 ^ 64 }
{
    region.store(seat, at, value);
}

// A raw word.
pub(crate) fn load_word(region: &Region, seat: &mut Seat, at: u32) -> u64
    requires region { seat.old.region ≡ region.now }
    requires able { (at % 8 ≡ 0) × HasRawWord seat.old.view at }
    ensures seat { seat.new ≡ seat.old }
    ensures word { result ≡ slice_index seat.old.view.words (at / 8) }
{
    region.load(seat, at)
}
