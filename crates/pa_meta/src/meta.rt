ghost use Rattle.std.specs.Prelude.{◌≡◌};
ghost use Rattle.pa_spans.specs.declared.span.Span.{Span};
ghost use Rattle.pa_records.specs.Words.{record_word, IsRecordAt};
ghost use Rattle.pa_meta.specs.Meta.{HasRawRecord, after_record};

use crate::numbers::{both, counts, span_in, state_in};
use crate::words::{load_word, record_start, store_word};
use pa_buckets::State;
use pa_region::{Region, Seat};
use pa_spans::Span;

/// Writes the record of the span of the page at this offset, in bytes: four words.
pub fn write_meta(region: &Region, seat: &mut Seat, at: u32, span: Span)
    requires region { seat.old.region ≡ region.now }
    requires raw { HasRawRecord seat.old.view at }
    ensures region { seat.new.region ≡ seat.old.region }
    ensures view { seat.new.view ≡ after_record at span seat.old.view }
    ensures reads { IsRecordAt seat.new.view.words (record_word at) span }
{
    seat.aware();
    let start = record_start(at);
    let first = counts(
        span.class,
        span.state,
        span.allocated,
        span.provisioned,
        span.committed,
    );
    let second = both(span.head, span.made);
    let third = both(span.previous, span.next);
    store_word(region, seat, start, first);
    store_word(region, seat, start + 8, second);
    store_word(region, seat, start + 16, third);
    store_word(region, seat, start + 24, span.turn);
}

/// The span whose record the page at this offset has, in bytes: four loads.
pub fn read_meta(region: &Region, seat: &mut Seat, at: u32) -> Span
    requires region { seat.old.region ≡ region.now }
    requires raw { HasRawRecord seat.old.view at }
    requires record { (s : Span) × IsRecordAt seat.old.view.words (record_word at) s }
    ensures seat { seat.new ≡ seat.old }
    ensures span { (s : Span) → IsRecordAt seat.old.view.words (record_word at) s → result ≡ s }
{
    let start = record_start(at);
    let counts = load_word(region, seat, start);
    let slots = load_word(region, seat, start + 8);
    let neighbours = load_word(region, seat, start + 16);
    let turn = load_word(region, seat, start + 24);
    span_in(counts, slots, neighbours, turn)
}

/// The state of the span whose record the page at this offset has, in bytes: one load.
pub fn read_state(region: &Region, seat: &mut Seat, at: u32) -> State
    requires region { seat.old.region ≡ region.now }
    requires raw { HasRawRecord seat.old.view at }
    requires record { (s : Span) × IsRecordAt seat.old.view.words (record_word at) s }
    ensures seat { seat.new ≡ seat.old }
    ensures state { (s : Span) → IsRecordAt seat.old.view.words (record_word at) s → result ≡ s.state }
{
    let start = record_start(at);
    let counts = load_word(region, seat, start);
    state_in(counts)
}
