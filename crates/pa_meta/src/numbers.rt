ghost use Rattle.std.specs.Prelude.{◌≡◌, ℕ, ◌+◌, ◌*◌, ◌^◌, ◌<◌};
ghost use Rattle.pa_buckets.specs.declared.spans.State.{State};
ghost use Rattle.pa_buckets.specs.Limits.{class_count};
ghost use Rattle.pa_spans.specs.declared.span.Span.{Span};
ghost use Rattle.pa_records.specs.Words.{state_number, AreRecordOf};

use pa_buckets::{Class, State};
use pa_spans::Span;

// The number of a state.
fn number_of_state(state: State) -> u64
    ensures { result ≡ state_number state }
{
    match state {
        State::None => 0,
        State::Active => 1,
        State::Empty => 2,
        State::Decommitted => 3,
        State::Full => 4,
    }
}

// The state of a number.
fn state_of_number(number: u64) -> State
    ensures { (state : State) → number ≡ state_number state → result ≡ state }
{
    match number {
        0 => State::None,
        1 => State::Active,
        2 => State::Empty,
        3 => State::Decommitted,
        _ => State::Full,
    }
}

// Word 0 of a span's record, of its fields.
pub(crate) fn counts(
    class: Class,
    state: State,
    allocated: u16,
    provisioned: u16,
    committed: u16,
) -> u64
    ensures word { result ≡ class + 256 * state_number state + 65536 * allocated + 4294967296 * provisioned + 281474976710656 * committed }
    ensures class { class < class_count }
    ensures fits { (allocated < 2 ^ 16) × (provisioned < 2 ^ 16) × (committed < 2 ^ 16) }
{
    u64::from(class.number())
        + 256 * number_of_state(state)
        + 65536 * u64::from(allocated)
        + 4294967296 * u64::from(provisioned)
        + 281474976710656 * u64::from(committed)
}

// Words 1 and 2, each of two fields.
pub(crate) fn both(low: u32, high: u32) -> u64
    ensures word { result ≡ low + 4294967296 * high }
    ensures fits { (low < 2 ^ 32) × (high < 2 ^ 32) }
{
    u64::from(low) + 4294967296 * u64::from(high)
}

// The span of which these are the words.
pub(crate) fn span_in(counts: u64, slots: u64, neighbours: u64, turn: u64) -> Span
    requires { (s : Span) × AreRecordOf s counts slots neighbours turn }
    ensures { (s : Span) → AreRecordOf s counts slots neighbours turn → result ≡ s }
{
    Span {
        class: Class::of((counts % 256) as u32).unwrap(),
        state: state_of_number(counts / 256 % 256),
        allocated: (counts / 65536 % 65536) as u16,
        provisioned: (counts / 4294967296 % 65536) as u16,
        committed: (counts / 281474976710656) as u16,
        made: (slots / 4294967296) as u32,
        head: (slots % 4294967296) as u32,
        previous: (neighbours % 4294967296) as u32,
        next: (neighbours / 4294967296) as u32,
        turn,
    }
}

// The state of the span of which this is word 0.
pub(crate) fn state_in(counts: u64) -> State
    ensures { (s : Span) (slots neighbours turn : ℕ) → AreRecordOf s counts slots neighbours turn → result ≡ s.state }
{
    state_of_number(counts / 256 % 256)
}
