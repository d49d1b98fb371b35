use pa_record::Answer;
use pa_trace::{Op, Rules};

/// A record of a run with the op of its line: the line's number in the trace, its thread, its phase, the rules by which it
/// is played and its op, and the answer.
#[derive(Clone, Copy, Debug, PartialEq, Eq)]
pub struct Played {
    pub line: u32,
    pub thread: u32,
    pub phase: u32,
    pub rules: Rules,
    pub op: Op,
    pub answer: Answer,
}
