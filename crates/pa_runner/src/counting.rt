//! How many lines each thread has.
ghost use Rattle.std.specs.Prelude.{◌≡◌, ℕ, ◌<◌, ◌≤◌, length, slice_index};
ghost use Rattle.std.specs.List.{AllByRecursion};
ghost use Rattle.pa_trace.specs.Limits.{IsLineWithin, most_threads};
ghost use Rattle.pa_runner.specs.Tracing.{lines_by};

use pa_trace::{Line, MOST_THREADS};

/// How many of the lines each thread has, by one walk over them.
pub fn count_lines(lines: &[Line]) -> [u32; MOST_THREADS as usize]
    requires few { length lines.now < 65536 }
    requires within { (partitions : ℕ) × (threads : ℕ) × (threads ≤ most_threads)
        × AllByRecursion (IsLineWithin partitions threads) lines.now }
    ensures { (k : ℕ) → k < most_threads → slice_index result k ≡ lines_by k lines.now }
{
    let mut counts = [0u32; MOST_THREADS as usize];
    for line in lines {
        match *line {
            Line::Phase => {}
            Line::Do { thread, op: _ } => {
                let k = thread as usize;
                counts[k] += 1;
            }
        }
    }
    counts
}
