ghost use Rattle.std.specs.Prelude.{◌≡◌, ℕ, ◌<◌, ◌≤◌, List, length};
ghost use Rattle.pa_trace.specs.Faults.{lines_of};
ghost use Rattle.pa_audit_input.specs.Input.{IsParted};
ghost use Rattle.pa_audit_input.specs.Cutting.{IsBehindLine, IsLastCut};

use pa_trace::cut_line;

// The first line of a run's text.
const RUN: &[u8] = b"run 1\n";

// The bytes before the first line that is `run 1`, those from it on, and how many lines come before it.
pub fn parts_of(bytes: &[u8]) -> (&[u8], &[u8], u32)
    requires { length bytes.now ≤ 134217729 }
    ensures parted { IsParted result.0.now result.1.now bytes.now }
    ensures lines { result.2 ≡ length (lines_of result.0.now) }
    ensures few { result.2 ≤ length result.0.now }
{
    let mut rest = bytes;
    let mut lines = 0;
    while !rest.is_empty() && !rest.starts_with(RUN) {
        rest = behind_line(rest);
        lines += 1;
    }
    let (front, back) = bytes.split_at(bytes.len() - rest.len());
    (front, back, lines)
}

// The lines before the last one, and how many they are.
pub fn last_cut(bytes: &[u8]) -> (&[u8], u32)
    requires some { 0 < length bytes.now }
    requires few { length bytes.now ≤ 134217729 }
    ensures cut { (last : List ℕ) × IsLastCut bytes.now result.0.now last result.1 }
    ensures few { result.1 ≤ length result.0.now }
{
    let mut rest = bytes;
    let mut after = behind_line(rest);
    let mut lines = 0;
    while !after.is_empty() {
        rest = after;
        after = behind_line(rest);
        lines += 1;
    }
    let (whole, _) = bytes.split_at(bytes.len() - rest.len());
    (whole, lines)
}

// The bytes after the first line, which ends with its LF, or, if there is none, with the bytes.
#[tactic(auto, using(crate::proofs::Cutting::behind_cut, crate::proofs::Cutting::behind_end))]
fn behind_line(bytes: &[u8]) -> &[u8]
    requires { 0 < length bytes.now }
    ensures { IsBehindLine bytes.now result.now }
{
    match cut_line(bytes) {
        Some((_, rest)) => rest,
        None => &[],
    }
}
