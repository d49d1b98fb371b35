ghost use Rattle.std.specs.Prelude.{◌≡◌, ◌↔◌, ◌<◌, ◌≤◌, ◌-◌, ◌^◌, IfOk, IfSome, IfNone, IsTrue, length};
ghost use Rattle.pa_rules.specs.Played.{played};
ghost use Rattle.pa_audit_records.specs.Cuts.{RiseByPhase};
ghost use Rattle.pa_audit_records.specs.Limits.{RecordsAreWithin};
ghost use Rattle.pa_audit_records.specs.Seeking.{IsOnLine, NoneOnLine};
ghost use Rattle.pa_rules.specs.Rising.{RiseByLine};

use pa_record::Entry;
use pa_rules::Played;
use pa_slot::OutOfMemory;
use pa_trace::{Line, Rules};
use std::alloc::Global;

/// The records paired with the ops of the lines of a trace with these rules. If one list is longer, the rest of it is left out.
pub fn records_of(
    alloc: Global,
    rules: Rules,
    lines: &[Line],
    records: &[Entry],
) -> Result<Vec<Played>, OutOfMemory>
    requires lines { length lines.now < 2 ^ 32 - 2 }
    ensures records { IfOk result (λ all. all.items ≡ played rules lines.now records.now) }
    ensures rising { IfOk result (λ all. RiseByLine all.items) }
    ensures phased { IfOk result (λ all. RiseByPhase all.items) }
    ensures few { IfOk result (λ all. length all.items ≤ length lines.now) }
{
    let all = gather(alloc, rules, lines, records)?;
    Ok(all)
}

fn gather(
    alloc: Global,
    rules: Rules,
    lines: &[Line],
    records: &[Entry],
) -> Result<Vec<Played>, OutOfMemory>
    requires lines { length lines.now < 2 ^ 32 - 2 }
    ensures records { IfOk result (λ all. all.items ≡ played rules lines.now records.now) }
    ensures few { IfOk result (λ all. length all.items ≤ length lines.now) }
{
    let mut all = Vec::with_capacity(alloc, records.len())?;
    let mut number: u32 = 2;
    let mut phase: u32 = 1;
    for line in lines {
        match *line {
            Line::Phase => phase += 1,
            Line::Do { thread, op } => {
                let Some(entry) = records.get(all.len()) else {
                    return Ok(all);
                };
                all.push(Played {
                    line: number,
                    thread,
                    phase,
                    rules,
                    op,
                    answer: entry.answer,
                })?;
            }
        }
        number += 1;
    }
    Ok(all)
}

// Whether the record at this index is on the line.
fn is_on(records: &[Played], at: usize, line: u32) -> bool
    ensures { IsTrue result ↔ IsOnLine records.now line at }
{
    at < records.len() && records[at].line == line
}

/// The index of the record on a line, if there is one. If no phase ends before the line it is found at once, since
/// line 2 is then the first record's.
pub fn record_on(records: &[Played], line: u32) -> Option<u32>
    requires few { length records.now < 2 ^ 32 }
    requires rising { RiseByLine records.now }
    ensures some { IfSome result (IsOnLine records.now line) }
    ensures none { IfNone result (NoneOnLine records.now line) }
{
    record_near(records, line, line.saturating_sub(2))
}

/// The index of the record on a line, if there is one. It is looked for at the index `place` first.
pub fn record_near(records: &[Played], line: u32, place: u32) -> Option<u32>
    requires few { length records.now < 2 ^ 32 }
    requires rising { RiseByLine records.now }
    ensures some { IfSome result (IsOnLine records.now line) }
    ensures none { IfNone result (NoneOnLine records.now line) }
{
    if is_on(records, place as usize, line) {
        return Some(place);
    }
    let at = records.partition_point(|record| record.line < line);
    if is_on(records, at, line) {
        Some(at as u32)
    } else {
        None
    }
}

/// The law that the records of a trace within its limits are of at most 16 threads and name registers below 64.
pub fn records_are_within()
    ensures { RecordsAreWithin }
{}
