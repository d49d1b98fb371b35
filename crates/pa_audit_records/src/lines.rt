ghost use Rattle.std.specs.Prelude.{◌≡◌, ◌↔◌, ◌<◌, ◌-◌, ◌^◌, IsTrue, Some, length, map, slice_get};
ghost use Rattle.pa_trace.specs.declared.script.Rules.{Rules};
ghost use Rattle.pa_rules.specs.declared.verdict.Place.TheVariants as places;
ghost use Rattle.pa_rules.specs.Played.{key_of_entry};
ghost use Rattle.pa_rules.specs.RecordDemands.{LinesDemand};
ghost use Rattle.pa_rules.specs.Tells.{TellsFirst};

use pa_record::Entry;
use pa_trace::Line;

/// The index of the first record that isn't the one due by its line and thread: of one too many, of one that is missing
/// or of another one. None if the records are those of the trace's op lines.
pub fn lines_meet(lines: &[Line], records: &[Entry]) -> Option<u32>
    requires lines { length lines.now < 2 ^ 32 - 2 }
    ensures { (rules : Rules) → TellsFirst (λ i. LinesDemand rules lines.now records.now (places.Record i)) result }
{
    let mut at: u32 = 0;
    let mut number: u32 = 2;
    for line in lines {
        if let Line::Do { thread, .. } = *line {
            if !is_due(records, at, number, thread) {
                return Some(at);
            }
            at += 1;
        }
        number += 1;
    }
    if (at as usize) < records.len() {
        Some(at)
    } else {
        None
    }
}

// Whether the record of this index exists, with this line and thread.
fn is_due(records: &[Entry], at: u32, line: u32, thread: u32) -> bool
    ensures { IsTrue result ↔ (slice_get (map key_of_entry records.now) at ≡ Some (line, thread)) }
{
    match records.get(at as usize) {
        Some(entry) => entry.line == line && entry.thread == thread,
        None => false,
    }
}
