ghost use Rattle.std.specs.Prelude.{◌≡◌, ◌+◌, ◌-◌, ◌<◌, ◌≤◌, ◌^◌, IfOk, length, map};
ghost use Rattle.pa_rules.specs.declared.played.Played.{Played as Record};
ghost use Rattle.pa_rules.specs.Legal.{is_phase, phases_in};
ghost use Rattle.pa_audit_records.specs.Cuts.{AreRecordCuts, RiseByPhase};

use crate::ends::ends_of;
use pa_rules::Played;
use pa_slot::OutOfMemory;
use pa_trace::Line;
use std::alloc::Global;

/// The number of phases of these lines of a trace, the first included.
pub fn phases_in(lines: &[Line]) -> u32
    requires { length lines.now < 65536 }
    ensures phases { result ≡ phases_in lines.now }
    ensures few { result ≤ length lines.now + 1 }
{
    let mut phases: u32 = 1;
    for line in lines {
        if is_phase(*line) {
            phases += 1;
        }
    }
    phases
}

fn is_phase(line: Line) -> bool
    ensures { result ≡ is_phase line }
{
    match line {
        Line::Phase => true,
        Line::Do { .. } => false,
    }
}

// The phases of records.
fn record_phases(alloc: Global, records: &[Played]) -> Result<Vec<u32>, OutOfMemory>
    ensures { IfOk result (λ phases. phases.items ≡ map (λ (x : Record). x.phase) records.now) }
{
    let mut phases = Vec::new(alloc);
    for record in records {
        phases.push(record.phase)?;
    }
    Ok(phases)
}

/// For each of the phases 1 to `phases`, how many records are of it or of earlier ones.
pub fn record_ends(
    alloc: Global,
    records: &[Played],
    phases: u32,
) -> Result<Vec<usize>, OutOfMemory>
    requires phases { phases < 2 ^ 32 - 1 }
    requires rising { RiseByPhase records.now }
    ensures many { IfOk result (λ ends. length ends.items ≡ phases) }
    ensures cuts { IfOk result (λ ends. AreRecordCuts records.now ends.items) }
{
    let record_phases = record_phases(alloc, records)?;
    let ends = ends_of(alloc, record_phases.as_slice(), phases)?;
    Ok(ends)
}
