ghost use Rattle.std.specs.Prelude.{◌≡◌, ◌<◌, ◌≤◌, AllPairs, IfOk, length};
ghost use Rattle.pa_audit_records.specs.Cuts.{AreCuts, IsCut, IsLow};

use pa_slot::OutOfMemory;
use std::alloc::Global;

/// For each of the phases 1 to `last`, how many members of the list are of it or of earlier ones.
pub fn ends_of(alloc: Global, phases: &[u32], last: u32) -> Result<Vec<usize>, OutOfMemory>
    requires rising { AllPairs ◌≤◌ phases.now }
    requires last { last < 4294967295 }
    ensures many { IfOk result (λ ends. length ends.items ≡ last) }
    ensures cuts { IfOk result (λ ends. AreCuts phases.now ends.items) }
{
    let mut ends = Vec::new(alloc);
    let mut end = 0;
    for at in 0..last {
        end = end_of(phases, end, at + 1);
        ends.push(end)?;
    }
    Ok(ends)
}

// The index at which the members of this phase or of earlier ones end, of which the first `from` are some.
fn end_of(phases: &[u32], from: usize, phase: u32) -> usize
    requires rising { AllPairs ◌≤◌ phases.now }
    requires low { IsLow phases.now phase from }
    ensures { IsCut phases.now phase result }
{
    let mut end = from;
    'entries: while end < phases.len() {
        if phases[end] > phase {
            return end;
        }
        end += 1;
    }
    end
}
