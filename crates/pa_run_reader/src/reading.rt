ghost use Rattle.std.specs.Prelude.{◌≡◌, ◌<◌, ◌-◌, ◌^◌, ◌↔◌, Some, ◌++◌, codes, length, IsTrue, IfOk, IfErr};
ghost use Rattle.pa_record.specs.RunText.{IsRunText};
ghost use Rattle.pa_record.specs.declared.run.Run.{Run as Told};
ghost use Rattle.pa_trace.specs.Limits.{cell_count, most_partitions};
ghost use Rattle.pa_run_reader.specs.declared.item.Item.TheVariants as items;
ghost use Rattle.pa_run_reader.specs.declared.place.Place.TheVariants as places;
ghost use Rattle.pa_run_reader.specs.Faults.{IsFaultFrom, IsRunFault};
ghost use Rattle.pa_run_reader.specs.Gathered.{TellsGathered};

use crate::RunFault;
use crate::draft::Draft;
use crate::field::behind;
use crate::line::line_at;
use crate::place::{Place, place_of, stands_behind};
use pa_dense::DenseRun;
use pa_record::Run;
use std::alloc::Global;

/// Reads a run from its text, with 4 journals and 64 histories, some of them empty. `BadLine(n)` names the first
/// line, counted from 1, that isn't the line of an item that may come there; n is one more than the number of lines if
/// each of them may and `end` is missing. There are fewer than 2^32 - 1 bytes.
pub fn read_run(alloc: Global, bytes: &[u8]) -> Result<Run, RunFault>
    requires { length bytes.now < 2 ^ 32 - 1 }
    ensures found { IfOk result (λ r. IsRunText r bytes.now) }
    ensures lists { IfOk result (λ r. (length r.roots.items ≡ most_partitions) × (length r.cells.items ≡ cell_count)) }
    ensures fault { IfErr result (IsRunFault bytes.now) }
{
    let draft = read_draft(alloc, bytes)?;
    Ok(draft.into_run(alloc)?)
}

/// Reads a run from its text as `read_run` does, with its journals kept densely.
pub fn read_dense_run(alloc: Global, bytes: &[u8]) -> Result<DenseRun, RunFault>
    requires { length bytes.now < 2 ^ 32 - 1 }
    ensures found { IfOk result (λ r. IsRunText r bytes.now) }
    ensures lists { IfOk result (λ r. (length r.roots.items ≡ most_partitions) × (length r.cells.items ≡ cell_count)) }
    ensures fault { IfErr result (IsRunFault bytes.now) }
{
    let draft = read_draft(alloc, bytes)?;
    Ok(draft.into_dense())
}

// What the run contains whose text the bytes are.
fn read_draft(alloc: Global, bytes: &[u8]) -> Result<Draft, RunFault>
    requires { length bytes.now < 2 ^ 32 - 1 }
    ensures found { IfOk result (λ d. (r : Told) → TellsGathered d r → IsRunText r bytes.now) }
    ensures lists { IfOk result (λ d. (r : Told) → TellsGathered d r →
        (length r.roots.items ≡ most_partitions) × (length r.cells.items ≡ cell_count)) }
    ensures fault { IfErr result (IsRunFault bytes.now) }
{
    let Some(rest) = behind(b"run 1\n", bytes) else {
        return Err(RunFault::BadLine(1));
    };
    read_items(alloc, rest)
}

// What the run contains whose text the bytes end, after its head, which is line 1.
fn read_items(alloc: Global, bytes: &[u8]) -> Result<Draft, RunFault>
    requires { length bytes.now < 2 ^ 32 - 2 }
    ensures found { IfOk result (λ d. (r : Told) → TellsGathered d r → IsRunText r (codes "run 1\n" ++ bytes.now)) }
    ensures lists { IfOk result (λ d. (r : Told) → TellsGathered d r →
        (length r.roots.items ≡ most_partitions) × (length r.cells.items ≡ cell_count)) }
    ensures fault { IfErr result (IsFaultFrom 2 (Some items.Head) bytes.now) }
{
    let mut draft = Draft::new(alloc)?;
    let mut last = Place::Head;
    let mut n = 2;
    let mut rest = bytes;
    while let Some((item, after)) = line_at(rest) {
        let place = place_of(&item);
        if !stands_behind(last, place) {
            return Err(RunFault::BadLine(n));
        }
        draft.put(item)?;
        last = place;
        rest = after;
        n += 1;
    }
    if is_whole(last, rest) {
        return Ok(draft);
    }
    Err(RunFault::BadLine(n))
}

// Whether the last item is the end, and no bytes follow.
fn is_whole(last: Place, rest: &[u8]) -> bool
    ensures { IsTrue result ↔ ((length rest.now ≡ 0) × (last ≡ places.End)) }
{
    rest.is_empty() && matches!(last, Place::End)
}
