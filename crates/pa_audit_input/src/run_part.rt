ghost use Rattle.std.specs.Prelude.{◌≡◌, ◌+◌, ◌≤◌, length, IfOk, IfErr, OnOk};
ghost use Rattle.pa_record.specs.RunText.{IsRunText};
ghost use Rattle.pa_trace.specs.Limits.{most_bytes};
ghost use Rattle.pa_audit_input.specs.Input.{most_audited};
ghost use Rattle.pa_audit_input.specs.Cutting.{IsRunPartFault};

use crate::parts::last_cut;
use pa_dense::DenseRun;
use pa_run_reader::{RunFault, read_dense_run};
use pa_trace::TraceFault;
use std::alloc::Global;

/// The most bytes of a trace and a run.
pub const MOST_AUDITED: usize = 134_217_728;

// The run whose text these bytes are. `before` bytes and `lines` lines come before it. They are the rest of the input, or of what was read
// of it, which is one byte more than it may have.
pub fn run_behind(
    alloc: Global,
    before: usize,
    lines: u32,
    back: &[u8],
) -> Result<DenseRun, TraceFault>
    requires before { before ≤ most_bytes }
    requires lines { lines ≤ before }
    requires short { before + length back.now ≤ 134217729 }
    ensures found { IfOk result (λ r. IsRunText r back.now) }
    ensures within { OnOk result (before + length back.now ≤ most_audited) }
    ensures fault { IfErr result (IsRunPartFault lines before back.now) }
{
    if before + back.len() > MOST_AUDITED {
        return Err(past_fault(alloc, before, lines, back));
    }
    match read_dense_run(alloc, back) {
        Ok(run) => Ok(run),
        Err(RunFault::BadLine(line)) => Err(TraceFault::BadLine(lines + line)),
        Err(RunFault::OutOfMemory) => Err(TraceFault::OutOfMemory),
    }
}

// The fault of bytes that are one more than an input may have: the last line is past the limit, or a line before it is bad.
fn past_fault(alloc: Global, before: usize, lines: u32, back: &[u8]) -> TraceFault
    requires before { before ≤ most_bytes }
    requires lines { lines ≤ before }
    requires past { before + length back.now ≡ 134217729 }
    ensures { IsRunPartFault lines before back.now result }
{
    let (whole, count) = last_cut(back);
    let past = TraceFault::Limit(lines + count + 1);
    match read_dense_run(alloc, whole) {
        Ok(_) => past,
        Err(RunFault::BadLine(line)) if line <= count => TraceFault::BadLine(lines + line),
        Err(RunFault::BadLine(_)) => past,
        Err(RunFault::OutOfMemory) => TraceFault::OutOfMemory,
    }
}
