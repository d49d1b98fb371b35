ghost use Rattle.std.specs.Prelude.{◌≤◌, length, IfOk, IfErr};
ghost use Rattle.pa_audit_input.specs.Judged.{IsJudgementOn, IsVerdictOn, IsInputFault};

use crate::parts::parts_of;
use crate::run_part::run_behind;
use pa_audit::audit_dense;
use pa_dense::DenseRun;
use pa_rules::{Clause, Verdict};
use pa_trace::{Trace, TraceFault, read_trace};
use std::alloc::Global;

/// A verdict, with what was read: the trace and its legal run, or the clause that fails first and the line of the input at which it does.
#[derive(Drop)]
pub enum Judgement {
    Legal(Trace, DenseRun),
    Broken(Clause, u32),
}

/// The verdict on the bytes: they are the text of a trace and after it, from the first line that is `run 1` on, that of a run. Lines and
/// bytes count from 1 in the whole input. `BadLine(n)` and `Limit(n)` name the first faulty line. In the trace's part they are those of
/// `read_trace`. After it a line is faulty by `Limit` if it contains byte 134,217,729, else by `BadLine` if it isn't the line of an item
/// that may come there. If no line is `run 1` or the end is missing, n is one more than the number of lines. Of more than 134,217,728
/// bytes the first 134,217,729 are enough: what follows them changes no answer.
pub fn judge(alloc: Global, bytes: &[u8]) -> Result<Verdict, TraceFault>
    requires { length bytes.now ≤ 134217729 }
    ensures verdict { IfOk result (λ v. IsVerdictOn v bytes.now) }
    ensures fault { IfErr result (λ e. IsInputFault e bytes.now) }
{
    let found = judged(alloc, bytes)?;
    match found {
        Judgement::Legal(_trace, _run) => Ok(Verdict::Legal),
        Judgement::Broken(clause, line) => Ok(Verdict::Broken(clause, line)),
    }
}

/// The verdict on the bytes, as `judge` returns it, with the trace and the run if that is legal.
/// A caller that goes on with them has read and audited them once.
pub fn judged(alloc: Global, bytes: &[u8]) -> Result<Judgement, TraceFault>
    requires { length bytes.now ≤ 134217729 }
    ensures judged { IfOk result (λ j. IsJudgementOn j bytes.now) }
    ensures fault { IfErr result (λ e. IsInputFault e bytes.now) }
{
    let (front, back, lines) = parts_of(bytes);
    let trace = read_trace(alloc, front)?;
    let run = run_behind(alloc, front.len(), lines, back)?;
    match audit_dense(alloc, &trace, &run) {
        Ok(Verdict::Legal) => Ok(Judgement::Legal(trace, run)),
        Ok(Verdict::Broken(clause, line)) => Ok(Judgement::Broken(clause, lines + line)),
        Err(_) => Err(TraceFault::OutOfMemory),
    }
}
