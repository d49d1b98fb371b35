ghost use Rattle.std.specs.Prelude.{◌≡◌, ℕ, ◌≤◌, ◌++◌, List, length};
ghost use Rattle.pa_trace.specs.declared.fault.TraceFault.{TraceFault};
ghost use Rattle.pa_trace.specs.declared.script.Trace.{Trace};
ghost use Rattle.pa_trace.specs.Limits.{IsInput};
ghost use Rattle.pa_record.specs.declared.run.Run.{Run};
ghost use Rattle.pa_record.specs.RunText.{IsRunText};
ghost use Rattle.pa_rules.specs.Legal.{IsLegal};
ghost use Rattle.pa_audit_input.specs.Input.{most_audited, IsAudited, IsFirstAuditFault};
ghost use Rattle.pa_audit_input.specs.Judged.{IsLegalOf};

/// The first 134,217,729 bytes have the fault of the whole: no more of the input has to be read.
pub fn early_audit_fault()
    ensures { (e : TraceFault) (a b : List ℕ) → length a ≡ 134217729 → IsFirstAuditFault e a → IsFirstAuditFault e (a ++ b) }
{}

/// Bytes that are a trace and after it a run have no first fault, and other bytes have at most one:
/// its line and its cause are determined.
pub fn one_audit_answer()
    ensures none { (t : Trace) (r : Run) (n : ℕ) (a : List ℕ) (e : TraceFault) → IsAudited t r n a → IsFirstAuditFault e a → ⊥ }
    ensures one { (d e : TraceFault) (a : List ℕ) → IsFirstAuditFault d a → IsFirstAuditFault e a → d ≡ e }
{}

/// The text of a trace, and after it that of a legal run of it, are a legal input if they are no more bytes than one may have: no line
/// of the trace's text is `run 1`.
pub fn trace_and_run_are_input()
    ensures { (t : Trace) (r : Run) (front back : List ℕ) → IsInput t front → IsRunText r back → IsLegal t r →
        length (front ++ back) ≤ most_audited → IsLegalOf t r (front ++ back) }
{}
