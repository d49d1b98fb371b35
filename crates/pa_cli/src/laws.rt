ghost use Rattle.pa_cli.specs.Laws.{OneThreadPrintsAsModel, ResizedIsLegalInput, ModelledIsLegalInput, ReplayedIsLegalInput};
ghost use Rattle.pa_cli.specs.Laws.{DelayOfNothingPrintsAsModel, DelayedIsLegalAsModelled, OnlyAuditRefutes, AReadFaultComesFirst};

use pa_one_run::one_file_run;
use pa_record::one_run_for_a_text;

/// For a trace of one thread `replay` prints what `model` prints, byte for byte.
pub fn one_thread_prints_as_model()
    ensures { OneThreadPrintsAsModel }
{
    one_file_run();
    one_run_for_a_text();
}

/// What `delay 0` prints of a trace is what `model` prints of it, byte for byte.
pub fn delay_of_nothing_prints_as_model()
    ensures { DelayOfNothingPrintsAsModel }
{
    one_file_run();
    one_run_for_a_text();
}

/// A trace with what `delay` prints of it is an input that `audit` calls legal exactly where that is what `model` prints of it, if it is
/// no more bytes than an input may have.
pub fn delayed_runs_are_legal_as_modelled()
    ensures { DelayedIsLegalAsModelled }
{}

/// What `resize` prints is an input that `audit` calls legal, and so is a trace with what `model` or `replay` prints of it, if these are
/// no more bytes than an input may have.
pub fn printed_runs_are_legal_inputs()
    ensures resized { ResizedIsLegalInput }
    ensures modelled { ModelledIsLegalInput }
    ensures replayed { ReplayedIsLegalInput }
{}

/// Only `audit` and `dangling` are answered with a clause that a run breaks.
pub fn only_audit_refutes()
    ensures { OnlyAuditRefutes }
{}

/// If the count of the source's faults rose in a call, the status is `ReadFault`, whatever else is wrong with what was read.
pub fn a_read_fault_comes_first()
    ensures { AReadFaultComesFirst }
{}
