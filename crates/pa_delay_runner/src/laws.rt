//! Laws of delayed runs: calls that do nothing, but have proved clauses.
ghost use Rattle.pa_delay_runner.specs.Laws.{DelayedIsTold, RecordsLead, WaitsFree};

/// The law that line after line the records lead to the lists and the queues that the workers have.
pub fn records_lead()
    ensures { RecordsLead }
{}

/// The law that a whole run with queues that went as they must is the delayed run of its trace, if its report is right.
pub fn delayed_is_told()
    ensures { DelayedIsTold }
{}

/// The law that the closing seat of such a run has free what waits in lists and queues.
pub fn waits_free()
    ensures { WaitsFree }
{}
