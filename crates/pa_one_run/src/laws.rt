ghost use Rattle.pa_one_run.specs.Laws.{AtMostOneFileRun, OneThreadInFileOrder};

/// The law that a trace has at most one legal run in the order of its lines: two of them have the same records, journals,
/// entries of the pool, exchanges and report.
pub fn one_file_run()
    ensures { AtMostOneFileRun }
{}

/// The law that a legal run of one thread is the run in the order of the lines,
/// so a trace of one thread has at most one legal run.
pub fn one_thread_in_file_order()
    ensures { OneThreadInFileOrder }
{}
