ghost use Rattle.pa_ordered_runs.specs.Laws.{FileRunsHaveATimeline};

/// The law that each run in the order of its lines, of a trace within the limits, has a timeline: the steps of its records, one record
/// after the other, are an order in which it could have been played.
pub fn file_runs_have_a_timeline()
    ensures { FileRunsHaveATimeline }
{}
