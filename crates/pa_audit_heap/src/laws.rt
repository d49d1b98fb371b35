ghost use Rattle.pa_audit_heap.specs.Laws.{RecordsHaveLines};

/// The law that a run's records, if they are those due, meet what the checkers require of them.
pub fn records_have_lines()
    ensures { RecordsHaveLines }
{}
