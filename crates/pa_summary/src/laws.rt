ghost use Rattle.pa_summary.specs.SummaryText.{NamesAreOfRecords};

/// The text of an answer in a run begins with the name by which a summary counts it.
pub fn names_are_of_records()
    ensures { NamesAreOfRecords }
{}
