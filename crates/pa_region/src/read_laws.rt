//! What histories and logs imply for callers, as laws: calls that do nothing, but have proved clauses.
ghost use Rattle.pa_region.specs.Tells.{LookFindsItsWord, LogsAddUp, StepStandsAtItsNumber, HistoryGoesOn, LongerIsTheSame, FirstFreeStays, AllLogsAreKnown, OneOrderIsKnown, ReadsHavePlaces, OthersHaveTheFree};

/// A look that some log has found the word of the title's history with its number.
pub fn a_look_finds_its_word()
    ensures { LookFindsItsWord }
{}

/// The logs of a view add up.
pub fn logs_add_up()
    ensures { LogsAddUp }
{}

/// If logs grew, a title's history goes on from what it was.
pub fn a_history_goes_on()
    ensures { HistoryGoesOn }
{}

/// A counted step that logs have is in the title's history at the number that it found.
pub fn a_step_stands_at_its_number()
    ensures { StepStandsAtItsNumber }
{}

/// Up to a number that it had already reached, a longer history is what it was.
pub fn a_longer_history_is_the_same()
    ensures { LongerIsTheSame }
{}

/// A history has one first Free from a number on, and a longer one has the same.
pub fn the_first_free_stays()
    ensures { FirstFreeStays }
{}

/// Under the rule a view that has every stake knows all logs, and what the reads in them gave.
pub fn all_logs_are_known()
    ensures { AllLogsAreKnown }
{}

/// Under the rule a view that has every stake knows one order of all that was logged. Each log and each keeper's list is a part
/// of it, and each counted step and each look found as many counted steps of its title before it as the number in its word.
pub fn one_order_is_known()
    ensures { OneOrderIsKnown }
{}

/// If the reads in a view's logs gave what they should, each read gave so at its place in its log.
pub fn reads_have_places()
    ensures { ReadsHavePlaces }
{}

/// If a read gave poison because its slot was freed elsewhere, the log of another stake has the next Free.
pub fn others_have_the_free()
    ensures { OthersHaveTheFree }
{}
