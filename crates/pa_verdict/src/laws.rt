ghost use Rattle.pa_verdict.specs.Clauses.{CachesArePlaces, CellsArePlaces, ContentsArePlaces, HoldersArePlaces, LinesArePlaces};
ghost use Rattle.pa_verdict.specs.Clauses.{PoolIsPlaces, RegistersArePlaces, ReportIsPlaces, RootsArePlaces};
ghost use Rattle.pa_verdict.specs.Clauses.{SeenIsPlaces, SlotsArePlaces, TitlesArePlaces};
ghost use Rattle.pa_verdict.specs.Verdict.{LegalIs, OneVerdict, TitlesNeverFail};

/// The law that the records are those due exactly when each is the one that is due at its index.
pub fn lines_are_places()
    ensures { LinesArePlaces }
{}

/// The law that the cells are right exactly when each exchange fits, and each record of one names its own.
pub fn cells_are_places()
    ensures { CellsArePlaces }
{}

/// The law that the registers are right exactly when each record's row follows from the records before it.
pub fn registers_are_places()
    ensures { RegistersArePlaces }
{}

/// The law that each slot's steps are one run exactly when each record's mark is of a run of its slot.
pub fn slots_are_places()
    ensures { SlotsArePlaces }
{}

/// The law that all that was read is allowed exactly when each record's is.
pub fn contents_are_places()
    ensures { ContentsArePlaces }
{}

/// The law that the pool's entries are right exactly when each fits, and one entry of a journal names it.
pub fn pool_is_places()
    ensures { PoolIsPlaces }
{}

/// The law that the journals are right exactly when each entry fits, and each record with the answer Full names a Full.
pub fn roots_are_places()
    ensures { RootsArePlaces }
{}

/// The law that titles are right if they are at each place, and that they are if the journals and the pool are right.
pub fn titles_are_places()
    ensures { TitlesArePlaces }
{}

/// The law that holders are right exactly when each entry's moves find theirs, and each record's slot is its thread's.
pub fn holders_are_places()
    ensures { HoldersArePlaces }
{}

/// The law that the caches are right exactly when each record's row follows from the records before it.
pub fn caches_are_places()
    ensures { CachesArePlaces }
{}

/// The law that what was seen is in order exactly when it is at each record.
pub fn seen_is_places()
    ensures { SeenIsPlaces }
{}

/// The law that the report is right exactly when each of its lines is the one that is due, and right.
pub fn report_is_places()
    ensures { ReportIsPlaces }
{}

/// The law that a run is legal exactly when each clause holds at each place.
pub fn legal_is()
    ensures { LegalIs }
{}

/// The law that the clause of the titles is never the first that fails.
pub fn titles_never_fail()
    ensures { TitlesNeverFail }
{}

/// The law that a run has one verdict.
pub fn one_verdict()
    ensures { OneVerdict }
{}
