//! What a shelf shows, as laws: calls that do nothing, and whose clauses are proved.
ghost use Rattle.pa_shelf.specs.Cutting.{CutsKeepShown};
ghost use Rattle.pa_shelf.specs.Shelves.{NoShelfIsNew, ShownIsInWords, ShownStays};
ghost use Rattle.pa_shelf.specs.Taking.{TakesAreInParts};

/// The law that a shelf without super pages shows the root that has nothing.
pub fn no_shelf_is_new()
    ensures { NoShelfIsNew }
{}

/// The law that the words of a seat's view have the root that is shown: its records and its chains.
pub fn shown_is_in_words()
    ensures { ShownIsInWords }
{}

/// The law that a root which is shown is shown in another view too that has the same records and the same links.
pub fn shown_stays()
    ensures { ShownStays }
{}

/// The law that a root which is shown stays shown when titles are cut out of raw bytes beside its records.
pub fn cuts_keep_shown()
    ensures { CutsKeepShown }
{}

/// The law that a root's one take is a take from the span that was found for it.
pub fn takes_are_in_parts()
    ensures { TakesAreInParts }
{}
