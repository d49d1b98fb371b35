//! How each step changes a seat's view, as laws: calls that do nothing, but have proved clauses.
ghost use Rattle.pa_region.specs.Leaves.{EntryLeaves, CountLeaves, SealedLeaves, ReleaseLeaves, LookLeaves, StoreLeaves, EnterLeaves, AddLeaves, StatesAreOwns, OwnsAreSealedOrNot, HandsKeepSeals, OwnsChange, FilledWords, NewWordsAreZero};

/// An entry is at the end of the least stake's log, and other logs are as before.
pub fn entries_stand_in_logs()
    ensures { EntryLeaves }
{}

/// How a counted step changes holdings, logs, words and what was seen.
pub fn counted_steps_leave()
    ensures { CountLeaves }
{}

/// How an issue of a sealed Own changes holdings, logs, words and what was seen.
pub fn sealed_steps_leave()
    ensures { SealedLeaves }
{}

/// After a reset or a free the seat holds the title free if and only if the step returned it.
pub fn releases_leave()
    ensures { ReleaseLeaves }
{}

/// A look changes nothing that is held, and adds an entry.
pub fn looks_leave()
    ensures { LookLeaves }
{}

/// Stores and poisonings don't change how many times each title is held.
pub fn stores_leave()
    ensures { StoreLeaves }
{}

/// An entry in a keeper's list is at its end.
pub fn entries_stand_in_lists()
    ensures { EnterLeaves }
{}

/// An addition to a totals word leaves one entry in logs.
pub fn additions_stand_in_logs()
    ensures { AddLeaves }
{}

/// An Own in some state is an Own.
pub fn states_are_owns()
    ensures { StatesAreOwns }
{}

/// An Own is sealed or not, and no Ref of a sealed one is left.
pub fn owns_are_sealed_or_not()
    ensures { OwnsAreSealedOrNot }
{}

/// A hand gives a sealed Own exactly if the giver's is sealed.
pub fn hands_keep_seals()
    ensures { HandsKeepSeals }
{}

/// How the change of one Own changes sums over a view's Owns.
pub fn owns_change()
    ensures { OwnsChange }
{}

/// Content words that were set have the value, and the others are as before.
pub fn filled_words_have_the_value()
    ensures { FilledWords }
{}

/// The words of a new region are 0.
pub fn new_words_are_zero()
    ensures { NewWordsAreZero }
{}
