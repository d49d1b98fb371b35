//! How a take changes a view, as laws: calls that do nothing, but have proved clauses.
ghost use Rattle.pa_region.specs.Takes.{SeenJoins, ListsJoin, BeginningsJoin, BeginningsAreOrdered, KeepersHaveAll, KnownWordsJoin, FreeNumbersStay, StakesMadeTheirs};

/// Two seats together have seen the greater number of each title.
pub fn seen_numbers_join()
    ensures { SeenJoins }
{}

/// Two seats together have seen the longer beginning of each keeper's list.
pub fn seen_lists_join()
    ensures { ListsJoin }
{}

/// What each of two seats has seen of a list is a beginning of what both have.
pub fn beginnings_join()
    ensures { BeginningsJoin }
{}

/// Of two beginnings of one list one is a beginning of the other.
pub fn beginnings_are_ordered()
    ensures { BeginningsAreOrdered }
{}

/// A seat that has a keeper has its whole list: a take adds no entry to it.
pub fn keepers_have_all()
    ensures { KeepersHaveAll }
{}

/// Each word that one of two seats knows, both know.
pub fn known_words_join()
    ensures { KnownWordsJoin }
{}

/// A seat that holds a title free has seen its number: a take brings no greater one.
pub fn free_numbers_stay()
    ensures { FreeNumbersStay }
{}

/// What a stake made of a list is what its log entered there.
pub fn stakes_made_theirs()
    ensures { StakesMadeTheirs }
{}
