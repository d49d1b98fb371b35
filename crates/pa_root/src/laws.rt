//! What keeps a root sound, as laws: calls that do nothing, but have proved clauses.
ghost use Rattle.pa_root.specs.Cutting.{CutsGoOn, MapsCanBeCut};
ghost use Rattle.pa_root.specs.Filling.{OpeningKeeps, WhatIsMadeCanBeCut, RootsAreReady, FillsHandOut, FillsKeep};
ghost use Rattle.pa_root.specs.Giving.{WhatComesIsOut, GivesKeep};
ghost use Rattle.pa_root.specs.Laws.{PoolsAreRead, FirstIsSound, SeeingMoreKeeps, RewritingKeeps, MadeIsWhole, IdleEntriesKeep, PurgesKeepSlots, SeenIsInJournal, JournalsFitPool, TurnsAreFew};
ghost use Rattle.pa_root.specs.Making.{EntriesAreTold, EntriesAreNew};
ghost use Rattle.pa_root.specs.Mapping.{MapsHandOut, MapsKeep};
ghost use Rattle.pa_root.specs.Unmapping.{MapsStandInRuns, MapsStandOrCameBack, WhatComesIsMapped, UnmapsHandBack, UnmapsKeep};

/// What a seat has seen of the pool's list are the pool's entries, if the list is theirs in numbers.
pub fn pools_are_read()
    ensures { PoolsAreRead }
{}

/// A root is sound if its seat has a keeper with an empty list, and nothing else.
pub fn a_new_root_is_sound()
    ensures { FirstIsSound }
{}

/// A root stays sound while its seat sees more.
pub fn seeing_more_keeps_a_root()
    ensures { SeeingMoreKeeps }
{}

/// A root stays sound when its seat writes records and links.
pub fn rewriting_keeps_a_root()
    ensures { RewritingKeeps }
{}

/// A slot that was made is of whole words, two at least.
pub fn made_slots_are_whole()
    ensures { MadeIsWhole }
{}

/// A root stays sound with an entry that makes and moves no slot.
pub fn idle_entries_keep_a_root()
    ensures { IdleEntriesKeep }
{}

/// A purge leaves a root the same slots.
pub fn purges_keep_slots()
    ensures { PurgesKeepSlots }
{}

/// Slots that come to a root in a note that has seen their fill are out of the root.
pub fn what_comes_back_is_out()
    ensures { WhatComesIsOut }
{}

/// A root stays sound when slots come back, each at the number that the note has seen.
pub fn gives_keep_a_root()
    ensures { GivesKeep }
{}

/// A root that takes in a super page from the pool has the page's bytes and its lease.
pub fn opening_keeps_a_root()
    ensures { OpeningKeeps }
{}

/// The slots that a root makes can all be cut.
pub fn what_is_made_can_be_cut()
    ensures { WhatIsMadeCanBeCut }
{}

/// When a root is ready for a fill.
pub fn roots_are_ready()
    ensures { RootsAreReady }
{}

/// The slots that a fill takes can be handed over.
pub fn fills_hand_out()
    ensures { FillsHandOut }
{}

/// A root stays sound when a fill's slots go out, each at the number that its seat has seen.
pub fn fills_keep_a_root()
    ensures { FillsKeep }
{}

/// Cuts of two parts of a list are those of the whole list.
pub fn cuts_go_on()
    ensures { CutsGoOn }
{}

/// A direct map's title can be cut out of its super pages.
pub fn maps_can_be_cut()
    ensures { MapsCanBeCut }
{}

/// A direct map's title can be handed over.
pub fn maps_hand_out()
    ensures { MapsHandOut }
{}

/// A root stays sound when a direct map is made.
pub fn maps_keep_a_root()
    ensures { MapsKeep }
{}

/// Entries that were made for a caller are known to it, one or two.
pub fn entries_are_told()
    ensures { EntriesAreTold }
{}

/// A view that lent its stake for an entry hadn't seen it before.
pub fn entries_are_new()
    ensures { EntriesAreNew }
{}

/// A direct map of a sound root is in the super pages that its entry of the pool took.
pub fn maps_are_taken()
    ensures { MapsStandInRuns }
{}

/// The super pages of a direct map that came back can be handed over.
pub fn unmaps_hand_back()
    ensures { UnmapsHandBack }
{}

/// A root stays sound when a direct map comes back, at the number that the note has seen.
pub fn unmaps_keep_a_root()
    ensures { UnmapsKeep }
{}

/// What a seat has seen of the root's list is in the journal.
pub fn what_is_seen_is_in_the_journal()
    ensures { SeenIsInJournal }
{}

/// A journal fits all entries of the pool, if the root's seat has seen a beginning of them.
pub fn journals_fit_the_pool()
    ensures { JournalsFitPool }
{}

/// A direct map that a journal made is still mapped, or came back.
pub fn maps_stand_or_came_back()
    ensures { MapsStandOrCameBack }
{}

/// A direct map that comes to a root in a note that has seen its entry is still mapped.
pub fn a_map_that_comes_back_is_mapped()
    ensures { WhatComesIsMapped }
{}

/// A root has at most 32 turns for each entry of its journal.
pub fn turns_are_few()
    ensures { TurnsAreFew }
{}
