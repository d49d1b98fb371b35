ghost use Rattle.pa_heap_effects.specs.Laws.{LineExtends, LinePasses, LineReplays, PlacedAreRoots, PoolExtends, SameIsPlaced, StartsEmpty};
ghost use Rattle.pa_heap_effects.specs.Onward.{CachesStay, PhaseEnds, RunGoesOn};
ghost use Rattle.pa_heap_effects.specs.Shared.{TitlesShareNoByte};
ghost use Rattle.pa_heap_effects.specs.Ops.{FillIsDone, FrontLeaves, FullIsDone, FullMapIsDone, ListsAreOut, MapIsDone, MapsAreTaken, NothingMoves, PartsAreOut, PurgeIsDone, ReturnIsDone, UnmapIsDone};

/// The law that at the start there are no records, no entries and no lists.
pub fn starts_empty()
    ensures { StartsEmpty }
{}

/// The law that a run with one more line's effect is the run before the next line.
pub fn line_extends()
    ensures { LineExtends }
{}

/// The law that the pool with the entries of one more line is the pool before the next line.
pub fn pool_extends()
    ensures { PoolExtends }
{}

/// The law that a line without a record changes nothing.
pub fn line_passes()
    ensures { LinePasses }
{}

/// The law that roots and pool after a line are those before it, after its acts.
pub fn line_replays()
    ensures { LineReplays }
{}

/// The law that the journals and the pool of the run so far are those of its records.
pub fn placed_are_roots()
    ensures { PlacedAreRoots }
{}

/// The law that a line whose answer makes, returns, refuses and purges nothing has no act, and leaves the lists as they are.
pub fn nothing_moves()
    ensures { NothingMoves }
{}

/// The law that an allocation which takes the front of its list has no act.
pub fn front_leaves()
    ensures { FrontLeaves }
{}

/// The law that what a fill did is the effect of an allocation that found its list empty.
pub fn fill_is_done()
    ensures { FillIsDone }
{}

/// The law that a fill that got no slot is the effect of an allocation without room.
pub fn full_is_done()
    ensures { FullIsDone }
{}

/// The law that what a direct map did is the effect of an allocation that asks for one.
pub fn map_is_done()
    ensures { MapIsDone }
{}

/// The law that a direct map that got no room is the effect of an allocation without room.
pub fn full_map_is_done()
    ensures { FullMapIsDone }
{}

/// The law that the slots of a thread's lists are out of the roots, each slot once.
pub fn lists_are_out()
    ensures { ListsAreOut }
{}

/// The law that slots which are out can go back in parts.
pub fn parts_are_out()
    ensures { PartsAreOut }
{}

/// The law of the effect of a step that returns a slot of a class, whether or not its list spills.
pub fn return_is_done()
    ensures { ReturnIsDone }
{}

/// The law of the effect of a purge.
pub fn purge_is_done()
    ensures { PurgeIsDone }
{}

/// The law that a run continues itself, and goes on with one more line.
pub fn run_goes_on()
    ensures { RunGoesOn }
{}

/// The law that records lead to the lists to which they led, whatever came later.
pub fn caches_stay()
    ensures { CachesStay }
{}

/// The law of what remains of a phase: its records, its entries, what its roots had and what its lists held.
pub fn phase_ends()
    ensures { PhaseEnds }
{}

/// The law that two titles which exist at once, in whichever partitions, are one or share no byte.
pub fn titles_share_no_byte()
    ensures { TitlesShareNoByte }
{}

/// The law that the super pages of a direct map which is mapped are one take of its partition that wasn't given back.
pub fn maps_are_taken()
    ensures { MapsAreTaken }
{}

/// The law of the effect of a step that returns a direct map.
pub fn unmap_is_done()
    ensures { UnmapIsDone }
{}

/// The law that journals and lists with the same members are the same to the run so far.
pub fn same_is_placed()
    ensures { SameIsPlaced }
{}
