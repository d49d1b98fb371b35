ghost use Rattle.pa_legal.specs.Kinds.{OneKind};
ghost use Rattle.pa_legal.specs.Flows.{CachesFlow};
ghost use Rattle.pa_legal.specs.Known.{ClausesFollow, HoldersFollow, LegalFollows, LegalIsKnown, NewMaps};
ghost use Rattle.pa_legal.specs.Numbers.{CachedOut, NumbersGrow, OutNone, Unnamed};
ghost use Rattle.pa_legal.specs.Owners.{HandlesArePut, LegalHasHandles, OwnersFindTheBit};
ghost use Rattle.pa_legal.specs.Tallies.{TalliesFollow};
ghost use Rattle.pa_legal.specs.Turns.{HoldersBalance};

/// The law that each turn of a slot finds the holder that it needs, if the slot goes out of the root and back in turn and
/// no thread gives it back more often than it got it.
pub fn holders_balance()
    ensures { HoldersBalance }
{}

/// The law that no entry of a journal names a direct map after it went back.
pub fn unnamed()
    ensures { Unnamed }
{}

/// The law that a slot has one partition, and one class or one length of a direct map.
pub fn one_kind()
    ensures { OneKind }
{}

/// The law that slots flow from the roots to the threads and back as the laws above need it, if a run's caches are legal.
pub fn caches_flow()
    ensures { CachesFlow }
{}

/// The law that each free slot has one holder, from how slots flow, the roots, the pool,
/// the slots and the numbers at which a root has each slot.
pub fn holders_follow()
    ensures { HoldersFollow }
{}

/// The law that a run has all clauses but those of the caches and of the report if each of them is known but the titles and
/// the holders, and so are the numbers at which a root has each slot and how slots flow.
pub fn clauses_follow()
    ensures { ClausesFollow }
{}

/// The law that a run is legal if it has these clauses, and those of the caches and of the report.
pub fn legal_follows()
    ensures { LegalFollows }
{}

/// The law that a slot which is out of the root is there at no number.
pub fn out_none()
    ensures { OutNone }
{}

/// The law that a slot on a thread's list is out of its root, free, and on no other list.
pub fn cached_out()
    ensures { CachedOut }
{}

/// The law that the slots and bytes that some steps added and others didn't remove are those of the live slots of
/// a partition, or of the quarantined ones.
pub fn tallies_follow()
    ensures { TalliesFollow }
{}

/// The law that the issue of a direct map's slot finds the number 0: it is made once.
pub fn new_maps()
    ensures { NewMaps }
{}

/// The law that what is required of a run's numbers holds of each legal run whose looks find words in use.
pub fn legal_is_known()
    ensures { LegalIsKnown }
{}

/// The law that a root's numbers go on as its journal grows.
pub fn numbers_grow()
    ensures { NumbersGrow }
{}

/// The law that all is known of each legal run from which the laws `handles_are_put` and `owners_find_the_bit` follow.
pub fn legal_has_handles()
    ensures { LegalHasHandles }
{}

/// The law that what a register holds, if it isn't empty, was put there by the last record of its thread that changed it.
pub fn handles_are_put()
    ensures { HandlesArePut }
{}

/// The law that while a thread has the Own of a slot each of its records finds the slot's bit:
/// so whoever finds a slot without it doesn't own it.
pub fn owners_find_the_bit()
    ensures { OwnersFindTheBit }
{}
