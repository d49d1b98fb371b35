//! What a hand and a take are in the core, as laws: calls that do nothing, but have proved clauses.
ghost use Rattle.pa_region_core.specs.Handed.{ActorAddsNothing, ActorStaysAside, HandIsItsEvents, TakeIsItsEvents};

/// A core with one more actor, which holds nothing, is the same to all that is said of a core: what each actor holds, what
/// all hold, whether it is good, and the content of its titles.
pub fn an_actor_adds_nothing()
    ensures { ActorAddsNothing }
{}

/// Each run of a core is a run of the core with one more actor, which holds nothing and takes no part: so the actor that a
/// hand gives to may have been there from the start.
pub fn an_actor_stays_aside()
    ensures { ActorStaysAside }
{}

/// Each hand is, in the core that is shown, one enabled Hand after the other: of the parcel's items, in order, from the
/// giver's actor to an actor that held nothing before.
pub fn each_hand_is_its_events()
    ensures { HandIsItsEvents }
{}

/// Each take is, in the core that is shown, one enabled Hand after the other: of all that the note's view has, piece by
/// piece, from its actor to the taker's.
pub fn each_take_is_its_events()
    ensures { TakeIsItsEvents }
{}
