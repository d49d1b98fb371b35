//! Handing over in the region, in terms of the core's own events: a `hand` and a `take` are runs of its event Hand, item by
//! item. There are only laws, and nothing here runs.
#![tactic(auto)]

mod laws;

pub use laws::{
    an_actor_adds_nothing, an_actor_stays_aside, each_hand_is_its_events, each_take_is_its_events,
};
