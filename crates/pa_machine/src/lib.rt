//! The core: actors hold the bytes and the titles of a region, and make events on its words.
#![tactic(auto)]

mod changes;
mod enabled;
mod event;
mod laws;
mod machine;
mod slot;
mod tables;

pub use event::{Event, Item, StepFault};
pub use laws::sealed_frees_return;
pub use machine::{Core, core_run};
pub use pa_slot::{
    OutOfMemory, OwnState, POISON, SlotName, Step, Title, Word, apply, held, number, refs, returns,
};
