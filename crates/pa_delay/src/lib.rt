//! Slots that were returned wait in a queue of their thread before its lists see them: first in, first out, within a limit in
//! bytes. What a run is then, laws of such runs, and the queue.
#![tactic(auto)]

mod laws;
mod queue;

pub use laws::{
    delayed_flow, no_bytes_no_delay, none_is_issued_while_it_waits, one_waits, queues_fit,
    waits_somewhere,
};
pub use queue::Delay;
