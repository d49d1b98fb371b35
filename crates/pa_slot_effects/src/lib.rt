//! What one more line of a trace does to the records, the registers and the cells, and to each slot's word, content and
//! number, by the names of slots: an op shows what it found, and the law gives all else. Laws alone; nothing here runs.
#![tactic(auto)]

mod laws;

pub use laws::{
    copy_goes_on, ends_right, free_goes_on, handle_lets, like_is_told, look_goes_on, made_goes_on,
    none_goes_on, phase_goes_on, reset_goes_on, starts_told, swap_goes_on, worked_turns,
    write_goes_on,
};
