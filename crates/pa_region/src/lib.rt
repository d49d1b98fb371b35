//! The region: its words, and the seats through which threads step on them.
//!
//! A seat has no bytes. Its view, which exists only in proofs, says what its holder has of the region and knows of it:
//! raw bytes, free titles, handles, a budget of counted steps, stakes with their logs, and what it has seen. A rule over
//! the words and the views of all seats holds between any two steps, and each call is one atomic step that keeps it.
#![tactic(auto)]

mod closed;
mod cut;
mod cut_laws;
mod laws;
mod lend_laws;
mod lending;
mod marks;
mod name;
mod note;
mod read_laws;
mod region;
mod rule;
mod step_laws;
mod take_laws;
mod view;

pub use closed::Closed;
pub use cut_laws::{
    a_cut_leaves_other_bytes, a_cut_leaves_zeros, a_new_region_can_be_cut,
    an_uncut_gives_bytes_back,
};
pub use laws::{
    a_named_title_is_held, a_new_region_meets_the_rule, additions_keep_the_rule,
    an_unnamed_title_ends_new, an_unnamed_title_is_new, counted_steps_keep_the_rule,
    cuts_keep_the_rule, each_counted_step_is_its_event, each_look_is_a_load,
    each_number_is_found_once, each_plain_load_is_a_load, each_sealed_step_is_its_event,
    entries_keep_the_rule, hands_keep_the_rule, joins_keep_the_rule, looks_keep_the_rule,
    poisonings_keep_the_rule, reads_keep_the_rule, sealed_steps_keep_the_rule,
    stores_keep_the_rule, the_shown_core_is_good, totals_are_owed, uncuts_keep_the_rule,
};
pub use lend_laws::{
    entering_keeps, hosts_keep, keeping_goes_on, kept_numbers_stay, lent_stakes_come_back,
    who_lent_can_lend_again,
};
pub use lending::{enter_both, enter_with, lend_stake};
pub use marks::Mark;
pub use name::Name;
pub use note::Note;
pub use read_laws::{
    a_history_goes_on, a_longer_history_is_the_same, a_look_finds_its_word,
    a_step_stands_at_its_number, all_logs_are_known, logs_add_up, one_order_is_known,
    others_have_the_free, reads_have_places, the_first_free_stays,
};
pub use region::{Region, Seat};
pub use step_laws::{
    additions_stand_in_logs, counted_steps_leave, entries_stand_in_lists, entries_stand_in_logs,
    filled_words_have_the_value, hands_keep_seals, looks_leave, new_words_are_zero,
    owns_are_sealed_or_not, owns_change, releases_leave, sealed_steps_leave, states_are_owns,
    stores_leave,
};
pub use take_laws::{
    beginnings_are_ordered, beginnings_join, free_numbers_stay, keepers_have_all, known_words_join,
    seen_lists_join, seen_numbers_join, stakes_made_theirs,
};
pub use view::{
    Deeds, Entry, Keeper, Leases, Made, OwnTitle, RawRange, SeenList, SeenNumber, Stake, View,
};
