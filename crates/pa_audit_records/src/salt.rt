use crate::marks::told_mark;
use pa_dense::{Act, DenseJournal};
use pa_record::Numbered;
use pa_rules::Played;
use pa_slot::SlotName;
use std::hash::{DefaultHasher, Hasher};

/// What tables hash their keys together with. It is made of all slots and words of a run, from which the tables' keys come:
/// whoever changes a key gets another salt. Any salt gives the same answers, so nothing is said of which salt it is.
#[derive(Clone, Copy)]
pub struct Salt {
    mask: u128,
}

impl Salt {
    /// The salt of a run's records and journals.
    pub fn of(records: &[Played], roots: &[DenseJournal]) -> Salt {
        let mut state = DefaultHasher::new();
        for record in records {
            stir_record(&mut state, *record);
        }
        for journal in roots {
            for entry in journal.entries() {
                stir_act(&mut state, entry.act());
            }
        }
        let low = state.finish();
        state.write_u64(low);
        let high = state.finish();
        Salt {
            mask: high as u128 * 18_446_744_073_709_551_616 + low as u128,
        }
    }

    // The number with which a key is mixed.
    pub(crate) fn mask(self) -> u128 {
        self.mask
    }
}

// Stirs in the slot that a record reports, and its word.
fn stir_record(state: &mut DefaultHasher, told: Played) {
    if let Some(mark) = told_mark(told) {
        stir(state, mark.slot, mark.found.0);
    }
}

// Stirs in the slots that an entry of this act names.
fn stir_act(state: &mut DefaultHasher, act: Act<'_>) {
    match act {
        Act::Fill { slots, .. } | Act::Give { slots } => stir_all(state, slots.items()),
        Act::Map { slot, .. } => stir(state, slot, 0),
        Act::Unmap { slot, .. } => stir(state, slot.slot, slot.number),
        Act::Full { .. } | Act::Purge => {}
    }
}

fn stir_all(state: &mut DefaultHasher, slots: &[Numbered]) {
    for slot in slots {
        stir(state, slot.slot, slot.number);
    }
}

fn stir(state: &mut DefaultHasher, slot: SlotName, number: u64) {
    state.write_u64(u64::from(slot.born) * 4_294_967_296 + u64::from(slot.start));
    state.write_u64(number);
}
