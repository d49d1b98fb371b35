use pa_slot::SlotName;

/// A slot, and a number of its count word.
#[derive(Clone, Copy, Debug, PartialEq, Eq)]
pub struct Numbered {
    pub slot: SlotName,
    pub number: u64,
}

// What fills the unused places of a batch.
impl Default for Numbered {
    fn default() -> Numbered {
        let slot = SlotName { start: 0, born: 0 };
        Numbered { slot, number: 0 }
    }
}
