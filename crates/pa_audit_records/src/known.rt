ghost use Rattle.std.specs.Prelude.{◌≡◌, ◌↔◌, Any, IfOk, IsTrue, List};
ghost use Rattle.pa_audit_records.specs.ByKeys.{value_at};
ghost use Rattle.pa_audit_records.specs.Tables.{facts_at, AreSlotFacts, ArePlains, AreUsables, ReadsSlot, SuitsRecords};
ghost use Rattle.pa_rules.specs.declared.played.Played.{Played};
ghost use Rattle.pa_rules.specs.Registers.{is_plain_op, plain_in, usable_in};

use crate::by_key::ByKey;
use crate::keys::key;
use crate::salt::Salt;
use pa_record::Answer;
use pa_rules::Played;
use pa_slot::{OutOfMemory, SlotName};
use pa_trace::{Op, Rules};
use std::alloc::Global;

/// What the rows of the registers need to know of a slot: how many of its bytes are usable, and whether it is plain.
#[derive(Clone, Copy)]
pub(crate) struct SlotFacts {
    pub usable: u32,
    pub plain: bool,
}

/// What is known of the slots that records made, by their numbers, and whether one of them is plain.
#[derive(Drop)]
pub(crate) struct KnownSlots {
    pub slots: ByKey<SlotFacts>,
    pub any_plain: bool,
}

// Whether the op reads a slot.
fn is_read(op: Op) -> bool
    ensures { IsTrue result ↔ ReadsSlot op }
{
    matches!(op, Op::Read { .. })
}

// Whether one of the records has an op that reads a slot.
fn reads(records: &[Played]) -> bool
    ensures { IsTrue result ↔ Any (λ x. ReadsSlot x.op) records.now }
{
    records.iter().any(|told| is_read(told.op))
}

// Whether the op asks for a slot in a plain partition.
fn is_plain(rules: Rules, op: Op) -> bool
    ensures { result ≡ is_plain_op rules op }
{
    match op {
        Op::Alloc { partition, .. } => rules.plain_from <= partition,
        _ => false,
    }
}

// Whether one of the records has an op that asks for a slot in a plain partition.
fn asks_plain(records: &[Played]) -> bool
    ensures { IsTrue result ↔ Any (λ x. IsTrue (is_plain_op x.rules x.op)) records.now }
{
    records.iter().any(|told| is_plain(told.rules, told.op))
}

// For each slot that a record made, by its number, what the first such record says of it.
// The last record is looked at first.
fn slot_facts(
    alloc: Global,
    salt: Salt,
    records: &[Played],
) -> Result<ByKey<SlotFacts>, OutOfMemory>
    ensures { IfOk result (λ m. AreSlotFacts records.now (value_at m)) }
{
    let mut slots = ByKey::new(alloc, salt);
    let mut at = records.len();
    while at > 0 {
        at -= 1;
        let record = records[at];
        if let Answer::Made { seen, usable } = record.answer {
            let plain = is_plain(record.rules, record.op);
            slots.put(key(seen.slot), SlotFacts { usable, plain })?;
        }
    }
    Ok(slots)
}

// What the records say of the slots, if one reads a slot or asks for a plain one: else no op looks at it.
pub(crate) fn known_slots(
    alloc: Global,
    salt: Salt,
    records: &[Played],
) -> Result<KnownSlots, OutOfMemory>
    ensures { IfOk result (SuitsRecords records.now) }
{
    let any_plain = asks_plain(records);
    let slots = if any_plain || reads(records) {
        slot_facts(alloc, salt, records)?
    } else {
        ByKey::new(alloc, salt)
    };
    Ok(KnownSlots { slots, any_plain })
}

impl KnownSlots {
    // What is known of a slot.
    fn facts(&self, slot: SlotName) -> SlotFacts
        ensures { result ≡ facts_at (value_at self.now.slots) slot }
    {
        self.slots.find(key(slot)).unwrap_or(SlotFacts {
            usable: 0,
            plain: false,
        })
    }

    // The usable number of a slot, by the records from which it is known.
    pub(crate) fn usable(&self, slot: SlotName) -> u32
        ensures { (ps : List Played) → AreUsables ps self.now → result ≡ usable_in ps slot }
    {
        self.facts(slot).usable
    }

    // Whether a slot is plain, by the records from which it is known.
    pub(crate) fn is_plain(&self, slot: SlotName) -> bool
        ensures { (ps : List Played) → ArePlains ps self.now → result ≡ plain_in ps slot }
    {
        self.any_plain && self.facts(slot).plain
    }
}
