ghost use Rattle.std.specs.Prelude.{◌≡◌, ℕ, ◌+◌, ◌*◌, ◌<◌, ◌^◌, [], ◌∷◌, Contains, IfOk, OnErr, OnOk, length};
ghost use Rattle.pa_audit_records.specs.ByKeys.{value_at};
ghost use Rattle.pa_slot.specs.declared.word.SlotName.{SlotName as Name};
ghost use Rattle.pa_record.specs.Laws.{leaves_by};
ghost use Rattle.pa_record.specs.Root.{names};
ghost use Rattle.pa_rules.specs.Roots.{journal_at};
ghost use Rattle.pa_audit_records.specs.Keys.{name_key};
ghost use Rattle.pa_audit_holders.specs.Homes.{KnowsHomes, EntersSlots, HasAbove, HasHomes, IsHomeOf, home_at};

use pa_audit_records::{ByKey, Salt};
use pa_buckets::slot_size;
use pa_dense::{Act, DenseEntry, DenseJournal};
use pa_record::Numbered;
use pa_slot::{OutOfMemory, SlotName};
use std::alloc::Global;

/// The owner of a free slot and the slot's bytes. The owner is the lists of its partition and class, by the class's number, or, if it has
/// no class, the root of its partition.
#[derive(Clone, Copy)]
pub struct Home {
    pub partition: u32,
    pub class: Option<u32>,
    pub bytes: u32,
}

// The number of a slot.
pub(crate) fn key(slot: SlotName) -> u128
    ensures key { result ≡ name_key slot }
    ensures start { slot.start < 4294967296 }
{
    slot.born as u128 * 4_294_967_296 + slot.start as u128
}

/// The homes of all slots that the journals handed out, by the slots' numbers.
pub fn homes_of(
    alloc: Global,
    salt: Salt,
    roots: &[DenseJournal],
) -> Result<ByKey<Home>, OutOfMemory>
    requires few { length roots.now < 2 ^ 32 }
    ensures { IfOk result (λ homes. KnowsHomes (journal_at roots.now) (value_at homes)) }
{
    let mut homes = ByKey::new(alloc, salt);
    let mut partition: u32 = 0;
    for journal in roots {
        enter_all(&mut homes, roots, partition, journal)?;
        partition += 1;
    }
    Ok(homes)
}

// Enters the slots that a partition's journal handed out.
fn enter_all(
    homes: &mut ByKey<Home>,
    roots: &[DenseJournal],
    partition: u32,
    journal: &DenseJournal,
) -> Result<(), OutOfMemory>
    requires journal { journal_at roots.now partition ≡ journal.now }
    requires homes { HasHomes (journal_at roots.now) (value_at homes.old) }
    requires above { HasAbove (journal_at roots.now) partition 0 (value_at homes.old) }
    ensures homes { HasHomes (journal_at roots.now) (value_at homes.new) }
    ensures above { OnOk result (HasAbove (journal_at roots.now) (partition + 1) 0 (value_at homes.new)) }
{
    for entry in journal.entries() {
        enter_entry(homes, roots, partition, entry)?;
    }
    Ok(())
}

// Enters the slots that an entry of a partition's journal handed out.
fn enter_entry(
    homes: &mut ByKey<Home>,
    roots: &[DenseJournal],
    partition: u32,
    entry: &DenseEntry,
) -> Result<(), OutOfMemory>
    requires among { Contains (journal_at roots.now partition) entry.now }
    requires homes { HasHomes (journal_at roots.now) (value_at homes.old) }
    ensures homes { HasHomes (journal_at roots.now) (value_at homes.new) }
    ensures enters { OnOk result (EntersSlots (value_at homes.old) (value_at homes.new) (leaves_by entry.now.act)) }
{
    match entry.act() {
        Act::Fill { class, slots, .. } => {
            let home = Home {
                partition,
                class: Some(class.number()),
                bytes: slot_size(class),
            };
            enter_slots(homes, roots, home, slots.items())
        }
        Act::Map { slot, len, .. } => {
            let home = Home {
                partition,
                class: None,
                bytes: len,
            };
            enter(homes, roots, home, slot)
        }
        _ => Ok(()),
    }
}

// Enters slots that have this home.
fn enter_slots(
    homes: &mut ByKey<Home>,
    roots: &[DenseJournal],
    home: Home,
    slots: &[Numbered],
) -> Result<(), OutOfMemory>
    requires home { (s : Name) → Contains (names slots.now) s → IsHomeOf (journal_at roots.now) s home }
    requires homes { HasHomes (journal_at roots.now) (value_at homes.old) }
    ensures homes { HasHomes (journal_at roots.now) (value_at homes.new) }
    ensures enters { OnOk result (EntersSlots (value_at homes.old) (value_at homes.new) (names slots.now)) }
{
    for slot in slots {
        enter(homes, roots, home, slot.slot)?;
    }
    Ok(())
}

// Enters a slot that has this home.
fn enter(
    homes: &mut ByKey<Home>,
    roots: &[DenseJournal],
    home: Home,
    slot: SlotName,
) -> Result<(), OutOfMemory>
    requires home { IsHomeOf (journal_at roots.now) slot home }
    requires homes { HasHomes (journal_at roots.now) (value_at homes.old) }
    ensures homes { HasHomes (journal_at roots.now) (value_at homes.new) }
    ensures enters { OnOk result (EntersSlots (value_at homes.old) (value_at homes.new) (slot ∷ [])) }
    ensures same { OnErr result ((q : ℕ) → value_at homes.new q ≡ value_at homes.old q) }
{
    homes.put(key(slot), home)?;
    Ok(())
}

/// The home of a slot, if the table has one.
pub fn found_home(homes: &ByKey<Home>, slot: SlotName) -> Option<Home>
    ensures { result ≡ home_at (value_at homes.now) slot }
{
    homes.find(key(slot))
}
