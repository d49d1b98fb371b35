//! Whether records and journals are ones that the checkers of the threads' caches take.
ghost use Rattle.std.specs.Prelude.{◌≡◌, ℕ, ◌<◌, All, Contains, IsTrue, Some, length};
ghost use Rattle.pa_audit_records.specs.ByKeys.{value_at};
ghost use Rattle.pa_slot.specs.declared.word.SlotName.{SlotName as Name};
ghost use Rattle.pa_record.specs.Laws.{leaves_by};
ghost use Rattle.pa_record.specs.Root.{names};
ghost use Rattle.pa_rules.specs.Roots.{journal_at};
ghost use Rattle.pa_audit_records.specs.Keys.{name_key};
ghost use Rattle.pa_audit_holders.specs.Homes.{AreHomedIn, HasOneHome, home_by};
ghost use Rattle.pa_audit_holders.specs.Rows.{IsOfThreads};
ghost use Rattle.pa_test_audit.specs.Versions.{IsActOf, AreActsOf};

use pa_audit_holders::{Home, found_home};
use pa_audit_records::ByKey;
use pa_buckets::{first_class, past_class, slot_size};
use pa_dense::{Act, DenseEntry, DenseJournal};
use pa_record::Numbered;
use pa_rules::Played;
use pa_slot::SlotName;
use pa_trace::Op;

// Whether the records are of 16 threads, four partitions and the version.
pub(crate) fn are_within(version: u32, records: &[Played]) -> bool
    ensures { IsTrue result → All (IsOfThreads version) records.now }
{
    for found in records {
        if !is_within(version, *found) {
            return false;
        }
    }
    true
}

fn is_within(version: u32, found: Played) -> bool
    ensures { IsTrue result → IsOfThreads version found }
{
    match found.op {
        Op::Alloc { partition, .. } => {
            found.thread < 16 && partition < 4 && found.rules.version == version
        }
        _ => found.thread < 16 && found.rules.version == version,
    }
}

// Whether each journal has fewer than 1,000 entries.
pub(crate) fn are_short(roots: &[DenseJournal]) -> bool
    ensures { IsTrue result → (p : ℕ) → length (journal_at roots.now p) < 4294967296 }
{
    for journal in roots {
        if journal.entries().len() >= 1000 {
            return false;
        }
    }
    true
}

// Whether this is the slot's home.
fn is_homed(homes: &ByKey<Home>, home: Home, slot: SlotName) -> bool
    ensures { IsTrue result → value_at homes.now (name_key slot) ≡ Some home }
{
    match found_home(homes, slot) {
        Some(found) => {
            found.partition == home.partition
                && found.bytes == home.bytes
                && is_same_class(found.class, home.class)
        }
        None => false,
    }
}

fn is_same_class(a: Option<u32>, b: Option<u32>) -> bool
    ensures { IsTrue result → a ≡ b }
{
    match (a, b) {
        (Some(a), Some(b)) => a == b,
        (None, None) => true,
        _ => false,
    }
}

fn are_slots_homed(homes: &ByKey<Home>, home: Home, slots: &[Numbered]) -> bool
    ensures { IsTrue result → (s : Name) → Contains (names slots.now) s → value_at homes.now (name_key s) ≡ Some home }
{
    for slot in slots {
        if !is_homed(homes, home, slot.slot) {
            return false;
        }
    }
    true
}

// Whether the home of each slot that the entry handed out is the one that the entry gave it.
fn is_entry_homed(homes: &ByKey<Home>, partition: u32, entry: &DenseEntry) -> bool
    ensures { IsTrue result → (s : Name) → Contains (leaves_by entry.now.act) s
        → value_at homes.now (name_key s) ≡ Some (home_by partition entry.now.act) }
{
    match entry.act() {
        Act::Fill { class, slots, .. } => {
            let home = Home {
                partition,
                class: Some(class.number()),
                bytes: slot_size(class),
            };
            are_slots_homed(homes, home, slots.items())
        }
        Act::Map { slot, len, .. } => {
            let home = Home {
                partition,
                class: None,
                bytes: len,
            };
            is_homed(homes, home, slot)
        }
        _ => true,
    }
}

fn is_journal_homed(
    homes: &ByKey<Home>,
    roots: &[DenseJournal],
    partition: u32,
    journal: &DenseJournal,
) -> bool
    requires journal { journal_at roots.now partition ≡ journal.now }
    ensures { IsTrue result → AreHomedIn (journal_at roots.now) (value_at homes.now) partition }
{
    for entry in journal.entries() {
        if !is_entry_homed(homes, partition, entry) {
            return false;
        }
    }
    true
}

// Whether the class of the slots that the entry handed out is one of the version.
fn is_entry_of(version: u32, partition: u32, entry: &DenseEntry) -> bool
    ensures { IsTrue result → IsActOf version partition entry.now.act }
{
    match entry.act() {
        Act::Fill { class, .. } => {
            first_class(version) <= class.number() && class.number() < past_class(version)
        }
        _ => true,
    }
}

fn is_journal_of(
    version: u32,
    roots: &[DenseJournal],
    partition: u32,
    journal: &DenseJournal,
) -> bool
    requires journal { journal_at roots.now partition ≡ journal.now }
    ensures { IsTrue result → AreActsOf version (journal_at roots.now) partition }
{
    for entry in journal.entries() {
        if !is_entry_of(version, partition, entry) {
            return false;
        }
    }
    true
}

// Whether each slot of the journals has one home, of the version if it has a class.
pub(crate) fn are_homed(version: u32, homes: &ByKey<Home>, roots: &[DenseJournal]) -> bool
    requires { length roots.now < 4294967296 }
    ensures { IsTrue result → (s : Name) → HasOneHome version (journal_at roots.now) s }
{
    let mut partition: u32 = 0;
    for journal in roots {
        if !is_journal_homed(homes, roots, partition, journal) {
            return false;
        }
        if !is_journal_of(version, roots, partition, journal) {
            return false;
        }
        partition += 1;
    }
    true
}
