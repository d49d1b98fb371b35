ghost use Rattle.std.specs.Prelude.{◌≡◌, ℕ, ◌+◌, ◌<◌, ◌^◌, ◌↔◌, IsSome, IsTrue, length};
ghost use Rattle.pa_audit_records.specs.ByKeys.{value_at};
ghost use Rattle.std.specs.Option.{option_map};
ghost use Rattle.pa_slot.specs.Count.{number_of};
ghost use Rattle.pa_rules.specs.declared.verdict.Place.TheVariants as places;
ghost use Rattle.pa_rules.specs.Roots.{journal_at};
ghost use Rattle.pa_rules.specs.Played.{mark_of};
ghost use Rattle.pa_rules.specs.HeapDemands.{HoldersDemand};
ghost use Rattle.pa_rules.specs.Tells.{TellsFirst};
ghost use Rattle.pa_audit_holders.specs.Gone.{IsUnmapped};
ghost use Rattle.pa_audit_holders.specs.Holding.{HaveTables, IsIssued, StaysThere, TellsHeld, either_of, slot_by};
ghost use Rattle.pa_audit_holders.specs.Owners.{AreOfRuns, HasReturns};

use crate::gone::is_there;
use crate::moves::both;
use crate::owners::{Owner, first_owner, is_owner, key_at};
use crate::tables::Table;
use pa_audit_records::ByKey;
use pa_dense::DenseJournal;
use pa_record::{Answer, Numbered, Seen};
use pa_rules::Played;
use pa_slot::number;

// The slot that the record reports, at the number that it found.
fn told_slot(told: Played) -> Option<Numbered>
    ensures { result ≡ option_map slot_by (mark_of told) }
{
    match told.answer {
        Answer::Made { seen, .. } => Some(numbered(seen)),
        Answer::Done { seen } => Some(numbered(seen)),
        Answer::Value { seen, .. }
        | Answer::Dangling { seen, .. }
        | Answer::NotOwner { seen }
        | Answer::Shared { seen } => Some(numbered(seen)),
        Answer::SecondFree { seen } | Answer::StaleUse { seen } => match seen {
            Some(seen) => Some(numbered(seen)),
            None => None,
        },
        _ => None,
    }
}

fn numbered(seen: Seen) -> Numbered
    ensures slot { result.slot ≡ seen.slot }
    ensures number { result.number ≡ number_of seen.found.0 }
{
    Numbered {
        slot: seen.slot,
        number: number(seen.found),
    }
}

// Who holds a slot at a number after all journals, and nobody if two of them name it there.
fn owner_of(
    records: &[Played],
    firsts: &ByKey<u32>,
    tables: &[Table],
    roots: &[DenseJournal],
    slot: Numbered,
) -> Owner
    requires returns { HasReturns records.now (value_at firsts.now) }
    requires tables { HaveTables records.now roots.now tables.now }
    ensures { TellsHeld records.now (journal_at roots.now) slot.slot slot.number result }
{
    let key = key_at(slot);
    let mut found = None;
    for table in tables {
        let owner = table.owners.find(key);
        if are_two(found, owner) {
            return Owner::Nobody;
        }
        found = either(found, owner);
    }
    match found {
        Some(owner) => owner,
        None => first_owner(records, firsts, slot),
    }
}

fn are_two(a: Option<Owner>, b: Option<Owner>) -> bool
    ensures { IsTrue result ↔ (IsSome a × IsSome b) }
{
    match (a, b) {
        (Some(_first), Some(_second)) => true,
        _ => false,
    }
}

fn either(a: Option<Owner>, b: Option<Owner>) -> Option<Owner>
    ensures { result ≡ either_of a b }
{
    match a {
        Some(owner) => Some(owner),
        None => b,
    }
}

// Whether a slot that the record made is its thread's.
fn is_issued(
    records: &[Played],
    firsts: &ByKey<u32>,
    tables: &[Table],
    roots: &[DenseJournal],
    told: Played,
) -> bool
    requires returns { HasReturns records.now (value_at firsts.now) }
    requires tables { HaveTables records.now roots.now tables.now }
    requires known { AreOfRuns records.now }
    ensures { IsTrue result ↔ IsIssued records.now (journal_at roots.now) told }
{
    match told.answer {
        Answer::Made { seen, .. } => {
            let owner = owner_of(records, firsts, tables, roots, numbered(seen));
            is_owner(owner, Owner::Thread(told.thread))
        }
        _ => true,
    }
}

// Whether no entry took the slot away at this number or a lower one.
fn is_in_all(records: &[Played], tables: &[Table], roots: &[DenseJournal], slot: Numbered) -> bool
    requires tables { HaveTables records.now roots.now tables.now }
    ensures { IsTrue result ↔ ((p n : ℕ) → IsUnmapped (journal_at roots.now p) slot.slot n → slot.number < n) }
{
    for table in tables {
        if !is_there(&table.gone, slot) {
            return false;
        }
    }
    true
}

// Whether the record found no number at which its slot was gone for good.
fn stays_there(records: &[Played], tables: &[Table], roots: &[DenseJournal], told: Played) -> bool
    requires tables { HaveTables records.now roots.now tables.now }
    ensures { IsTrue result ↔ StaysThere (journal_at roots.now) told }
{
    match told_slot(told) {
        Some(slot) => is_in_all(records, tables, roots, slot),
        None => true,
    }
}

// The first record that made a slot which isn't its thread's, or found a number at which its slot was gone for good.
pub(crate) fn first_record(
    records: &[Played],
    firsts: &ByKey<u32>,
    tables: &[Table],
    roots: &[DenseJournal],
) -> Option<u32>
    requires few { length records.now < 2 ^ 32 }
    requires returns { HasReturns records.now (value_at firsts.now) }
    requires tables { HaveTables records.now roots.now tables.now }
    requires known { AreOfRuns records.now }
    ensures { TellsFirst (λ i. HoldersDemand records.now (journal_at roots.now) (places.Record i)) result }
{
    let mut at: u32 = 0;
    for record in records {
        let issued = is_issued(records, firsts, tables, roots, *record);
        let stays = stays_there(records, tables, roots, *record);
        if !both(issued, stays) {
            return Some(at);
        }
        at += 1;
    }
    None
}
