ghost use Rattle.std.specs.Prelude.{◌≡◌, ℕ, ◌+◌, ◌<◌, ◌^◌, IfOk, length};
ghost use Rattle.pa_rules.specs.declared.verdict.Place.TheVariants as places;
ghost use Rattle.pa_rules.specs.Roots.{journal_at};
ghost use Rattle.pa_rules.specs.RecordDemands.{SlotsDemand};
ghost use Rattle.pa_rules.specs.Rising.{RiseByLine};
ghost use Rattle.pa_audit_holders.specs.Holding.{TellsHolders, entry_place, first_in};

use crate::held::first_record;
use crate::owners::returns_of;
use crate::tables::walk;
use pa_audit_records::Salt;
use pa_dense::DenseJournal;
use pa_rules::{Place, Played};
use pa_slot::OutOfMemory;
use std::alloc::Global;

/// The first place that doesn't meet what the clause `holders` asks of it. It is a record that made a slot which its thread doesn't have,
/// or found a number at which its slot was gone for good. Or it is an entry of a journal that names a slot at a number at which it isn't
/// free, that needs another holder than the slot has, or that names a slot which was gone for good.
pub fn holders_meet(
    alloc: Global,
    salt: Salt,
    records: &[Played],
    roots: &[DenseJournal],
) -> Result<Option<Place>, OutOfMemory>
    requires few { length records.now < 2 ^ 32 }
    requires rising { RiseByLine records.now }
    requires slots { (i : ℕ) → SlotsDemand records.now (places.Record i) }
    requires journals { length roots.now < 2 ^ 32 }
    requires entries { (p : ℕ) → length (journal_at roots.now p) < 2 ^ 32 }
    ensures { IfOk result (TellsHolders records.now (journal_at roots.now)) }
{
    let firsts = returns_of(alloc, salt, records)?;
    let mut tables = Vec::new(alloc);
    let mut misfit = None;
    let mut partition: u32 = 0;
    for journal in roots {
        let walked = walk(alloc, salt, records, &firsts, journal)?;
        misfit = first_entry(misfit, partition, walked.misfit);
        tables.push(walked.table)?;
        partition += 1;
    }
    match first_record(records, &firsts, &tables, roots) {
        Some(at) => Ok(Some(Place::Record(at))),
        None => Ok(place_of(misfit)),
    }
}

// The first entry that doesn't fit, once the next partition's journal has this first one.
fn first_entry(misfit: Option<(u32, u32)>, partition: u32, at: Option<u32>) -> Option<(u32, u32)>
    ensures { result ≡ first_in misfit partition at }
{
    match misfit {
        Some(place) => Some(place),
        None => match at {
            Some(at) => Some((partition, at)),
            None => None,
        },
    }
}

fn place_of(entry: Option<(u32, u32)>) -> Option<Place>
    ensures { result ≡ entry_place entry }
{
    match entry {
        Some((partition, at)) => Some(Place::Root(partition, at)),
        None => None,
    }
}
