ghost use Rattle.std.specs.Prelude.{◌≡◌, ℕ, ◌<◌, ◌≤◌, ◌↔◌, [], ◌∷◌, IfOk, IsTrue, Some, drop, length, take};
ghost use Rattle.pa_rules.specs.Sizes.{HasClass};
ghost use Rattle.pa_trace.specs.Limits.{most_partitions};
ghost use Rattle.pa_rules.specs.Roots.{journal_at};
ghost use Rattle.pa_rules.specs.Caches.{DoneRow, OnlyActs, ReturnRow, gives, kept, spilled, unmap_at};
ghost use Rattle.pa_audit_holders.specs.Homes.{HasOneHome, IsHomeOf};
ghost use Rattle.pa_audit_holders.specs.Lists.{cache_in};
ghost use Rattle.pa_audit_holders.specs.Rows.{BackRow, TellsRow};

use crate::acts::unmaps;
use crate::asks::Bin;
use crate::books::Page;
use crate::gives::all_give;
use crate::homes::Home;
use crate::lists::{FreeSlots, ThreadLists};
use pa_buckets::{Class, cache_limit};
use pa_record::{Numbered, Seen};
use pa_slot::{OutOfMemory, SlotName, Step, number, returns};
use std::alloc::Global;

// An op was done: its step returned the slot, or the line has no entries.
pub(crate) fn done(
    alloc: Global,
    page: &Page<'_>,
    step: Option<Step>,
    seen: Seen,
    cache: &mut ThreadLists,
) -> Result<bool, OutOfMemory>
    requires version { cache.old.version ≡ page.now.version }
    ensures version { cache.new.version ≡ cache.old.version }
    ensures row { IfOk result
        (TellsRow (DoneRow (journal_at page.now.roots) page.now.told step seen (cache_in cache.old)) (cache_in cache.new)) }
{
    match step {
        Some(step) => stepped(alloc, page, step, seen, cache),
        None => Ok(page.has_none()),
    }
}

// This step was made.
fn stepped(
    alloc: Global,
    page: &Page<'_>,
    step: Step,
    seen: Seen,
    cache: &mut ThreadLists,
) -> Result<bool, OutOfMemory>
    requires version { cache.old.version ≡ page.now.version }
    ensures version { cache.new.version ≡ cache.old.version }
    ensures row { IfOk result
        (TellsRow (DoneRow (journal_at page.now.roots) page.now.told (Some step) seen (cache_in cache.old)) (cache_in cache.new)) }
{
    if !returns(step, seen.found) {
        return Ok(page.has_none());
    }
    let slot = Numbered {
        slot: seen.slot,
        number: number(seen.found) + 1,
    };
    let fits = put_back(alloc, page, slot, cache)?;
    Ok(fits)
}

// A slot was returned, which then has this number.
fn put_back(
    alloc: Global,
    page: &Page<'_>,
    slot: Numbered,
    cache: &mut ThreadLists,
) -> Result<bool, OutOfMemory>
    requires version { cache.old.version ≡ page.now.version }
    ensures version { cache.new.version ≡ cache.old.version }
    ensures row { IfOk result
        (TellsRow (ReturnRow (journal_at page.now.roots) page.now.told slot (cache_in cache.old)) (cache_in cache.new)) }
{
    match page.home_of(slot.slot) {
        Some(home) => go_home(alloc, page, home, slot, cache),
        None => Ok(false),
    }
}

// A slot with this home was returned.
fn go_home(
    alloc: Global,
    page: &Page<'_>,
    home: Home,
    slot: Numbered,
    cache: &mut ThreadLists,
) -> Result<bool, OutOfMemory>
    requires home { IsHomeOf (journal_at page.now.roots) slot.slot home }
    requires partition { home.partition < most_partitions }
    requires one { HasOneHome page.now.version (journal_at page.now.roots) slot.slot }
    requires version { cache.old.version ≡ page.now.version }
    ensures version { cache.new.version ≡ cache.old.version }
    ensures row { IfOk result
        (TellsRow (ReturnRow (journal_at page.now.roots) page.now.told slot (cache_in cache.old)) (cache_in cache.new)) }
{
    let partition = home.partition;
    match home.class {
        Some(number) => {
            let class = Class::of(number).unwrap();
            let bin = Bin { partition, class };
            let fits = put_in_list(alloc, page, &bin, slot, cache)?;
            Ok(fits)
        }
        None => Ok(is_unmapped(page, partition, slot.slot)),
    }
}

// A slot becomes the front of its list, and what doesn't stay of that goes back to the root.
fn put_in_list(
    alloc: Global,
    page: &Page<'_>,
    bin: &Bin,
    slot: Numbered,
    cache: &mut ThreadLists,
) -> Result<bool, OutOfMemory>
    requires partition { bin.now.partition < most_partitions }
    requires class { HasClass cache.old.version bin.now.class }
    requires version { cache.old.version ≡ page.now.version }
    ensures version { cache.new.version ≡ cache.old.version }
    ensures row { IfOk result (TellsRow
        (BackRow (journal_at page.now.roots) page.now.told.line bin.now.partition bin.now.class slot (cache_in cache.old))
        (cache_in cache.new)) }
{
    let none = FreeSlots::new(alloc);
    let mut slots = cache.replace(bin.partition, bin.class, none);
    slots.put_front(slot)?;
    let stays = how_many_stay(bin.class, slots.items());
    if !only_gives(page, bin.partition, &slots.items()[stays..]) {
        return Ok(false);
    }
    slots.keep(stays);
    cache.replace(bin.partition, bin.class, slots);
    Ok(true)
}

// How many of a list's slots stay when one came to its front.
fn how_many_stay(class: Class, slots: &[Numbered]) -> usize
    ensures few { result ≤ length slots.now }
    ensures short { result ≤ 64 }
    ensures kept { take result slots.now ≡ kept class slots.now }
    ensures spilled { drop result slots.now ≡ spilled class slots.now }
{
    let limit = cache_limit(class) as usize;
    if slots.len() > limit {
        limit / 2
    } else {
        slots.len()
    }
}

// Whether the line's only entries give these slots of this partition back.
fn only_gives(page: &Page<'_>, partition: u32, slots: &[Numbered]) -> bool
    ensures { IsTrue result ↔ OnlyActs (journal_at page.now.roots) page.now.told.line partition (gives slots.now) }
{
    if !page.none_but(partition) {
        return false;
    }
    let places = page.places(partition);
    all_give(page.journal(partition), places, slots)
}

// Whether the line's only entry gives this direct map of this partition back.
fn is_unmapped(page: &Page<'_>, partition: u32, slot: SlotName) -> bool
    ensures { IsTrue result ↔
        ((asked number : ℕ) × OnlyActs (journal_at page.now.roots) page.now.told.line partition (unmap_at asked slot number ∷ [])) }
{
    match page.only_act(partition) {
        Some(act) => unmaps(act, slot),
        None => false,
    }
}
