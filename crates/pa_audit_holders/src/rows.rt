ghost use Rattle.std.specs.Prelude.{◌≡◌, ℕ, ◌+◌, ◌<◌, ◌≤◌, ◌^◌, ◌↔◌, [], ◌∷◌, IfNone, IfOk, IfSome, IsTrue, List, OnOk, drop, length};
ghost use Rattle.pa_slot.specs.Run.{IsReturning};
ghost use Rattle.pa_record.specs.declared.numbered.Numbered.{Numbered as Listed};
ghost use Rattle.pa_record.specs.declared.root.RootAct.TheVariants as acts;
ghost use Rattle.pa_rules.specs.Sizes.{HasClass};
ghost use Rattle.pa_trace.specs.Limits.{most_partitions};
ghost use Rattle.pa_rules.specs.Roots.{AsksForClass, AsksForMap, journal_at};
ghost use Rattle.pa_rules.specs.Caches.{CacheRow, DoneRow, FilledFirst, FrontIs, FullRow, MadeRow, NoActs, OnlyActs, PurgedRow, ReturnRow, acts_of, gives, kept, spilled, unmap_at, with_list};
ghost use Rattle.pa_audit_holders.specs.Gives.{TellsPurge};
ghost use Rattle.pa_audit_holders.specs.Lists.{cache_in};
ghost use Rattle.pa_audit_holders.specs.Rows.{ClassRow, TellsFilled, TellsRow};

use crate::acts::{filled_by, lacks_class, lacks_map, maps};
use crate::asks::{Bin, class_asked, map_asked, step_of};
use crate::books::Page;
use crate::lists::{FreeSlots, ThreadLists};
use crate::purges::purged;
use crate::returns::done;
use pa_record::{Answer, Numbered, Seen};
use pa_slot::{OutOfMemory, SlotName, number};
use std::alloc::Global;

// Whether a record's row leads on from its thread's lists. If it does, they are the next ones.
pub(crate) fn plays(
    alloc: Global,
    page: &Page<'_>,
    cache: &mut ThreadLists,
) -> Result<bool, OutOfMemory>
    requires version { cache.old.version ≡ page.now.version }
    ensures version { cache.new.version ≡ cache.old.version }
    ensures row { IfOk result (TellsRow
        (CacheRow page.now.partitions (journal_at page.now.roots) page.now.told page.now.told.answer (cache_in cache.old))
        (cache_in cache.new)) }
{
    match page.answer() {
        Answer::Made { seen, .. } => made(alloc, page, seen, cache),
        Answer::Done { seen } => done(alloc, page, step_of(page.told().op), seen, cache),
        Answer::Full { .. } => Ok(full(page, cache)),
        Answer::Purged { slots } => Ok(purged(page, slots, cache)),
        _ => Ok(page.has_none()),
    }
}

// A slot was made.
fn made(
    alloc: Global,
    page: &Page<'_>,
    seen: Seen,
    cache: &mut ThreadLists,
) -> Result<bool, OutOfMemory>
    requires version { cache.old.version ≡ page.now.version }
    ensures version { cache.new.version ≡ cache.old.version }
    ensures row { IfOk result
        (TellsRow (MadeRow (journal_at page.now.roots) page.now.told seen (cache_in cache.old)) (cache_in cache.new)) }
{
    let told = page.told();
    match class_asked(told) {
        Some(bin) => {
            let fits = made_of_class(alloc, page, &bin, seen, cache)?;
            Ok(fits)
        }
        None => match map_asked(told) {
            Some(partition) => Ok(is_mapped(page, partition, seen.slot)),
            None => Ok(false),
        },
    }
}

// A slot of a class was made: it was the front of its list.
fn made_of_class(
    alloc: Global,
    page: &Page<'_>,
    bin: &Bin,
    seen: Seen,
    cache: &mut ThreadLists,
) -> Result<bool, OutOfMemory>
    requires partition { bin.now.partition < most_partitions }
    requires class { HasClass cache.old.version bin.now.class }
    requires version { cache.old.version ≡ page.now.version }
    ensures version { cache.new.version ≡ cache.old.version }
    ensures row { IfOk result (TellsRow
        (ClassRow (journal_at page.now.roots) page.now.told.line bin.now.partition bin.now.class seen (cache_in cache.old))
        (cache_in cache.new)) }
{
    let none = FreeSlots::new(alloc);
    let mut slots = cache.replace(bin.partition, bin.class, none);
    let filled = fill_first(page, bin, &mut slots)?;
    if !filled {
        return Ok(false);
    }
    if !is_front(slots.items(), seen) {
        return Ok(false);
    }
    slots.drop_front();
    cache.replace(bin.partition, bin.class, slots);
    Ok(true)
}

// Whether a slot can be taken from the list: an empty one is filled first, and at any other the line has no entries. If
// it can, the list is then the one from which it is taken.
fn fill_first(page: &Page<'_>, bin: &Bin, slots: &mut FreeSlots) -> Result<bool, OutOfMemory>
    requires few { length slots.old ≤ 64 }
    ensures filled { IfOk result
        (TellsFilled (FilledFirst (journal_at page.now.roots) page.now.told.line bin.now.partition bin.now.class slots.old) slots.new) }
    ensures few { OnOk result (length slots.new ≤ 64) }
{
    if !slots.is_empty() {
        return Ok(page.has_none());
    }
    match fill_of(page, bin) {
        Some(filled) => {
            slots.refill(filled)?;
            Ok(true)
        }
        None => Ok(false),
    }
}

// The slots of the line's only entry, if that is a fill of this partition and class.
fn fill_of<'a>(page: &'a Page<'_>, bin: &Bin) -> Option<&'a [Numbered]>
    ensures some { IfSome result
        (λ xs. FilledFirst (journal_at page.now.roots) page.now.told.line bin.now.partition bin.now.class [] xs.now) }
    ensures few { IfSome result (λ xs. length xs.now ≤ 64) }
    ensures none { IfNone result
        ((xs : List Listed) → FilledFirst (journal_at page.now.roots) page.now.told.line bin.now.partition bin.now.class [] xs → ⊥) }
{
    match page.only_act(bin.partition) {
        Some(act) => filled_by(act, bin.class),
        None => None,
    }
}

// Whether the front is the slot that was seen, at the number that was found.
fn is_front(slots: &[Numbered], seen: Seen) -> bool
    ensures { IsTrue result ↔ FrontIs seen slots.now (drop 1 slots.now) }
{
    match slots {
        [first, ..] => first.slot == seen.slot && first.number == number(seen.found),
        [] => false,
    }
}

// Whether the line's only entry made a direct map of this partition whose slot this is.
fn is_mapped(page: &Page<'_>, partition: u32, slot: SlotName) -> bool
    ensures { IsTrue result ↔
        ((asked len : ℕ) × OnlyActs (journal_at page.now.roots) page.now.told.line partition (acts.Map asked slot len ∷ [])) }
{
    match page.only_act(partition) {
        Some(act) => maps(act, slot),
        None => false,
    }
}

// There was no room.
fn full(page: &Page<'_>, cache: &ThreadLists) -> bool
    requires version { cache.now.version ≡ page.now.version }
    ensures { TellsRow (FullRow (journal_at page.now.roots) page.now.told (cache_in cache.now)) (cache_in cache.now) result }
{
    let told = page.told();
    match class_asked(told) {
        Some(bin) => {
            let list = cache.list(bin.partition, bin.class);
            is_class_full(page, &bin, list)
        }
        None => match map_asked(told) {
            Some(partition) => is_map_full(page, partition),
            None => false,
        },
    }
}

// Whether the list is empty, and the line's only entry found no room for a slot of this partition and class.
fn is_class_full(page: &Page<'_>, bin: &Bin, list: &[Numbered]) -> bool
    ensures { IsTrue result ↔ ((list.now ≡ [])
        × ((asked : ℕ)
        × OnlyActs (journal_at page.now.roots) page.now.told.line bin.now.partition (acts.Full (Some bin.now.class) asked ∷ []))) }
{
    list.is_empty() && lacks_room(page, bin)
}

// Whether the line's only entry found no room for a slot of this partition and class.
fn lacks_room(page: &Page<'_>, bin: &Bin) -> bool
    ensures { IsTrue result ↔
        ((asked : ℕ)
        × OnlyActs (journal_at page.now.roots) page.now.told.line bin.now.partition (acts.Full (Some bin.now.class) asked ∷ [])) }
{
    match page.only_act(bin.partition) {
        Some(act) => lacks_class(act, bin.class),
        None => false,
    }
}

// Whether the line's only entry found no room for a direct map of this partition.
fn is_map_full(page: &Page<'_>, partition: u32) -> bool
    ensures { IsTrue result ↔
        ((asked : ℕ) × OnlyActs (journal_at page.now.roots) page.now.told.line partition (acts.Full None asked ∷ [])) }
{
    match page.only_act(partition) {
        Some(act) => lacks_map(act),
        None => false,
    }
}
