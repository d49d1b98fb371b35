ghost use Rattle.std.specs.Prelude.{◌≡◌, ℕ, zero, ◌+◌, ◌-◌, ◌<◌, ◌≤◌, List, [], ◌∷◌, Option, ◌++◌, codes, length, IfSome};
ghost use Rattle.std.specs.List.{AllByRecursion};
ghost use Rattle.std.specs.Fmt.{decimal};
ghost use Rattle.pa_buckets.specs.Limits.{class_count};
ghost use Rattle.pa_record.specs.Bits.{Is32, IsClass, NumberedInBits, RootActInBits, RootInBits};
ghost use Rattle.pa_record.specs.RunText.{NamesSlots};
ghost use Rattle.pa_record.specs.Text.{number_or, numbered_text, slots_text, root_act_text, root_text};
ghost use Rattle.pa_record.specs.declared.numbered.Numbered.{Numbered};
ghost use Rattle.pa_record.specs.declared.root.RootAct.{RootAct};
ghost use Rattle.pa_run_reader.specs.declared.item.Item.{Item};
ghost use Rattle.pa_run_reader.specs.Item.{ItemInBits, item_text};
ghost use Rattle.pa_run_reader.specs.Reading.{Yields, below_at};
ghost use Rattle.pa_run_reader.specs.Roots.{number_or_in, numbered_in, slots_in, batch_in, fill_in, map_act_in, full_in, give_in, unmap_in, root_act_in, root_in};

use crate::field::{NUMBERS, behind, field, slot, small, wide};
use crate::item::Item;
use pa_buckets::{CLASSES, Class};
use pa_record::{Batch, Numbered, RootAct, RootEntry};
use pa_trace::MOST_PARTITIONS;

// The most slots of a batch.
const BATCH: u32 = 16;

// A number, or a word if there is none.
#[tactic(auto, unfolding(crate::specs::Roots::number_or_in))]
pub fn number_or<'a>(word: &[u8], bytes: &'a [u8]) -> Option<(Option<u32>, &'a [u8])>
    ensures read { Yields {Y = Option ℕ × List ℕ} (λ x. (x.0, x.1.now)) result (number_or_in word.now 4294967296 bytes.now) }
    ensures found { IfSome result (λ x. IfSome x.0 Is32 × (bytes.now ≡ number_or word.now x.0 ++ x.1.now)) }
{
    if let Some(rest) = behind(word, bytes) {
        return Some((None, rest));
    }
    let (number, rest) = small(NUMBERS, bytes)?;
    Some((Some(number), rest))
}

// The number of a class, or `direct`.
#[tactic(auto, unfolding(crate::specs::Roots::number_or_in))]
fn class_or(bytes: &[u8]) -> Option<(Option<Class>, &[u8])>
    ensures read { Yields {Y = Option ℕ × List ℕ} (λ x. (x.0, x.1.now)) result (number_or_in (codes "direct") class_count bytes.now) }
    ensures found { IfSome result (λ x. IfSome x.0 IsClass × (bytes.now ≡ number_or (codes "direct") x.0 ++ x.1.now)) }
{
    if let Some(rest) = behind(b"direct", bytes) {
        return Some((None, rest));
    }
    let (number, rest) = small(CLASSES as u64, bytes)?;
    Some((Some(Class::of(number).unwrap()), rest))
}

// `SLOT@K`.
#[tactic(auto, unfolding(crate::specs::Roots::numbered_in))]
fn numbered(bytes: &[u8]) -> Option<(Numbered, &[u8])>
    ensures read { Yields {Y = Numbered × List ℕ} (λ x. (x.0, x.1.now)) result (numbered_in bytes.now) }
    ensures found { IfSome result (λ x. NumberedInBits x.0 × (bytes.now ≡ numbered_text x.0 ++ x.1.now)) }
{
    let (slot, rest) = slot(bytes)?;
    let (number, rest) = wide(b"@", rest)?;
    Some((Numbered { slot, number }, rest))
}

// ` SLOT@K` for each of at most 16 slots.
fn slots(bytes: &[u8]) -> Option<(Batch, &[u8])>
    ensures read { Yields {Y = List Numbered × List ℕ} (λ x. (x.0, x.1.now)) result (slots_in 16 bytes.now) }
    ensures few { IfSome result (λ x. length x.0 ≤ 16) }
    ensures found { IfSome result (λ x. AllByRecursion NumberedInBits x.0 × (bytes.now ≡ slots_text x.0 ++ x.1.now)) }
{
    let mut batch = Batch::new();
    let mut rest = bytes;
    for _ in 0..BATCH {
        let Some(front) = behind(b" ", rest) else {
            return Some((batch, rest));
        };
        let Some((slot, after)) = numbered(front) else {
            return None;
        };
        batch.push(slot);
        rest = after;
    }
    Some((batch, rest))
}

// ` SLOT@K` for each of 1 to 16 slots.
#[tactic(auto, unfolding(crate::specs::Roots::batch_in))]
fn batch(bytes: &[u8]) -> Option<(Batch, &[u8])>
    ensures read { Yields {Y = List Numbered × List ℕ} (λ x. (x.0, x.1.now)) result (batch_in bytes.now) }
    ensures some { IfSome result (λ x. (0 < length x.0) × (length x.0 ≤ 16)) }
    ensures found { IfSome result (λ x. AllByRecursion NumberedInBits x.0 × (bytes.now ≡ slots_text x.0 ++ x.1.now)) }
{
    let (batch, rest) = slots(bytes)?;
    if batch.items().is_empty() {
        None
    } else {
        Some((batch, rest))
    }
}

// What follows `fill`.
#[tactic(auto, unfolding(crate::specs::Roots::fill_in))]
fn fill(bytes: &[u8]) -> Option<(RootAct, &[u8])>
    ensures read { Yields {Y = RootAct × List ℕ} (λ x. (x.0, x.1.now)) result (fill_in bytes.now) }
    ensures fits { IfSome result (λ x. RootActInBits x.0 × NamesSlots x.0) }
    ensures found { IfSome result (λ x. codes "fill " ++ bytes.now ≡ root_act_text x.0 ++ x.1.now) }
{
    let (number, rest) = small(CLASSES as u64, bytes)?;
    let class = Class::of(number).unwrap();
    let rest = behind(b" ", rest)?;
    let (pool, rest) = number_or(b"-", rest)?;
    let (slots, rest) = batch(rest)?;
    Some((RootAct::Fill { class, pool, slots }, rest))
}

// What follows `map`.
#[tactic(auto, unfolding(crate::specs::Roots::map_act_in))]
fn map(bytes: &[u8]) -> Option<(RootAct, &[u8])>
    ensures read { Yields {Y = RootAct × List ℕ} (λ x. (x.0, x.1.now)) result (map_act_in bytes.now) }
    ensures fits { IfSome result (λ x. RootActInBits x.0 × NamesSlots x.0) }
    ensures found { IfSome result (λ x. codes "map " ++ bytes.now ≡ root_act_text x.0 ++ x.1.now) }
{
    let (pool, rest) = small(NUMBERS, bytes)?;
    let rest = behind(b" ", rest)?;
    let (slot, rest) = slot(rest)?;
    let (len, rest) = field(b"@0 ", NUMBERS, rest)?;
    Some((RootAct::Map { pool, slot, len }, rest))
}

// What follows `full`.
#[tactic(auto, unfolding(crate::specs::Roots::full_in))]
fn full(bytes: &[u8]) -> Option<(RootAct, &[u8])>
    ensures read { Yields {Y = RootAct × List ℕ} (λ x. (x.0, x.1.now)) result (full_in bytes.now) }
    ensures fits { IfSome result (λ x. RootActInBits x.0 × NamesSlots x.0) }
    ensures found { IfSome result (λ x. codes "full " ++ bytes.now ≡ root_act_text x.0 ++ x.1.now) }
{
    let Some((class, rest)) = class_or(bytes) else {
        return None;
    };
    let (pool, rest) = field(b" ", NUMBERS, rest)?;
    Some((RootAct::Full { class, pool }, rest))
}

// What follows `give`.
#[tactic(auto, unfolding(crate::specs::Roots::give_in))]
fn give(bytes: &[u8]) -> Option<(RootAct, &[u8])>
    ensures read { Yields {Y = RootAct × List ℕ} (λ x. (x.0, x.1.now)) result (give_in bytes.now) }
    ensures fits { IfSome result (λ x. RootActInBits x.0 × NamesSlots x.0) }
    ensures found { IfSome result (λ x. codes "give" ++ bytes.now ≡ root_act_text x.0 ++ x.1.now) }
{
    let (slots, rest) = batch(bytes)?;
    Some((RootAct::Give { slots }, rest))
}

// What follows `unmap`.
#[tactic(auto, unfolding(crate::specs::Roots::unmap_in))]
fn unmap(bytes: &[u8]) -> Option<(RootAct, &[u8])>
    ensures read { Yields {Y = RootAct × List ℕ} (λ x. (x.0, x.1.now)) result (unmap_in bytes.now) }
    ensures fits { IfSome result (λ x. RootActInBits x.0 × NamesSlots x.0) }
    ensures found { IfSome result (λ x. codes "unmap " ++ bytes.now ≡ root_act_text x.0 ++ x.1.now) }
{
    let (pool, rest) = small(NUMBERS, bytes)?;
    let rest = behind(b" ", rest)?;
    let (slot, rest) = numbered(rest)?;
    Some((RootAct::Unmap { pool, slot }, rest))
}

// What a root did.
#[tactic(auto, unfolding(crate::specs::Roots::root_act_in))]
fn root_act(bytes: &[u8]) -> Option<(RootAct, &[u8])>
    ensures read { Yields {Y = RootAct × List ℕ} (λ x. (x.0, x.1.now)) result (root_act_in bytes.now) }
    ensures fits { IfSome result (λ x. RootActInBits x.0 × NamesSlots x.0) }
    ensures found { IfSome result (λ x. bytes.now ≡ root_act_text x.0 ++ x.1.now) }
{
    if let Some(rest) = behind(b"fill ", bytes) {
        return fill(rest);
    }
    if let Some(rest) = behind(b"map ", bytes) {
        return map(rest);
    }
    if let Some(rest) = behind(b"full ", bytes) {
        return full(rest);
    }
    if let Some(rest) = behind(b"give", bytes) {
        return give(rest);
    }
    if let Some(rest) = behind(b"unmap ", bytes) {
        return unmap(rest);
    }
    let rest = behind(b"purge", bytes)?;
    Some((RootAct::Purge, rest))
}

// The entry of a journal whose `r ` was read, with its LF.
#[tactic(auto, unfolding(crate::specs::Roots::root_in))]
pub fn root(bytes: &[u8]) -> Option<(Item, &[u8])>
    ensures read { Yields {Y = Item × List ℕ} (λ x. (x.0, x.1.now)) result (root_in bytes.now) }
    ensures fits { IfSome result (λ x. ItemInBits x.0) }
    ensures found { IfSome result (λ x. codes "r " ++ bytes.now ≡ item_text x.0 ++ x.1.now) }
{
    let (partition, rest) = small(MOST_PARTITIONS as u64, bytes)?;
    let (index, rest) = field(b" ", NUMBERS, rest)?;
    let (line, rest) = field(b" ", NUMBERS, rest)?;
    let rest = behind(b" ", rest)?;
    let (act, rest) = root_act(rest)?;
    let rest = behind(b"\n", rest)?;
    let entry = RootEntry { line, act };
    let item = Item::Root {
        partition,
        index,
        entry,
    };
    Some((item, rest))
}
