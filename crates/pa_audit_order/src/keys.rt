ghost use Rattle.std.specs.Prelude.{◌≡◌, ◌+◌, ℕ, IfSome, IfNone, OnErr, OnOk};
ghost use Rattle.std.specs.Ordering.{nat_cmp};
ghost use Rattle.std.specs.BTreeMap.{get};
ghost use Rattle.pa_audit_records.specs.Keys.{word_key};
ghost use Rattle.pa_audit_records.specs.Marks.{IsSized};
ghost use Rattle.pa_audit_records.specs.ByKeys.{value_at};
ghost use Rattle.pa_audit_order.specs.Keyed.{HasNoKey, IsGreatest, IsLeast};
ghost use Rattle.pa_audit_order.specs.Looks.{Raises};

use pa_audit_records::ByKey;
use pa_slot::{OutOfMemory, SlotName};
use std::collections::BTreeMap;

/// The key of a slot at a number, its step number: slots by `born` and `start`, and those of one slot by their numbers.
pub fn key(slot: SlotName, number: u64) -> u128
    ensures key { result ≡ word_key slot number }
    ensures sized { IsSized slot number }
{
    (slot.born as u128 * 4_294_967_296 + slot.start as u128) * 18_446_744_073_709_551_616
        + number as u128
}

/// The greatest key from `low` on and below `high`, and its value. `None` exactly if the map has no such key.
pub fn greatest(map: &BTreeMap<u128, u32>, low: u128, high: u128) -> Option<(u128, u32)>
    ensures some { IfSome result (λ e. IsGreatest (get nat_cmp map.now) low high e.0 e.1) }
    ensures none { IfNone result (HasNoKey (get nat_cmp map.now) low high) }
{
    let mut below = map.range(..high);
    let (key, value) = below.next_back()?;
    if *key < low {
        return None;
    }
    Some((*key, *value))
}

// The value at the least key from `low` to `last`.
pub(crate) fn least(map: &BTreeMap<u128, u32>, low: u128, last: u128) -> Option<(u128, u32)>
    ensures some { IfSome result (λ e. IsLeast (get nat_cmp map.now) low (last + 1) e.0 e.1) }
    ensures none { IfNone result (HasNoKey (get nat_cmp map.now) low (last + 1)) }
{
    let mut from = map.range(low..);
    let (key, value) = from.next()?;
    if *key > last {
        return None;
    }
    Some((*key, *value))
}

// Raises the value at a key to this value.
pub(crate) fn raise(map: &mut ByKey<u64>, key: u128, value: u64) -> Result<(), OutOfMemory>
    ensures raises { OnOk result (Raises (value_at map.old) (value_at map.new) key value) }
    ensures same { OnErr result ((q : ℕ) → value_at map.new q ≡ value_at map.old q) }
{
    if let Some(old) = map.find(key) {
        if old >= value {
            return Ok(());
        }
    }
    map.put(key, value)?;
    Ok(())
}
