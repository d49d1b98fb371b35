ghost use Rattle.std.specs.Prelude.{◌≡◌, ℕ, ◌+◌, ◌<◌, ◌≤◌, ◌↔◌, ◌⊎◌, max, IfNone, IfSome, IsTrue};
ghost use Rattle.pa_dense.specs.Act.{act_of};
ghost use Rattle.pa_buckets.specs.Classes.{IsClassIn};
ghost use Rattle.pa_direct.specs.Shapes.{greatest_in_class, shape_of};
ghost use Rattle.pa_record.specs.Pool.{FoundNone};
ghost use Rattle.pa_rules.specs.Roots.{AsksForClass, AsksForMap, IsFreeing, MakesEntry, MakesFull};

use crate::pool_acts::found_none;
use pa_audit_records::{class_for, is_map_size};
use pa_buckets::Class;
use pa_dense::Act;
use pa_direct::shape;
use pa_record::PoolEntry;
use pa_rules::Played;
use pa_trace::Op;

// Whether the record makes this entry of the partition's journal.
pub(crate) fn makes_entry(pools: &[PoolEntry], partition: u32, act: Act<'_>, told: Played) -> bool
    ensures { IsTrue result ↔ MakesEntry pools.now partition (act_of act.entry) told }
{
    match act {
        Act::Fill { class, .. } => asks_for_class(told, partition, class),
        Act::Map { len, .. } => makes_map(told, partition, len),
        Act::Full { class, pool } => match class {
            Some(class) => asks_for_class(told, partition, class),
            None => makes_full_map(pools, told, partition, pool),
        },
        Act::Give { .. } => is_freeing(told.op) || is_purge(told.op),
        Act::Unmap { .. } => is_freeing(told.op),
        Act::Purge => is_purge(told.op),
    }
}

// Whether the record asks the partition for a slot of the class.
fn asks_for_class(told: Played, partition: u32, class: Class) -> bool
    ensures { IsTrue result ↔ AsksForClass told partition class }
{
    match told.op {
        Op::Alloc {
            partition: asked,
            size,
            ..
        } => asked == partition && is_of_class(told.rules.version, size, class),
        _ => false,
    }
}

// Whether a request of that many bytes is of the class in the version.
fn is_of_class(version: u32, size: u32, class: Class) -> bool
    ensures { IsTrue result ↔ IsClassIn version (max size 1 + 8) class }
{
    match class_for(version, size) {
        Some(found) => found.number() == class.number(),
        None => false,
    }
}

// The bytes of the direct map for which the record asks the partition.
fn map_size(told: Played, partition: u32) -> Option<u32>
    ensures some { IfSome result (AsksForMap told partition) }
    ensures large { IfSome result (λ size. greatest_in_class < size) }
    ensures none { IfNone result ((size : ℕ) → AsksForMap told partition size → ⊥) }
{
    match told.op {
        Op::Alloc {
            partition: asked,
            size,
            ..
        } => {
            if asked == partition && is_map_size(told.rules.version, size) {
                Some(size)
            } else {
                None
            }
        }
        _ => None,
    }
}

// Whether the record asks the partition for a direct map whose slot has that many bytes.
fn makes_map(told: Played, partition: u32, len: u32) -> bool
    ensures { IsTrue result ↔ ((size : ℕ) × AsksForMap told partition size × (len ≡ (shape_of size).slot)) }
{
    match map_size(told, partition) {
        Some(size) => match shape(size) {
            Some(shape) => shape.slot == len,
            None => false,
        },
        None => false,
    }
}

// Whether the record asks the partition for a direct map for which the entry of the pool found no room.
fn makes_full_map(pools: &[PoolEntry], told: Played, partition: u32, asked: u32) -> bool
    ensures { IsTrue result ↔ MakesFull pools.now partition None asked told }
{
    match map_size(told, partition) {
        Some(size) => match shape(size) {
            Some(shape) => found_none(pools, asked, shape.supers),
            None => false,
        },
        None => false,
    }
}

// Whether the op may give a slot back.
fn is_freeing(op: Op) -> bool
    ensures { IsTrue result ↔ IsFreeing op }
{
    matches!(op, Op::Free { .. } | Op::Reset { .. })
}

fn is_purge(op: Op) -> bool
    ensures { IsTrue result ↔ (op ≡ Op.Purge) }
{
    matches!(op, Op::Purge)
}
