ghost use Rattle.std.specs.Prelude.{◌≡◌, ℕ, ◌↔◌, IfNone, IfSome, IsTrue};
ghost use Rattle.pa_record.specs.Pool.{FoundNone, FoundRun, GaveRun, act_at};

use pa_record::{PoolAct, PoolEntry};

// What the entry of the pool did, if it exists.
fn act_at(pools: &[PoolEntry], at: u32) -> Option<PoolAct>
    ensures { result ≡ act_at pools.now at }
{
    match pools.get(at as usize) {
        Some(entry) => Some(entry.act),
        None => None,
    }
}

// The first of the super pages that the entry found, if it is a take of that many that found some.
pub(crate) fn found_run(pools: &[PoolEntry], at: u32, count: u32) -> Option<u32>
    ensures some { IfSome result (FoundRun pools.now at count) }
    ensures none { IfNone result ((first : ℕ) → FoundRun pools.now at count first → ⊥) }
{
    match act_at(pools, at) {
        Some(
            PoolAct::Take {
                count: taken,
                first,
            },
        ) => { if taken == count { first } else { None } }
        _ => None,
    }
}

// Whether the entry is a take of that many super pages that found none.
pub(crate) fn found_none(pools: &[PoolEntry], at: u32, count: u32) -> bool
    ensures { IsTrue result ↔ FoundNone pools.now at count }
{
    act_at(pools, at) == Some(PoolAct::Take { count, first: None })
}

// Whether the entry is a take that found none.
pub(crate) fn found_nothing(pools: &[PoolEntry], at: u32) -> bool
    ensures { IsTrue result ↔ ((count : ℕ) × FoundNone pools.now at count) }
{
    match act_at(pools, at) {
        Some(PoolAct::Take { first, .. }) => first.is_none(),
        _ => false,
    }
}

// Whether the entry gave back that many super pages from `first` on.
pub(crate) fn gave_run(pools: &[PoolEntry], at: u32, count: u32, first: u32) -> bool
    ensures { IsTrue result ↔ GaveRun pools.now at count first }
{
    act_at(pools, at) == Some(PoolAct::Give { count, first })
}
