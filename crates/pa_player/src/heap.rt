ghost use Rattle.std.specs.Prelude.{◌≡◌, ◌≤◌, IfOk};
ghost use Rattle.pa_record.specs.Pool.{new_pool};
ghost use Rattle.pa_player.specs.Begun.{AreNew};

use crate::roots::Roots;
use pa_place::PoolPlan;
use pa_slot::OutOfMemory;
use std::alloc::Global;

// The pool, and the root of each partition.
#[derive(Drop)]
pub(crate) struct Heap {
    pub(crate) pool: PoolPlan,
    pub(crate) roots: Roots,
}

impl Heap {
    // That many super pages, none of which is taken, and empty roots.
    pub(crate) fn new(alloc: Global, region: u32, partitions: u32) -> Result<Heap, OutOfMemory>
        requires { region ≤ 64 }
        ensures pool { IfOk result (λ h. h.pool ≡ new_pool region) }
        ensures roots { IfOk result (λ h. AreNew partitions h.roots) }
    {
        Ok(Heap {
            pool: PoolPlan::new(alloc, region)?,
            roots: Roots::new(alloc, partitions)?,
        })
    }
}
