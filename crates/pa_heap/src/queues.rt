//! Slots that leave a worker's queue for its lists.
ghost use Rattle.std.specs.Prelude.{◌≡◌, ℕ, ◌<◌, ◌≤◌, [], List, Some, length, true, false, IfOk, OnOk, OnErr};
ghost use Rattle.pa_cells.specs.declared.handle.Handle.{Handle};
ghost use Rattle.pa_delay.specs.Queue.{GoesPast, AreBytes, with_waiting};
ghost use Rattle.pa_rules.specs.Sizes.{HasClass};
ghost use Rattle.pa_op_specs.specs.Workers.{HasItsStake};
ghost use Rattle.pa_thread_state.specs.Stopping.{KeepsItsStake};
ghost use Rattle.pa_heap.specs.Waiting.{HoldsQueue};
ghost use Rattle.pa_heap.specs.Leaving.{AllWentBack, CanComeBehind, IsDelayed};

use pa_buckets::Class;
use pa_cells::{Handle, slots_stay_seen};
use pa_delay::Delay;
use pa_region::Name;
use pa_rules::has_class;
use pa_slot::OutOfMemory;
use pa_thread_state::{Heap, Stock};
use std::sync::Wait;

// A slot that a step returned comes to the back of the queue, and slots leave at its front while it has too many bytes. A direct map goes
// back to its root at once. It runs out of memory only if a slot needs the root.
pub(crate) fn wait_behind<N: Name, R: Wait>(
    stock: &mut Stock<N>,
    rt: &R,
    heap: &Heap<N>,
    queue: &mut Delay,
    line: u32,
    handle: Handle,
) -> Result<(), OutOfMemory>
    requires stake { HasItsStake stock.old }
    requires can { CanComeBehind handle queue.old stock.old }
    requires holds { HoldsQueue queue.old.slots stock.old }
    ensures delayed { OnOk result (IsDelayed line handle queue.old queue.new stock.old stock.new) }
    ensures rest { queue.new ≡ with_waiting queue.old queue.new.slots }
    ensures holds { OnOk result (HoldsQueue queue.new.slots stock.new) }
    ensures budget { OnOk result (stock.new.view.budget ≡ stock.old.view.budget) }
    ensures stake { OnErr result (KeepsItsStake stock.old stock.new) }
{
    slots_stay_seen();
    stock.kept();
    stock.lies(handle.title);
    if is_listed(stock, handle.class) {
        queue.push(handle);
        evict_all(stock, rt, heap, queue, line)
    } else {
        stock.bring_back(rt, heap, line, &handle)?;
        stock.kept();
        Ok(())
    }
}

// Whether slots of this class can be on lists: the run's version has it.
fn is_listed<N: Name>(stock: &Stock<N>, class: Option<Class>) -> bool
    ensures some { result ≡ true → (k : ℕ) × (class ≡ Some k) × HasClass stock.now.caches.version k }
    ensures none { result ≡ false → (k : ℕ) → class ≡ Some k → HasClass stock.now.caches.version k → ⊥ }
{
    match class {
        Some(class) => has_class(stock.version(), class),
        None => false,
    }
}

// While the queue has too many bytes, its front leaves it for its list.
fn evict_all<N: Name, R: Wait>(
    stock: &mut Stock<N>,
    rt: &R,
    heap: &Heap<N>,
    queue: &mut Delay,
    line: u32,
) -> Result<(), OutOfMemory>
    requires stake { HasItsStake stock.old }
    requires holds { HoldsQueue queue.old.slots stock.old }
    ensures leaves { OnOk result ((gone : List Handle) × GoesPast AreBytes queue.old.limit queue.old.slots gone queue.new.slots
        × AllWentBack line gone stock.old stock.new) }
    ensures rest { queue.new ≡ with_waiting queue.old queue.new.slots }
    ensures holds { OnOk result (HoldsQueue queue.new.slots stock.new) }
    ensures budget { OnOk result (stock.new.view.budget ≡ stock.old.view.budget) }
    ensures stake { OnErr result (KeepsItsStake stock.old stock.new) }
{
    slots_stay_seen();
    while let Some(front) = queue.evict() {
        stock.kept();
        stock.bring_back(rt, heap, line, &front)?;
        stock.kept();
    }
    Ok(())
}

// All slots of the queue leave it for their lists, in order. It runs out of memory only if a slot needs the root.
pub(crate) fn drain_all<N: Name, R: Wait>(
    stock: &mut Stock<N>,
    rt: &R,
    heap: &Heap<N>,
    queue: &mut Delay,
    line: u32,
) -> Result<(), OutOfMemory>
    requires stake { HasItsStake stock.old }
    requires holds { HoldsQueue queue.old.slots stock.old }
    ensures leaves { OnOk result (AllWentBack line queue.old.slots stock.old stock.new) }
    ensures none { OnOk result (queue.new.slots ≡ []) }
    ensures rest { queue.new ≡ with_waiting queue.old queue.new.slots }
    ensures budget { OnOk result (stock.new.view.budget ≡ stock.old.view.budget) }
    ensures keeps { OnOk result (KeepsItsStake stock.old stock.new) }
    ensures stake { OnErr result (KeepsItsStake stock.old stock.new) }
{
    slots_stay_seen();
    while let Some(front) = queue.drain() {
        stock.kept();
        stock.bring_back(rt, heap, line, &front)?;
        stock.kept();
    }
    Ok(())
}
