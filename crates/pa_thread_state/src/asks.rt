ghost use Rattle.std.specs.Prelude.{◌≡◌, ◌<◌, None, Some, IfOk, IfErr};
ghost use Rattle.pa_buckets.specs.Bands.{fill_of};
ghost use Rattle.pa_direct.specs.Shapes.{IsShape};
ghost use Rattle.pa_trace.specs.Limits.{most_partitions};
ghost use Rattle.pa_region.specs.Views.{least_stake};
ghost use Rattle.pa_region.specs.Lending.{CanLend};
ghost use Rattle.pa_root.specs.Handing.{FillGives, MapGives};
ghost use Rattle.pa_thread_state.specs.Allocating.{GivesNone};

use crate::heap::Heap;
use crate::roots::with_root;
use arrayvec::ArrayVec;
use pa_buckets::Class;
use pa_direct::Shape;
use pa_region::{Name, Note, Seat};
use pa_root::{FillFault, Root};
use pa_slot::Title;
use std::sync::{Mutex, Wait};

// Asks the root of a partition for a fill of the class.
pub(crate) fn fill_from<N: Name, R: Wait>(
    rt: &R,
    heap: &Heap<N>,
    seat: &mut Seat,
    line: u32,
    partition: u32,
    class: Class,
) -> Result<(Note, ArrayVec<Title, 16>), FillFault>
    requires region { seat.old.region ≡ N.region }
    requires lender { CanLend seat.old.view }
    requires partition { partition < most_partitions }
    ensures region { seat.new.region ≡ N.region }
    ensures note { IfOk result (λ a. a.0.region ≡ N.region) }
    ensures gave { IfOk result (λ a. FillGives (least_stake seat.old.view.stakes) partition line class (fill_of class)
        seat.old.view seat.new.view a.0.view a.1.items) }
    ensures none { IfErr result (GivesNone (least_stake seat.old.view.stakes) line partition 1 (Some class) seat.old seat.new) }
{
    with_root!(heap, partition, root => fill_at(rt, heap, seat, root, line, class))
}

// The fill, under the root's lock.
fn fill_at<N: Name, R: Wait, const P: u32>(
    rt: &R,
    heap: &Heap<N>,
    seat: &mut Seat,
    root: &Mutex<Root<N, P>>,
    line: u32,
    class: Class,
) -> Result<(Note, ArrayVec<Title, 16>), FillFault>
    requires region { seat.old.region ≡ N.region }
    requires lender { CanLend seat.old.view }
    ensures region { seat.new.region ≡ N.region }
    ensures note { IfOk result (λ a. a.0.region ≡ N.region) }
    ensures gave { IfOk result (λ a. FillGives (least_stake seat.old.view.stakes) P line class (fill_of class)
        seat.old.view seat.new.view a.0.view a.1.items) }
    ensures none { IfErr result (GivesNone (least_stake seat.old.view.stakes) line P 1 (Some class) seat.old seat.new) }
{
    let mut locked = root.lock(rt);
    let root = &mut *locked;
    match root.fill(rt, heap.region(), seat, &heap.pool, line, class) {
        Ok((note, titles)) => Ok((note, titles)),
        Err(fault) => Err(fault),
    }
}

// Asks the root of a partition for a direct map of this shape.
pub(crate) fn map_from<N: Name, R: Wait>(
    rt: &R,
    heap: &Heap<N>,
    seat: &mut Seat,
    line: u32,
    partition: u32,
    shape: Shape,
) -> Result<(Note, Title), FillFault>
    requires region { seat.old.region ≡ N.region }
    requires lender { CanLend seat.old.view }
    requires partition { partition < most_partitions }
    requires shape { IsShape shape }
    ensures region { seat.new.region ≡ N.region }
    ensures note { IfOk result (λ a. a.0.region ≡ N.region) }
    ensures gave { IfOk result (λ a. MapGives (least_stake seat.old.view.stakes) partition line shape.slot
        seat.old.view seat.new.view a.0.view a.1) }
    ensures none { IfErr result (GivesNone (least_stake seat.old.view.stakes) line partition shape.supers None seat.old seat.new) }
{
    with_root!(heap, partition, root => map_at(rt, heap, seat, root, line, shape))
}

// The direct map, under the root's lock.
fn map_at<N: Name, R: Wait, const P: u32>(
    rt: &R,
    heap: &Heap<N>,
    seat: &mut Seat,
    root: &Mutex<Root<N, P>>,
    line: u32,
    shape: Shape,
) -> Result<(Note, Title), FillFault>
    requires region { seat.old.region ≡ N.region }
    requires lender { CanLend seat.old.view }
    requires shape { IsShape shape }
    ensures region { seat.new.region ≡ N.region }
    ensures note { IfOk result (λ a. a.0.region ≡ N.region) }
    ensures gave { IfOk result (λ a. MapGives (least_stake seat.old.view.stakes) P line shape.slot
        seat.old.view seat.new.view a.0.view a.1) }
    ensures none { IfErr result (GivesNone (least_stake seat.old.view.stakes) line P shape.supers None seat.old seat.new) }
{
    let mut locked = root.lock(rt);
    let root = &mut *locked;
    match root.map(rt, heap.region(), seat, &heap.pool, line, shape) {
        Ok((note, title)) => Ok((note, title)),
        Err(fault) => Err(fault),
    }
}
