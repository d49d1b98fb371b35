//! A queue within a limit in bytes.
ghost use Rattle.std.specs.Prelude.{◌≡◌, ◌<◌};
ghost use Rattle.pa_trace.specs.Limits.{most_partitions};
ghost use Rattle.pa_delay.specs.Queue.{IsClassed};

use pa_buckets::{Class, slot_size};
use pa_cells::Handle;
use pa_delay::Delay;
use pa_record::Tally;
use pa_slot::Title;
use std::test::Fail;

// The handle of a slot of this class and this partition at this byte.
fn waiting(start: u32, partition: u32, class: Class) -> Handle
    requires { partition < most_partitions }
    ensures class { IsClassed result }
    ensures partition { result.partition ≡ partition }
{
    let len = slot_size(class);
    Handle {
        title: Title {
            start,
            len,
            born: 0,
        },
        partition,
        class: Some(class),
    }
}

fn start_of(front: Option<Handle>) -> Option<u32> {
    match front {
        Some(
            Handle {
                title,
                class: Some(_),
                ..
            },
        ) => Some(title.start),
        _ => None,
    }
}

// At the bound all stay. One slot more, and slots leave from the front until at most the bound is left. A slot that is larger than the
// bound empties the queue, itself included.
#[test]
fn slots_leave_past_the_bound(rt: HostRuntime) -> Result<(), Fail> {
    let small = Class::of(0).unwrap();
    let large = Class::of(1).unwrap();
    let mut queue = Delay::new(rt.alloc(), 32, 4)?;
    assert!(rt; queue.evict() == None);
    queue.push(waiting(0x4000, 0, small));
    queue.push(waiting(0x4010, 1, small));
    assert_eq!(rt; queue.bytes(), 32);
    assert!(rt; queue.evict() == None);
    queue.push(waiting(0x8000, 1, large));
    assert_eq!(rt; queue.bytes(), 64);
    assert_eq!(rt;
        queue.queued(0),
        Tally {
            slots: 1,
            bytes: 16
        }
    );
    assert_eq!(rt;
        queue.queued(1),
        Tally {
            slots: 2,
            bytes: 48
        }
    );
    assert_eq!(rt; start_of(queue.evict()), Some(0x4000));
    assert_eq!(rt; start_of(queue.evict()), Some(0x4010));
    assert!(rt; queue.evict() == None);
    assert_eq!(rt; queue.bytes(), 32);
    assert_eq!(rt; queue.queued(0), Tally { slots: 0, bytes: 0 });
    assert_eq!(rt;
        queue.queued(1),
        Tally {
            slots: 1,
            bytes: 32
        }
    );
    assert_eq!(rt; start_of(queue.drain()), Some(0x8000));
    assert!(rt; queue.drain() == None);
    Ok(())
}

// With no bytes each slot leaves at once.
#[test]
fn nothing_waits_within_no_bytes(rt: HostRuntime) -> Result<(), Fail> {
    let mut queue = Delay::new(rt.alloc(), 0, 1)?;
    assert!(rt; !queue.is_full());
    queue.push(waiting(0x4000, 3, Class::of(2).unwrap()));
    assert!(rt; queue.is_full());
    assert_eq!(rt; start_of(queue.evict()), Some(0x4000));
    assert!(rt; queue.evict() == None);
    assert_eq!(rt; queue.bytes(), 0);
    Ok(())
}
