ghost use Rattle.std.specs.Prelude.{◌≡◌, ◌↔◌, ◌<◌, ◌≤◌, [], ◌∷◌, ◌++◌, ◌*◌, length, IfNone, IfOk, IfSome, IsNone, IsTrue, option_to_list};
ghost use Rattle.pa_delay.specs.Queue.{GoesPast, AreBytes, GoesFirst, IsClassed, queued_bytes, queued_slots, size_of_class, waiting_bytes, with_waiting};
ghost use Rattle.pa_trace.specs.Limits.{most_partitions};

use pa_buckets::{Class, rows_have_bounds, slot_size};
use pa_cells::Handle;
use pa_record::Tally;
use pa_rules::no_sums;
use pa_slot::OutOfMemory;
use pa_trace::MOST_PARTITIONS;
use std::alloc::Global;
use std::collections::VecDeque;
use std::marker::Model;

/// A thread's queue of slots that were returned and that its lists haven't seen yet. Contracts see it as the most bytes that
/// stay in it, the number of slots that it has room for, and the handles of its slots, front first. The queue is the project's
/// own: a quarantine of PartitionAlloc's may skip what is too large for it, and may choose at random.
#[derive(Drop)]
pub struct Delay {
    limit: u32,
    room: u32,
    bytes: u64,
    tallies: [Tally; MOST_PARTITIONS as usize],
    slots: VecDeque<Handle>,
}

impl Model for Delay {
    ghost use Rattle.std.specs.Prelude.{◌≡◌, ◌≤◌, length};
    ghost use Rattle.std.specs.VecDeque.{deque_capacity};
    ghost use Rattle.pa_delay.specs.Queue.{QueueList, AreClassed, AreTallied, waiting_bytes};

    ghost Value = { QueueList };

    ghost view = { λ d. record { limit = d.limit; room = d.room; slots = d.slots.items } };

    ghost invariant = { λ d.
        (d.bytes ≡ waiting_bytes d.slots.items) × (length d.slots.items ≤ d.room) × (d.room ≤ deque_capacity d.slots)
        × AreClassed d.slots.items × AreTallied d.slots.items d.tallies };
}

impl Delay {
    /// An empty queue in which at most `limit` bytes of slots stay, with room for `room` slots.
    /// All the memory that it ever needs is allocated here.
    pub fn new(alloc: Global, limit: u32, room: u32) -> Result<Delay, OutOfMemory>
        ensures { IfOk result (λ d. d ≡ record { limit = limit; room = room; slots = [] }) }
    {
        let slots = VecDeque::with_capacity(alloc, room as usize)?;
        Ok(Delay {
            limit,
            room,
            bytes: 0,
            tallies: no_sums(),
            slots,
        })
    }

    /// How many bytes its slots have together, count words included.
    pub fn bytes(&self) -> u64
        ensures { result ≡ waiting_bytes self.now.slots }
    {
        self.bytes
    }

    /// How many of its slots are a partition's, and how many bytes these have. It is counted slot by slot as they come and go.
    pub fn queued(&self, partition: u32) -> Tally
        requires partition { partition < most_partitions }
        ensures slots { result.slots ≡ queued_slots partition self.now.slots }
        ensures bytes { result.bytes ≡ queued_bytes partition self.now.slots }
        ensures small { result.bytes ≤ 983040 * result.slots }
    {
        self.tallies[partition as usize]
    }

    /// How many slots it has.
    pub fn len(&self) -> u32
        ensures count { result ≡ length self.now.slots }
        ensures room { result ≤ self.now.room }
    {
        // Reading the room gives the proof its range.
        let _room = self.room;
        self.slots.len() as u32
    }

    /// Whether it has as many slots as it has room for.
    pub fn is_full(&self) -> bool
        ensures { IsTrue result ↔ (self.now.room ≤ length self.now.slots) }
    {
        self.slots.len() >= self.room as usize
    }

    /// Puts a slot of a class at the back. There must be room for one: `is_full` says whether there is.
    pub fn push(&mut self, handle: Handle)
        requires room { length self.old.slots < self.old.room }
        requires class { IsClassed handle }
        requires partition { handle.partition < most_partitions }
        ensures back { self.new ≡ with_waiting self.old (self.old.slots ++ handle ∷ []) }
    {
        rows_have_bounds();
        let one = Tally {
            slots: 1,
            bytes: size_of(handle.class),
        };
        let at = handle.partition as usize;
        let sum = self.tallies[at].and(one);
        self.tallies[at] = sum;
        self.bytes += one.bytes;
        self.slots.push_back_reserved(handle);
    }

    /// Takes out the front if the slots have more bytes than the limit; `None` if and only if they haven't, and then nothing
    /// goes. Called until it returns `None`, it takes the front of the queue, as little as leaves at most the limit.
    pub fn evict(&mut self) -> Option<Handle>
        ensures none { IsNone result ↔ (waiting_bytes self.old.slots ≤ self.old.limit) }
        ensures front { self.old.slots ≡ option_to_list result ++ self.new.slots }
        ensures rest { self.new ≡ with_waiting self.old self.new.slots }
        ensures stays { IfNone result (GoesPast AreBytes self.old.limit self.old.slots [] self.new.slots) }
        ensures goes { IfSome result (GoesFirst self.old self.new.slots) }
    {
        if self.bytes <= self.limit as u64 {
            None
        } else {
            self.drain()
        }
    }

    /// Takes out the front, whatever the limit. `None` if and only if the queue is empty.
    pub fn drain(&mut self) -> Option<Handle>
        ensures none { IsNone result ↔ (self.old.slots ≡ []) }
        ensures front { self.old.slots ≡ option_to_list result ++ self.new.slots }
        ensures rest { self.new ≡ with_waiting self.old self.new.slots }
    {
        let front = self.slots.pop_front()?;
        let size = size_of(front.class);
        let at = front.partition as usize;
        let tally = self.tallies[at];
        self.tallies[at] = Tally {
            slots: tally.slots - 1,
            bytes: tally.bytes - size,
        };
        self.bytes -= size;
        Some(front)
    }
}

// How many bytes a slot of this class has; 0 without one.
fn size_of(class: Option<Class>) -> u64
    ensures { result ≡ size_of_class class }
{
    match class {
        Some(class) => slot_size(class) as u64,
        None => 0,
    }
}
