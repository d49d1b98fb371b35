//! A worker's allocation.
ghost use Rattle.std.specs.Prelude.{◌≡◌, ◌+◌, ◌<◌, ◌≤◌, [], max, length, IfOk, OnOk, OnErr, true};
ghost use Rattle.pa_buckets.specs.Classes.{IsClassIn};
ghost use Rattle.pa_direct.specs.Shapes.{greatest_size};
ghost use Rattle.pa_trace.specs.declared.script.Op.TheVariants as ops;
ghost use Rattle.pa_trace.specs.Limits.{register_count};
ghost use Rattle.pa_rules.specs.Sizes.{IsMapSize};
ghost use Rattle.pa_totals.specs.Settled.{none_owed};
ghost use Rattle.pa_op_specs.specs.Stocks.{HasNoHandle, register_in, titles_in};
ghost use Rattle.pa_op_specs.specs.Workers.{HasItsStake, CanPlayOp, KeepsOn};
ghost use Rattle.pa_op_specs.specs.Owing.{IsMadeIn};
ghost use Rattle.pa_op_specs.specs.Plays.{DoesOp, PlaysOp};
ghost use Rattle.pa_heap.specs.Stopping.{AsksRoot};

use crate::counts::owned;
use crate::worker::Worker;
use pa_buckets::{Class, class_in, raw_of};
use pa_cells::Handle;
use pa_direct::{GREATEST_SIZE, shape};
use pa_record::Answer;
use pa_region::{Name, counted_steps_leave, sealed_steps_leave};
use pa_root::FillFault;
use pa_slot::{OutOfMemory, Step};
use pa_thread_state::{Heap, Stock};
use std::sync::Wait;

impl<N: Name> Worker<N> {
    /// An allocation of this size in a partition, on this line: then the register owns the slot. It waits for the lock of the
    /// partition's root if it needs that, and only then it may run out of memory:
    /// the worker is stopped then, has no room for more records and owes nothing, and all else is as before.
    pub fn alloc<R: Wait>(
        &mut self,
        rt: &R,
        heap: &Heap<N>,
        line: u32,
        reg: u32,
        partition: u32,
        size: u32,
    ) -> Result<Answer, OutOfMemory>
        requires ready { CanPlayOp self.old }
        requires reg { reg < register_count }
        requires partition { partition < self.old.stock.partitions }
        ensures plays { IfOk result (λ answer. PlaysOp line (ops.Alloc reg partition size) answer self.old self.new) }
        ensures goes_on { OnOk result (KeepsOn self.old self.new) }
        ensures stops { OnErr result (self.new.stopped ≡ true) }
        ensures same { OnErr result (self.new ≡ record self.old { room = length self.old.records; stopped = true; owed = none_owed }) }
        ensures asks { OnErr result (AsksRoot reg partition size self.old.stock) }
    {
        let ended = alloc(&mut self.stock, rt, heap, line, reg, partition, size);
        self.stock.kept();
        let handle = owned(self.stock.register(reg));
        self.account
            .end_step(self.stock.thread(), line, Step::Issue, &handle, ended);
        ended
    }
}

// An allocation of this size in a partition, on this line: then the register owns the slot.
// If it runs out of memory, nothing changed.
fn alloc<N: Name, R: Wait>(
    stock: &mut Stock<N>,
    rt: &R,
    heap: &Heap<N>,
    line: u32,
    reg: u32,
    partition: u32,
    size: u32,
) -> Result<Answer, OutOfMemory>
    requires stake { HasItsStake stock.old }
    requires budget { 0 < stock.old.view.budget }
    requires reg { reg < register_count }
    requires partition { partition < stock.old.partitions }
    ensures does { IfOk result (λ answer. DoesOp line (ops.Alloc reg partition size) answer stock.old stock.new) }
    ensures made { IfOk result (IsMadeIn (register_in stock.new.registers reg)) }
    ensures budget { stock.old.view.budget ≤ stock.new.view.budget + 1 }
    ensures same { OnErr result (stock.new ≡ stock.old) }
    ensures asks { OnErr result (AsksRoot reg partition size stock.old) }
{
    stock.kept();
    let filled = stock.register(reg).has_handle();
    if filled {
        Ok(Answer::Filled)
    } else {
        request(stock, rt, heap, line, reg, partition, size)
    }
}

// An allocation for a register without a handle.
fn request<N: Name, R: Wait>(
    stock: &mut Stock<N>,
    rt: &R,
    heap: &Heap<N>,
    line: u32,
    reg: u32,
    partition: u32,
    size: u32,
) -> Result<Answer, OutOfMemory>
    requires stake { HasItsStake stock.old }
    requires budget { 0 < stock.old.view.budget }
    requires reg { reg < register_count }
    requires partition { partition < stock.old.partitions }
    requires none { HasNoHandle (register_in stock.old.registers reg) }
    ensures does { IfOk result (λ answer. DoesOp line (ops.Alloc reg partition size) answer stock.old stock.new) }
    ensures made { IfOk result (IsMadeIn (register_in stock.new.registers reg)) }
    ensures budget { stock.old.view.budget ≤ stock.new.view.budget + 1 }
    ensures same { OnErr result (stock.new ≡ stock.old) }
    ensures asks { OnErr result (AsksRoot reg partition size stock.old) }
{
    stock.kept();
    if size > GREATEST_SIZE {
        return Ok(Answer::TooLarge);
    }
    match class_in(stock.version(), raw_of(size)) {
        Some(class) => alloc_slot(stock, rt, heap, line, reg, partition, size, class),
        None => alloc_map(stock, rt, heap, line, reg, partition, size),
    }
}

// An allocation of a slot of a class: the front of its list, or the first slot of a fill.
fn alloc_slot<N: Name, R: Wait>(
    stock: &mut Stock<N>,
    rt: &R,
    heap: &Heap<N>,
    line: u32,
    reg: u32,
    partition: u32,
    size: u32,
    class: Class,
) -> Result<Answer, OutOfMemory>
    requires stake { HasItsStake stock.old }
    requires budget { 0 < stock.old.view.budget }
    requires reg { reg < register_count }
    requires partition { partition < stock.old.partitions }
    requires none { HasNoHandle (register_in stock.old.registers reg) }
    requires class { (size ≤ greatest_size) × IsClassIn stock.old.caches.version (max size 1 + 8) class }
    ensures does { IfOk result (λ answer. DoesOp line (ops.Alloc reg partition size) answer stock.old stock.new) }
    ensures made { IfOk result (IsMadeIn (register_in stock.new.registers reg)) }
    ensures budget { stock.old.view.budget ≤ stock.new.view.budget + 1 }
    ensures same { OnErr result (stock.new ≡ stock.old) }
    ensures asks { OnErr result (AsksRoot reg partition size stock.old) }
{
    let _ = size;
    counted_steps_leave();
    sealed_steps_leave();
    stock.kept();
    match stock.pop(heap.region(), partition, class) {
        Some(title) => {
            stock.kept();
            let class = Some(class);
            let handle = Handle {
                title,
                partition,
                class,
            };
            Ok(stock.issue(heap.region(), handle, reg))
        }
        None => alloc_filled(stock, rt, heap, line, reg, partition, size, class),
    }
}

// An allocation of a slot of a class from an empty list, which is filled first.
fn alloc_filled<N: Name, R: Wait>(
    stock: &mut Stock<N>,
    rt: &R,
    heap: &Heap<N>,
    line: u32,
    reg: u32,
    partition: u32,
    size: u32,
    class: Class,
) -> Result<Answer, OutOfMemory>
    requires stake { HasItsStake stock.old }
    requires budget { 0 < stock.old.view.budget }
    requires reg { reg < register_count }
    requires partition { partition < stock.old.partitions }
    requires none { HasNoHandle (register_in stock.old.registers reg) }
    requires class { (size ≤ greatest_size) × IsClassIn stock.old.caches.version (max size 1 + 8) class }
    requires empty { titles_in stock.old.caches partition class ≡ [] }
    ensures does { IfOk result (λ answer. DoesOp line (ops.Alloc reg partition size) answer stock.old stock.new) }
    ensures made { IfOk result (IsMadeIn (register_in stock.new.registers reg)) }
    ensures budget { stock.old.view.budget ≤ stock.new.view.budget + 1 }
    ensures same { OnErr result (stock.new ≡ stock.old) }
    ensures asks { OnErr result (AsksRoot reg partition size stock.old) }
{
    let _ = size;
    counted_steps_leave();
    sealed_steps_leave();
    stock.kept();
    match stock.fill_list(rt, heap, line, partition, class) {
        Ok(title) => {
            stock.kept();
            stock.lies(title);
            let class = Some(class);
            let handle = Handle {
                title,
                partition,
                class,
            };
            Ok(stock.issue(heap.region(), handle, reg))
        }
        Err(FillFault::Full(entry)) => {
            stock.kept();
            Ok(Answer::Full { entry })
        }
        Err(FillFault::OutOfMemory) => Err(OutOfMemory),
    }
}

// An allocation of a direct map.
fn alloc_map<N: Name, R: Wait>(
    stock: &mut Stock<N>,
    rt: &R,
    heap: &Heap<N>,
    line: u32,
    reg: u32,
    partition: u32,
    size: u32,
) -> Result<Answer, OutOfMemory>
    requires stake { HasItsStake stock.old }
    requires budget { 0 < stock.old.view.budget }
    requires reg { reg < register_count }
    requires partition { partition < stock.old.partitions }
    requires none { HasNoHandle (register_in stock.old.registers reg) }
    requires direct { IsMapSize stock.old.caches.version size }
    ensures does { IfOk result (λ answer. DoesOp line (ops.Alloc reg partition size) answer stock.old stock.new) }
    ensures made { IfOk result (IsMadeIn (register_in stock.new.registers reg)) }
    ensures budget { stock.old.view.budget ≤ stock.new.view.budget + 1 }
    ensures same { OnErr result (stock.new ≡ stock.old) }
    ensures asks { OnErr result (AsksRoot reg partition size stock.old) }
{
    counted_steps_leave();
    sealed_steps_leave();
    stock.kept();
    let Some(shape) = shape(size) else {
        return Ok(Answer::TooLarge);
    };
    match stock.map_title(rt, heap, line, partition, shape) {
        Ok(title) => {
            stock.kept();
            let handle = Handle {
                title,
                partition,
                class: None,
            };
            Ok(stock.issue(heap.region(), handle, reg))
        }
        Err(FillFault::Full(entry)) => {
            stock.kept();
            Ok(Answer::Full { entry })
        }
        Err(FillFault::OutOfMemory) => Err(OutOfMemory),
    }
}
