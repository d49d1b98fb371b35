ghost use Rattle.std.specs.Prelude.{◌≡◌, ◌<◌, ◌≤◌, [], Some, IfOk, OnOk, OnErr, length};
ghost use Rattle.pa_trace.specs.Limits.{IsHeadWithin, register_count, most_partitions, most_threads};
ghost use Rattle.pa_trace.specs.declared.script.Line.TheVariants.{Do, Phase};
ghost use Rattle.pa_rules.specs.Sizes.{HasClass};
ghost use Rattle.pa_player.specs.Asks.{CanEnd};
ghost use Rattle.pa_player.specs.Begun.{IsBegun, IsUntold};
ghost use Rattle.pa_player.specs.Changes.{phase_begun, phase_ended, registered};
ghost use Rattle.pa_player.specs.Tables.{IsIn, title_owned};
ghost use Rattle.pa_player.specs.Playing.{register_at, list_place};
ghost use Rattle.pa_player.specs.Plays.{GoesTo, IsReady, Plays, ReadsOwn, ReadsOwnOn};
ghost use Rattle.pa_player.specs.Told.{told_before};

use crate::caches::Caches;
use crate::heap::Heap;
use crate::output::Output;
use crate::registers::Registers;
use crate::table::Table;
use crate::tallies::Tallies;
use crate::told::Told;
use pa_buckets::Class;
use pa_record::Answer;
use pa_rules::{Register, cache_place, class_total};
use pa_slot::{OutOfMemory, Title};
use pa_trace::{CELLS, Head, Line, Op};
use std::alloc::Global;

/// What the lines of a trace so far left, and the output to which they are sent.
#[derive(Drop)]
pub struct Player<T> {
    pub(crate) heap: Heap,
    pub(crate) table: Table,
    pub(crate) registers: Registers,
    pub(crate) cells: [Register<u32>; CELLS as usize],
    pub(crate) caches: Caches,
    pub(crate) live: Tallies,
    pub(crate) quarantined: Tallies,
    pub(crate) cached: Tallies,
    pub(crate) told: T,
    pub(crate) version: u32,
    pub(crate) partitions: u32,
    pub(crate) plain_from: u32,
    pub(crate) phase: u32,
}

impl<O: Output> Player<Told<O>> {
    /// Before the first line, when nothing was sent: of the head of a trace. Out of memory is the only error.
    pub fn new(alloc: Global, head: Head, told: Told<O>) -> Result<Player<Told<O>>, OutOfMemory>
        requires head { IsHeadWithin head }
        requires told { IsUntold head.partitions told }
        ensures { IfOk result (IsBegun head) }
    {
        let Head {
            version,
            region,
            partitions,
            threads,
            plain,
        } = head;
        Ok(Player {
            heap: Heap::new(alloc, region, partitions)?,
            table: Table::new(alloc),
            registers: Registers::new(alloc, threads)?,
            cells: [Register::Empty; CELLS as usize],
            caches: Caches::new(alloc, threads * partitions, class_total(version))?,
            live: Tallies::new(),
            quarantined: Tallies::new(),
            cached: Tallies::new(),
            told,
            version,
            partitions,
            plain_from: partitions.saturating_sub(plain),
            phase: 1,
        })
    }

    /// Plays a line, and records its op. Returns its answer, and none of a line that begins a phase. Out of memory is the only error.
    /// After it the player can't be used: it has the records that it had, but its journals, the entries of the pool,
    /// the histories and the report may go on.
    pub fn line(&mut self, line: Line) -> Result<Option<Answer>, OutOfMemory>
        requires { IsReady line self.old }
        ensures played { IfOk result (λ answer. GoesTo self.old line answer self.new) }
        ensures owned { IfOk result (ReadsOwnOn self.old line) }
        ensures same { OnErr result (told_before self.new.told ≡ told_before self.old.told) }
    {
        match line {
            Line::Phase => {
                self.begin_phase()?;
                Ok(None)
            }
            Line::Do { thread, op } => {
                let answer = self.record(thread, op)?;
                Ok(Some(answer))
            }
        }
    }

    // Plays a line that begins a phase.
    fn begin_phase(&mut self) -> Result<(), OutOfMemory>
        requires { CanEnd self.old }
        ensures begun { OnOk result (self.new ≡ phase_begun self.old) }
        ensures same { OnErr result (told_before self.new.told ≡ told_before self.old.told) }
    {
        self.end_phase()?;
        self.told.next();
        Ok(())
    }

    // Plays an op, and records its answer, which it returns.
    fn record(&mut self, thread: u32, op: Op) -> Result<Answer, OutOfMemory>
        requires { IsReady (Do thread op) self.old }
        ensures played { IfOk result (λ answer. GoesTo self.old (Do thread op) (Some answer) self.new) }
        ensures owned { IfOk result (ReadsOwn self.old thread op) }
        ensures same { OnErr result (told_before self.new.told ≡ told_before self.old.told) }
    {
        let answer = self.answer(thread, op)?;
        self.told.answer(thread, answer)?;
        Ok(answer)
    }

    /// Ends the last phase, and returns what all lines reported. Out of memory is the only error.
    pub fn finish(mut self) -> Result<Told<O>, OutOfMemory>
        requires { CanEnd self }
        ensures { IfOk result (λ told. told ≡ (phase_ended self).told) }
    {
        self.end_phase()?;
        Ok(self.told)
    }

    // Plays one op, and returns its answer.
    fn answer(&mut self, thread: u32, op: Op) -> Result<Answer, OutOfMemory>
        requires { IsReady (Do thread op) self.old }
        ensures played { IfOk result (Plays self.old thread op self.new) }
        ensures owned { IfOk result (ReadsOwn self.old thread op) }
        ensures same { OnErr result (told_before self.new.told ≡ told_before self.old.told) }
    {
        match op {
            Op::Alloc {
                reg,
                partition,
                size,
            } => self.allocate(thread, reg, partition, size),
            Op::Copy { from, to } => Ok(self.copy(thread, from, to)),
            Op::Reset { reg } => self.reset(thread, reg),
            Op::Free { reg } => self.free(thread, reg),
            Op::Write { reg, value } => Ok(self.write(thread, reg, value)),
            Op::Read { reg, place } => Ok(self.read(thread, reg, place)),
            Op::Swap { cell, reg } => self.swap(thread, cell, reg),
            Op::Purge => self.purge(thread),
        }
    }

    /// The slot that a register of a thread owns, as it left its root, and its partition. `None` exactly if it owns none.
    pub fn owned(&self, thread: u32, reg: u32) -> Option<(Title, u32)>
        requires thread { thread < length self.now.registers }
        requires reg { reg < register_count }
        requires held { IsIn (length self.now.table) (register_at self.now thread reg) }
        ensures { result ≡ title_owned self.now.table (register_at self.now thread reg) }
    {
        match self.register(thread, reg) {
            Register::Own(place) => {
                let slot = self.table.slot(place);
                Some((slot.title, slot.partition))
            }
            Register::Empty | Register::Ref(_) | Register::Freed | Register::Cleared => None,
        }
    }

    // What a register of a thread holds.
    pub(crate) fn register(&self, thread: u32, reg: u32) -> Register<u32>
        requires thread { thread < length self.now.registers }
        requires reg { reg < register_count }
        ensures { result ≡ register_at self.now thread reg }
    {
        self.registers.get(thread, reg)
    }

    // Sets a register of a thread.
    pub(crate) fn set_register(&mut self, thread: u32, reg: u32, holds: Register<u32>)
        requires thread { thread < length self.old.registers }
        requires reg { reg < register_count }
        ensures { self.new ≡ registered thread reg holds self.old }
    {
        self.registers.set(thread, reg, holds);
    }

    // The index of the list of a thread's cache, by its partition and class. Only the classes of the version have lists.
    pub(crate) fn list_of(&self, thread: u32, partition: u32, class: Class) -> usize
        requires thread { thread < most_threads }
        requires partitions { self.now.partitions ≤ most_partitions }
        requires partition { partition < self.now.partitions }
        requires class { HasClass self.now.version class }
        ensures { result ≡ list_place self.now.version self.now.partitions thread partition class }
    {
        cache_place(self.version, thread * self.partitions + partition, class)
    }
}
