ghost use Rattle.std.specs.Prelude.{◌≡◌, ◌<◌, IfOk, OnOk, OnErr, length};
ghost use Rattle.pa_slot.specs.Count.{CanStep};
ghost use Rattle.pa_slot.specs.declared.word.Step.TheVariants as steps;
ghost use Rattle.pa_record.specs.declared.entry.Answer.TheVariants as answers;
ghost use Rattle.pa_trace.specs.declared.script.Op.TheVariants as ops;
ghost use Rattle.pa_trace.specs.declared.script.Line.TheVariants.{Do};
ghost use Rattle.pa_rules.specs.declared.register.Register.TheVariants.{Ref};
ghost use Rattle.pa_player.specs.Asks.{CanCopy, CanFree, CanReset, CanWrite};
ghost use Rattle.pa_player.specs.Changes.{Copies, Frees, Resets, Writes, is_uncounted, registered, seen_at, stepped_at};
ghost use Rattle.pa_player.specs.Playing.{register_at};
ghost use Rattle.pa_player.specs.Plays.{IsReady, Plays};
ghost use Rattle.pa_player.specs.Tables.{slot_at};
ghost use Rattle.pa_player.specs.Told.{told_before};

use crate::output::Output;
use crate::player::Player;
use crate::told::Told;
use pa_record::Answer;
use pa_rules::{Next, Register, looked_free, looked_write};
use pa_slot::{OutOfMemory, Step, refs, returns};

impl<O: Output> Player<Told<O>> {
    // A copy of a handle.
    pub(crate) fn copy(&mut self, thread: u32, from: u32, to: u32) -> Answer
        requires { IsReady (Do thread (ops.Copy from to)) self.old }
        ensures { Plays self.old thread (ops.Copy from to) self.new result }
    {
        let held = self.register(thread, from);
        match held.for_copy() {
            Ok(place) => self.copy_to(thread, held.is_owner(), place, to),
            Err(refusal) => refusal,
        }
    }

    // A copy of a handle of this slot, which is its owner or not, if the second register has none and the copy is counted.
    fn copy_to(&mut self, thread: u32, owner: bool, place: u32, to: u32) -> Answer
        requires { CanCopy thread to place self.old }
        ensures { Copies thread owner to place self.old self.new result }
    {
        if self.register(thread, to).has_handle() {
            Answer::Filled
        } else if self.is_uncounted(owner, place) {
            Answer::Uncounted
        } else {
            self.point(thread, place, to)
        }
    }

    // Whether a copy of a handle of this slot would not be counted: the handle is the owner, and the slot is in a plain partition.
    fn is_uncounted(&self, owner: bool, place: u32) -> bool
        requires { place < length self.now.table }
        ensures { result ≡ is_uncounted owner place self.now }
    {
        owner && self.plain_from <= self.table.slot(place).partition
    }

    // Makes a register that has no handle a `raw_ptr` to this slot.
    fn point(&mut self, thread: u32, place: u32, to: u32) -> Answer
        requires can { CanCopy thread to place self.old }
        requires step { CanStep steps.Copy (slot_at self.old.table place).word.0 }
        ensures answer { result ≡ answers.Done (seen_at self.old.table place) }
        ensures pointed { self.new ≡ registered thread to (Ref place) (stepped_at steps.Copy place self.old) }
    {
        let seen = self.table.step(place, Step::Copy);
        self.set_register(thread, to, Register::Ref(place));
        Answer::Done { seen }
    }

    // A reset of a `raw_ptr`.
    pub(crate) fn reset(&mut self, thread: u32, reg: u32) -> Result<Answer, OutOfMemory>
        requires { IsReady (Do thread (ops.Reset reg)) self.old }
        ensures played { IfOk result (Plays self.old thread (ops.Reset reg) self.new) }
        ensures same { OnErr result (told_before self.new.told ≡ told_before self.old.told) }
    {
        match self.register(thread, reg).for_reset() {
            Ok(place) => self.clear(thread, reg, place),
            Err(refusal) => Ok(refusal),
        }
    }

    // Resets the `raw_ptr` of a register to this slot. The last one returns a slot that was freed.
    fn clear(&mut self, thread: u32, reg: u32, place: u32) -> Result<Answer, OutOfMemory>
        requires { CanReset thread reg place self.old }
        ensures answer { IfOk result (λ a. a ≡ answers.Done (seen_at self.old.table place)) }
        ensures resets { OnOk result (Resets thread reg place self.old self.new) }
        ensures same { OnErr result (told_before self.new.told ≡ told_before self.old.told) }
    {
        let seen = self.table.step(place, Step::Reset);
        self.set_register(thread, reg, Register::Cleared);
        if returns(Step::Reset, seen.found) {
            let slot = self.table.slot(place);
            let len = u64::from(slot.title.len);
            self.quarantined.remove(slot.partition, 1, len);
            self.take_back(thread, place)?;
        }
        Ok(Answer::Done { seen })
    }

    // A free, which through a `raw_ptr` only looks.
    pub(crate) fn free(&mut self, thread: u32, reg: u32) -> Result<Answer, OutOfMemory>
        requires { IsReady (Do thread (ops.Free reg)) self.old }
        ensures played { IfOk result (Plays self.old thread (ops.Free reg) self.new) }
        ensures same { OnErr result (told_before self.new.told ≡ told_before self.old.told) }
    {
        match self.register(thread, reg).for_free() {
            Next::Refused(refusal) => Ok(refusal),
            Next::Step(place) => self.free_owned(thread, reg, place),
            Next::Look(place) => Ok(looked_free(self.table.seen(place))),
        }
    }

    // Frees the slot that a register owns. It is returned if no `raw_ptr` points to it.
    fn free_owned(&mut self, thread: u32, reg: u32, place: u32) -> Result<Answer, OutOfMemory>
        requires { CanFree thread reg place self.old }
        ensures answer { IfOk result (λ a. a ≡ answers.Done (seen_at self.old.table place)) }
        ensures frees { OnOk result (Frees thread reg place self.old self.new) }
        ensures same { OnErr result (told_before self.new.told ≡ told_before self.old.told) }
    {
        let seen = self.table.step(place, Step::Free);
        self.set_register(thread, reg, Register::Freed);
        let slot = self.table.slot(place);
        let len = slot.title.len;
        self.live.remove(slot.partition, 1, u64::from(len));
        if returns(Step::Free, seen.found) {
            self.take_back(thread, place)?;
        } else {
            self.quarantined.add(slot.partition, len);
        }
        Ok(Answer::Done { seen })
    }

    // A write, which through a `raw_ptr` only looks.
    pub(crate) fn write(&mut self, thread: u32, reg: u32, value: u64) -> Answer
        requires { IsReady (Do thread (ops.Write reg value)) self.old }
        ensures { Plays self.old thread (ops.Write reg value) self.new result }
    {
        match self.register(thread, reg).for_write() {
            Next::Refused(refusal) => refusal,
            Next::Step(place) => self.write_owned(place, value),
            Next::Look(place) => looked_write(self.table.seen(place)),
        }
    }

    // Writes the slot that a register owns, if no `raw_ptr` points to it.
    fn write_owned(&mut self, place: u32, value: u64) -> Answer
        requires { CanWrite place self.old }
        ensures { Writes place value self.old self.new result }
    {
        let seen = self.table.seen(place);
        if refs(seen.found) > 0 {
            return Answer::Shared { seen };
        }
        self.table.step(place, Step::Write);
        self.table.fill(place, value);
        Answer::Done { seen }
    }
}
