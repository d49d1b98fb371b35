ghost use Rattle.std.specs.Prelude.{◌≡◌, ◌<◌, [], IfOk, length, slice_index_or, slice_set};
ghost use Rattle.pa_trace.specs.Limits.{register_count};
ghost use Rattle.pa_rules.specs.declared.register.Register.TheVariants.{Empty};
ghost use Rattle.pa_player.specs.Begun.{AreClear};

use pa_rules::Register;
use pa_slot::OutOfMemory;
use pa_trace::REGISTERS;
use std::alloc::Global;
use std::marker::Model;

// The registers of all threads, 64 each. They are seen as lists, by thread and number.
#[derive(Drop)]
pub(crate) struct Registers {
    of: Vec<[Register<u32>; REGISTERS as usize]>,
}

impl Model for Registers {
    ghost use Rattle.std.specs.Prelude.{ℕ, List};
    ghost use Rattle.pa_rules.specs.declared.register.Register.{Register};

    ghost Value = { List (List (Register ℕ)) };

    ghost view = { λ r. r.of.items };
}

impl Registers {
    // The empty registers of that many threads.
    pub(crate) fn new(alloc: Global, threads: u32) -> Result<Registers, OutOfMemory>
        ensures { IfOk result (AreClear threads) }
    {
        let mut of = Vec::with_capacity(alloc, threads as usize)?;
        for _ in 0..threads {
            of.push([Register::Empty; REGISTERS as usize])?;
        }
        Ok(Registers { of })
    }

    // What a register of a thread holds.
    pub(crate) fn get(&self, thread: u32, reg: u32) -> Register<u32>
        requires thread { thread < length self.now }
        requires reg { reg < register_count }
        ensures { result ≡ slice_index_or (slice_index_or self.now thread []) reg Empty }
    {
        self.of[thread as usize][reg as usize]
    }

    // Sets a register of a thread.
    pub(crate) fn set(&mut self, thread: u32, reg: u32, holds: Register<u32>)
        requires thread { thread < length self.old }
        requires reg { reg < register_count }
        ensures { self.new ≡ slice_set self.old thread (slice_set (slice_index_or self.old thread []) reg holds) }
    {
        self.of[thread as usize][reg as usize] = holds;
    }
}
