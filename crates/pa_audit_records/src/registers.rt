ghost use Rattle.std.specs.Prelude.{◌≡◌, ◌<◌, IfOk};
ghost use Rattle.pa_trace.specs.Limits.{register_count, most_threads};
ghost use Rattle.pa_rules.specs.Registers.{no_regs};
ghost use Rattle.pa_audit_records.specs.Tables.{regs_in, AreRegsOf, with_register};

use pa_rules::Register;
use pa_slot::{OutOfMemory, SlotName};
use pa_trace::{MOST_THREADS, REGISTERS};
use std::alloc::Global;
use std::marker::Model;

// The number of registers of 16 threads.
const ALL_REGISTERS: usize = (MOST_THREADS * REGISTERS) as usize;

/// The registers of 16 threads, 64 each, that hold what the records so far left there. They are seen as a list.
#[derive(Drop)]
pub struct Registers {
    of: Vec<Register<SlotName>>,
}

impl Model for Registers {
    ghost use Rattle.std.specs.Prelude.{◌≡◌, List, length};
    ghost use Rattle.pa_rules.specs.Registers.{Reg};

    ghost Value = { List Reg };

    ghost view = { λ r. r.of.items };

    ghost invariant = { λ r. length r.of.items ≡ 1024 };
}

impl Registers {
    /// Registers that are all empty.
    pub fn new(alloc: Global) -> Result<Registers, OutOfMemory>
        ensures { IfOk result (λ r. AreRegsOf r no_regs) }
    {
        Ok(Registers {
            of: vec![in alloc; Register::Empty; ALL_REGISTERS]?,
        })
    }

    /// What a register of a thread holds. Threads count from 0 to 15, registers from 0 to 63.
    pub fn get(&self, thread: u32, reg: u32) -> Register<SlotName>
        requires thread { thread < most_threads }
        requires reg { reg < register_count }
        ensures { result ≡ regs_in self.now thread reg }
    {
        self.of[REGISTERS as usize * thread as usize + reg as usize]
    }

    /// Sets a register of a thread, and no other.
    pub fn set(&mut self, thread: u32, reg: u32, holds: Register<SlotName>)
        requires thread { thread < most_threads }
        requires reg { reg < register_count }
        ensures { AreRegsOf self.new (with_register (regs_in self.old) thread reg holds) }
    {
        self.of[REGISTERS as usize * thread as usize + reg as usize] = holds;
    }
}
