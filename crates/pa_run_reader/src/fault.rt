ghost use Rattle.std.specs.Prelude.{◌≡◌};
ghost use Rattle.pa_run_reader.specs.declared.fault.RunFault.TheVariants as faults;

use pa_slot::OutOfMemory;
use std::error::Error;
use std::fmt;

/// Why a text isn't a run. Lines count from 1.
#[derive(Clone, Copy, Debug, PartialEq, Eq)]
pub enum RunFault {
    /// This line is the first bad one: it isn't a line that may come there, or it is missing when one is due.
    BadLine(u32),
    /// Memory ran out.
    OutOfMemory,
}

impl fmt::Display for RunFault {
    ghost use Rattle.std.specs.Prelude.{Some};
    ghost use Rattle.pa_run_reader.specs.Faults.{run_fault_text};

    ghost output = { λ fault. Some (run_fault_text fault) };

    fn fmt<W: fmt::Write>(&self, f: &mut fmt::Formatter<W>) -> fmt::Result {
        match self {
            RunFault::BadLine(line) => write!(f, "bad line {line}"),
            RunFault::OutOfMemory => write!(f, "out of memory"),
        }
    }
}

impl Error for RunFault {}

impl From<OutOfMemory> for RunFault {
    ghost from_gives = { λ _ e. e ≡ faults.OutOfMemory };

    fn from(_error: OutOfMemory) -> RunFault {
        RunFault::OutOfMemory
    }
}
