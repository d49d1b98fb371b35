ghost use Rattle.std.specs.Prelude.{◌≡◌};
ghost use Rattle.pa_trace.specs.declared.fault.TraceFault.TheVariants as faults;

use pa_slot::OutOfMemory;
use std::alloc::{AllocError, AllocFailed};
use std::error::Error;
use std::fmt;

/// Why a text isn't a trace. Lines count from 1.
#[derive(Clone, Copy, Debug, PartialEq, Eq)]
pub enum TraceFault {
    /// This line is the first faulty one, and it is outside the grammar or has no LF.
    BadLine(u32),
    /// This line is the first faulty one, and it passes a limit.
    Limit(u32),
    /// Memory ran out.
    OutOfMemory,
}

impl fmt::Display for TraceFault {
    ghost use Rattle.std.specs.Prelude.{Some};
    ghost use Rattle.pa_trace.specs.FaultText.{fault_text};

    ghost output = { λ fault. Some (fault_text fault) };

    fn fmt<W: fmt::Write>(&self, f: &mut fmt::Formatter<W>) -> fmt::Result {
        match self {
            TraceFault::BadLine(line) => write!(f, "bad line {line}"),
            TraceFault::Limit(line) => write!(f, "limit at line {line}"),
            TraceFault::OutOfMemory => write!(f, "out of memory"),
        }
    }
}

impl Error for TraceFault {}

impl From<AllocError> for TraceFault {
    ghost from_gives = { λ _ e. e ≡ faults.OutOfMemory };

    fn from(_error: AllocError) -> TraceFault {
        TraceFault::OutOfMemory
    }
}

impl<T: Drop> From<AllocFailed<T>> for TraceFault {
    ghost from_gives = { λ _ e. e ≡ faults.OutOfMemory };

    fn from(_failed: AllocFailed<T>) -> TraceFault {
        TraceFault::OutOfMemory
    }
}

impl From<OutOfMemory> for TraceFault {
    ghost from_gives = { λ _ e. e ≡ faults.OutOfMemory };

    fn from(_error: OutOfMemory) -> TraceFault {
        TraceFault::OutOfMemory
    }
}
