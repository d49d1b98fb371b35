ghost use Rattle.std.specs.Prelude.{◌≡◌, ℕ, ◌<◌, ◌≤◌, List, Option, length, IfOk, OnOk, OnErr};
ghost use Rattle.std.specs.Io.KnownBytes.{Keeps};
ghost use Rattle.pa_io.specs.Moves.{Moves, Takes, HasRisen};

use std::error::Error;
use std::fmt;

/// A read or a write failed, and its source or sink counted a fault.
#[derive(Clone, Copy, Debug, PartialEq, Eq)]
pub struct Failed;

impl fmt::Display for Failed {
    fn fmt<W: fmt::Write>(&self, f: &mut fmt::Formatter<W>) -> fmt::Result {
        write!(f, "a read or a write failed")
    }
}

impl Error for Failed {}

/// What bytes are read from.
pub trait Source {
    // How many faults there were so far. It never falls.
    ghost faults: { Self → ℕ };

    // The bytes not yet read, if they are known.
    ghost left: { Self → Option (List ℕ) };

    /// Copies the next bytes to the start of `into`, at most its length, and returns how many: 0 only at the end of the
    /// input. What follows them in `into` is unspecified, as is all of it after a failure.
    fn read(&mut self, into: &mut [u8]) -> Result<usize, Failed>
        requires { 0 < length into.old }
        ensures moves { IfOk result (λ n. Moves (left self.old) (left self.new) n into.new) }
        ensures same { OnErr result (Keeps (left self.old) (left self.new)) }
        ensures cause { OnErr result (HasRisen (faults self.old) (faults self.new)) }
        ensures calm { OnOk result (faults self.new ≡ faults self.old) }
        ensures later { faults self.old ≤ faults self.new };
}

/// What bytes are written to.
pub trait Sink {
    // How many faults there were so far. It never falls.
    ghost faults: { Self → ℕ };

    // The bytes taken so far, if they are known.
    ghost written: { Self → Option (List ℕ) };

    /// Takes the first bytes of `from`, at least one, and returns how many.
    fn write(&mut self, from: &[u8]) -> Result<usize, Failed>
        requires { 0 < length from.now }
        ensures takes { IfOk result (λ n. Takes (written self.old) (written self.new) n from.now) }
        ensures same { OnErr result (Keeps (written self.old) (written self.new)) }
        ensures cause { OnErr result (HasRisen (faults self.old) (faults self.new)) }
        ensures calm { OnOk result (faults self.new ≡ faults self.old) }
        ensures later { faults self.old ≤ faults self.new };
}
