ghost use Rattle.std.specs.Prelude.{◌≡◌};
ghost use Rattle.pa_cli.specs.StatusText.{clause_name, status_number, status_of_input, status_of_trace};
ghost use Rattle.pa_cli.specs.declared.status.Status.TheVariants as statuses;

use crate::input::InputFault;
use pa_rules::Clause;
use pa_slot::OutOfMemory;
use pa_trace::TraceFault;
use std::fmt;

/// How a call of the program ended. Its text is what the program prints on standard error unless the status is `Done`.
#[derive(Clone, Copy, Debug, PartialEq, Eq)]
pub enum Status {
    /// The output was written whole.
    Done,
    /// The words are no command.
    BadCommand,
    /// This line of the input is the first faulty one, and it is outside the grammar. Lines count from 1.
    BadLine(u32),
    /// This line of the input is the first faulty one, and it passes a limit.
    Limit(u32),
    /// The source had a fault.
    ReadFault,
    /// The sink had a fault.
    WriteFault,
    /// Out of memory. Nothing was written.
    OutOfMemory,
    /// The run that was read isn't a legal run of the trace before it: the first clause that fails, and the first line of the
    /// whole input at which it does.
    NotLegal(Clause, u32),
}

impl Status {
    /// The program's exit code, 0 to 7.
    pub fn number(&self) -> u8
        ensures { result ≡ status_number self.now }
    {
        match self {
            Status::Done => 0,
            Status::BadCommand => 1,
            Status::BadLine(_) => 2,
            Status::Limit(_) => 3,
            Status::ReadFault => 4,
            Status::WriteFault => 5,
            Status::OutOfMemory => 6,
            Status::NotLegal(_, _) => 7,
        }
    }
}

// The name of a clause.
fn name_of(clause: Clause) -> &'static str
    ensures { result.now ≡ clause_name clause }
{
    match clause {
        Clause::Lines => "lines",
        Clause::Cells => "cells",
        Clause::Registers => "registers",
        Clause::Slots => "slots",
        Clause::Contents => "contents",
        Clause::Pool => "pool",
        Clause::Roots => "roots",
        Clause::Titles => "titles",
        Clause::Holders => "holders",
        Clause::Caches => "caches",
        Clause::Seen => "seen",
        Clause::Report => "report",
    }
}

impl fmt::Display for Status {
    ghost use Rattle.std.specs.Prelude.{Some};
    ghost use Rattle.pa_cli.specs.StatusText.{status_text};

    ghost output = { λ status. Some (status_text status) };

    fn fmt<W: fmt::Write>(&self, f: &mut fmt::Formatter<W>) -> fmt::Result {
        match self {
            Status::Done => Ok(()),
            Status::BadCommand => write!(f, "bad command"),
            Status::BadLine(line) => write!(f, "bad line {line}"),
            Status::Limit(line) => write!(f, "limit at line {line}"),
            Status::ReadFault => write!(f, "read fault"),
            Status::WriteFault => write!(f, "write fault"),
            Status::OutOfMemory => write!(f, "out of memory"),
            Status::NotLegal(clause, line) => {
                write!(f, "not legal: {} at line {line}", name_of(*clause))
            }
        }
    }
}

impl From<InputFault> for Status {
    ghost from_gives = { λ fault status. status ≡ status_of_input fault };

    fn from(fault: InputFault) -> Status {
        match fault {
            InputFault::ReadFault => Status::ReadFault,
            InputFault::OutOfMemory => Status::OutOfMemory,
        }
    }
}

impl From<TraceFault> for Status {
    ghost from_gives = { λ fault status. status ≡ status_of_trace fault };

    fn from(fault: TraceFault) -> Status {
        match fault {
            TraceFault::BadLine(line) => Status::BadLine(line),
            TraceFault::Limit(line) => Status::Limit(line),
            TraceFault::OutOfMemory => Status::OutOfMemory,
        }
    }
}

impl From<OutOfMemory> for Status {
    ghost from_gives = { λ _ status. status ≡ statuses.OutOfMemory };

    fn from(_fault: OutOfMemory) -> Status {
        Status::OutOfMemory
    }
}
