ghost use Rattle.std.specs.Prelude.{◌≡◌};
ghost use Rattle.pa_trace.specs.Grammar.{head_of_trace};
ghost use Rattle.pa_trace.specs.Rules.{rules_of};

use crate::line::Head;
use std::marker::Model;

/// By which rules a line is played: the version of its trace, and the first plain partition, which in a trace without plain
/// partitions is the number after its last one's. No `raw_ptr` to a slot of a plain partition can be made.
#[derive(Clone, Copy, Debug, PartialEq, Eq)]
pub struct Rules {
    pub version: u32,
    pub plain_from: u32,
}

/// A trace: its version, the region in super pages, the number of partitions, the number of threads, how many of the partitions are
/// plain (the last ones, and 0 below version 3), and the lines after the head.
/// `lines[i]` is line `i + 2` of the text; the head is line 1. A trace has one phase more than it has lines `Phase`.
#[derive(Debug, Drop)]
pub struct Trace {
    pub version: u32,
    pub region: u32,
    pub partitions: u32,
    pub threads: u32,
    pub plain: u32,
    pub lines: Lines,
}

impl Trace {
    /// Its head.
    pub fn head(&self) -> Head
        ensures { result ≡ head_of_trace self.now }
    {
        Head {
            version: self.version,
            region: self.region,
            partitions: self.partitions,
            threads: self.threads,
            plain: self.plain,
        }
    }

    /// The rules by which its lines are played.
    pub fn rules(&self) -> Rules
        ensures { result ≡ rules_of self.now }
    {
        Rules {
            version: self.version,
            plain_from: self.partitions.saturating_sub(self.plain),
        }
    }
}

/// One line after the head.
#[derive(Clone, Copy, Debug, PartialEq, Eq)]
pub enum Line {
    /// A new phase begins: what comes before it is over for every thread.
    Phase,
    /// What one thread does. Threads are numbered from 0.
    Do { thread: u32, op: Op },
}

/// One op. Registers and cells are named by their numbers, 0 to 63; sizes are in bytes.
#[derive(Clone, Copy, Debug, PartialEq, Eq)]
pub enum Op {
    /// Allocates an object into a register, which then owns it.
    Alloc { reg: u32, partition: u32, size: u32 },
    /// Copies a register's handle: the second register becomes a `raw_ptr` to the object.
    Copy { from: u32, to: u32 },
    /// Resets a `raw_ptr`, which gives back its count.
    Reset { reg: u32 },
    /// Frees the object that the register owns.
    Free { reg: u32 },
    /// Writes the value to every word of the object that the register owns.
    Write { reg: u32, value: u64 },
    /// Reads a word of the object that the register owns or points to. Words are numbered from 0.
    Read { reg: u32, place: u32 },
    /// Gives the register's handle to a cell that all threads share, and gets what the cell held.
    Swap { cell: u32, reg: u32 },
    /// Gives back what the thread's caches hold, and decommits the empty spans.
    Purge,
}

/// The lines of a trace after its head, in order.
#[derive(Debug, Drop)]
pub struct Lines {
    items: Vec<Line>,
}

impl Model for Lines {
    ghost use Rattle.std.specs.Prelude.{List};
    ghost use Rattle.pa_trace.specs.declared.script.Line.{Line};

    ghost Value = { List Line };

    ghost view = { λ lines. lines.items.items };
}

impl Lines {
    /// The lines of a vector, whose memory it keeps.
    pub fn of(items: Vec<Line>) -> Lines
        ensures { result ≡ items.items }
    {
        Lines { items }
    }

    /// The lines as a slice.
    pub fn as_slice(&self) -> &[Line]
        ensures { result.now ≡ self.now }
    {
        self.items.as_slice()
    }

    /// The vector of the lines, with its memory.
    pub fn into_vec(self) -> Vec<Line>
        ensures { result.items ≡ self }
    {
        self.items
    }
}
