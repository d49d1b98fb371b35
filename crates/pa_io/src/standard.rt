ghost use Rattle.std.specs.Prelude.{◌≡◌, ℕ, ◌<◌, ◌≤◌, None, length, take, IfSome, IfNone, IfOk, OnOk, OnErr};
ghost use Rattle.std.specs.Io.KnownBytes.{Keeps, Appends};
ghost use Rattle.pa_io.specs.Moves.{Moves, Takes, HasRisen, HasWrittenPart, one_more};

use crate::traits::{Failed, Sink, Source};
use std::io::{Read, Write};

/// A source over a reader of std, such as standard input. It is the trusted edge: what is left is known if the reader
/// makes it known, which standard input doesn't.
#[derive(Drop)]
pub struct StdSource<I> {
    /// What is read from.
    pub reader: I,
    /// How many reads failed, 0 to 2^64 - 1. It stops there.
    pub faults: u64,
}

impl<I: Read> StdSource<I> {
    /// A source over this reader, with no fault yet.
    pub fn new(reader: I) -> StdSource<I>
        ensures { result ≡ record { reader = reader; faults = 0 } }
    {
        StdSource { reader, faults: 0 }
    }
}

impl<I: Read> Source for StdSource<I> {
    ghost faults = { λ s. s.faults };

    ghost left = { λ s. I.remaining s.reader };

    fn read(&mut self, into: &mut [u8]) -> Result<usize, Failed>
        requires { 0 < length into.old }

        // What every source promises.
        ensures moves { IfOk result (λ n.
            Moves (I.remaining self.old.reader) (I.remaining self.new.reader) n into.new) }
        ensures same { OnErr result
            (Keeps (I.remaining self.old.reader) (I.remaining self.new.reader)) }
        ensures cause { OnErr result (HasRisen self.old.faults self.new.faults) }
        ensures calm { OnOk result (self.new.faults ≡ self.old.faults) }
        ensures later { self.old.faults ≤ self.new.faults }

        // A failed read is counted.
        ensures err { OnErr result (self.new.faults ≡ one_more self.old.faults) }
    {
        match self.reader.read(into) {
            Ok(n) => Ok(n),
            Err(_) => {
                self.faults = self.faults.saturating_add(1);
                Err(Failed)
            }
        }
    }
}

/// A sink over a writer of std, such as standard output. It is the trusted edge: it says nothing of what was written.
#[derive(Drop)]
pub struct StdSink<O> {
    /// What is written to.
    pub writer: O,
    /// How many writes failed, 0 to 2^64 - 1. It stops there.
    pub faults: u64,
}

impl<O: Write> StdSink<O> {
    /// A sink over this writer, with no fault yet.
    pub fn new(writer: O) -> StdSink<O>
        ensures { result ≡ record { writer = writer; faults = 0 } }
    {
        StdSink { writer, faults: 0 }
    }
}

impl<O: Write> Sink for StdSink<O> {
    ghost faults = { λ s. s.faults };

    ghost written = { λ s. None };

    /// Writes to the writer once and flushes. A write that fails or takes nothing is a fault, and so is a flush that
    /// fails; then some bytes of `from` may have gone out.
    fn write(&mut self, from: &[u8]) -> Result<usize, Failed>
        requires { 0 < length from.now }

        // What every sink promises.
        ensures takes { IfOk result (λ n. Takes None None n from.now) }
        ensures same { OnErr result (Keeps None None) }
        ensures cause { OnErr result (HasRisen self.old.faults self.new.faults) }
        ensures calm { OnOk result (self.new.faults ≡ self.old.faults) }
        ensures later { self.old.faults ≤ self.new.faults }

        // A failed write is counted.
        ensures err { OnErr result (self.new.faults ≡ one_more self.old.faults) }

        // What the writer holds, if it is known, grew by the bytes that were taken, or at a fault by a first part.
        ensures passed { IfOk result (λ n.
            Appends (O.contents self.old.writer) (O.contents self.new.writer) (take n from.now)) }
        ensures part { OnErr result (HasWrittenPart
            (O.contents self.old.writer) (O.contents self.new.writer) from.now) }
    {
        match pass_on(&mut self.writer, from) {
            Some(n) => Ok(n),
            None => {
                self.faults = self.faults.saturating_add(1);
                Err(Failed)
            }
        }
    }
}

// Hands the bytes to the writer once, and flushes what it took. None if either fails or it took nothing.
fn pass_on<O: Write>(writer: &mut O, from: &[u8]) -> Option<usize>
    ensures some_taken { IfSome result (λ n. 1 ≤ n) }
    ensures within { IfSome result (λ n. n ≤ length from.now) }
    ensures passed { IfSome result (λ n.
        Appends (O.contents writer.old) (O.contents writer.new) (take n from.now)) }
    ensures part { IfNone result
        (HasWrittenPart (O.contents writer.old) (O.contents writer.new) from.now) }
{
    match writer.write(from) {
        Ok(0) => None,
        Ok(n) => match writer.flush() {
            Ok(()) => Some(n),
            Err(_) => None,
        },
        Err(_) => None,
    }
}
