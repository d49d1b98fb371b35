ghost use Rattle.std.specs.Prelude.{◌≡◌, ◌↔◌, ℕ, ◌-◌, ◌<◌, ◌≤◌, min, List, [], ◌++◌, Some, length, take, drop, Contains, IfOk, IsErr, OnOk, OnErr, IsTrue, vec_len, vec_capacity, ◌⊎◌};
ghost use Rattle.std.specs.Io.KnownBytes.{Keeps};
ghost use Rattle.pa_io.specs.Moves.{Moves, Takes, HasRisen, one_more};
ghost use Rattle.pa_io.specs.Memory.{SourceState, SinkState};

use crate::traits::{Failed, Sink, Source};
use pa_slot::OutOfMemory;
use std::alloc::Global;
use std::marker::Model;

// How many calls were made, which ones are to fail, by their numbers from 0, and how many did. The counts stop
// at their greatest value.
#[derive(Drop)]
struct Calls {
    fails: Vec<u64>,
    made: u64,
    faults: u64,
}

impl Calls {
    // No call yet.
    fn new(alloc: Global, fails: &[u64]) -> Result<Calls, OutOfMemory>
        ensures fails { IfOk result (λ c. c.fails.items ≡ fails.now) }
        ensures made { IfOk result (λ c. c.made ≡ 0) }
        ensures faults { IfOk result (λ c. c.faults ≡ 0) }
    {
        Ok(Calls {
            fails: Vec::from_slice(alloc, fails)?,
            made: 0,
            faults: 0,
        })
    }

    // Counts one more call, and returns whether it is one of those that are to fail.
    fn next_fails(&mut self) -> bool
        ensures fails { IsTrue result ↔ Contains self.old.fails.items self.old.made }
        ensures made { self.new ≡ record self.old { made = one_more self.old.made } }
    {
        let call = self.made;
        self.made = call.saturating_add(1);
        self.fails.contains(&call)
    }

    // Counts one more fault.
    fn fault(&mut self) -> Failed
        ensures { self.new ≡ record self.old { faults = one_more self.old.faults } }
    {
        self.faults = self.faults.saturating_add(1);
        Failed
    }
}

/// A source in memory, which gives short pieces and fails on the calls that are chosen for it.
#[derive(Drop)]
pub struct MemSource {
    bytes: Vec<u8>,
    at: usize,
    piece: usize,
    calls: Calls,
}

impl Model for MemSource {
    ghost Value = { SourceState };

    ghost view = { λ s. record {
      left = drop s.at s.bytes.items;
      piece = s.piece;
      fails = s.calls.fails.items;
      calls = s.calls.made;
      faults = s.calls.faults;
    } };

    ghost invariant = { λ s. (s.at ≤ vec_len s.bytes) × (1 ≤ s.piece) };
}

impl MemSource {
    /// A source of these bytes; no call gives more than `piece` of them. The calls whose numbers, from 0, are in
    /// `fails` fail, and no others.
    pub fn new(
        alloc: Global,
        bytes: &[u8],
        piece: usize,
        fails: &[u64],
    ) -> Result<MemSource, OutOfMemory>
        requires { 1 ≤ piece }
        ensures { IfOk result (λ s. s ≡ record {
          left = bytes.now;
          piece = piece;
          fails = fails.now;
          calls = 0;
          faults = 0;
        }) }
    {
        Ok(MemSource {
            bytes: Vec::from_slice(alloc, bytes)?,
            at: 0,
            piece,
            calls: Calls::new(alloc, fails)?,
        })
    }
}

impl Source for MemSource {
    ghost faults = { λ s. s.faults };

    ghost left = { λ s. Some s.left };

    fn read(&mut self, into: &mut [u8]) -> Result<usize, Failed>
        requires { 0 < length into.old }

        // What every source promises.
        ensures moves { IfOk result (λ n.
            Moves (Some self.old.left) (Some self.new.left) n into.new) }
        ensures same { OnErr result (Keeps (Some self.old.left) (Some self.new.left)) }
        ensures cause { OnErr result (HasRisen self.old.faults self.new.faults) }
        ensures calm { OnOk result (self.new.faults ≡ self.old.faults) }
        ensures later { self.old.faults ≤ self.new.faults }

        // When this one fails, how much it gives, and what it is afterwards.
        ensures fails { IsErr result ↔ Contains self.old.fails self.old.calls }
        ensures count { IfOk result (λ n.
            n ≡ min self.old.piece (min (length into.old) (length self.old.left))) }
        ensures front { IfOk result (λ n. into.new ≡ take n self.old.left ++ drop n into.old) }
        ensures ok { IfOk result (λ n. self.new ≡ record self.old {
          left = drop n self.old.left;
          calls = one_more self.old.calls;
        }) }
        ensures untouched { OnErr result (into.new ≡ into.old) }
        ensures err { OnErr result (self.new ≡ record self.old {
          calls = one_more self.old.calls;
          faults = one_more self.old.faults;
        }) }
    {
        if self.calls.next_fails() {
            return Err(self.calls.fault());
        }
        let n = self.piece.min(into.len().min(self.bytes.len() - self.at));
        let end = self.at + n;
        into[..n].copy_from_slice(&self.bytes[self.at..end]);
        self.at = end;
        Ok(n)
    }
}

/// A sink in memory, which takes short pieces, has a greatest number of bytes, and fails on the calls that are chosen for it.
#[derive(Drop)]
pub struct MemSink {
    bytes: Vec<u8>,
    room: usize,
    piece: usize,
    calls: Calls,
}

impl Model for MemSink {
    ghost Value = { SinkState };

    ghost view = { λ s. record {
      written = s.bytes.items;
      room = s.room;
      piece = s.piece;
      fails = s.calls.fails.items;
      calls = s.calls.made;
      faults = s.calls.faults;
    } };

    ghost invariant = { λ s.
        (vec_len s.bytes ≤ s.room) × (s.room ≤ vec_capacity s.bytes) × (1 ≤ s.piece) };
}

impl MemSink {
    /// A sink with nothing written, which takes at most `room` bytes in all and at most `piece` bytes a call. The
    /// calls whose numbers, from 0, are in `fails` fail, and so does each call that finds `room` bytes written; no
    /// other does. Memory for `room` bytes is taken at once.
    pub fn new(
        alloc: Global,
        room: usize,
        piece: usize,
        fails: &[u64],
    ) -> Result<MemSink, OutOfMemory>
        requires { 1 ≤ piece }
        ensures { IfOk result (λ s. s ≡ record {
          written = [];
          room = room;
          piece = piece;
          fails = fails.now;
          calls = 0;
          faults = 0;
        }) }
    {
        Ok(MemSink {
            bytes: Vec::with_capacity(alloc, room)?,
            room,
            piece,
            calls: Calls::new(alloc, fails)?,
        })
    }

    /// The bytes taken so far.
    pub fn written(&self) -> &[u8]
        ensures { result.now ≡ self.now.written }
    {
        self.bytes.as_slice()
    }
}

impl Sink for MemSink {
    ghost faults = { λ s. s.faults };

    ghost written = { λ s. Some s.written };

    fn write(&mut self, from: &[u8]) -> Result<usize, Failed>
        requires { 0 < length from.now }

        // What every sink promises.
        ensures takes { IfOk result (λ n.
            Takes (Some self.old.written) (Some self.new.written) n from.now) }
        ensures same { OnErr result (Keeps (Some self.old.written) (Some self.new.written)) }
        ensures cause { OnErr result (HasRisen self.old.faults self.new.faults) }
        ensures calm { OnOk result (self.new.faults ≡ self.old.faults) }
        ensures later { self.old.faults ≤ self.new.faults }

        // When this one fails, how much it takes, and what it is afterwards.
        ensures fails { IsErr result ↔ (Contains self.old.fails self.old.calls
            ⊎ (self.old.room ≡ length self.old.written)) }
        ensures count { IfOk result (λ n. n ≡ min self.old.piece
            (min (length from.now) (self.old.room - length self.old.written))) }
        ensures ok { IfOk result (λ n. self.new ≡ record self.old {
          written = self.old.written ++ take n from.now;
          calls = one_more self.old.calls;
        }) }
        ensures err { OnErr result (self.new ≡ record self.old {
          calls = one_more self.old.calls;
          faults = one_more self.old.faults;
        }) }
    {
        let room = self.room - self.bytes.len();
        if self.calls.next_fails() {
            return Err(self.calls.fault());
        }
        if room == 0 {
            return Err(self.calls.fault());
        }
        let n = self.piece.min(from.len().min(room));
        self.bytes.extend_from_slice(&from[..n]).unwrap();
        Ok(n)
    }
}
