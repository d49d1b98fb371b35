ghost use Rattle.std.specs.Prelude.{◌≡◌, ℕ, ◌<◌, ◌^◌, ◌↔◌, IsTrue, List, length};
ghost use Rattle.pa_trace.specs.Limits.{most_threads};
ghost use Rattle.pa_rules.specs.declared.played.Played.{Played as Record};
ghost use Rattle.pa_audit_heap.specs.Ordered.{AreOfThreads16, IsBehind, entered_by, Admits, HasSeen};
ghost use Rattle.pa_rules.specs.Rising.{RiseByLine};

use crate::lookup::record_of;
use pa_rules::Played;
use pa_trace::MOST_THREADS;

// The most threads of a trace.
pub(crate) const THREADS: usize = MOST_THREADS as usize;

// Entries in the order of their records: the last line of each thread, and the last phase, each of which is 0 if there is none.
#[derive(Drop)]
pub(crate) struct Order {
    pub(crate) lines: [u32; THREADS],
    pub(crate) phase: u32,
}

impl Order {
    // The order before any entry.
    pub(crate) fn new() -> Order
        ensures { (ps : List Record) (lines : List ℕ) → HasSeen ps lines 0 result }
    {
        Order {
            lines: [0; THREADS],
            phase: 0,
        }
    }

    // Whether an entry on this line comes in order after those so far. If it does, it is the last one from then on.
    pub(crate) fn admits(&mut self, records: &[Played], line: u32) -> bool
        requires records { length records.now < 2 ^ 32 }
        requires rising { RiseByLine records.now }
        requires threads { AreOfThreads16 records.now }
        ensures { Admits records.now line self.old self.new result }
    {
        match record_of(records, line) {
            None => true,
            Some(found) => self.enter(found),
        }
    }

    // Whether the record comes after the last one. If it does, it is the last one from then on.
    pub(crate) fn enter(&mut self, found: Played) -> bool
        requires { found.thread < most_threads }
        ensures behind { IsTrue result ↔ IsBehind self.old found }
        ensures entered { IsTrue result → self.new ≡ entered_by found self.old }
    {
        let thread = found.thread as usize;
        if found.line < self.lines[thread] || found.phase < self.phase {
            return false;
        }
        self.lines[thread] = found.line;
        self.phase = found.phase;
        true
    }
}
