ghost use Rattle.std.specs.Prelude.{◌≡◌};
ghost use Rattle.pa_runner.specs.Playing.{AreBefore, EndsWith};

use pa_heap::Worker;
use pa_record::Answer;
use pa_region::Name;
use std::marker::Sync;
use std::sync::Wait;
use std::thread::Threads;

/// What is called around each line that a worker plays, on the thread that plays it. A test can hold a thread there. It changes
/// nothing that a contract sees.
pub trait Gate: Sync {
    /// Called before a line. The worker has no record of it yet, and all records that it has are of lines before.
    fn pass<R: Threads + Wait + Sync, N: Name>(
        &self,
        rt: &R,
        worker: &Worker<N>,
        thread: u32,
        line: u32,
    )
        requires thread { worker.now.stock.thread ≡ thread }
        requires new { AreBefore line worker.now.records };

    /// Called after a line. The worker's last record is that line's. If the op ran out of memory, this isn't called.
    fn answered<R: Threads + Wait + Sync, N: Name>(
        &self,
        rt: &R,
        worker: &Worker<N>,
        thread: u32,
        line: u32,
        answer: &Answer,
    )
        requires thread { worker.now.stock.thread ≡ thread }
        requires last { EndsWith (record { line = line; thread = thread; answer = answer.now }) worker.now.records };
}

/// The gate that never holds a thread.
#[derive(Clone, Copy, Debug, Drop)]
pub struct NoGate;

impl Gate for NoGate {
    fn pass<R: Threads + Wait + Sync, N: Name>(
        &self,
        _rt: &R,
        _worker: &Worker<N>,
        _thread: u32,
        _line: u32,
    ) {}

    fn answered<R: Threads + Wait + Sync, N: Name>(
        &self,
        _rt: &R,
        _worker: &Worker<N>,
        _thread: u32,
        _line: u32,
        _answer: &Answer,
    ) {}
}
