//! One phase: the workers play their lines, beside each other, and then they lend their stakes to the main seat.
ghost use Rattle.std.specs.Prelude.{◌≡◌, ◌↔◌, ℕ, ◌+◌, ◌<◌, ◌≤◌, Any, IsTrue, length};
ghost use Rattle.std.specs.Thread.{IsSync};
ghost use Rattle.pa_trace.specs.Limits.{most_threads};
ghost use Rattle.pa_region.specs.Views.{HasEveryStake, stake_of};
ghost use Rattle.pa_region.specs.Hands.{left_after, given_after, united};
ghost use Rattle.pa_region.specs.Lending.{stake_parcel};
ghost use Rattle.pa_region.specs.Waiting.{unclean_of};
ghost use Rattle.pa_region.specs.Aware.{IsAware};
ghost use Rattle.pa_rules.specs.Caches.{SameLists};
ghost use Rattle.pa_totals.specs.Settled.{none_owed};
ghost use Rattle.pa_op_specs.specs.Stocks.{IsForThread, listed_in};
ghost use Rattle.pa_op_specs.specs.Workers.{HasItsStake, worker_with_view};
ghost use Rattle.pa_op_specs.specs.Plays.{KeepsApart};
ghost use Rattle.pa_thread_state.specs.Changes.{StaysMade};
ghost use Rattle.pa_execution.specs.Gathering.{IsMain, HasHeardSome, HasAnswered, told_worker};
ghost use Rattle.pa_runner.specs.Playing.{CanPlay, IsPlayed};
ghost use Rattle.pa_runner.specs.Phases.{AreReady, AreReadyFrom, ArePlayed, HaveStakes, HaveTold, HaveNone, HaveHeard, worker_in};

use crate::gate::Gate;
use crate::phases::Playing;
use crate::queue::Queue;
use crate::thread_lines::LineOp;
use pa_heap::Worker;
use pa_region::{Mark, Name, Seat};
use pa_thread_state::Heap;
use std::marker::{Send, Sync};
use std::sync::Wait;
use std::thread::{Threads, join_mut};

impl<R: Threads + Wait + Sync, N: Name + Send + Sync, G: Gate> Playing<'_, R, N, G> {
    /// Each worker plays its lines, on a thread of its own if it gets one, and else on this one. It starts a thread for each worker
    /// that has lines but for the last one of them, which plays on this one. It returns when all have played.
    pub fn play_phase(&self, workers: &mut [Worker<N>], queues: &[Queue])
        requires few { length workers.old ≤ most_threads }
        requires ready { AreReady queues.now workers.old }
        ensures count { length workers.new ≡ length workers.old }
        ensures played { ArePlayed queues.now workers.old workers.new }
    {
        self.play_from(0, workers, queues);
    }

    // The workers from this thread on play their lines. If the first of them has lines and one after it too, they play beside
    // each other. Else all that the first one does is done here, before the others play.
    #[cycle(playing)]
    fn play_from(&self, first: u32, workers: &mut [Worker<N>], queues: &[Queue])
        requires few { first + length workers.old ≤ most_threads }
        requires ready { AreReadyFrom first queues.now workers.old }
        ensures count { length workers.new ≡ length workers.old }
        ensures played { ArePlayed queues.now workers.old workers.new }
    {
        let Some((worker, rest)) = workers.split_first_mut() else {
            return;
        };
        let Some((queue, others)) = queues.split_first() else {
            return;
        };
        let lines = queue.as_slice();
        if lines.is_empty() || !have_lines(others) {
            self.play_lines(worker, first, lines);
            self.play_from(first + 1, rest, others);
        } else {
            self.play_beside(first, worker, lines, rest, others);
        }
    }

    // The worker of this thread plays its lines on a thread of its own if it gets one, and else on this one, after those that follow it.
    #[cycle(playing)]
    fn play_beside(
        &self,
        first: u32,
        worker: &mut Worker<N>,
        lines: &[LineOp],
        rest: &mut [Worker<N>],
        others: &[Queue],
    )
        requires few { first + 1 + length rest.old ≤ most_threads }
        requires thread { worker.old.stock.thread ≡ first }
        requires ready { CanPlay lines.now worker.old }
        requires settled { worker.old.owed ≡ none_owed }
        requires others { AreReadyFrom (first + 1) others.now rest.old }
        ensures played { IsPlayed lines.now worker.old worker.new }
        ensures count { length rest.new ≡ length rest.old }
        ensures others { ArePlayed others.now rest.old rest.new }
    {
        let mut one = ||
            requires sync { IsSync R.row × IsSync G.row }
            requires thread { worker.now.stock.thread ≡ first }
            requires ready { CanPlay lines.now worker.now }
            requires settled { worker.now.owed ≡ none_owed }
            ensures { IsPlayed lines.entry.now worker.entry.now worker.exit.now }
        { self.play_lines(worker, first, lines) };
        let mut behind = ||
            requires sync { IsSync R.row × IsSync G.row }
            requires few { first + 1 + length rest.now ≤ most_threads }
            requires ready { AreReadyFrom (first + 1) others.now rest.now }
            ensures count { length rest.exit.now ≡ length rest.entry.now }
            ensures played { ArePlayed others.entry.now rest.entry.now rest.exit.now }
        { self.play_from(first + 1, rest, others) };
        join_mut(self.rt, &mut one, &mut behind);
    }
}

// Whether some queue has a line.
fn have_lines(queues: &[Queue]) -> bool
    ensures { IsTrue result ↔ Any (λ lines. 0 < length lines) queues.now }
{
    queues.iter().any(|queue| !queue.as_slice().is_empty())
}

/// Each worker hands its stake to the main seat, which then has every stake, each with its log, and has seen what they have seen.
pub fn tell_all<N: Name>(heap: &Heap<N>, workers: &mut [Worker<N>], seat: &mut Seat)
    requires region { seat.old.region ≡ N.region }
    requires main { IsMain (length workers.old) seat.old.view }
    requires stakes { HaveStakes workers.old }
    ensures region { seat.new.region ≡ N.region }
    ensures count { length workers.new ≡ length workers.old }
    ensures heard { HasHeardSome (length workers.old) (length workers.old) (worker_in workers.old) seat.old.view seat.new.view }
    ensures told { HaveTold (length workers.old) workers.old workers.new }
{
    for k in 0..workers.len() {
        tell(heap, &mut workers[k], seat);
    }
}

/// A worker hands its stake to the main seat.
pub fn tell<N: Name>(heap: &Heap<N>, worker: &mut Worker<N>, seat: &mut Seat)
    requires region { seat.old.region ≡ N.region }
    requires clean { unclean_of seat.old.view ≡ 0 }
    requires stake { HasItsStake worker.old.stock }
    ensures region { seat.new.region ≡ N.region }
    ensures heard { seat.new.view ≡ united seat.old.view (given_after (stake_parcel worker.old.stock.thread) worker.old.stock.view) }
    ensures aware { IsAware seat.new.view }
    ensures told { worker.new ≡ told_worker worker.old.stock.thread worker.old }
    ensures none { (k : ℕ) → stake_of worker.new.stock.view k ≡ 0 }
{
    let note = worker.tell(heap);
    heap.region().take(seat, note);
    seat.aware();
}

/// Each worker gets its stake back from the main seat, and has then seen what the main seat has.
pub fn hear_all<N: Name>(heap: &Heap<N>, workers: &mut [Worker<N>], seat: &mut Seat)
    requires region { seat.old.region ≡ N.region }
    requires few { length workers.old ≤ most_threads }
    requires main { IsMain (length workers.old) seat.old.view }
    requires every { HasEveryStake seat.old.view }
    requires none { HaveNone workers.old }
    ensures region { seat.new.region ≡ N.region }
    ensures count { length workers.new ≡ length workers.old }
    ensures answered { HasAnswered (length workers.old) (length workers.old) seat.old.view seat.new.view }
    ensures heard { HaveHeard (length workers.old) (length workers.old) seat.old.view workers.old workers.new }
{
    for k in 0..workers.len() {
        hear(heap, &mut workers[k], seat, k as u32);
    }
}

/// A worker gets its stake back from the main seat. What it has free and on no list is so still, at the number that it had seen, and it
/// has seen what it had of how slots were made.
pub fn hear<N: Name>(heap: &Heap<N>, worker: &mut Worker<N>, seat: &mut Seat, thread: u32)
    requires region { seat.old.region ≡ N.region }
    requires thread { (worker.old.stock.thread ≡ thread) × (thread < most_threads) }
    requires clean { unclean_of seat.old.view ≡ 0 }
    requires stake { 0 < stake_of seat.old.view thread }
    requires none { (k : ℕ) → stake_of worker.old.stock.view k ≡ 0 }
    requires settled { worker.old.owed ≡ none_owed }
    ensures region { seat.new.region ≡ N.region }
    ensures left { seat.new.view ≡ left_after (stake_parcel thread) seat.old.view }
    ensures heard { worker.new ≡ worker_with_view
        (united worker.old.stock.view (given_after (stake_parcel thread) seat.old.view)) worker.old }
    ensures lists { SameLists (listed_in worker.new.stock) (listed_in worker.old.stock) }
    ensures apart { KeepsApart worker.old.stock worker.new.stock }
    ensures made { StaysMade worker.old.stock worker.new.stock }
{
    let note = heap.region().hand(seat, &[], 0, &[Mark::Stake(thread)]);
    worker.hear(heap, note);
}
