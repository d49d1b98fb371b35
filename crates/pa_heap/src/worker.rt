ghost use Rattle.std.specs.Prelude.{◌≡◌, ℕ, ◌<◌, ◌≤◌, length, IfOk};
ghost use Rattle.pa_buckets.specs.Limits.{class_count};
ghost use Rattle.pa_trace.specs.Limits.{most_partitions};
ghost use Rattle.pa_region.specs.Views.{stake_of};
ghost use Rattle.pa_region.specs.Hands.{left_after, given_after, united};
ghost use Rattle.pa_region.specs.Lending.{CanHost, stake_parcel};
ghost use Rattle.pa_rules.specs.Caches.{SameLists, listed_slots};
ghost use Rattle.pa_rules.specs.Report.{listed_bytes};
ghost use Rattle.pa_slot.specs.Links.{AreLinked};
ghost use Rattle.pa_link.specs.Chains.{slot_names};
ghost use Rattle.pa_op_specs.specs.Stocks.{IsForThread, listed_in, titles_in};
ghost use Rattle.pa_totals.specs.Settled.{none_owed};
ghost use Rattle.pa_op_specs.specs.Workers.{IsWorker, IsNewWorker, HasItsStake, worker_with_view};
ghost use Rattle.pa_op_specs.specs.Plays.{KeepsApart};
ghost use Rattle.pa_op_specs.specs.Settling.{settled_worker};
ghost use Rattle.pa_thread_state.specs.Changes.{StaysMade};
ghost use Rattle.pa_heap.specs.Closing.{HasTold};

use crate::account::Account;
use crate::counts::{START, owed_none};
use pa_op_specs::Count;
use pa_record::{Entry, Tally};
use pa_region::{Name, Note};
use pa_slot::OutOfMemory;
use pa_thread_state::{Heap, Stock};
use pa_trace::MOST_PARTITIONS;
use std::alloc::Global;
use std::marker::Model;

/// A worker plays the lines of one thread. Contracts see its thread's state, its records so far, how many records it has room
/// for in all, whether it ran out of memory, what it counted, and what it owes to the totals words.
#[derive(Drop)]
pub struct Worker<N: Name> {
    pub(crate) stock: Stock<N>,
    pub(crate) account: Account,
}

impl<N: Name> Model for Worker<N> {
    ghost use Rattle.std.specs.Prelude.{◌+◌, ◌≤◌, length};
    ghost use Rattle.pa_op_specs.specs.Workers.{WorkerValue, IsCovered};
    ghost use Rattle.pa_heap.specs.Accounts.{IsAccount, worker_of};

    ghost Value = { WorkerValue };

    ghost view = { λ w. worker_of w.stock w.account };

    ghost invariant = { λ w. IsAccount w.account
        × (w.account.room ≤ length w.account.records.items + w.stock.view.budget)
        × IsCovered w.account.owed w.stock };
}

impl<N: Name> Worker<N> {
    /// A worker that has played nothing, of a trace of this version with this first plain partition. It takes a note with the thread's
    /// stake, and a counted step in its budget for each of its lines. All room for records is allocated here.
    pub fn open(
        alloc: Global,
        note: Note,
        thread: u32,
        partitions: u32,
        plain_from: u32,
        version: u32,
        lines: u32,
    ) -> Result<Worker<N>, OutOfMemory>
        requires region { note.region ≡ N.region }
        requires plain { plain_from ≡ N.plain_from }
        requires note { IsForThread thread note.view }
        requires budget { lines ≤ note.view.budget }
        requires partitions { partitions ≤ most_partitions }
        ensures { IfOk result (IsNewWorker thread partitions plain_from version lines note.view) }
    {
        let records = Vec::with_capacity(alloc, lines as usize)?;
        let stock = Stock::open(alloc, note, thread, partitions, plain_from, version)?;
        stock.kept();
        let account = Account {
            records,
            room: lines,
            stopped: false,
            counts: [START; MOST_PARTITIONS as usize],
            owed: owed_none(),
        };
        Ok(Worker { stock, account })
    }

    /// Hands over the worker's stake, with its log and a copy of what the worker has seen.
    pub fn tell(&mut self, heap: &Heap<N>) -> Note
        requires stake { HasItsStake self.old.stock }
        ensures region { result.region ≡ N.region }
        ensures told { result.view ≡ given_after (stake_parcel self.old.stock.thread) self.old.stock.view }
        ensures again { IsForThread self.old.stock.thread result.view }
        ensures none { (k : ℕ) → stake_of self.new.stock.view k ≡ 0 }
        ensures left { self.new ≡ worker_with_view (left_after (stake_parcel self.old.stock.thread) self.old.stock.view) self.old }
    {
        self.stock.tell(heap.region())
    }

    /// Takes the stake back, with what the note has seen, if it owes nothing. The lists are as they were, each title at its number,
    /// and so is what it has free and on no list.
    pub fn hear(&mut self, heap: &Heap<N>, note: Note)
        requires region { note.region ≡ N.region }
        requires none { (k : ℕ) → stake_of self.old.stock.view k ≡ 0 }
        requires settled { self.old.owed ≡ none_owed }
        requires note { IsForThread self.old.stock.thread note.view }
        ensures heard { self.new ≡ worker_with_view (united self.old.stock.view note.view) self.old }
        ensures lists { SameLists (listed_in self.new.stock) (listed_in self.old.stock) }
        ensures apart { KeepsApart self.old.stock self.new.stock }
        ensures made { StaysMade self.old.stock self.new.stock }
    {
        self.stock.hear(heap.region(), note);
        self.stock.kept();
    }

    /// Adds what the worker owes to the totals words, in bytes. It owes nothing then.
    pub fn settle(&mut self, heap: &Heap<N>)
        requires stake { HasItsStake self.old.stock }
        ensures settled { self.new ≡ settled_worker self.old }
        ensures stake { HasItsStake self.new.stock }
    {
        self.stock
            .settle_totals(heap.region(), &mut self.account.owed);
    }

    /// What the worker's type keeps. Its lists are linked in the words that its seat knows. It costs nothing.
    pub fn kept(&self)
        ensures worker { IsWorker self.now }
        ensures links { (p class : ℕ) → AreLinked self.now.stock.view.words (slot_names (titles_in self.now.stock.caches p class)) }
    {
        self.stock.kept();
    }

    /// Whether an op ran out of memory: then the worker plays no more.
    pub fn stopped(&self) -> bool
        ensures { result ≡ self.now.stopped }
    {
        self.account.stopped
    }

    /// The worker's records so far, in the order of its lines.
    pub fn records(&self) -> &[Entry]
        ensures { result.now ≡ self.now.records }
    {
        &self.account.records
    }

    // The worker's seat, after it handed its stake over.
    pub(crate) fn into_note(self) -> Note
        requires { HasTold self }
        ensures region { result.region ≡ N.region }
        ensures same { result.view ≡ self.stock.view }
        ensures host { CanHost result.view }
    {
        let Worker { stock, account: _ } = self;
        stock.into_note()
    }

    /// What it counted of its steps so far, for each partition.
    pub fn counts(&self) -> [Count; MOST_PARTITIONS as usize]
        ensures { result ≡ self.now.counts }
    {
        self.account.counts
    }

    /// How many slots its lists of a partition have, and their bytes.
    pub fn cached(&self, partition: u32) -> Tally
        requires partition { partition < most_partitions }
        ensures slots { result.slots ≡ listed_slots (listed_in self.now.stock partition) 0 class_count }
        ensures bytes { result.bytes ≡ listed_bytes (λ class. length (listed_in self.now.stock partition class)) 0 class_count }
    {
        self.stock.cached(partition)
    }
}
