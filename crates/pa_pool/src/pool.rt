ghost use Rattle.std.specs.Prelude.{◌≡◌, ◌≢◌, ℕ, ◌+◌, ◌*◌, ◌<◌, ◌≤◌, [], ◌∷◌, ◌++◌, length, Some, IfOk, IfErr, IsOk};
ghost use Rattle.std.specs.Vec.{vec_capacity};
ghost use Rattle.pa_layout.specs.Limits.{most_supers};
ghost use Rattle.pa_record.specs.Numbers.{pool_numbers};
ghost use Rattle.pa_region.specs.Lending.{CanLend, HostsKeeper, MakesEntry};
ghost use Rattle.pa_region.specs.Shares.{byte_word_count};
ghost use Rattle.pa_pool.specs.Pools.{IsPoolKept, CanOpen};
ghost use Rattle.pa_pool.specs.Calls.{IsTaken, IsNoteOf, IsAsBefore, Refused, HasSeenTake, ComesBack, IsGivenBack};

use crate::fault::PoolFault;
use crate::run::hand_run;
use pa_place::PoolPlan;
use pa_record::{PoolAct, PoolEntry, pool_numbers};
use pa_region::{Name, Note, Region, Seat, enter_with};
use pa_slot::OutOfMemory;
use std::alloc::Global;
use std::marker::{Model, PhantomData};

// The most members of a list.
const MOST_MEMBERS: usize = 2147483647;

// The pool's keeper.
const KEEPER: u32 = 4;

/// The pool of super pages of the region that the name says. Contracts see it as the view of its seat, its entries, how
/// many super pages there are, and for how many more entries it has room.
#[derive(Drop)]
pub struct Pool<N: Name> {
    seat: Seat,
    plan: PoolPlan,
    entries: Vec<PoolEntry>,
    of: PhantomData<N>,
}

impl<N: Name> Model for Pool<N> {
    ghost use Rattle.std.specs.Prelude.{◌≡◌, ◌-◌, ◌*◌, length, min};
    ghost use Rattle.std.specs.Vec.{vec_capacity};
    ghost use Rattle.pa_region.specs.Shares.{byte_word_count};
    ghost use Rattle.pa_pool.specs.Pools.{PoolValue, IsPoolSound, pool_after};

    ghost Value = { PoolValue };

    ghost view = { λ p. record {
      view = p.seat.view;
      entries = p.entries.items;
      supers = p.plan.supers;
      spare = min (vec_capacity p.entries) 2147483647 - length p.entries.items;
    } };

    ghost invariant = { λ p. (p.seat.region ≡ N.region)
        × (p.plan ≡ pool_after p.entries.items p.plan.supers)
        × IsPoolSound p.plan.supers p.entries.items p.seat.view
        × (byte_word_count N.region ≡ 262144 * p.plan.supers) };
}

impl<N: Name> Pool<N> {
    /// The pool of the region's super pages, at most 64, and none is taken. The note has them as raw,
    /// the pool's keeper, and every lease.
    pub fn open(alloc: Global, note: Note, supers: u32) -> Result<Pool<N>, OutOfMemory>
        requires region { note.region ≡ N.region }
        requires whole { byte_word_count N.region ≡ 262144 * supers }
        requires able { CanOpen supers note.view }
        ensures view { IfOk result (λ p. p.view ≡ note.view) }
        ensures entries { IfOk result (λ p. p.entries ≡ []) }
        ensures supers { IfOk result (λ p. p.supers ≡ supers) }
    {
        let plan = PoolPlan::new(alloc, supers)?;
        Ok(Pool {
            seat: note.seat(),
            plan,
            entries: Vec::new(alloc),
            of: PhantomData,
        })
    }

    /// What the type keeps of the pool. It costs nothing.
    pub fn kept(&self)
        ensures { IsPoolKept self.now }
    {
        // Naming the seat hands the proof what its type keeps.
        let _ = &self.seat;
    }

    /// Takes the lowest `count` super pages that are free and side by side, for a partition, by the op of a line, with
    /// the caller's least stake. It returns the index of the pool's entry, the first super page, and a note with their raw
    /// bytes and the lease of that index.
    pub fn take(
        &mut self,
        region: &Region,
        seat: &mut Seat,
        line: u32,
        partition: u32,
        count: u32,
    ) -> Result<(u32, u32, Note), PoolFault>
        requires regions { (region.now ≡ N.region) × (seat.old.region ≡ N.region) }
        requires lender { CanLend seat.old.view }
        requires count { (1 ≤ count) × (count ≤ most_supers) }
        ensures region { seat.new.region ≡ N.region }
        ensures again { CanLend seat.new.view }
        ensures took { IfOk result (λ r. IsTaken line partition count (Some r.1) r.0 seat.old seat.new self.old self.new) }
        ensures note { IfOk result (λ r. (r.2.region ≡ N.region) × IsNoteOf r.1 count r.0 r.2.view self.new) }
        ensures seen { IfOk result (λ r. HasSeenTake partition r.0 r.1 count seat.new.view) }
        ensures refused { IfErr result (Refused line partition count seat.old seat.new self.old self.new) }
        ensures room { 1 ≤ self.old.spare → IfErr result (λ f. f ≢ PoolFault.OutOfMemory) }
    {
        if self.room().is_err() {
            return Err(PoolFault::OutOfMemory);
        }
        let found = self.plan.take(count);
        let entry = PoolEntry {
            line,
            partition,
            act: PoolAct::Take {
                count,
                first: found,
            },
        };
        let index = append(region, seat, &mut self.seat, &mut self.entries, entry);
        self.seat.aware();
        match found {
            Some(first) => Ok((
                index,
                first,
                hand_run(region, &mut self.seat, first, count, index),
            )),
            None => Err(PoolFault::NoRoom(index)),
        }
    }

    /// Gives back what entry `taken` took, for a partition, by the op of a line, with the caller's least stake. The note has its
    /// super pages and its lease. It returns the index of the pool's entry. The note comes back only if this runs out of
    /// memory, and nothing changed then.
    pub fn give(
        &mut self,
        region: &Region,
        seat: &mut Seat,
        line: u32,
        partition: u32,
        taken: u32,
        note: Note,
    ) -> Result<u32, Note>
        requires regions { (region.now ≡ N.region) × (seat.old.region ≡ N.region) × (note.region ≡ N.region) }
        requires lender { CanLend seat.old.view }
        requires back { (first count : ℕ) × ComesBack partition taken first count seat.old.view note.view }
        ensures region { seat.new.region ≡ N.region }
        ensures again { CanLend seat.new.view }
        ensures gave { IfOk result (λ index. (first count : ℕ) → ComesBack partition taken first count seat.old.view note.view →
            IsGivenBack line partition taken first count index seat.old seat.new self.old self.new) }
        ensures kept { IfErr result (λ n. (n ≡ note) × (seat.new ≡ seat.old) × IsAsBefore self.old self.new) }
        ensures room { 1 ≤ self.old.spare → IsOk result }
    {
        if self.room().is_err() {
            return Err(note);
        }
        self.seat.aware();
        region.take(&mut self.seat, note);
        self.seat.aware();
        let (first, count) = run_of(&self.entries[taken as usize]);
        self.plan.give(first, count);
        let entry = PoolEntry {
            line,
            partition,
            act: PoolAct::Give { count, first },
        };
        Ok(append(region, seat, &mut self.seat, &mut self.entries, entry))
    }

    /// Makes room for one more entry.
    pub fn room(&mut self) -> Result<(), OutOfMemory>
        ensures same { IsAsBefore self.old self.new }
        ensures room { IfOk result (λ _. 1 ≤ self.new.spare) }
        ensures enough { 1 ≤ self.old.spare → IsOk result }
    {
        if self.entries.len() >= MOST_MEMBERS {
            return Err(OutOfMemory);
        }
        self.entries.reserve(1)?;
        Ok(())
    }

    /// The pool's entries, in order.
    pub fn entries(&self) -> &[PoolEntry]
        ensures { result.now ≡ self.now.entries }
    {
        &self.entries
    }

    /// The pool's entries, and its whole seat. Its super pages are all that the region has.
    pub fn close(self) -> (Vec<PoolEntry>, Note)
        ensures kept { IsPoolKept self }
        ensures whole { byte_word_count N.region ≡ 262144 * self.supers }
        ensures entries { result.0.items ≡ self.entries }
        ensures note { (result.1.region ≡ N.region) × (result.1.view ≡ self.view) }
    {
        let Pool {
            seat,
            plan: _,
            entries,
            of: _,
        } = self;
        (entries, seat.note())
    }
}

// Makes the entry in the pool's list, with the caller's least stake, and appends it to the entries, which have room for it.
// It returns the entry's index.
fn append(
    region: &Region,
    lender: &mut Seat,
    host: &mut Seat,
    entries: &mut Vec<PoolEntry>,
    entry: PoolEntry,
) -> u32
    requires regions { (lender.old.region ≡ region.now) × (host.old.region ≡ region.now) }
    requires lender { CanLend lender.old.view }
    requires host { HostsKeeper 4 host.old.view }
    requires room { length entries.old.items < vec_capacity entries.old }
    requires few { length entries.old.items < 2147483647 }
    ensures index { result ≡ length entries.old.items }
    ensures entries { entries.new.items ≡ entries.old.items ++ entry ∷ [] }
    ensures regions { (lender.new.region ≡ lender.old.region) × (host.new.region ≡ host.old.region) }
    ensures again { CanLend lender.new.view × HostsKeeper 4 host.new.view }
    ensures noted { MakesEntry 4 (pool_numbers entry) lender.old lender.new host.old host.new }
{
    let index = entries.len() as u32;
    enter_with(
        region,
        lender,
        host,
        KEEPER,
        pool_numbers(&entry).as_slice(),
    );
    entries.push_reserved(entry);
    index
}

// The super pages that a take found: the first, and how many.
fn run_of(entry: &PoolEntry) -> (u32, u32)
    requires { (count first : ℕ) × (entry.now.act ≡ PoolAct.Take count (Some first)) }
    ensures { entry.now.act ≡ PoolAct.Take result.1 (Some result.0) }
{
    match entry.act {
        PoolAct::Take {
            count,
            first: Some(first),
        } => (first, count),
        _ => unreachable!(),
    }
}
