ghost use Rattle.std.specs.Prelude.{◌≡◌, ◌↔◌, ◌-◌, ◌<◌, ◌≤◌, ◌^◌, IsTrue, IfOk, All, ◌==◌, position};
ghost use Rattle.std.specs.Vec.{vec_capacity};
ghost use Rattle.pa_record.specs.declared.taken.Taken.{Taken as Run};
ghost use Rattle.pa_record.specs.Pool.{new_pool, took, gave, without_run, IsApart, IsFreeRun, IsLowest, IsOneTake};

use pa_record::Taken;
use pa_slot::OutOfMemory;
use std::alloc::Global;
use std::marker::Model;

// The most super pages that a pool has.
const MOST_SUPERS: usize = 64;

/// The pool of super pages, numbered from 0. Each take and each give is an entry, numbered from 0 too. It is seen as the
/// super pages, the number of entries so far, and the runs that are taken.
#[derive(Drop)]
pub struct PoolPlan {
    supers: u32,
    entries: u32,
    taken: Vec<Taken>,
}

impl Model for PoolPlan {
    ghost use Rattle.std.specs.Prelude.{◌≤◌};
    ghost use Rattle.std.specs.Vec.{vec_capacity};
    ghost use Rattle.pa_record.specs.Pool.{PoolState};

    ghost Value = { PoolState };

    ghost use Rattle.pa_place.specs.Pool.{IsSoundPlan};

    ghost view = { λ p. record { supers = p.supers; entries = p.entries; taken = p.taken.items } };

    ghost invariant = { λ p. (64 ≤ vec_capacity p.taken)
        × IsSoundPlan (record { supers = p.supers; entries = p.entries; taken = p.taken.items }) };
}

impl PoolPlan {
    /// A pool of `supers` super pages, at most 64, none of which is taken.
    pub fn new(alloc: Global, supers: u32) -> Result<PoolPlan, OutOfMemory>
        requires { supers ≤ 64 }
        ensures start { IfOk result (λ p. p ≡ new_pool supers) }
    {
        let taken = Vec::with_capacity(alloc, MOST_SUPERS)?;
        Ok(PoolPlan {
            supers,
            entries: 0,
            taken,
        })
    }

    /// How many takes and gives there were.
    pub fn entries(&self) -> u32
        ensures { result ≡ self.now.entries }
    {
        self.entries
    }

    /// Takes the lowest `count` consecutive super pages that aren't taken, and returns the first of them. `None`
    /// exactly when there are none. The call is one entry in both cases. It allocates nothing.
    pub fn take(&mut self, count: u32) -> Option<u32>
        requires some { 1 ≤ count }
        requires entries { self.old.entries < 2 ^ 32 - 1 }
        ensures lowest { IsLowest self.old count result }
        ensures after { self.new ≡ took count result self.old }
        ensures few { self.old.supers ≤ 64 }
    {
        let found = self.lowest(count);
        if let Some(first) = found {
            self.taken.push_reserved(Taken {
                entry: self.entries,
                first,
                count,
            });
        }
        self.entries += 1;
        found
    }

    /// Gives the `count` super pages from `first` on back, which are one take that wasn't given back. The call is one entry. It
    /// allocates nothing.
    pub fn give(&mut self, first: u32, count: u32)
        requires one_take { (t : Run) × IsOneTake self.old first count t }
        requires entries { self.old.entries < 2 ^ 32 - 1 }
        ensures { self.new ≡ gave first self.old }
    {
        remove_run(&mut self.taken, first);
        self.entries += 1;
    }

    /// Whether the `count` super pages from `first` on are one take that wasn't given back.
    pub fn taken(&self, first: u32, count: u32) -> bool
        ensures { IsTrue result ↔ ((t : Run) × IsOneTake self.now first count t) }
    {
        self.taken
            .iter()
            .any(|run| run.first == first && run.count == count)
    }

    /// The runs that are taken, in the order of their entries.
    pub fn runs(&self) -> &[Taken]
        ensures { result.now ≡ self.now.taken }
    {
        self.taken.as_slice()
    }

    // The first of the lowest `count` super pages that are free.
    fn lowest(&self, count: u32) -> Option<u32>
        requires { 1 ≤ count }
        ensures { IsLowest self.now count result }
    {
        for first in 0..self.supers {
            if self.is_free(first, count) {
                return Some(first);
            }
        }
        None
    }

    // Whether the `count` super pages from `first` on are in the region and free.
    fn is_free(&self, first: u32, count: u32) -> bool
        ensures { IsTrue result ↔ IsFreeRun self.now count first }
    {
        let inside = u64::from(first) + u64::from(count) <= u64::from(self.supers);
        inside && are_apart(first, count, &self.taken)
    }
}

// Whether no run has one of the `count` super pages from `first` on.
fn are_apart(first: u32, count: u32, taken: &[Taken]) -> bool
    ensures { IsTrue result ↔ All (IsApart first count) taken.now }
{
    taken.iter().all(|run| is_apart(first, count, run))
}

// Removes the run that begins there.
fn remove_run(taken: &mut Vec<Taken>, first: u32)
    ensures removed { taken.new.items ≡ without_run first taken.old.items }
    ensures room { vec_capacity taken.new ≡ vec_capacity taken.old }
{
    if let Some(at) = place_of(taken, first) {
        taken.remove(at);
    }
}

// The index of the run that begins there.
fn place_of(taken: &[Taken], first: u32) -> Option<usize>
    ensures { result ≡ position (λ t. t.first == first) taken.now }
{
    taken.iter().position(|run| run.first == first)
}

// Whether the run has none of the `count` super pages from `first` on.
fn is_apart(first: u32, count: u32, run: &Taken) -> bool
    ensures { IsTrue result ↔ IsApart first count run.now }
{
    u64::from(first) + u64::from(count) <= u64::from(run.first)
        || u64::from(run.first) + u64::from(run.count) <= u64::from(first)
}
