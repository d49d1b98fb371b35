ghost use Rattle.std.specs.Prelude.{◌≡◌, ◌+◌, ◌<◌, length};
ghost use Rattle.pa_buckets.specs.Limits.{class_count};
ghost use Rattle.pa_record.specs.RunText.{NamesSlots};

mod answers;
mod lines;
mod numbers;
mod runs;

use pa_buckets::Class;
use pa_record::{
    Answer, Batch, Entry, Numbered, PoolAct, PoolEntry, ReportLine, RootAct, RootEntry, Seen, Tally,
};
use pa_slot::{SlotName, Word};

// The name of the slot at `start`, in a super page that the first entry of the pool took.
fn name(start: u32) -> SlotName {
    SlotName { start, born: 0 }
}

// The slot at `start`, in which this word was found.
fn seen(start: u32, found: u64) -> Seen {
    let slot = name(start);
    Seen {
        slot,
        found: Word(found),
    }
}

// The record of a line of thread 0.
fn entry(line: u32, answer: Answer) -> Entry {
    Entry {
        line,
        thread: 0,
        answer,
    }
}

// The answer of an allocation.
fn made(start: u32, usable: u32, found: u64) -> Answer {
    let seen = seen(start, found);
    Answer::Made { seen, usable }
}

// The answer of a counted step.
fn done(start: u32, found: u64) -> Answer {
    let seen = seen(start, found);
    Answer::Done { seen }
}

// The batch with one more slot.
fn with(batch: Batch, start: u32, number: u64) -> Batch
    requires { length batch < 16 }
    ensures { length result ≡ length batch + 1 }
{
    let mut batch = batch;
    batch.push(Numbered {
        slot: name(start),
        number,
    });
    batch
}

// The first eight slots of 16 bytes of a region.
fn eight(number: u64) -> Batch
    ensures { length result ≡ 8 }
{
    let batch = with(Batch::new(), 0x4000, number);
    let batch = with(with(batch, 0x4010, number), 0x4020, number);
    let batch = with(with(batch, 0x4030, number), 0x4040, number);
    let batch = with(with(batch, 0x4050, number), 0x4060, number);
    with(batch, 0x4070, number)
}

// A batch of one slot.
fn one(start: u32) -> Batch
    ensures { length result ≡ 1 }
{
    with(Batch::new(), start, 0)
}

// The entry of a fill.
fn fill(line: u32, class: u32, pool: Option<u32>, slots: Batch) -> RootEntry
    requires real { class < class_count }
    requires some { 0 < length slots }
    ensures { NamesSlots result.act }
{
    let class = Class::of(class).unwrap();
    RootEntry {
        line,
        act: RootAct::Fill { class, pool, slots },
    }
}

// An entry of the pool by which partition 0 took a super page, or found none.
fn take(line: u32, first: Option<u32>) -> PoolEntry {
    PoolEntry {
        line,
        partition: 0,
        act: PoolAct::Take { count: 1, first },
    }
}

// An entry of the pool by which partition 0 gave super page 0 back.
fn give(line: u32) -> PoolEntry {
    PoolEntry {
        line,
        partition: 0,
        act: PoolAct::Give { count: 1, first: 0 },
    }
}

fn tally(slots: u64, bytes: u64) -> Tally {
    Tally { slots, bytes }
}

// The report's line of a partition from which nothing was requested.
fn nothing(phase: u32, partition: u32) -> ReportLine {
    let none = tally(0, 0);
    ReportLine {
        phase,
        partition,
        live: none,
        quarantined: none,
        cached: none,
        root: none,
        committed: 0,
        reserved: 0,
        full: 0,
        active: 0,
        empty: 0,
        decommitted: 0,
    }
}
