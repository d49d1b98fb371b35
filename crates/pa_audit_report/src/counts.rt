ghost use Rattle.std.specs.Prelude.{◌≡◌, ℕ, ◌+◌, ◌<◌, ◌≤◌, ◌^◌, [], IfOk, IfSome, IfNone, Option, length, take};
ghost use Rattle.pa_trace.specs.Limits.{most_partitions};
ghost use Rattle.pa_audit_records.specs.ByKeys.{value_at};
ghost use Rattle.pa_slot.specs.declared.word.Step.TheVariants as steps;
ghost use Rattle.pa_slot.specs.Kinds.{leaves};
ghost use Rattle.pa_audit_holders.specs.declared.homes.Home.{Home as SlotHome};
ghost use Rattle.pa_audit_records.specs.Cuts.{AreRecordCuts};
ghost use Rattle.pa_audit_report.specs.Counts.{DoesNothing, HasCounted, HasRoom, HaveUses, IsBytesOf, IsDoneOf, IsOfOther, IsStepOf, MovesNothing, less_of, raised_by, tally_more};

use pa_audit_holders::{Home, found_home};
use pa_audit_records::ByKey;
use pa_record::{Answer, Seen, Tally};
use pa_rules::Played;
use pa_slot::{OutOfMemory, SlotName, Step, Word, refs, returns};
use pa_trace::Op;
use std::alloc::Global;

// What steps did to the slots of one partition: how many went into use and out of it, and into quarantine and out of it.
#[derive(Clone, Copy)]
pub(crate) struct Count {
    pub(crate) issued: Tally,
    pub(crate) freed: Tally,
    pub(crate) entered: Tally,
    pub(crate) left: Tally,
}

// The slots in use of one partition.
#[derive(Clone, Copy)]
pub(crate) struct InUse {
    pub(crate) live: Tally,
    pub(crate) quarantined: Tally,
}

// The slots of a partition that are in use at the end of each phase. The records of the first phases end at these indices.
pub(crate) fn in_use_of(
    alloc: Global,
    partition: u32,
    records: &[Played],
    ends: &[usize],
    homes: &ByKey<Home>,
) -> Result<Vec<InUse>, OutOfMemory>
    requires partition { partition < most_partitions }
    requires few { length records.now < 65536 }
    requires ends { AreRecordCuts records.now ends.now }
    ensures many { IfOk result (λ uses. length uses.items ≡ length ends.now) }
    ensures uses { IfOk result (λ uses. HaveUses (value_at homes.now) partition records.now uses.items) }
{
    let mut uses = Vec::new(alloc);
    let mut count = no_count();
    let mut from = 0;
    for end in ends {
        count = count_on(partition, records, homes, count, from, *end);
        from = *end;
        uses.push(in_use(count))?;
    }
    Ok(uses)
}

// The count with the records at these indices.
fn count_on(
    partition: u32,
    records: &[Played],
    homes: &ByKey<Home>,
    before: Count,
    from: usize,
    end: usize,
) -> Count
    requires partition { partition < most_partitions }
    requires few { length records.now < 65536 }
    requires order { from ≤ end }
    requires within { end ≤ length records.now }
    requires counted { HasCounted (value_at homes.now) partition (take from records.now) before }
    ensures { HasCounted (value_at homes.now) partition (take end records.now) result }
{
    let mut count = before;
    for at in from..end {
        count = count_record(partition, records, homes, count, at);
    }
    count
}

// The count with the record at this index.
fn count_record(
    partition: u32,
    records: &[Played],
    homes: &ByKey<Home>,
    count: Count,
    at: usize,
) -> Count
    requires partition { partition < most_partitions }
    requires few { length records.now < 65536 }
    requires within { at < length records.now }
    requires counted { HasCounted (value_at homes.now) partition (take at records.now) count }
    ensures { HasCounted (value_at homes.now) partition (take (at + 1) records.now) result }
{
    match step_by(records[at]) {
        None => count,
        Some(stepped) => match bytes_in(partition, homes, stepped.slot) {
            None => count,
            Some(bytes) => raised(count, stepped, bytes),
        },
    }
}

// The bytes of a slot of this partition.
fn bytes_in(partition: u32, homes: &ByKey<Home>, slot: SlotName) -> Option<u32>
    requires partition { partition < most_partitions }
    ensures some { IfSome result (IsBytesOf (value_at homes.now) partition slot) }
    ensures small { IfSome result (λ b. b < 4294967296) }
    ensures none { IfNone result (IsOfOther (value_at homes.now) partition slot) }
{
    let home = found_home(homes, slot)?;
    if home.partition == partition {
        Some(home.bytes)
    } else {
        None
    }
}

// A step that a record made on a slot, and in which counts it goes.
#[derive(Clone, Copy)]
struct Stepped {
    slot: SlotName,
    issues: bool,
    frees: bool,
    enters: bool,
    leaves: bool,
}

// The step by which a record makes a count grow. None if it makes none of them grow.
fn step_by(told: Played) -> Option<Stepped>
    ensures some { IfSome result (IsStepOf told) }
    ensures none { IfNone result (MovesNothing told) }
{
    match told.answer {
        Answer::Made { seen, .. } => Some(Stepped {
            slot: seen.slot,
            issues: true,
            frees: false,
            enters: false,
            leaves: false,
        }),
        Answer::Done { seen } => done(told.op, seen),
        _ => None,
    }
}

fn done(op: Op, seen: Seen) -> Option<Stepped>
    ensures some { IfSome result (IsDoneOf op seen) }
    ensures none { IfNone result (DoesNothing op) }
{
    match op {
        Op::Free { .. } => Some(Stepped {
            slot: seen.slot,
            issues: false,
            frees: true,
            enters: refs(seen.found) != 0,
            leaves: false,
        }),
        Op::Reset { .. } => Some(Stepped {
            slot: seen.slot,
            issues: false,
            frees: false,
            enters: false,
            leaves: is_last(seen.found),
        }),
        _ => None,
    }
}

// Whether a reset of this word is the last one of a slot that was freed.
fn is_last(found: Word) -> bool
    ensures { result ≡ leaves steps.Reset found.0 }
{
    returns(Step::Reset, found)
}

// The count with a step on a slot of that many bytes.
fn raised(count: Count, stepped: Stepped, bytes: u32) -> Count
    requires { HasRoom count }
    ensures { result ≡ raised_by count stepped bytes }
{
    Count {
        issued: more(count.issued, stepped.issues, bytes),
        freed: more(count.freed, stepped.frees, bytes),
        entered: more(count.entered, stepped.enters, bytes),
        left: more(count.left, stepped.leaves, bytes),
    }
}

// A tally with one more slot of that many bytes, if it counts.
fn more(tally: Tally, counts: bool, bytes: u32) -> Tally
    requires slots { tally.slots < 65536 }
    requires bytes { tally.bytes < 2 ^ 48 }
    ensures { result ≡ tally_more tally counts bytes }
{
    if !counts {
        return tally;
    }
    Tally {
        slots: tally.slots + 1,
        bytes: tally.bytes + u64::from(bytes),
    }
}

// The count of no steps.
fn no_count() -> Count
    ensures { (homes : ℕ → Option SlotHome) (p : ℕ) → HasCounted homes p [] result }
{
    let none = Tally { slots: 0, bytes: 0 };
    Count {
        issued: none,
        freed: none,
        entered: none,
        left: none,
    }
}

// The slots in use by this count: what was added less what was removed. No more is removed than was added.
fn in_use(count: Count) -> InUse
    ensures live { result.live ≡ less_of count.issued count.freed }
    ensures quarantined { result.quarantined ≡ less_of count.entered count.left }
{
    InUse {
        live: less(count.issued, count.freed),
        quarantined: less(count.entered, count.left),
    }
}

fn less(into: Tally, out: Tally) -> Tally
    ensures { result ≡ less_of into out }
{
    Tally {
        slots: into.slots.saturating_sub(out.slots),
        bytes: into.bytes.saturating_sub(out.bytes),
    }
}
