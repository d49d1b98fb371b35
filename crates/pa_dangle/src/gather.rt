ghost use Rattle.std.specs.Prelude.{◌≡◌, ◌↔◌, ℕ, ◌<◌, ◌^◌, All, Contains, IfOk, IfSome, IfNone, IsTrue, None, Some, filter, length};
ghost use Rattle.std.specs.List.Sorted.{IsPermutation, IsNonDecreasingBy};
ghost use Rattle.std.specs.Ordering.{nat_cmp};
ghost use Rattle.std.specs.BTreeMap.{get};
ghost use Rattle.pa_slot.specs.Run.{Mark, IsQuarantined, Slots};
ghost use Rattle.pa_rules.specs.declared.played.Played.{Played};
ghost use Rattle.pa_rules.specs.Cells.{history_at};
ghost use Rattle.pa_rules.specs.Played.{mark_of, marks_of};
ghost use Rattle.pa_rules.specs.RecordDemands.{IsRecord};
ghost use Rattle.pa_rules.specs.Rising.{RiseByLine};
ghost use Rattle.pa_audit_records.specs.Rows.{IsPlayedWithin};
ghost use Rattle.pa_dangle.specs.declared.numbers.Kind.TheVariants.{Issued, Freed};
ghost use Rattle.pa_dangle.specs.Collected.{AreCollected, IsNoUse, IsPairFrom, rank_of};
ghost use Rattle.pa_dangle.specs.Origins.{HasOrigin, HaveHandlesOf};
ghost use Rattle.pa_dangle.specs.Pairs.{AreFound, keeps_slot, use_by};
ghost use Rattle.pa_dangle.specs.Steps.{seen_by_answer, AreStepsOf, SawUse};
ghost use Rattle.pa_dangle.specs.Ways.{AreWays};

use crate::found::{Found, Pair, Use};
use crate::numbers::{Kind, last_step, steps_by_number};
use crate::ways::{Way, origin, ways_of};
use pa_record::{Answer, History, Seen};
use pa_rules::Played;
use pa_slot::{OutOfMemory, Word, held, number, refs};
use pa_trace::Op;
use std::alloc::Global;
use std::collections::BTreeMap;

// Whether a record is of a free that found raw_ptrs.
fn keeps(told: Played) -> bool
    ensures { result ≡ keeps_slot told.op told.answer }
{
    match told.answer {
        Answer::Done { seen } => match told.op {
            Op::Free { .. } => refs(seen.found) > 0,
            _ => false,
        },
        _ => false,
    }
}

// How many records are of a free that found raw_ptrs.
fn kept(records: &[Played]) -> u32
    requires few { length records.now < 2 ^ 32 }
    ensures { result ≡ length (filter (λ (x : Played). keeps_slot x.op x.answer) records.now) }
{
    let mut kept: u32 = 0;
    for record in records {
        if keeps(*record) {
            kept += 1;
        }
    }
    kept
}

// What an answer reports of a slot.
fn seen_by(answer: Answer) -> Option<Seen>
    ensures { result ≡ seen_by_answer answer }
{
    match answer {
        Answer::Made { seen, .. }
        | Answer::Done { seen }
        | Answer::Value { seen, .. }
        | Answer::Dangling { seen, .. }
        | Answer::NotOwner { seen }
        | Answer::Shared { seen } => Some(seen),
        Answer::SecondFree { seen } | Answer::StaleUse { seen } => seen,
        _ => None,
    }
}

// Whether a slot with this word is in quarantine.
fn is_kept(word: Word) -> bool
    ensures { IsTrue result ↔ IsQuarantined word.0 }
{
    !held(word) && refs(word) > 0
}

// What a record reports of a slot in quarantine.
fn used_by(told: Played) -> Option<Seen>
    ensures some { IfSome result (SawUse told) }
    ensures none { IfNone result ((m : Mark) → mark_of told ≡ Some m → IsQuarantined m.found → ⊥) }
{
    match seen_by(told.answer) {
        Some(seen) => {
            if is_kept(seen.found) {
                Some(seen)
            } else {
                None
            }
        }
        None => None,
    }
}

// How an op uses the slot of the register that it names first.
fn use_of(op: Op) -> Use
    ensures { result ≡ use_by op }
{
    match op {
        Op::Copy { .. } => Use::Copied,
        Op::Reset { .. } => Use::WasReset,
        Op::Free { .. } => Use::WasFreed,
        Op::Write { .. } => Use::Written,
        Op::Alloc { .. } | Op::Read { .. } | Op::Swap { .. } | Op::Purge => Use::WasRead,
    }
}

// The pair of a record's use. There is one: what is in quarantine was freed, and made before that.
fn pair_of(
    records: &[Played],
    cells: &[History],
    issues: &BTreeMap<u128, u32>,
    frees: &BTreeMap<u128, u32>,
    told: Played,
    seen: Seen,
    origin: u32,
) -> Option<Pair>
    requires rising { RiseByLine records.now }
    requires slots { Slots (marks_of records.now) }
    requires issues { AreStepsOf Issued records.now (get nat_cmp issues.now) (length records.now) }
    requires frees { AreStepsOf Freed records.now (get nat_cmp frees.now) (length records.now) }
    requires told { Contains records.now told }
    requires seen { SawUse told seen }
    requires origin { HasOrigin (history_at cells.now) records.now told origin }
    ensures some { IfSome result (IsPairFrom (history_at cells.now) records.now told) }
    ensures none { IfNone result ⊥ }
{
    let (free, at) = last_step(frees, records, Kind::Freed, seen.slot, number(seen.found))?;
    let (made, _) = last_step(issues, records, Kind::Issued, seen.slot, at)?;
    Some(Pair {
        made,
        free,
        later: told.line,
        how: use_of(told.op),
        origin,
    })
}

// The pair of a record's use, if it used a slot in quarantine. The ways back are shortened on the way.
fn found_at(
    records: &[Played],
    cells: &[History],
    issues: &BTreeMap<u128, u32>,
    frees: &BTreeMap<u128, u32>,
    ways: &mut [Way],
    told: Played,
    at: u32,
) -> Option<Pair>
    requires handles { HaveHandlesOf (history_at cells.now) records.now }
    requires issues { AreStepsOf Issued records.now (get nat_cmp issues.now) (length records.now) }
    requires frees { AreStepsOf Freed records.now (get nat_cmp frees.now) (length records.now) }
    requires ways { AreWays (history_at cells.now) records.now ways.old (length records.now) }
    requires told { IsRecord records.now at told }
    ensures some { IfSome result (IsPairFrom (history_at cells.now) records.now told) }
    ensures none { IfNone result ((m : Mark) → mark_of told ≡ Some m → IsQuarantined m.found → ⊥) }
    ensures ways { AreWays (history_at cells.now) records.now ways.new (length records.now) }
{
    let seen = used_by(told)?;
    let from = origin(records, cells, ways, at);
    pair_of(records, cells, issues, frees, told, seen, from)
}

// Whether no record uses a slot in quarantine.
fn uses_none(records: &[Played]) -> bool
    ensures { IsTrue result → All IsNoUse records.now }
{
    for record in records {
        if used_by(*record).is_some() {
            return false;
        }
    }
    true
}

// The pairs by the lines of the uses. If there are none, no table is made.
fn collect(alloc: Global, records: &[Played], cells: &[History]) -> Result<Vec<Pair>, OutOfMemory>
    requires few { length records.now < 2 ^ 32 }
    requires within { All IsPlayedWithin records.now }
    requires handles { HaveHandlesOf (history_at cells.now) records.now }
    ensures { IfOk result (λ pairs. AreCollected (history_at cells.now) records.now pairs.items (length records.now)) }
{
    if uses_none(records) {
        return Ok(Vec::new(alloc));
    }
    let issues = steps_by_number(alloc, records, Kind::Issued)?;
    let frees = steps_by_number(alloc, records, Kind::Freed)?;
    let mut ways = ways_of(alloc, records, cells)?;
    let mut pairs = Vec::new(alloc);
    let mut at: u32 = 0;
    for record in records {
        let found = found_at(records, cells, &issues, &frees, &mut ways, *record, at);
        if let Some(pair) = found {
            pairs.push(pair)?;
        }
        at += 1;
    }
    Ok(pairs)
}

// The number by which pairs are put in order.
fn rank(pair: Pair) -> u64
    ensures { result ≡ rank_of pair }
{
    4_294_967_296 * pair.free as u64 + pair.later as u64
}

// Puts the pairs in order, by the lines of the frees and then of the uses.
fn sort(pairs: &mut Vec<Pair>)
    ensures same { IsPermutation pairs.old.items pairs.new.items }
    ensures sorted { IsNonDecreasingBy rank_of pairs.new.items }
{
    pairs.sort_unstable_by_key(|pair| rank(*pair));
}

/// The pairs of a legal run, by these records with their ops and by what was exchanged with the cells: each use of what was freed
/// while `raw_ptr`s pointed to it. `left` is how many slots are in quarantine at the end, as the run's last report says.
pub fn pairs_of(
    alloc: Global,
    records: &[Played],
    cells: &[History],
    left: u128,
) -> Result<Found, OutOfMemory>
    requires few { length records.now < 2 ^ 32 }
    requires within { All IsPlayedWithin records.now }
    requires handles { HaveHandlesOf (history_at cells.now) records.now }
    ensures found { IfOk result (λ f. AreFound (history_at cells.now) records.now f.pairs.items f.freed) }
    ensures left { IfOk result (λ f. f.left ≡ left) }
{
    let mut pairs = collect(alloc, records, cells)?;
    sort(&mut pairs);
    let freed = kept(records);
    Ok(Found { pairs, freed, left })
}
