ghost use Rattle.std.specs.Prelude.{◌≡◌, ℕ, ◌+◌, ◌<◌, ◌^◌, ◌↔◌, Bool, [], ◌∷◌, ◌++◌, IfOk, IsTrue, List, OnOk, length};
ghost use Rattle.pa_audit_records.specs.ByKeys.{value_at};
ghost use Rattle.pa_record.specs.declared.root.RootEntry.{RootEntry as Line};
ghost use Rattle.pa_rules.specs.Tells.{TellsFirst};
ghost use Rattle.pa_audit_holders.specs.Owners.{AreOfRuns, HasReturns, TellsThread, first_place};
ghost use Rattle.pa_audit_holders.specs.Holding.{EntryMovesFit, EntryMovesFitAt, KnowsJournal};

use crate::gone::{enter_gone, none_gone};
use crate::moves::{both, direct_slots, move_slots, moves_of, thread_on};
use crate::owners::{Mover, Owner};
use pa_audit_records::{ByKey, Salt};
use pa_dense::{DenseEntry, DenseJournal};
use pa_rules::Played;
use pa_slot::OutOfMemory;
use std::alloc::Global;

// What is known of a journal's slots: the owner of each at each number that an entry names,
// and the least number at which each direct map went back.
#[derive(Drop)]
pub(crate) struct Table {
    pub(crate) owners: ByKey<Owner>,
    pub(crate) gone: ByKey<u64>,
}

// What is known of a journal, and the first of its entries that doesn't fit.
#[derive(Drop)]
pub(crate) struct Walked {
    pub(crate) table: Table,
    pub(crate) misfit: Option<u32>,
}

// The line of a trace's first record, if no phase begins there.
const FIRST_LINE: u32 = 2;

// Enters an entry after those so far, on a line of this thread, or of none. Returns whether it fits.
fn play(
    records: &[Played],
    firsts: &ByKey<u32>,
    table: &mut Table,
    entry: &DenseEntry,
    thread: Option<u32>,
) -> Result<bool, OutOfMemory>
    requires known { AreOfRuns records.now }
    requires returns { HasReturns records.now (value_at firsts.now) }
    requires thread { TellsThread records.now entry.now.line thread }
    ensures table { OnOk result ((before : List Line) → KnowsJournal records.now before table.old
        → KnowsJournal records.now (before ++ entry.now ∷ []) table.new) }
    ensures fits { IfOk result (λ b. (before : List Line) → KnowsJournal records.now before table.old
        → IsTrue b ↔ EntryMovesFit records.now before entry.now) }
{
    let direct = direct_slots(entry.act());
    let moves = moves_of(entry.act(), &direct);
    let stays = none_gone(&table.gone, moves.slots);
    let line = entry.line();
    let mover = Mover { line, thread };
    let fit = move_slots(
        records,
        firsts,
        &mut table.owners,
        mover,
        moves.course,
        moves.slots,
    )?;
    enter_gone(&mut table.gone, entry)?;
    Ok(both(fit, stays))
}

// The first place so far that doesn't fit, once the next one is known to fit or not.
fn first_misfit(first: Option<u32>, at: u32, fits: bool) -> Option<u32>
    ensures { result ≡ first_place first at fits }
{
    match first {
        Some(place) => Some(place),
        None => { if fits { None } else { Some(at) } }
    }
}

// Goes through a journal, entry by entry, even if one doesn't fit.
pub(crate) fn walk(
    alloc: Global,
    salt: Salt,
    records: &[Played],
    firsts: &ByKey<u32>,
    journal: &DenseJournal,
) -> Result<Walked, OutOfMemory>
    requires entries { length journal.now < 2 ^ 32 }
    requires known { AreOfRuns records.now }
    requires returns { HasReturns records.now (value_at firsts.now) }
    requires few { length records.now < 2 ^ 32 }
    ensures table { IfOk result (λ walked. KnowsJournal records.now journal.now walked.table) }
    ensures misfit { IfOk result (λ walked. TellsFirst (EntryMovesFitAt records.now journal.now) walked.misfit) }
{
    let owners = ByKey::new(alloc, salt);
    let gone = ByKey::new(alloc, salt);
    let mut table = Table { owners, gone };
    let mut misfit = None;
    let mut above = FIRST_LINE;
    let mut at: u32 = 0;
    for entry in journal.entries() {
        let found = thread_on(records, entry.line(), above);
        above = found.above;
        let fits = play(records, firsts, &mut table, entry, found.thread)?;
        misfit = first_misfit(misfit, at, fits);
        at += 1;
    }
    Ok(Walked { table, misfit })
}
