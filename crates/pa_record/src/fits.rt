//! What the types of a run say of its numbers. These calls do nothing when they run.
ghost use Rattle.std.specs.Prelude.{IfSome};
ghost use Rattle.std.specs.List.{AllByRecursion};
ghost use Rattle.pa_text.specs.Hex.{SlotFits};
ghost use Rattle.pa_record.specs.Act.{act_of};
ghost use Rattle.pa_record.specs.Bits.{Is32, IsClass, EntryInBits, NumberedInBits, RootActInBits, RootInBits, PoolInBits, CellInBits, ReportInBits, RunInBits};

use crate::act::Act;
use crate::lent_entry::LentEntry;
use crate::{CellEntry, Entry, History, Journal, Numbered, PoolEntry, ReportLine, RootEntry, Run};
use pa_buckets::Class;
use pa_slot::SlotName;

/// Each number of a run has the bits of its type, each class is one of the 170, and no batch has more than 16 slots.
pub fn run_fits(run: &Run)
    ensures { RunInBits run.now }
{
    entries_fit(&run.entries);
    journals_fit(&run.roots);
    pool_fits(&run.pool);
    histories_fit(&run.cells);
    report_fits(&run.report);
}

fn entries_fit(entries: &[Entry])
    ensures { AllByRecursion EntryInBits entries.now }
{
    for entry in entries {
        entry_fits(*entry);
    }
}

/// Each number of a record has the bits of its type.
pub fn entry_fits(entry: Entry)
    ensures { EntryInBits entry }
{}

fn journals_fit(journals: &[Journal])
    ensures { AllByRecursion (AllByRecursion RootInBits) journals.now }
{
    for journal in journals {
        journal_fits(journal.entries());
    }
}

fn journal_fits(entries: &[RootEntry])
    ensures { AllByRecursion RootInBits entries.now }
{
    for entry in entries {
        root_fits(&entry.lent());
    }
}

/// Each number of an entry of a journal has the bits of its type, its class is one of the 170, and its batch has at most 16
/// slots.
pub fn root_fits(entry: &LentEntry<'_>)
    ensures { RootInBits entry.now }
{
    number_fits(entry.line());
    root_act_fits(entry.act());
}

fn root_act_fits(act: &Act<'_>)
    ensures { RootActInBits (act_of act.now) }
{
    match act {
        Act::Fill { class, pool, slots } => {
            class_fits(Some(*class));
            pool_number_fits(*pool);
            batch_fits(slots.lent().items());
        }
        Act::Map { pool, slot, len } => {
            number_fits(*pool);
            slot_fits(*slot);
            number_fits(*len);
        }
        Act::Full { class, pool } => {
            class_fits(*class);
            number_fits(*pool);
        }
        Act::Give { slots } => batch_fits(slots.lent().items()),
        Act::Unmap { pool, slot } => {
            number_fits(*pool);
            numbered_fits(*slot);
        }
        Act::Purge => {}
    }
}

fn number_fits(n: u32)
    ensures { Is32 n }
{}

fn pool_number_fits(n: Option<u32>)
    ensures { IfSome n Is32 }
{}

fn class_fits(class: Option<Class>)
    ensures { IfSome class IsClass }
{
    if let Some(class) = class {
        class.number();
    }
}

fn slot_fits(slot: SlotName)
    ensures { SlotFits slot }
{}

fn batch_fits(slots: &[Numbered])
    ensures { AllByRecursion NumberedInBits slots.now }
{
    for slot in slots {
        numbered_fits(*slot);
    }
}

fn numbered_fits(slot: Numbered)
    ensures { NumberedInBits slot }
{}

/// Each number of the pool's entries has the bits of its type.
pub fn pool_fits(entries: &[PoolEntry])
    ensures { AllByRecursion PoolInBits entries.now }
{
    for entry in entries {
        pool_entry_fits(*entry);
    }
}

fn pool_entry_fits(entry: PoolEntry)
    ensures { PoolInBits entry }
{}

/// Each number of the exchanges with the cells has the bits of its type.
pub fn histories_fit(histories: &[History])
    ensures { AllByRecursion (AllByRecursion CellInBits) histories.now }
{
    for history in histories {
        history_fits(history.entries());
    }
}

fn history_fits(entries: &[CellEntry])
    ensures { AllByRecursion CellInBits entries.now }
{
    for entry in entries {
        exchange_fits(*entry);
    }
}

fn exchange_fits(entry: CellEntry)
    ensures { CellInBits entry }
{}

/// Each number of the report has the bits of its type.
pub fn report_fits(report: &[ReportLine])
    ensures { AllByRecursion ReportInBits report.now }
{
    for line in report {
        line_fits(*line);
    }
}

fn line_fits(line: ReportLine)
    ensures { ReportInBits line }
{}
