ghost use Rattle.std.specs.Prelude.{◌≡◌, slice_get};
ghost use Rattle.pa_rules.specs.Cells.{history_at};
ghost use Rattle.pa_rules.specs.Changes.{change_of, found_in};
ghost use Rattle.pa_audit_records.specs.Rows.{IsPlayedWithin};
ghost use Rattle.pa_audit_records.specs.Tables.{AreRegsOf, regs_in, regs_next};

use crate::registers::Registers;
use crate::rows::{exchange, register};
use pa_record::{Answer, Held, History};
use pa_rules::{Played, Register};
use pa_slot::SlotName;
use pa_trace::Op;

// What the exchange of this index with the cell found, and nothing if there is none.
fn found_by(cells: &[History], cell: u32, entry: u32) -> Held
    ensures { result ≡ found_in (slice_get (history_at cells.now cell) entry) }
{
    match exchange(cells, cell, entry) {
        Some(found) => found.found,
        None => Held::Nothing,
    }
}

// The register that a record's answer changes, and what it holds then.
fn change_by(cells: &[History], op: Op, answer: Answer) -> Option<(u32, Register<SlotName>)>
    ensures { result ≡ change_of (history_at cells.now) op answer }
{
    match op {
        Op::Alloc { reg, .. } => match answer {
            Answer::Made { seen, .. } => Some((reg, Register::Own(seen.slot))),
            _ => None,
        },
        Op::Copy { to, .. } => match answer {
            Answer::Done { seen } => Some((to, Register::Ref(seen.slot))),
            _ => None,
        },
        Op::Reset { reg } => match answer {
            Answer::Done { .. } => Some((reg, Register::Cleared)),
            _ => None,
        },
        Op::Free { reg } => match answer {
            Answer::Done { .. } => Some((reg, Register::Freed)),
            _ => None,
        },
        Op::Swap { cell, reg } => match answer {
            Answer::Swapped { entry } => Some((reg, register(found_by(cells, cell, entry)))),
            _ => None,
        },
        Op::Write { .. } | Op::Read { .. } | Op::Purge => None,
    }
}

impl Registers {
    /// Changes the registers as a record's answer does. The record's thread is below 16, and it names registers below 64.
    pub fn change(&mut self, cells: &[History], told: &Played)
        requires within { IsPlayedWithin told.now }
        ensures { AreRegsOf self.new (regs_next (history_at cells.now) (regs_in self.old) told.now) }
    {
        if let Some((reg, holds)) = change_by(cells, told.op, told.answer) {
            self.set(told.thread, reg, holds);
        }
    }
}
