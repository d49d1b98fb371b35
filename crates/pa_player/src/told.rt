ghost use Rattle.std.specs.Prelude.{◌≡◌, ℕ, ◌+◌, ◌<◌, ◌≤◌, ◌^◌, [], ◌∷◌, ◌++◌, IfOk, OnOk, OnErr, length, slice_index_or};
ghost use Rattle.pa_record.specs.declared.root.RootAct.TheVariants.{Full};
ghost use Rattle.pa_record.specs.declared.run.Run.{Run};
ghost use Rattle.pa_record.specs.Act.{act_of};
ghost use Rattle.pa_record.specs.RunText.{IsPrintable};
ghost use Rattle.pa_player.specs.Told.{IsToldRun, IsToldText, journal_in, history_in, with_act, with_exchange};
ghost use Rattle.pa_player.specs.Begun.{IsUntold};

use crate::output::{ListOutput, Output, TextOutput};
use pa_buckets::Class;
use pa_record::{
    Act, Answer, CellEntry, Entry, Held, History, LentEntry, PoolAct, PoolEntry, ReportLine, Run,
};
use pa_run_writer::run_text;
use pa_slot::OutOfMemory;
use pa_trace::CELLS;
use std::alloc::Global;
use std::marker::Model;

/// What the run contains so far, and the number of the line that is played. It is seen as its lists,
/// wherever the records and the journals are sent.
#[derive(Drop)]
pub struct Told<O: Output> {
    output: O,
    pools: Vec<PoolEntry>,
    histories: Vec<History>,
    report: Vec<ReportLine>,
    line: u32,
}

impl<O: Output> Model for Told<O> {
    ghost use Rattle.pa_player.specs.Told.{Lists};

    ghost Value = { Lists };

    ghost view = { λ t. record {
      entries = (O.books t.output).entries;
      journals = (O.books t.output).journals;
      pools = t.pools.items;
      histories = t.histories.items;
      report = t.report.items;
      line = t.line;
    } };
}

impl<O: Output> Told<O> {
    /// Nothing, before the first line, when the output was sent nothing. The head is line 1.
    pub fn new(alloc: Global, output: O) -> Result<Told<O>, OutOfMemory>
        requires entries { (O.books output).entries ≡ [] }
        requires journals { (q : ℕ) → slice_index_or (O.books output).journals q [] ≡ [] }
        ensures { IfOk result (IsUntold (length (O.books output).journals)) }
    {
        let mut histories = Vec::with_capacity(alloc, CELLS as usize)?;
        for _ in 0..CELLS {
            histories.push(History::new(alloc))?;
        }
        Ok(Told {
            output,
            pools: Vec::new(alloc),
            histories,
            report: Vec::new(alloc),
            line: 2,
        })
    }

    // The record of this line, after which the next is played.
    pub(crate) fn answer(&mut self, thread: u32, answer: Answer) -> Result<(), OutOfMemory>
        requires { self.old.line ≤ 65537 }
        ensures answered { OnOk result (self.new ≡ record self.old {
          entries = self.old.entries ++ record { line = self.old.line; thread = thread; answer = answer } ∷ [];
          line = self.old.line + 1;
        }) }
        ensures same { OnErr result (self.new ≡ self.old) }
    {
        self.output.record(Entry {
            line: self.line,
            thread,
            answer,
        })?;
        self.line += 1;
        Ok(())
    }

    // The next line is played from now on.
    pub(crate) fn next(&mut self)
        requires { self.old.line ≤ 65537 }
        ensures { self.new ≡ record self.old { line = self.old.line + 1 } }
    {
        self.line += 1;
    }

    // An entry of the pool on this line.
    pub(crate) fn pool(&mut self, partition: u32, act: PoolAct) -> Result<(), OutOfMemory>
        ensures pooled { OnOk result (self.new ≡ record self.old {
          pools = self.old.pools ++ record { line = self.old.line; partition = partition; act = act } ∷ [];
        }) }
        ensures same { OnErr result (self.new ≡ self.old) }
    {
        self.pools.push(PoolEntry {
            line: self.line,
            partition,
            act,
        })?;
        Ok(())
    }

    // A line of the report.
    pub(crate) fn report(&mut self, line: ReportLine) -> Result<(), OutOfMemory>
        ensures reported { OnOk result (self.new ≡ record self.old { report = self.old.report ++ line ∷ [] }) }
        ensures same { OnErr result (self.new ≡ self.old) }
    {
        self.report.push(line)?;
        Ok(())
    }

    // One more entry of a root's journal on this line. Returns its index there.
    #[inline(always)]
    pub(crate) fn root(&mut self, partition: u32, act: Act<'_>) -> Result<u32, OutOfMemory>
        requires partition { partition < length self.old.journals }
        requires few { length (journal_in self.old partition) < 2 ^ 32 }
        ensures place { IfOk result (λ entry. entry ≡ length (journal_in self.old partition)) }
        ensures after { OnOk result (self.new ≡ with_act partition (record { line = self.old.line; act = act_of act.entry }) self.old) }
        ensures same { OnErr result (self.new ≡ self.old) }
    {
        self.output.act(partition, &LentEntry::of(self.line, act))
    }

    // The entry that there was no room for a slot of the class, or, if none is named, for a direct map. Returns its index there.
    #[inline(never)]
    pub(crate) fn refused(
        &mut self,
        partition: u32,
        class: Option<Class>,
        pool: u32,
    ) -> Result<u32, OutOfMemory>
        requires partition { partition < length self.old.journals }
        requires few { length (journal_in self.old partition) < 2 ^ 32 }
        ensures place { IfOk result (λ entry. entry ≡ length (journal_in self.old partition)) }
        ensures after { OnOk result (self.new ≡ with_act partition (record { line = self.old.line; act = Full class pool }) self.old) }
        ensures same { OnErr result (self.new ≡ self.old) }
    {
        self.root(partition, Act::Full { class, pool })
    }

    // An exchange with a cell on this line. Returns its index in the cell's history.
    pub(crate) fn exchange(
        &mut self,
        cell: u32,
        gave: Held,
        found: Held,
    ) -> Result<u32, OutOfMemory>
        requires cell { cell < length self.old.histories }
        requires few { length (history_in self.old cell) < 2 ^ 32 }
        ensures place { IfOk result (λ entry. entry ≡ length (history_in self.old cell)) }
        ensures after { OnOk result (self.new ≡ with_exchange cell (record { line = self.old.line; gave = gave; found = found }) self.old) }
        ensures same { OnErr result (self.new ≡ self.old) }
    {
        let line = self.line;
        let history = &mut self.histories[cell as usize];
        let entry = history.entries().len() as u32;
        history.push(CellEntry { line, gave, found })?;
        Ok(entry)
    }
}

impl Told<ListOutput> {
    /// The run that was reported.
    pub fn into_run(self, alloc: Global) -> Result<Run, OutOfMemory>
        ensures { IfOk result (IsToldRun self) }
    {
        let (entries, roots) = self.output.into_lists(alloc)?;
        Ok(Run {
            entries,
            roots,
            pool: self.pools,
            cells: self.histories,
            report: self.report,
        })
    }
}

impl Told<TextOutput> {
    /// The text of the run that was reported.
    pub fn into_text(self) -> Result<Vec<u8>, OutOfMemory>
        requires { (r : Run) → IsToldRun self r → IsPrintable r }
        ensures { IfOk result (λ text. IsToldText self text.items) }
    {
        let TextOutput { records, journals } = self.output;
        run_text(records, journals, self.pools, self.histories, self.report)
    }
}
