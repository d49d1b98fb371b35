ghost use Rattle.std.specs.Prelude.{◌≡◌, ◌<◌, ◌^◌, [], ◌∷◌, ◌++◌, IfOk, OnOk, OnErr, length, map, replicate, slice_index_or, slice_set};
ghost use Rattle.pa_record.specs.Text.{roots_text};
ghost use Rattle.pa_run_writer.specs.Lines.{AreFrom};
ghost use Rattle.std.specs.List.{AllByRecursion};
ghost use Rattle.pa_record.specs.Bits.{RootInBits};

use crate::lines::Lines;
use pa_record::LentEntry;
use pa_slot::OutOfMemory;
use pa_text::Text;
use std::alloc::Global;
use std::marker::Model;

/// The journals of the roots so far, kept as their texts. They are seen as the lists of their entries, from partition 0 on.
#[derive(Drop)]
pub struct Journals {
    of: Vec<Lines>,
}

impl Model for Journals {
    ghost use Rattle.std.specs.Prelude.{List, map};
    ghost use Rattle.pa_record.specs.declared.root.RootEntry.{RootEntry};

    ghost Value = { List (List RootEntry) };

    ghost use Rattle.pa_run_writer.specs.Lines.{AreFrom};

    ghost view = { λ journals. map (λ j. j.entries) journals.of.items };

    ghost invariant = { λ journals. AreFrom 0 journals.of.items };
}

impl Journals {
    /// This many journals with no entries.
    pub fn new(alloc: Global, partitions: u32) -> Result<Journals, OutOfMemory>
        ensures none { IfOk result (λ journals. journals ≡ replicate partitions []) }
    {
        let mut of = Vec::with_capacity(alloc, partitions as usize)?;
        for partition in 0..partitions {
            of.push(Lines::new(alloc, partition))?;
        }
        Ok(Journals { of })
    }

    /// Appends an entry to the journal of a partition, and returns its index there. If memory runs out, the journals are as
    /// before.
    #[inline(always)]
    pub fn push(&mut self, partition: u32, entry: &LentEntry<'_>) -> Result<u32, OutOfMemory>
        requires partition { partition < length self.old }
        requires few { length (slice_index_or self.old partition []) < 2 ^ 32 }
        ensures place { IfOk result (λ place. place ≡ length (slice_index_or self.old partition [])) }
        ensures pushed { OnOk result (self.new ≡ slice_set self.old partition (slice_index_or self.old partition [] ++ entry.now ∷ [])) }
        ensures kept { OnErr result (self.new ≡ self.old) }
    {
        let lines = &mut self.of[partition as usize];
        lines.push(entry)
    }

    // Appends the lines of all journals, from partition 0 on.
    pub(crate) fn push_all(&self, out: &mut Text) -> Result<(), OutOfMemory>
        ensures pushed { OnOk result (out.new ≡ out.old ++ roots_text self.now) }
        ensures fits { OnOk result (AllByRecursion (AllByRecursion RootInBits) self.now) }
        ensures few { length self.now < 2 ^ 63 }
    {
        push_texts(out, self.of.as_slice())
    }
}

// Appends the lines of these journals.
fn push_texts(out: &mut Text, journals: &[Lines]) -> Result<(), OutOfMemory>
    requires { AreFrom 0 journals.now }
    ensures pushed { OnOk result (out.new ≡ out.old ++ roots_text (map (λ j. j.entries) journals.now)) }
    ensures fits { OnOk result (AllByRecursion (AllByRecursion RootInBits) (map (λ j. j.entries) journals.now)) }
{
    for lines in journals {
        out.append(lines.text())?;
    }
    Ok(())
}
