ghost use Rattle.std.specs.Prelude.{◌≡◌, ◌<◌, ◌++◌, length, OnOk, OnErr};
ghost use Rattle.std.specs.List.{flat_map};
ghost use Rattle.std.specs.Io.{StartsWith};
ghost use Rattle.pa_record.specs.Text.{field_text, tally_text, places_text, bytes_text, spans_text, report_text};

use crate::writing::push_field;
use crate::{ReportLine, Tally};
use pa_slot::OutOfMemory;
use pa_text::{Text, push_byte};

/// Appends the lines of the report, in their order. If memory runs out, a first part of it may have been appended; it doesn't if there
/// are none.
#[tactic(auto, using(crate::proofs::Joining::starts_through))]
pub fn push_report(out: &mut Text, report: &[ReportLine]) -> Result<(), OutOfMemory>
    ensures pushed { OnOk result (out.new ≡ out.old ++ flat_map report_text report.now) }
    ensures kept { OnErr result (StartsWith out.new out.old) }
    ensures asks { OnErr result (0 < length report.now) }
{
    for line in report {
        push_line(out, line)?;
    }
    Ok(())
}

// Appends one line of the report, with its LF.
fn push_line(out: &mut Text, line: &ReportLine) -> Result<(), OutOfMemory>
    ensures pushed { OnOk result (out.new ≡ out.old ++ report_text line.now) }
    ensures kept { OnErr result (StartsWith out.new out.old) }
{
    push_places(out, line)?;
    push_field(out, b" committed ", line.committed)?;
    push_field(out, b" reserved ", line.reserved)?;
    push_spans(out, line)?;
    push_byte(out, b'\n')
}

// Appends the line's phase, its partition, and where its slots are.
#[tactic(auto, unfolding(crate::specs::Text::places_text))]
fn push_places(out: &mut Text, line: &ReportLine) -> Result<(), OutOfMemory>
    ensures pushed { OnOk result (out.new ≡ out.old ++ places_text line.now) }
    ensures kept { OnErr result (StartsWith out.new out.old) }
{
    push_field(out, b"s ", u64::from(line.phase))?;
    push_field(out, b" ", u64::from(line.partition))?;
    push_tally(out, b" live ", line.live)?;
    push_tally(out, b" quarantined ", line.quarantined)?;
    push_tally(out, b" cached ", line.cached)?;
    push_tally(out, b" root ", line.root)
}

// Appends the line's spans by state.
#[tactic(auto, unfolding(crate::specs::Text::spans_text))]
fn push_spans(out: &mut Text, line: &ReportLine) -> Result<(), OutOfMemory>
    ensures pushed { OnOk result (out.new ≡ out.old ++ spans_text line.now) }
    ensures kept { OnErr result (StartsWith out.new out.old) }
{
    push_field(out, b" full ", u64::from(line.full))?;
    push_field(out, b" active ", u64::from(line.active))?;
    push_field(out, b" empty ", u64::from(line.empty))?;
    push_field(out, b" decommitted ", u64::from(line.decommitted))
}

// Appends the word, the number of slots and the number of bytes.
fn push_tally(out: &mut Text, word: &[u8], tally: Tally) -> Result<(), OutOfMemory>
    ensures pushed { OnOk result (out.new ≡ out.old ++ tally_text word.now tally) }
    ensures kept { OnErr result (StartsWith out.new out.old) }
{
    push_field(out, word, tally.slots)?;
    push_field(out, b" ", tally.bytes)
}
