ghost use Rattle.std.specs.Prelude.{◌≡◌, OnOk, OnErr};
ghost use Rattle.std.specs.Io.KnownBytes.{Appends};
ghost use Rattle.pa_io.specs.Moves.{HasWrittenPart, HasRisen};
ghost use Rattle.pa_cli.specs.PrintedText.{printed_bytes};

use crate::printed::Printed;
use pa_io::{Failed, Sink};

// Writes all that is printed. If the sink has a fault, a first part of it was written.
pub fn write_printed<K: Sink>(sink: &mut K, text: &Printed) -> Result<(), Failed>
    ensures whole { OnOk result (Appends (K.written sink.old) (K.written sink.new) (printed_bytes text.now)) }
    ensures calm { OnOk result (K.faults sink.new ≡ K.faults sink.old) }
    ensures part { OnErr result (HasWrittenPart (K.written sink.old) (K.written sink.new) (printed_bytes text.now)) }
    ensures cause { OnErr result (HasRisen (K.faults sink.old) (K.faults sink.new)) }
{
    match text {
        Printed::Fixed(text) => write_output(sink, *text),
        Printed::Line(line) => write_output(sink, line.as_slice()),
        Printed::Made(text) => write_output(sink, text.as_slice()),
        Printed::Parts(first, rest) => {
            write_output(sink, first.as_slice())?;
            write_output(sink, rest.as_slice())
        }
    }
}

// Writes all of these bytes. If the sink has a fault, a first part of them was written.
pub fn write_output<K: Sink>(sink: &mut K, text: &[u8]) -> Result<(), Failed>
    ensures whole { OnOk result (Appends (K.written sink.old) (K.written sink.new) text.now) }
    ensures calm { OnOk result (K.faults sink.new ≡ K.faults sink.old) }
    ensures part { OnErr result (HasWrittenPart (K.written sink.old) (K.written sink.new) text.now) }
    ensures cause { OnErr result (HasRisen (K.faults sink.old) (K.faults sink.new)) }
{
    let mut rest = text;
    while !rest.is_empty() {
        let n = sink.write(rest)?;
        let (_, after) = rest.split_at(n);
        rest = after;
    }
    Ok(())
}
