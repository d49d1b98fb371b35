ghost use Rattle.std.specs.Prelude.{◌≡◌};

use pa_trace::Line;
use std::marker::Model;

/// A script: the head of a trace, and the lines after it. `lines[i]` is line `i + 2` of the text; the head is line 1.
#[derive(Debug, Drop)]
pub struct Script {
    pub region: u32,
    pub partitions: u32,
    pub threads: u32,
    pub lines: ScriptLines,
}

/// One line after the head.
#[derive(Clone, Copy, Debug, PartialEq, Eq)]
pub enum ScriptLine {
    /// A line of a trace.
    Plain(Line),
    /// A thread gives the object that a register owns another size in bytes.
    Resize { thread: u32, reg: u32, size: u32 },
}

/// The lines of a script after its head, in order.
#[derive(Debug, Drop)]
pub struct ScriptLines {
    items: Vec<ScriptLine>,
}

impl Model for ScriptLines {
    ghost use Rattle.std.specs.Prelude.{List};
    ghost use Rattle.pa_script.specs.declared.script.ScriptLine.{ScriptLine};

    ghost Value = { List ScriptLine };

    ghost view = { λ lines. lines.items.items };
}

impl ScriptLines {
    /// The lines of a vector, whose memory it keeps.
    pub fn of(items: Vec<ScriptLine>) -> ScriptLines
        ensures { result ≡ items.items }
    {
        ScriptLines { items }
    }

    /// The lines as a slice.
    pub fn as_slice(&self) -> &[ScriptLine]
        ensures { result.now ≡ self.now }
    {
        self.items.as_slice()
    }

    /// The vector of the lines, with its memory.
    pub fn into_vec(self) -> Vec<ScriptLine>
        ensures { result.items ≡ self }
    {
        self.items
    }
}
