use crate::thread_lines::LineOp;
use pa_slot::OutOfMemory;
use std::alloc::Global;
use std::marker::Model;

/// The lines of one thread in a phase that its worker has still to play.
#[derive(Drop)]
pub struct Queue {
    lines: Vec<LineOp>,
}

impl Model for Queue {
    ghost use Rattle.std.specs.Prelude.{List};
    ghost use Rattle.pa_runner.specs.declared.thread_lines.LineOp.{LineOp};

    ghost Value = { List LineOp };

    ghost view = { λ q. q.lines.items };
}

impl Queue {
    ghost use Rattle.std.specs.Prelude.{◌≡◌, ◌∷◌, ◌++◌, [], OnErr, OnOk};

    /// A queue without lines.
    pub fn new(alloc: Global) -> Queue
        ensures { result ≡ [] }
    {
        Queue {
            lines: Vec::new(alloc),
        }
    }

    /// Appends a line. If memory runs out, the queue is unchanged.
    pub fn push(&mut self, due: LineOp) -> Result<(), OutOfMemory>
        ensures pushed { OnOk result (self.new ≡ self.old ++ due ∷ []) }
        ensures same { OnErr result (self.new ≡ self.old) }
    {
        self.lines.push(due)?;
        Ok(())
    }

    /// Forgets the lines, and keeps the room for them.
    pub fn clear(&mut self)
        ensures { self.new ≡ [] }
    {
        self.lines.clear();
    }

    /// The lines, in order.
    pub fn as_slice(&self) -> &[LineOp]
        ensures { result.now ≡ self.now }
    {
        self.lines.as_slice()
    }
}
