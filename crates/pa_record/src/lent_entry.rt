ghost use Rattle.std.specs.Prelude.{◌≡◌};
ghost use Rattle.pa_record.specs.Act.{act_of};

use crate::act::Act;
use std::marker::Model;

/// An entry of a root's journal whose slots are lent. It is seen as that entry.
#[derive(Drop)]
pub struct LentEntry<'a> {
    line: u32,
    act: Act<'a>,
}

impl<'a> Model for LentEntry<'a> {
    ghost use Rattle.pa_record.specs.declared.root.RootEntry.{RootEntry};

    ghost Value = { RootEntry };

    ghost use Rattle.pa_record.specs.Act.{act_of};

    ghost view = { λ e. record { line = e.line; act = act_of e.act } };
}

impl<'a> LentEntry<'a> {
    /// The entry of a root that did this on this line.
    pub fn of(line: u32, act: Act<'a>) -> LentEntry<'a>
        ensures entry { result ≡ record { line = line; act = act_of act.entry } }
    {
        LentEntry { line, act }
    }

    /// The line of the trace whose op made it.
    pub fn line(&self) -> u32
        ensures line { result ≡ self.now.line }
    {
        self.line
    }

    /// What the root did.
    pub fn act(&self) -> &Act<'a>
        ensures act { act_of result.now ≡ self.now.act }
    {
        &self.act
    }
}
