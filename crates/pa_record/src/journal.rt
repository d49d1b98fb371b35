ghost use Rattle.std.specs.Prelude.{◌≡◌};

use crate::RootEntry;
use std::marker::Model;

/// What one root did, in order. It is seen as the list of its entries.
#[derive(Debug, Drop)]
pub struct Journal {
    items: Vec<RootEntry>,
}

impl Model for Journal {
    ghost use Rattle.std.specs.Prelude.{List};
    ghost use Rattle.pa_record.specs.declared.root.RootEntry.{RootEntry};

    ghost Value = { List RootEntry };

    ghost view = { λ journal. journal.items.items };
}

impl Journal {
    /// The journal of these entries, whose memory it keeps.
    pub fn of(entries: Vec<RootEntry>) -> Journal
        ensures entries { result ≡ entries.items }
    {
        Journal { items: entries }
    }

    /// The entries in order.
    pub fn entries(&self) -> &[RootEntry]
        ensures entries { result.now ≡ self.now }
    {
        self.items.as_slice()
    }
}
