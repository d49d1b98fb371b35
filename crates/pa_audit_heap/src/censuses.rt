ghost use Rattle.std.specs.Prelude.{◌≡◌, ℕ, ◌<◌, OnErr, OnOk, []};
ghost use Rattle.pa_record.specs.Census.{census};
ghost use Rattle.pa_audit_heap.specs.Walking.{AreFilledUp};

use pa_place::Placement;
use pa_record::Census;
use pa_slot::OutOfMemory;
use std::alloc::Global;
use std::marker::Model;

/// What a partition's root has at the end of each phase, from phase 1 on. It is seen as the list of them.
#[derive(Drop)]
pub struct Censuses {
    items: Vec<Census>,
}

impl Model for Censuses {
    ghost use Rattle.std.specs.Prelude.{List};
    ghost use Rattle.pa_record.specs.declared.census.Census.{Census};

    ghost Value = { List Census };

    ghost view = { λ censuses. censuses.items.items };
}

impl Censuses {
    // No phase is over.
    pub(crate) fn new(alloc: Global) -> Censuses
        ensures { result ≡ [] }
    {
        let items = Vec::new(alloc);
        Censuses { items }
    }

    /// The censuses, phase by phase.
    pub fn items(&self) -> &[Census]
        ensures items { result.now ≡ self.now }
    {
        self.items.as_slice()
    }

    // What the root has now, for each phase up to this one that has no census yet. It is counted only if there is one.
    pub(crate) fn fill_up(&mut self, root: &Placement, to: u32) -> Result<(), OutOfMemory>
        ensures filled { OnOk result (AreFilledUp (census root.now) to self.old self.new) }
        ensures some { OnErr result ((count : ℕ) × (count < to) × AreFilledUp (census root.now) count self.old self.new) }
    {
        let from = self.items.len();
        let to = to as usize;
        if from < to {
            let census = root.census();
            for _phase in from..to {
                self.items.push(census)?;
            }
        }
        Ok(())
    }
}
