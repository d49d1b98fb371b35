ghost use Rattle.pa_dangle.specs.Origins.{UsesHaveOrigins};
ghost use Rattle.pa_dangle.specs.Uses.{UsesArePaired};
ghost use Rattle.pa_dangle.specs.Worked.{WorkedUses};

/// The law that a mark of a slot is a use of what one free left there, and of no other free's, if its word is that of a quarantined slot,
/// and of none otherwise. That free is the slot's last one below it.
pub fn uses_are_paired()
    ensures { UsesArePaired }
{}

/// In marks that were worked out by hand the uses are those that the definitions give.
pub fn worked_uses_fit()
    ensures { WorkedUses }
{}

/// The law that in a legal run each use of a slot in quarantine goes through a `raw_ptr`, which comes from one copy.
pub fn uses_have_origins()
    ensures { UsesHaveOrigins }
{}
