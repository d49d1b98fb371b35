ghost use Rattle.pa_audit_holders.specs.Homes.{OneHome};

/// The law that each slot of the journals has one home, if the pool's entries and the journals are right.
pub fn one_home()
    ensures { OneHome }
{}
