ghost use Rattle.pa_resize.specs.Keeping.{MovesKeep, OthersStay, SpareStaysFree};

/// The law of what a move leaves. The register owns another slot, which contains what the old one did when it was looked at, and the old
/// one was returned by its free. Every other register, and each cell, is as before.
pub fn moves_keep()
    ensures { MovesKeep }
{}

/// The law that a resize with any verdict but a move's leaves every register, each cell and each slot's word as they were.
pub fn others_stay()
    ensures { OthersStay }
{}

/// The law that between any two lines of a script register 63 of each thread and cell 63 have nothing, as `moves_keep` asks.
pub fn spare_stays_free()
    ensures { SpareStaysFree }
{}
