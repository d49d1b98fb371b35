//! What callers may cut, as laws: calls that do nothing, but have proved clauses.
ghost use Rattle.pa_region.specs.CutTells.{FirstCanCut, CutLeavesOthers, UncutGivesBack, CutsLeaveZero};

/// In a new region each title inside can be cut.
pub fn a_new_region_can_be_cut()
    ensures { FirstCanCut }
{}

/// A cut leaves what can be cut of other bytes.
pub fn a_cut_leaves_other_bytes()
    ensures { CutLeavesOthers }
{}

/// From the bytes of a title that was uncut, titles that are born later can be cut, and from other bytes as before.
pub fn an_uncut_gives_bytes_back()
    ensures { UncutGivesBack }
{}

/// A word that is 0 stays 0 if a cut sets a count word to 0.
pub fn a_cut_leaves_zeros()
    ensures { CutsLeaveZero }
{}
