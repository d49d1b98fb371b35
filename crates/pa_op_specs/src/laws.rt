//! What follows of a worker's ops, as laws: calls that do nothing, but have proved clauses.
ghost use Rattle.pa_op_specs.specs.Following.{PlaysFollow};
ghost use Rattle.pa_op_specs.specs.Settling.{SettlingEndsPhase, SettlingEndsTurn};

use pa_totals::whole_settlings_leave;

/// Ops that were played one after the other give the transitions of registers and of lists in every run that fits, and
/// each log segment is then what its answer requires.
pub fn plays_follow()
    ensures { PlaysFollow }
{}

/// A worker that settles what its log owes at the end of a phase, in which it played an op, has played ops with the same
/// records. The additions are at the end of the last one's log segment.
pub fn settlings_end_phases()
    ensures { SettlingEndsPhase }
{
    whole_settlings_leave();
}

/// The same of one op, whatever it did with the worker's lists.
pub fn settlings_end_turns()
    ensures { SettlingEndsTurn }
{
    whole_settlings_leave();
}
