ghost use Rattle.pa_totals.specs.Settled.{SettleLeaves, SettleAllLeaves};

use pa_region::additions_stand_in_logs;

/// The law that a settling leaves its additions, at most four entries, at the end of the least stake's log, and other logs as they were.
pub fn settlings_leave()
    ensures { SettleLeaves }
{
    additions_stand_in_logs();
}

/// The law that a settling of all partitions leaves its additions, at most sixteen entries, at the end of the least stake's log, which are
/// what was owed to each word, and other logs as they were.
pub fn whole_settlings_leave()
    ensures { SettleAllLeaves }
{
    additions_stand_in_logs();
}
