ghost use Rattle.std.specs.Prelude.{◌≡◌};
ghost use Rattle.pa_region.specs.Totals.{CanAdd};
ghost use Rattle.pa_totals.specs.Settled.{CanSettle, nothing_owed, after_owed, after_settle, CanSettleAll, none_owed, after_settle_all};

use pa_region::{Region, Seat, additions_stand_in_logs};

/// What a thread's steps owe to the totals words of one partition, in bytes: of slots that it issued, that it freed, that it
/// freed into the quarantine, and that left the quarantine by its last resets.
#[derive(Clone, Copy)]
pub struct Owed {
    pub issued: u64,
    pub freed: u64,
    pub entered: u64,
    pub left: u64,
}

/// Adds what is owed to the partition's four totals words, by the seat's least stake. Nothing is owed then.
pub fn settle(region: &Region, seat: &mut Seat, partition: u32, owed: &mut Owed)
    requires region { seat.old.region ≡ region.now }
    requires able { CanSettle partition owed.old seat.old.view }
    ensures region { seat.new.region ≡ seat.old.region }
    ensures view { seat.new.view ≡ after_settle partition owed.old seat.old.view }
    ensures settled { owed.new ≡ nothing_owed }
{
    additions_stand_in_logs();
    add_owed(region, seat, 4 * partition, owed.issued);
    add_owed(region, seat, 4 * partition + 1, owed.freed);
    add_owed(region, seat, 4 * partition + 2, owed.entered);
    add_owed(region, seat, 4 * partition + 3, owed.left);
    *owed = Owed {
        issued: 0,
        freed: 0,
        entered: 0,
        left: 0,
    };
}

// Adds so many bytes to the totals word of this number, from 0, by one atomic addition. If they are 0 it does nothing.
fn add_owed(region: &Region, seat: &mut Seat, word: u32, bytes: u64)
    requires region { seat.old.region ≡ region.now }
    requires able { CanAdd word bytes seat.old.view }
    ensures region { seat.new.region ≡ seat.old.region }
    ensures view { seat.new.view ≡ after_owed word bytes seat.old.view }
{
    if bytes > 0 {
        region.add_total(seat, word, bytes);
    }
}

/// Adds what is owed to the words of all four partitions, one partition after the other. Nothing is owed then.
pub fn settle_all(region: &Region, seat: &mut Seat, owed: &mut [Owed; 4])
    requires region { seat.old.region ≡ region.now }
    requires able { CanSettleAll owed.old seat.old.view }
    ensures region { seat.new.region ≡ seat.old.region }
    ensures view { seat.new.view ≡ after_settle_all owed.old seat.old.view }
    ensures settled { owed.new ≡ none_owed }
{
    additions_stand_in_logs();
    let mut first = owed[0];
    let mut second = owed[1];
    let mut third = owed[2];
    let mut fourth = owed[3];
    settle(region, seat, 0, &mut first);
    settle(region, seat, 1, &mut second);
    settle(region, seat, 2, &mut third);
    settle(region, seat, 3, &mut fourth);
    *owed = [first, second, third, fourth];
}
