ghost use Rattle.std.specs.Prelude.{◌≡◌, ◌<◌, ◌≤◌, [], ◌∷◌, ◌++◌, length, OnOk};
ghost use Rattle.std.specs.Vec.{vec_capacity};
ghost use Rattle.pa_record.specs.Numbers.{root_numbers};
ghost use Rattle.pa_region.specs.Aware.{IsAware};
ghost use Rattle.pa_region.specs.Lending.{CanLend, HostsKeeper, MakesEntry};

use pa_record::{RootEntry, root_numbers};
use pa_region::{Region, Seat, enter_with};
use pa_slot::OutOfMemory;

// The most members of a list.
const MOST_MEMBERS: usize = 2_147_483_647;

// Makes room for one more entry.
pub(crate) fn make_room(journal: &mut Vec<RootEntry>) -> Result<(), OutOfMemory>
    ensures same { journal.new.items ≡ journal.old.items }
    ensures room { OnOk result (length journal.new.items < vec_capacity journal.new) }
    ensures few { OnOk result (length journal.new.items < 2147483647) }
{
    if journal.len() >= MOST_MEMBERS {
        return Err(OutOfMemory);
    }
    journal.reserve(1)?;
    Ok(())
}

// Makes the entry in the list of the keeper, with the lender's least stake, and appends it to the journal, which has room for
// it. It returns the entry's index.
pub(crate) fn append(
    region: &Region,
    lender: &mut Seat,
    host: &mut Seat,
    keeper: u32,
    journal: &mut Vec<RootEntry>,
    entry: RootEntry,
) -> u32
    requires regions { (lender.old.region ≡ region.now) × (host.old.region ≡ region.now) }
    requires lender { CanLend lender.old.view }
    requires host { HostsKeeper keeper host.old.view }
    requires room { length journal.old.items < vec_capacity journal.old }
    requires few { length journal.old.items < 2147483647 }
    ensures index { result ≡ length journal.old.items }
    ensures journal { journal.new.items ≡ journal.old.items ++ entry ∷ [] }
    ensures regions { (lender.new.region ≡ lender.old.region) × (host.new.region ≡ host.old.region) }
    ensures again { CanLend lender.new.view × HostsKeeper keeper host.new.view }
    ensures noted { MakesEntry keeper (root_numbers entry) lender.old lender.new host.old host.new }
    ensures aware { IsAware host.old.view × IsAware host.new.view }
{
    host.aware();
    let index = journal.len() as u32;
    enter_with(
        region,
        lender,
        host,
        keeper,
        root_numbers(&entry).as_slice(),
    );
    host.aware();
    journal.push_reserved(entry);
    index
}
