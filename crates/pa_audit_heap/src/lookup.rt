ghost use Rattle.std.specs.Prelude.{◌≡◌, ◌<◌, ◌^◌, length};
ghost use Rattle.pa_audit_heap.specs.Ordered.{IsTheRecord};
ghost use Rattle.pa_rules.specs.Rising.{RiseByLine};

use pa_audit_records::record_on;
use pa_rules::Played;

// The record of a line. `None` exactly when there is none. The records are in the order of their lines.
pub(crate) fn record_of(records: &[Played], line: u32) -> Option<Played>
    requires records { length records.now < 2 ^ 32 }
    requires rising { RiseByLine records.now }
    ensures the_record { IsTheRecord records.now line result }
{
    match record_on(records, line) {
        Some(at) => Some(records[at as usize]),
        None => None,
    }
}
