ghost use Rattle.std.specs.Prelude.{◌≡◌, ◌↔◌, All, IfOk, IsTrue, length};
ghost use Rattle.pa_audit_order.specs.Looks.{NumbersRise};

use crate::keys::key;
use crate::looks::look_of;
use pa_audit_records::{ByKey, Salt};
use pa_record::History;
use pa_rules::Played;
use pa_slot::OutOfMemory;
use std::alloc::Global;

// Whether no cell has an exchange.
pub(crate) fn has_no_exchange(cells: &[History]) -> bool
    ensures { IsTrue result ↔ All (λ es. length es ≡ 0) cells.now }
{
    cells.iter().all(|history| history.entries().is_empty())
}

// Whether no record finds a number below one that an earlier record of the same slot left.
pub(crate) fn numbers_rise(
    alloc: Global,
    salt: Salt,
    records: &[Played],
) -> Result<bool, OutOfMemory>
    ensures { IfOk result (λ b. IsTrue b → NumbersRise records.now) }
{
    let mut left = ByKey::new(alloc, salt);
    for record in records {
        if let Some(look) = look_of(*record) {
            let old = left.replace(key(look.slot, 0), look.left)?;
            if look.found < old.unwrap_or(0) {
                return Ok(false);
            }
        }
    }
    Ok(true)
}
