use pa_slot::OutOfMemory;

/// Why a root gave no slot.
#[derive(Clone, Copy, Debug, PartialEq, Eq)]
pub enum FillFault {
    /// There is no room. The entry of the journal with this index says so.
    Full(u32),
    /// Out of memory: nothing changed.
    OutOfMemory,
}

impl From<OutOfMemory> for FillFault {
    ghost use Rattle.std.specs.Prelude.{◌≡◌};
    ghost use Rattle.pa_root.specs.declared.fault.FillFault.TheVariants as fault;

    ghost from_gives = { λ _ f. f ≡ fault.OutOfMemory };

    fn from(_error: OutOfMemory) -> FillFault {
        FillFault::OutOfMemory
    }
}
