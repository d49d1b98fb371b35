ghost use Rattle.std.specs.Prelude.{◌≡◌, [], ◌∷◌, ◌++◌};

use pa_record::{LentEntry, RootEntry};
use pa_text::Past;
use std::marker::PhantomData;

// The list that only proofs read, with one more entry at its end, which is lent. It does nothing when it runs.
pub(crate) fn and_lent(past: &Past<RootEntry>, entry: &LentEntry<'_>) -> Past<RootEntry>
    ensures { result.items ≡ past.now.items ++ entry.now ∷ [] }
{
    Past { of: PhantomData }
}
