//! What lists are from the start, as a law: a call that does nothing, and whose clause is proved.
ghost use Rattle.std.specs.Prelude.{ℕ};
ghost use Rattle.pa_spans.specs.Lists.{Stand, IsOutside, no_lists};

use crate::store::SpanStore;

/// Lists with no span are those of a store whose spans are all in no state.
pub fn lists_begin<S: SpanStore>(store: &S)
    requires none { S.has store.now 0 → ⊥ }
    requires outside { (u : ℕ) → S.has store.now u → IsOutside (S.spans store.now u) }
    ensures { Stand no_lists (S.spans store.now) (S.has store.now) }
{
    let _ = store;
}
