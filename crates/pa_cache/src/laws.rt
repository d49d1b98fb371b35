//! What caches over chains keep, as laws: calls that do nothing, and whose clauses are proved.
ghost use Rattle.pa_cache.specs.Chained.{ListsStay, OtherListsStay};

use pa_buckets::rows_have_bounds;

/// Caches have the same lists in each view in which their titles are free and have the same first words.
pub fn lists_stay()
    ensures { ListsStay }
{}

/// What a call on one cache leaves of the others.
pub fn other_lists_stay()
    ensures { OtherListsStay }
{
    rows_have_bounds();
}
