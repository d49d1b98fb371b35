ghost use Rattle.std.specs.Prelude.{◌≡◌, ◌↔◌, ◌*◌, ◌<◌, ◌≤◌, [], ◌∷◌, IsTrue};
ghost use Rattle.pa_trace.specs.Limits.{most_partitions, most_threads};
ghost use Rattle.pa_rules.specs.Lists.{HasPart, cache_place, changed_by, no_tally};
ghost use Rattle.pa_rules.specs.Sizes.{HasClass, class_total};

use pa_buckets::{Class, first_class, past_class, slot_size};
use pa_record::Tally;
use pa_trace::MOST_PARTITIONS;

/// Whether the version has the class.
#[inline(always)]
pub fn has_class(version: u32, class: Class) -> bool
    ensures { IsTrue result ↔ HasClass version class }
{
    first_class(version) <= class.number() && class.number() < past_class(version)
}

/// How many classes the version has.
#[inline(always)]
pub fn class_total(version: u32) -> u32
    ensures count { result ≡ class_total version }
    ensures some { 0 < result }
    ensures few { result ≤ 111 }
{
    past_class(version) - first_class(version)
}

/// The index of a row's list of a class, where each row has one list for each class of the version. A thread has a row for each partition.
#[inline(always)]
pub fn cache_place(version: u32, row: u32, class: Class) -> usize
    requires row { row < most_threads * most_partitions }
    requires class { HasClass version class }
    ensures place { result ≡ cache_place version row class }
    ensures within { row < most_partitions → result < most_partitions * class_total version }
{
    (row * class_total(version) + (class.number() - first_class(version))) as usize
}

/// The sums of lists that are all empty, one of each partition.
pub fn no_sums() -> [Tally; MOST_PARTITIONS as usize]
    ensures { result ≡ no_tally ∷ no_tally ∷ no_tally ∷ no_tally ∷ [] }
{
    let none = Tally { slots: 0, bytes: 0 };
    [none, none, none, none]
}

/// The tally of lists after one of this class went from `before` to `after` slots.
#[inline(always)]
pub fn changed_by(sum: Tally, class: Class, before: u32, after: u32) -> Tally
    requires { HasPart sum class before after }
    ensures { result ≡ changed_by sum class before after }
{
    let bytes = u64::from(slot_size(class));
    Tally {
        slots: sum.slots - u64::from(before) + u64::from(after),
        bytes: sum.bytes - bytes * u64::from(before) + bytes * u64::from(after),
    }
}
