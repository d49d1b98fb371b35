ghost use Rattle.std.specs.Prelude.{◌≡◌, ◌↔◌, ℕ, ◌+◌, ◌^◌, ◌<◌, max, IsNone, IfSome, ◌≤◌};
ghost use Rattle.pa_buckets.specs.Limits.{class_count, first_class, past_class, greatest_raw};
ghost use Rattle.pa_buckets.specs.Classes.{IsClassOf, IsClassIn};
ghost use Rattle.pa_buckets.specs.Table.{slot_of, span_shape_of};
ghost use Rattle.pa_buckets.specs.Bands.{limit_of, fill_of};

use crate::spans::SpanShape;
use crate::table::{CLASSES, COUNT, ROWS, SPARSE, SPARSE_CLASSES};
use std::marker::Model;

// A thread requests at once as many slots as its cache limit divided by this.
const BATCH_RATIO: u32 = 8;

/// A size class, 0 to 169: a bucket of PartitionAlloc.md. It is seen as its number.
#[derive(Clone, Copy, Debug, PartialEq, Eq)]
pub struct Class(u8);

impl Model for Class {
    ghost Value = { ℕ };

    ghost view = { λ c. c.0 };

    ghost invariant = { λ c. c.0 < class_count };

    ghost inverse = { λ n. record { 0 = n } };
}

impl Class {
    /// The class of that number. `None` exactly when the number is above 169.
    pub fn of(number: u32) -> Option<Class>
        ensures refused { IsNone result ↔ (class_count ≤ number) }
        ensures class { IfSome result (λ c. c ≡ number) }
    {
        if number < CLASSES {
            Some(Class(number as u8))
        } else {
            None
        }
    }

    /// The class's number, 0 to 169.
    pub fn number(self) -> u32
        ensures number { result ≡ self }
        ensures bound { self < class_count }
    {
        self.0 as u32
    }
}

/// The class of a raw size in bytes in version 1: the least whose slot size is at least that. `None` exactly when the
/// raw size is above 917,504, which is for a direct map.
pub fn class_of(raw: u32) -> Option<Class>
    ensures refused { IsNone result ↔ (greatest_raw 1 < raw) }
    ensures least { IfSome result (IsClassOf raw) }
{
    let at = ROWS[..SPARSE].partition_point(|row| row.slot < raw);
    if at < SPARSE {
        Some(Class(at as u8))
    } else {
        None
    }
}

/// The class of a raw size in version 2: of the classes 59 to 169 the least whose slot size is at least that. `None`
/// exactly when the raw size is above 983,040.
pub fn class_of_2(raw: u32) -> Option<Class>
    ensures refused { IsNone result ↔ (greatest_raw 2 < raw) }
    ensures least { IfSome result (IsClassIn 2 raw) }
{
    let number = SPARSE + ROWS[SPARSE..].partition_point(|row| row.slot < raw);
    if number < COUNT {
        Some(Class(number as u8))
    } else {
        None
    }
}

/// The class of a raw size by the rules of a version: by version 1's, or by version 2's in a later one. `None` exactly
/// when the raw size is above the greatest slot there.
pub fn class_in(version: u32, raw: u32) -> Option<Class>
    ensures refused { IsNone result ↔ (greatest_raw version < raw) }
    ensures least { IfSome result (IsClassIn version raw) }
{
    if version <= 1 {
        class_of(raw)
    } else {
        class_of_2(raw)
    }
}

/// The number of the first class of a version.
#[inline(always)]
pub fn first_class(version: u32) -> u32
    ensures { result ≡ first_class version }
{
    if version <= 1 { 0 } else { SPARSE_CLASSES }
}

/// The number after that of the last class of a version.
#[inline(always)]
pub fn past_class(version: u32) -> u32
    ensures { result ≡ past_class version }
{
    if version <= 1 {
        SPARSE_CLASSES
    } else {
        CLASSES
    }
}

/// Bytes of a slot of the class, its count word included.
pub fn slot_size(class: Class) -> u32
    ensures size { result ≡ slot_of class }
    ensures bound { class < class_count }
{
    ROWS[class.0 as usize].slot
}

/// The shape of the class's spans.
pub fn span_of(class: Class) -> SpanShape
    ensures shape { result ≡ span_shape_of class }
    ensures bound { class < class_count }
{
    ROWS[class.0 as usize].span
}

/// How many free slots of the class a thread's cache keeps, by its slot size. One more, and half of them go back to the
/// root.
pub fn cache_limit(class: Class) -> u32
    ensures limit { result ≡ limit_of class }
    ensures bound { class < class_count }
{
    let size = slot_size(class);
    if size <= 128 {
        64
    } else if size <= 1024 {
        32
    } else if size <= 32768 {
        16
    } else {
        0
    }
}

/// How many slots of the class a thread whose cache is empty requests from the root at once: an eighth of the limit, and
/// at least one.
pub fn fill_count(class: Class) -> u32
    ensures count { result ≡ fill_of class }
    ensures bound { class < class_count }
{
    (cache_limit(class) / BATCH_RATIO).max(1)
}

/// The raw size of a request in bytes: with 8 more for the count word. A request of 0 bytes is one of 1 byte.
pub fn raw_of(size: u32) -> u32
    requires { size + 8 < 2 ^ 32 }
    ensures { result ≡ max size 1 + 8 }
{
    size.max(1) + 8
}
