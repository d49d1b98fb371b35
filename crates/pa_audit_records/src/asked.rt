//! What a request asks for by the rules of a version: a slot of a class, or a direct map.
ghost use Rattle.std.specs.Prelude.{ℕ, ◌+◌, ◌<◌, ◌↔◌, max, IfNone, IfSome, IsTrue};
ghost use Rattle.pa_buckets.specs.Classes.{IsClassIn};
ghost use Rattle.pa_direct.specs.Shapes.{greatest_in_class};
ghost use Rattle.pa_rules.specs.Sizes.{IsMapSize};

use pa_buckets::{Class, class_in, raw_of};
use pa_direct::GREATEST_SIZE;

/// The class of a request of that many bytes in the version. None if it has no class there.
pub fn class_for(version: u32, size: u32) -> Option<Class>
    ensures some { IfSome result (IsClassIn version (max size 1 + 8)) }
    ensures none { IfNone result ((class : ℕ) → IsClassIn version (max size 1 + 8) class → ⊥) }
{
    if size > GREATEST_SIZE {
        return None;
    }
    match class_in(version, raw_of(size)) {
        Some(class) => Some(class),
        None => None,
    }
}

/// Whether a request of that many bytes gets a direct map in the version.
pub fn is_map_size(version: u32, size: u32) -> bool
    ensures asked { IsTrue result ↔ IsMapSize version size }
    ensures large { IsTrue result → greatest_in_class < size }
{
    if size > GREATEST_SIZE {
        return false;
    }
    class_in(version, raw_of(size)).is_none()
}
