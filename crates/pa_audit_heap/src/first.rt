ghost use Rattle.std.specs.Prelude.{◌≡◌};
ghost use Rattle.pa_audit_heap.specs.Tells.{least_place};

// The lesser of two indices, or the only one.
pub(crate) fn earlier(a: Option<u32>, b: Option<u32>) -> Option<u32>
    ensures { result ≡ least_place a b }
{
    match (a, b) {
        (None, b) => b,
        (Some(i), None) => Some(i),
        (Some(i), Some(j)) => Some(if j < i { j } else { i }),
    }
}
