//! The choice of a partition's root.

// The call with the root of a partition of the heap, 0 to 3. Each root has a type of its own, so the call is in each arm.
macro_rules! with_root {
    ($heap:expr, $partition:expr, $root:ident => $call:expr) => {
        match $partition {
            0 => {
                let $root = &$heap.first;
                $call
            }
            1 => {
                let $root = &$heap.second;
                $call
            }
            2 => {
                let $root = &$heap.third;
                $call
            }
            _ => {
                let $root = &$heap.fourth;
                $call
            }
        }
    };
}

pub(crate) use with_root;
