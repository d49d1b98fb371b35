/// Why the pool gave no super pages.
#[derive(Clone, Copy, Debug, PartialEq, Eq)]
pub enum PoolFault {
    /// That many super pages aren't free. The pool's entry with this index says so.
    NoRoom(u32),
    /// Out of memory: nothing changed.
    OutOfMemory,
}
