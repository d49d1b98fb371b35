/// One entry of the pool: the line of the trace whose op made it, the partition that asked, and what the pool did.
#[derive(Clone, Copy, Debug, PartialEq, Eq)]
pub struct PoolEntry {
    pub line: u32,
    pub partition: u32,
    pub act: PoolAct,
}

/// What the pool did with `count` consecutive super pages.
#[derive(Clone, Copy, Debug, PartialEq, Eq)]
pub enum PoolAct {
    /// The pool was asked for them. It gave those from `first` on, or none if it had no room.
    Take { count: u32, first: Option<u32> },
    /// Those from `first` on came back.
    Give { count: u32, first: u32 },
}
