/// A run of `count` super pages from `first` on that an entry of the pool took and that wasn't given back.
#[derive(Clone, Copy, Debug, PartialEq, Eq)]
pub struct Taken {
    pub entry: u32,
    pub first: u32,
    pub count: u32,
}

/// A super page in which a root has slot spans, and the entry of the pool that took it.
#[derive(Clone, Copy, Debug, PartialEq, Eq)]
pub struct SuperPage {
    pub number: u32,
    pub born: u32,
}
