/// How many slots of one partition the steps of a worker changed so.
#[derive(Clone, Copy, Debug, PartialEq, Eq)]
pub struct Count {
    /// The slots that it made live.
    pub issued: u64,
    /// Those that it freed.
    pub freed: u64,
    /// Those that it freed while `raw_ptr`s pointed to them.
    pub entered: u64,
    /// The freed slots that left quarantine when it reset their last `raw_ptr`.
    pub left: u64,
}
