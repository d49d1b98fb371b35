/// The shape of a direct map.
#[derive(Clone, Copy, Debug, PartialEq, Eq)]
pub struct Shape {
    /// Bytes of the slot, its count word included: a multiple of 4,096.
    pub slot: u32,
    /// Super pages that it occupies, 1 to 16.
    pub supers: u32,
}
