use arrayvec::ArrayVec;

// What a command prints.
#[derive(Drop)]
pub enum Printed {
    // The same bytes at each call.
    Fixed(&'static [u8]),
    // A line, which takes no memory.
    Line(ArrayVec<u8, 128>),
    // Bytes that took memory.
    Made(Vec<u8>),
    // Bytes that took memory in two parts, which are written one after the other.
    Parts(Vec<u8>, Vec<u8>),
}
