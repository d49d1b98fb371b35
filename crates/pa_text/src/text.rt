ghost use Rattle.std.specs.Prelude.{◌≡◌, ◌+◌, ◌^◌, ◌<◌, ◌≤◌, [], ◌++◌, length, take, IfOk, OnOk, OnErr, vec_len};

use pa_slot::OutOfMemory;
use std::alloc::Global;
use std::marker::Model;

// The spare bytes grow by this many more than are needed.
const SPARE: usize = 4096;

/// A text that grows at its end. It keeps spare bytes after its end, which are filled already, so that to append a few
/// bytes is a test for room and a store, with no call.
#[derive(Drop)]
pub struct Text {
    // The text, followed by the spare bytes.
    bytes: Vec<u8>,
    // The length of the text.
    len: usize,
}

impl Model for Text {
    ghost use Rattle.std.specs.Prelude.{List, ℕ, ◌≤◌, take, length};

    ghost Value = { List ℕ };

    ghost view = { λ text. take text.len text.bytes.items };

    ghost invariant = { λ text. text.len ≤ length text.bytes.items };
}

impl Text {
    /// An empty text.
    pub fn new(alloc: Global) -> Text
        ensures empty { result ≡ [] }
    {
        Text {
            bytes: Vec::new(alloc),
            len: 0,
        }
    }

    /// An empty text, with room for `capacity` bytes.
    pub fn with_capacity(alloc: Global, capacity: usize) -> Result<Text, OutOfMemory>
        ensures empty { IfOk result (λ text. text ≡ []) }
    {
        Ok(Text {
            bytes: Vec::with_capacity(alloc, capacity)?,
            len: 0,
        })
    }

    /// How many bytes the text has.
    pub fn len(&self) -> usize
        ensures { result ≡ length self.now }
    {
        self.len
    }

    /// The bytes of the text.
    pub fn as_slice(&self) -> &[u8]
        ensures bytes { result.now ≡ self.now }
    {
        self.bytes.as_slice().split_at(self.len).0
    }

    /// Keeps the first bytes, at most `len`.
    pub fn truncate(&mut self, len: usize)
        ensures cut { self.new ≡ take len self.old }
    {
        if len < self.len {
            self.len = len;
        }
    }

    /// The text as a vector.
    pub fn into_vec(self) -> Vec<u8>
        ensures bytes { result.items ≡ self }
    {
        let mut bytes = self.bytes;
        bytes.truncate(self.len);
        bytes
    }

    /// Appends the bytes. If memory runs out, none of them is appended; it doesn't if there are none.
    #[inline(always)]
    pub fn push(&mut self, bytes: &[u8]) -> Result<(), OutOfMemory>
        ensures pushed { OnOk result (self.new ≡ self.old ++ bytes.now) }
        ensures same { OnErr result (self.new ≡ self.old) }
        ensures asks { OnErr result (0 < length bytes.now) }
    {
        make_room(&mut self.bytes, self.len, bytes.len())?;
        put(self.bytes.as_mut_slice(), self.len, bytes);
        self.len += bytes.len();
        Ok(())
    }

    /// Appends many bytes: they are copied into fresh room, and no spare bytes are filled. If memory runs out, none of them is
    /// appended.
    pub fn append(&mut self, bytes: &[u8]) -> Result<(), OutOfMemory>
        ensures pushed { OnOk result (self.new ≡ self.old ++ bytes.now) }
        ensures same { OnErr result (self.new ≡ self.old) }
        ensures asks { OnErr result (0 < length bytes.now) }
    {
        self.bytes.truncate(self.len);
        self.bytes.extend_from_slice(bytes)?;
        self.len = self.bytes.len();
        Ok(())
    }
}

// Makes room for `count` bytes after the first `len`, which stay. Memory can run out only if that room isn't there.
#[inline(always)]
fn make_room(bytes: &mut Vec<u8>, len: usize, count: usize) -> Result<(), OutOfMemory>
    requires within { len ≤ vec_len bytes.old }
    requires fits { len + count < 2 ^ 64 }
    ensures room { OnOk result (len + count ≤ vec_len bytes.new) }
    ensures asks { OnErr result (vec_len bytes.old < len + count) }
    ensures kept { take len bytes.new.items ≡ take len bytes.old.items }
    ensures within { len ≤ vec_len bytes.new }
{
    if bytes.len() - len < count {
        return grow(bytes, len, count);
    }
    Ok(())
}

// Makes room for `count` bytes after the first `len`, and for some more.
#[cold]
#[inline(never)]
fn grow(bytes: &mut Vec<u8>, len: usize, count: usize) -> Result<(), OutOfMemory>
    requires within { len ≤ vec_len bytes.old }
    requires fits { len + count < 2 ^ 64 }
    ensures room { OnOk result (len + count ≤ vec_len bytes.new) }
    ensures kept { take len bytes.new.items ≡ take len bytes.old.items }
    ensures within { len ≤ vec_len bytes.new }
{
    bytes.resize((len + count).saturating_add(SPARE), 0)?;
    Ok(())
}

// Writes the new bytes over those from `at` on.
#[inline(always)]
fn put(bytes: &mut [u8], at: usize, new: &[u8])
    requires { at + length new.now ≤ length bytes.old }
    ensures written { take (at + length new.now) bytes.new ≡ take at bytes.old ++ new.now }
{
    let (_, spare) = bytes.split_at_mut(at);
    let (place, _) = spare.split_at_mut(new.len());
    place.copy_from_slice(new);
}
