ghost use Rattle.std.specs.Prelude.{◌≡◌, ℕ, None, IfOk, OnOk, OnErr};
ghost use Rattle.pa_audit_records.specs.ByKeys.{value_at};
ghost use Rattle.pa_audit_records.specs.Tables.{Puts};

use crate::salt::Salt;
use pa_slot::OutOfMemory;
use std::alloc::Global;
use std::collections::HashMap;

/// A table of values by their keys. It hashes a key together with its salt, so that keys which were chosen by somebody that
/// doesn't know the salt don't get in one another's way. Any salt gives the same answers.
#[derive(Drop)]
pub struct ByKey<V> {
    salt: u128,
    values: HashMap<u128, V>,
}

impl<V: Copy> ByKey<V> {
    /// A table of nothing.
    pub fn new(alloc: Global, salt: Salt) -> ByKey<V>
        ensures { (q : ℕ) → value_at result q ≡ None }
    {
        ByKey {
            salt: salt.mask(),
            values: HashMap::new(alloc),
        }
    }

    /// Sets the value at a key. If memory runs out, the key wasn't there, and the table is as it was.
    pub fn put(&mut self, key: u128, value: V) -> Result<(), OutOfMemory>
        ensures puts { OnOk result (Puts (value_at self.old) (value_at self.new) key value) }
        ensures same { OnErr result ((q : ℕ) → value_at self.new q ≡ value_at self.old q) }
        ensures asks { OnErr result (value_at self.old key ≡ None) }
    {
        self.replace(key, value)?;
        Ok(())
    }

    /// Sets the value at a key, and returns the one that was there. If memory runs out, none was there, and the table is as it was.
    pub fn replace(&mut self, key: u128, value: V) -> Result<Option<V>, OutOfMemory>
        ensures old { IfOk result (λ old. old ≡ value_at self.old key) }
        ensures puts { OnOk result (Puts (value_at self.old) (value_at self.new) key value) }
        ensures same { OnErr result ((q : ℕ) → value_at self.new q ≡ value_at self.old q) }
        ensures asks { OnErr result (value_at self.old key ≡ None) }
    {
        let old = self.values.insert(key ^ self.salt, value)?;
        Ok(old)
    }

    /// The value at a key.
    pub fn find(&self, key: u128) -> Option<V>
        ensures { result ≡ value_at self.now key }
    {
        self.values.get(&(key ^ self.salt)).copied()
    }
}
