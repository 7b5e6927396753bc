//! The keys that a search by a closure asks about.

use play_words::{Fault, Key, Out, Shown};
use starlark_map::StarlarkHashValue;
use std::alloc::Global;

/// The keys that a closure was asked about, each noted as it came.
#[derive(Drop)]
pub struct Asked<K: Key> {
    keys: Vec<K>,
    refused: bool,
}

impl<K: Key> Asked<K> {
    /// No key yet.
    pub fn new(alloc: Global) -> Asked<K> {
        Asked {
            keys: Vec::new(alloc),
            refused: false,
        }
    }

    /// Notes a key. Want of memory is told at the end.
    pub fn note(&mut self, key: &K) {
        match key.clone() {
            Ok(copy) => {
                if self.keys.push(copy).is_err() {
                    self.refused = true;
                }
            }
            Err(_) => self.refused = true,
        }
    }

    /// The keys, where memory was there for each.
    pub fn all(self) -> Result<Vec<K>, Fault> {
        if self.refused {
            return Err(Fault::Memory);
        }
        Ok(self.keys)
    }
}

/// Whether each of these keys has this hash, and none stands twice: `right`, or `wrong`.
pub fn right<K: Key>(keys: &[K], hash: StarlarkHashValue) -> &'static str {
    for (at, key) in keys.iter().enumerate() {
        if StarlarkHashValue::new(key) != hash || keys[..at].contains(key) {
            return "wrong";
        }
    }
    "right"
}

/// Writes items in ascending order.
pub fn write_sorted<T: Ord + Shown + Drop>(mut items: Vec<T>, out: &mut Out) -> Result<(), Fault> {
    items.sort()?;
    for item in items {
        out.put(item)?;
    }
    Ok(())
}
