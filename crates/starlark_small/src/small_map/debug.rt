//! The text of a `SmallMap`, by `Debug`.

use super::SmallMap;
use std::fmt;

impl<K: Eq + fmt::Debug, V: fmt::Debug> fmt::Debug for SmallMap<K, V> {
    /// Writes the entries in order of insertion, in the form `{key: value, ..}`. Hashes, capacity and hash index are
    /// not written.
    fn fmt<W: fmt::Write>(&self, f: &mut fmt::Formatter<W>) -> fmt::Result {
        f.debug_map().entries(self.iter()).finish()
    }
}
