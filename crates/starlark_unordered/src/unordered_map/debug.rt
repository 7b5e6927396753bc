//! The text of an `UnorderedMap`, by `Debug`.

use super::UnorderedMap;
use std::fmt;
use std::hash::Hash;

impl<K: Eq + Hash + fmt::Debug, V: fmt::Debug> fmt::Debug for UnorderedMap<K, V> {
    fn fmt<W: fmt::Write>(&self, f: &mut fmt::Formatter<W>) -> fmt::Result {
        f.debug_map().entries(self.entries_unordered()).finish()
    }
}
