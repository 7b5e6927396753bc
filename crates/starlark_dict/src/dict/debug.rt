//! The text of a `Dict`, by `Debug`.

use super::Dict;
use std::fmt;
use std::hash::Hash;

impl<K: Eq + Hash + fmt::Debug, V: fmt::Debug> fmt::Debug for Dict<K, V> {
    fn fmt<W: fmt::Write>(&self, f: &mut fmt::Formatter<W>) -> fmt::Result {
        f.debug_map().entries(self.map.iter()).finish()
    }
}
