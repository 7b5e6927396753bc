//! The text of an `UnorderedSet`, by `Debug`.

use super::UnorderedSet;
use std::fmt;
use std::hash::Hash;

impl<T: Eq + Hash + fmt::Debug> fmt::Debug for UnorderedSet<T> {
    fn fmt<W: fmt::Write>(&self, f: &mut fmt::Formatter<W>) -> fmt::Result {
        f.debug_struct("UnorderedSet")
            .field("map", &self.map)
            .finish()
    }
}
