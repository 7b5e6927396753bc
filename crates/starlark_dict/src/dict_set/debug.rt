//! The text of a `DictSet`, by `Debug`.

use super::DictSet;
use std::fmt;
use std::hash::Hash;

impl<T: Eq + Hash + fmt::Debug> fmt::Debug for DictSet<T> {
    fn fmt<W: fmt::Write>(&self, f: &mut fmt::Formatter<W>) -> fmt::Result {
        f.debug_set().entries(self.iter()).finish()
    }
}
