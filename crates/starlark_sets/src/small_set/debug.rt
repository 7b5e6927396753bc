//! The text of a `SmallSet`, by `Debug`.

use super::SmallSet;
use std::fmt;

impl<T: Eq + fmt::Debug> fmt::Debug for SmallSet<T> {
    fn fmt<W: fmt::Write>(&self, f: &mut fmt::Formatter<W>) -> fmt::Result {
        f.debug_set().entries(self.iter()).finish()
    }
}
