//! The text of a `Vec2`, by `Debug`.

use super::Vec2;
use std::fmt;

impl<A: fmt::Debug, B: fmt::Debug> fmt::Debug for Vec2<A, B> {
    fn fmt<W: fmt::Write>(&self, f: &mut fmt::Formatter<W>) -> fmt::Result {
        f.debug_list().entries(self.iter()).finish()
    }
}
