//! Clones of a `SmallSet`.
ghost use Rattle.starlark_hash.specs.Clone.{IsEqualClone};
ghost use Rattle.starlark_small.specs.Clone.{Clones};
ghost use Rattle.starlark_hash.specs.Unit.{IsUnitClone};

use super::SmallSet;
use std::alloc::AllocError;

impl<T: Eq + Clone> SmallSet<T> {
    /// Makes a set of clones of the elements, under the same hashes and in their order. The same elements are found in
    /// it. Its capacity is their number, and it has a hash index exactly if that is above `UNINDEXED`. If memory is
    /// refused, also to the clone of an element, nothing is made. Without elements the call is not refused.
    pub fn clone(&self) -> Result<Self, AllocError>
        // A clone of an element is equal to it.
        requires { IsEqualClone T.eq T.is_clone }
        ensures { Clones T.eq T.is_clone IsUnitClone self.now result }
    {
        Ok(SmallSet {
            map: self.map.clone()?,
            alloc: self.alloc,
        })
    }
}
