//! `SmallMap::clone`.
ghost use Rattle.starlark_hash.specs.Clone.{IsEqualClone};
ghost use Rattle.starlark_small.specs.Clone.{Clones};

use super::SmallMap;
use crate::index::Index;
use std::alloc::AllocError;

impl<K: Eq + Clone, V: Clone> SmallMap<K, V> {
    /// A map of clones of the entries under the same hashes, in their order, so that the same keys are found in it. Its
    /// capacity is its length, and it has a hash index exactly if it is longer than `UNINDEXED`. If memory is refused,
    /// also to the clone of a key or a value, nothing is made. The clone of an empty map is not refused. The call
    /// requires that a clone of a key is equal to the key.
    pub fn clone(&self) -> Result<Self, AllocError>
        requires { IsEqualClone K.eq K.is_clone }
        ensures { Clones K.eq K.is_clone V.is_clone self.now result }
    {
        let entries = self.entries.clone()?;
        let index = self.index.of_other(&entries)?;
        Ok(SmallMap { entries, index })
    }
}
