//! Comparison and hash of the entries of a `VecMap`, in their order.
ghost use Rattle.std.specs.Prelude.{◌≡◌, fold};
ghost use Rattle.starlark_hash.specs.Compare.{same_ordered, ordered_feed};

use super::VecMap;
use crate::columns::hash_columns;
use std::hash::{Hash, Hasher};

impl<K, V> VecMap<K, V> {
    /// Whether both maps have the same number of entries and, item by item, the same hash, equal keys and equal values.
    pub fn eq_ordered(&self, other: &Self) -> bool
    where
        K: PartialEq,
        V: PartialEq,
        ensures { result ≡ same_ordered K.eq V.eq self.now.entries other.now.entries }
    {
        self.columns.seconds() == other.columns.seconds()
            && self.columns.firsts() == other.columns.firsts()
    }

    /// Feeds the hash of each entry as one number of 32 bits, and then its value. It feeds no length and no key.
    pub fn hash_ordered<H: Hasher>(&self, state: &mut H)
    where
        V: Hash,
        ensures { state.new ≡ fold H.write state.old (ordered_feed V.hash_input self.now.entries) }
    {
        hash_columns(self.columns.firsts(), self.columns.seconds(), state);
    }
}
