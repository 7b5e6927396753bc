//! How `SmallMap`s compare, and what they feed to a hasher.
ghost use Rattle.std.specs.Prelude.{◌≡◌, fold};
ghost use Rattle.starlark_small.specs.Compare.{same_entries};
ghost use Rattle.starlark_small.specs.CompareLaws.{same_entries_laws, same_entries_equivalence};
ghost use Rattle.starlark_hash.specs.Compare.{same_ordered, ordered_feed};

use super::SmallMap;
use std::hash::{Hash, Hasher};

/// Two maps are equal if they have as many entries, and each entry of one is found in the other by its hash and key,
/// with an equal value. The order does not count.
impl<K: Eq, V: PartialEq> PartialEq for SmallMap<K, V> {
    ghost eq = { λ m n. same_entries K.eq V.eq m.entries n.entries };

    ghost laws = { same_entries_laws K.eq V.eq K.Eq.laws V.laws };

    fn eq(&self, other: &SmallMap<K, V>) -> bool {
        let len = self.entries.len();
        if len != other.entries.len() {
            return false;
        }
        for i in 0..len {
            let (key, value) = self.entries.get_unchecked(i);
            match other.get_hashed(key) {
                Some(found) => {
                    if !value.eq(found) {
                        return false;
                    }
                }
                None => return false,
            }
        }
        true
    }
}

impl<K: Eq, V: Eq> Eq for SmallMap<K, V> {
    ghost laws = { same_entries_equivalence K.eq V.eq K.Eq.laws V.Eq.laws };
}

impl<K: Eq, V> SmallMap<K, V> {
    /// Whether both maps have as many entries and, item by item, the same hash, equal keys and equal values.
    pub fn eq_ordered(&self, other: &Self) -> bool
    where
        V: PartialEq,
        ensures { result ≡ same_ordered K.eq V.eq self.now.entries other.now.entries }
    {
        self.entries.eq_ordered(&other.entries)
    }

    /// Feeds each entry's hash as one number of 32 bits, and then what its value feeds. The length and the keys are not
    /// fed, and no key's `hash` is called.
    pub fn hash_ordered<H: Hasher>(&self, state: &mut H)
    where
        V: Hash,
        ensures { state.new ≡ fold H.write state.old (ordered_feed V.hash_input self.now.entries) }
    {
        self.entries.hash_ordered(state);
    }
}
