//! How dictionaries compare, and what they feed to a hasher.
ghost use Rattle.std.specs.Cmp;
ghost use Rattle.std.specs.Cmp.{partial_equiv_from_equiv};
ghost use Rattle.std.specs.HashMap.{hash_map_eq};
ghost use Rattle.std.specs.HashMap.Eq.{hash_map_eq_refl, hash_map_eq_symm, hash_map_eq_trans};
ghost use Rattle.std.specs.Prelude.{◌≡◌, fold};
ghost use Rattle.starlark_dict.specs.Compare.{ordered_feed, same_ordered};

use super::Dict;
use std::hash::{Hash, Hasher};

/// Two are equal where they have the same keys, with an equal value at each. The order does not count.
impl<K: Eq + Hash, V: PartialEq> PartialEq for Dict<K, V> {
    ghost eq = { hash_map_eq K.eq V.eq };

    ghost laws = { let v = V.laws in record { symm = hash_map_eq_symm K.eq V.eq v.symm; trans = hash_map_eq_trans K.eq V.eq K.Eq.laws v.trans } };

    fn eq(&self, other: &Dict<K, V>) -> bool {
        prove!(self.map.iter_hashed().len() == self.map.len());
        prove!(other.map.iter_hashed().len() == other.map.len());
        self.map == other.map
    }
}

impl<K: Eq + Hash, V: Eq> Eq for Dict<K, V> {
    ghost laws = { let v = V.Eq.laws in Cmp.equiv (record { symm = hash_map_eq_symm K.eq V.eq v.symm; trans = hash_map_eq_trans K.eq V.eq K.Eq.laws (partial_equiv_from_equiv v).trans }) (hash_map_eq_refl K.eq V.eq v.refl) };
}

impl<K: Eq + Hash, V> Dict<K, V> {
    /// Whether both have as many entries, with equal keys and equal values in the same order.
    pub fn eq_ordered(&self, other: &Self) -> bool
    where
        V: PartialEq,
        ensures { result ≡ same_ordered K.eq V.eq self.now.entries other.now.entries }
    {
        self.map.eq_ordered(&other.map)
    }

    /// Writes each key's hash as one number of 32 bits, and then what its value writes; no length. What is equal in order
    /// writes the same, where equal values do.
    pub fn hash_ordered<H: Hasher>(&self, state: &mut H)
    where
        V: Hash,
        ensures { state.new ≡ fold H.write state.old (ordered_feed K.hash_input V.hash_input self.now.entries) }
    {
        self.map.hash_ordered(state);
    }
}
