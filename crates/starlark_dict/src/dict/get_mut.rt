//! Values to be written. Keys and memory stay.
ghost use Rattle.std.specs.Prelude.{◌≡◌};
ghost use Rattle.std.specs.Borrow.{sem};
ghost use Rattle.std.specs.Option.{option_copied_mut};
ghost use Rattle.starlark_dict.specs.Dict.{get_by, IsUnique};
ghost use Rattle.starlark_dict.specs.Lend.{lends_get};
ghost use Rattle.starlark_hash.specs.HashValue.{hash_of, key_of};
ghost use Rattle.starlark_hash.specs.Hasher.{own_hash};

use super::Dict;
use starlark_hash::{HashQuery, Hashed};
use std::hash::Hash;

impl<K: Eq + Hash, V> Dict<K, V> {
    /// The value at the key that the query stands for, to be written. The map ends with what is left in it, and all
    /// else stays. `None` where there is no such key, and then the map is as it was.
    #[inline(always)]
    pub fn get_mut<Q: HashQuery<K>>(&mut self, key: Q) -> Option<&mut V>
        ensures* writes_back { sem 𝓛 (lends_get K.row V.row K.Hash self.entry (Q.stands_for key) result) }
        ensures value { option_copied_mut result ≡ get_by (Q.stands_for key) self.old }
        ensures unique { IsUnique K.eq self.old }
    {
        self.get_mut_hashed(Hashed::new(key))
    }

    /// `get_mut` by a hash that was computed before, and is the query's own.
    #[inline(always)]
    pub fn get_mut_hashed<Q: HashQuery<K>>(&mut self, key: Hashed<Q>) -> Option<&mut V>
        requires { hash_of key ≡ own_hash Q.hash_input (key_of key) }
        ensures* writes_back { sem 𝓛 (lends_get K.row V.row K.Hash self.entry (Q.stands_for (key_of key)) result) }
        ensures value { option_copied_mut result ≡ get_by (Q.stands_for (key_of key)) self.old }
        ensures unique { IsUnique K.eq self.old }
    {
        prove!(self.map.iter_hashed().len() == self.map.len());
        self.map.get_mut_hashed(key)
    }
}
