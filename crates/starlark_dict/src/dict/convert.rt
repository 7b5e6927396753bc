//! A `Dict` from a `SmallMap` and back.
ghost use Rattle.std.specs.Prelude.{◌≡◌};
ghost use Rattle.starlark_dict.specs.Dict.{dict_of};
ghost use Rattle.starlark_small.specs.Lookup.{AreOwn};

use super::Dict;
use starlark_small::SmallMap;
use std::hash::Hash;

impl<K: Eq + Hash, V> Dict<K, V> {
    /// The entries of a small map in which each key is under its own hash.
    #[inline]
    pub fn from_small_map(map: SmallMap<K, V>) -> Self
        requires { AreOwn K.hash_input map }
        ensures { result ≡ dict_of map }
    {
        Dict { map }
    }

    /// The small map inside, in which each key is under its own hash.
    #[inline]
    pub fn as_small_map(&self) -> &SmallMap<K, V>
        ensures same { dict_of result.now ≡ self.now }
        ensures own { AreOwn K.hash_input result.now }
    {
        &self.map
    }

    /// The small map inside, by value.
    #[inline]
    pub fn into_small_map(self) -> SmallMap<K, V>
        ensures same { dict_of result ≡ self }
        ensures own { AreOwn K.hash_input result }
    {
        let Dict { map } = self;
        map
    }
}
