//! The iterators that write values. Keys and memory stay.
ghost use Rattle.std.specs.Borrow.{sem};
ghost use Rattle.std.specs.HashMap.Lent.{with_values, KeepsKeys};
ghost use Rattle.std.specs.Map.{values_of};
ghost use Rattle.std.specs.Prelude.{◌≡◌, ◌^◌, ◌<◌, is_some, List};
ghost use Rattle.starlark_dict.specs.Dict.{dict_len, get, values, IsUnique};
ghost use Rattle.starlark_dict.specs.Lend.{values_follow};

use super::Dict;
use starlark_small::{IterMut, ValuesMut};
use std::hash::Hash;

impl<K: Eq + Hash, V> Dict<K, V> {
    /// The keys and values in the map's order, to write the values. The map ends with what is left in them, and all
    /// else stays.
    #[inline]
    pub fn iter_mut(&mut self) -> IterMut<'_, K, V>
        ensures* writes_back { sem 𝓛 (values_follow K.row V.row K.Hash self.entry result.1) }
        ensures rest { result.0 ≡ self.old.entries }
        ensures unique { IsUnique K.eq self.old }
        ensures fits { dict_len self.old < 2 ^ 63 }
        // Whatever values are written.
        ensures keeps { KeepsKeys self.old }
        ensures members { (ws : List V) (key : K) → is_some (get K.eq (with_values self.old ws) key) ≡ is_some (get K.eq self.old key) }
    {
        prove!(self.map.iter_hashed().len() == self.map.len());
        self.lend_values()
    }

    /// The values in the map's order, to write them. The map ends with what is left in them, and all else stays.
    #[inline]
    pub fn values_mut(&mut self) -> ValuesMut<'_, K, V>
        ensures* writes_back { sem 𝓛 (values_follow K.row V.row K.Hash self.entry result.1) }
        ensures rest { values_of result.0 ≡ values self.old }
        ensures unique { IsUnique K.eq self.old }
        ensures fits { dict_len self.old < 2 ^ 63 }
        // Whatever values are written.
        ensures keeps { KeepsKeys self.old }
        ensures members { (ws : List V) (key : K) → is_some (get K.eq (with_values self.old ws) key) ≡ is_some (get K.eq self.old key) }
    {
        ValuesMut::of(self.iter_mut())
    }

    // The iterator of the map inside.
    #[inline]
    fn lend_values(&mut self) -> IterMut<'_, K, V>
        ensures* writes_back { sem 𝓛 (values_follow K.row V.row K.Hash self.entry result.1) }
        ensures rest { result.0 ≡ self.old.entries }
        ensures fits { dict_len self.old < 2 ^ 64 }
    {
        self.map.iter_mut()
    }
}

impl<'a, K: Eq + Hash, V> IntoIterator for &'a mut Dict<K, V> {
    type Item = (&'a K, &'a mut V);

    type IntoIter = IterMut<'a, K, V>;

    ghost into_iter_gives = { λ d rest. (rest.0 ≡ d.now.entries) × (dict_len d.now < 2 ^ 63) × IsUnique K.eq d.now };

    /// The keys and values in the map's order, to write the values, as `iter_mut` gives them.
    #[inline]
    fn into_iter(self) -> IterMut<'a, K, V>
        ensures* writes_back { sem 𝓛 (values_follow K.row V.row K.Hash self.entry result.1) }
        ensures into_iter_gives { (result.0 ≡ self.old.entries) × (dict_len self.old < 2 ^ 63) × IsUnique K.eq self.old }
        ensures keeps { KeepsKeys self.old }
        ensures members { (ws : List V) (key : K) → is_some (get K.eq (with_values self.old ws) key) ≡ is_some (get K.eq self.old key) }
    {
        self.iter_mut()
    }
}
