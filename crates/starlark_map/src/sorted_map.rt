//! A map whose keys ascend. No other module sees its ordered map.
ghost use Rattle.starlark_small.specs.New.{IsBare};
ghost use Rattle.starlark_small.specs.Clone.{Clones};
ghost use Rattle.std.specs.Prelude.{◌≡◌, None, IsOk, IsTrue, IfOk, IfSome, ◌==◌, ◌<◌, ◌^◌, length, map};
ghost use Rattle.std.specs.List.{IsAmong};
ghost use Rattle.std.specs.Iterator.{IsFiniteIterable};
ghost use Rattle.starlark_hash.specs.Clone.{IsEqualClone};
ghost use Rattle.starlark_small.specs.Collect.{FindsLast, own_entry};
ghost use Rattle.starlark_map.specs.SortedCollect.{GivesNothing, SortsInto};
ghost use Rattle.starlark_hash.specs.Entries.{entry_value};
ghost use Rattle.starlark_map.specs.Sorted.{AscendsAlong, CollectsSorted};
ghost use Rattle.std.specs.Option.{option_copied, option_copied_mut};
ghost use Rattle.starlark_hash.specs.Hasher.{own_hash};
ghost use Rattle.starlark_small.specs.Lookup.{AreOwn, HasKey, contains, get, keys};
ghost use Rattle.std.specs.Borrow.{sem};
ghost use Rattle.starlark_map.specs.SortedLend.{lends_get};

mod compare;
mod iter;

use starlark_hash::Query;
use starlark_sets::OrderedMap;
use starlark_small::SmallMap;
use std::alloc::{AllocError, Global};
use std::hash::Hash;
use std::marker::Model;

/// An `OrderedMap` whose keys ascend. They ascend strictly if each is stored under its own hash; equal keys under
/// different hashes may be adjacent. It is seen as its ordered map, by which it is compared and hashed.
#[derive(Debug, Drop)]
pub struct SortedMap<K: Ord + Hash, V> {
    map: OrderedMap<K, V>,
}

impl<K: Ord + Hash, V> Model for SortedMap<K, V> {
    ghost use Rattle.starlark_hash.specs.Sort.{Ascends};
    ghost use Rattle.starlark_small.specs.Map.{Map};

    ghost Value = { Map K V };

    ghost view = { λ m. m.map };

    ghost invariant = { λ m. Ascends K.cmp m.map.entries };
}

impl<K: Ord + Hash, V> SortedMap<K, V> {
    /// An empty map, which asks for no memory.
    #[inline]
    pub fn new(alloc: Global) -> Self
        ensures { IsBare result }
    {
        SortedMap {
            map: OrderedMap::new(alloc),
        }
    }

    /// The entries of the map, sorted by key; those with equal keys keep their order. If the keys ascend already, it
    /// asks for no memory. If memory is refused, the map is handed back with its entries unchanged. Capacity and hash
    /// index are those of the map, done or refused.
    #[tactic(auto, using(crate::proofs::AscendingKeys::sorts))]
    pub fn from_ordered_map(map: OrderedMap<K, V>) -> Result<Self, OrderedMap<K, V>>
        ensures { SortsInto K.eq K.cmp map result }
    {
        let mut map = map;
        match map.sort_keys() {
            Ok(()) => Ok(SortedMap { map }),
            Err(_) => Err(map),
        }
    }

    /// The entries of a `SmallMap`, sorted by key; equal keys keep their order. If memory is refused, the map is handed
    /// back with its entries unchanged. It is not refused if its keys ascend already.
    #[tactic(auto, using(crate::proofs::AscendingKeys::sorts))]
    pub fn from_small_map(map: SmallMap<K, V>) -> Result<Self, SmallMap<K, V>>
        ensures { SortsInto K.eq K.cmp map result }
    {
        let mut source = map;
        match source.sort_keys() {
            Ok(()) => Ok(SortedMap {
                map: OrderedMap::from(source),
            }),
            Err(_) => Err(source),
        }
    }

    /// The number of entries.
    #[inline]
    pub fn len(&self) -> usize
        ensures len { result ≡ length self.now.entries }
        ensures few { length self.now.entries < 2 ^ 63 }
    {
        self.map.len()
    }

    /// Whether there are no entries.
    #[inline]
    pub fn is_empty(&self) -> bool
        ensures { result ≡ (length self.now.entries == 0) }
    {
        self.map.is_empty()
    }

    /// The value under the query's own hash whose key the query stands for.
    #[inline]
    pub fn get<Q: Query<K> + Hash>(&self, key: Q) -> Option<&V>
        // A value that is found belongs to a key of the map that the query stands for.
        ensures value { option_copied result ≡ get Q.stands_for Q.hash_input self.now key }
        ensures member { IfSome (option_copied result) (λ value. IsAmong (map entry_value self.now.entries) value) }
        ensures key { IfSome result (λ _. HasKey (Q.stands_for key) self.now) }
    {
        self.map.get(key)
    }

    /// Whether there is an entry under the query's own hash whose key the query stands for.
    #[inline]
    pub fn contains_key<Q: Query<K> + Hash>(&self, key: Q) -> bool
        // If an entry is found, the map has a key that the query stands for.
        ensures found { result ≡ contains Q.stands_for Q.hash_input self.now key }
        ensures key { IsTrue result → HasKey (Q.stands_for key) self.now }
    {
        self.map.contains_key(key)
    }

    /// The value under the query's own hash whose key the query stands for, for writing. The map ends with what is left
    /// in it, and all else is unchanged. `None` if there is no such entry; then the map is unchanged.
    #[inline]
    pub fn get_mut<Q: Query<K> + Hash>(&mut self, key: Q) -> Option<&mut V>
        ensures* writes_back { sem 𝓛 (lends_get K.row V.row K.cmp K.eq K.partial_cmp K.hash_input self.entry (Q.stands_for key) (own_hash Q.hash_input key) result) }
        ensures value { option_copied_mut result ≡ get Q.stands_for Q.hash_input self.old key }
        ensures key { IfSome result (λ _. HasKey (Q.stands_for key) self.old) }
    {
        self.map.get_mut(key)
    }
}

impl<K: Ord + Hash + Drop, V: Drop> SortedMap<K, V> {
    /// The items, inserted into an empty map in their order, each under its key's own hash, and then sorted by key. If
    /// memory is refused, nothing is made and the items are dropped. It is not refused if the iterator's bounds say
    /// that it has no items. Of items with equal keys the first key is kept, with the last value. The call requires
    /// that the iterator's type bounds its items.
    pub fn from_iter<I: IntoIterator<Item = (K, V)>>(
        alloc: Global,
        iter: I,
    ) -> Result<Self, AllocError>
        requires { IsFiniteIterable I.into_iter_gives I.IntoIter.can_next I.IntoIter.remaining iter }
        // Done: each key has the last value that the items have for it. The keys ascend, each under its own hash.
        ensures found { IfOk result (FindsLast K.eq K.hash_input I.IntoIter.next_gives I.into_iter_gives iter (λ _. None)) }
        ensures along { IfOk result (λ map. AscendsAlong K.cmp (keys map)) }
        ensures own { IfOk result (AreOwn K.hash_input) }
        // The map as a list, with its capacity and whether it has a hash index.
        ensures map { IfOk result (CollectsSorted K.eq K.cmp (own_entry K.hash_input) I.IntoIter.next_gives I.into_iter_gives I.IntoIter.remaining iter) }
        ensures succeeds { GivesNothing I.into_iter_gives I.IntoIter.next_gives I.IntoIter.remaining iter → IsOk result }
    {
        let map = OrderedMap::from_iter(alloc, iter)?;
        match SortedMap::from_ordered_map(map) {
            Ok(sorted) => Ok(sorted),
            Err(_) => Err(AllocError),
        }
    }
}

impl<K: Ord + Hash + Clone, V: Clone> SortedMap<K, V> {
    /// A map of clones of the entries under the same hashes, in their order, so that the same keys are found in it. Its
    /// capacity is their number, and it has a hash index exactly if it is longer than `UNINDEXED`. If memory is
    /// refused, also to the clone of a key or a value, nothing is made. It is not refused if there are no entries. The
    /// clone of a key must be equal to the key.
    pub fn clone(&self) -> Result<Self, AllocError>
        // The clone of a key is equal to the key.
        requires { IsEqualClone K.eq K.is_clone }
        ensures clones { Clones K.eq K.is_clone V.is_clone self.now result }
        ensures along { IfOk result (λ map. AscendsAlong K.cmp (keys map)) }
    {
        Ok(SortedMap {
            map: self.map.clone()?,
        })
    }
}
