//! A map whose order counts when it is compared. The files of this module alone see the map inside.
ghost use Rattle.std.specs.Borrow.{sem};
ghost use Rattle.std.specs.Hash.{HashWrites};
ghost use Rattle.std.specs.Iterator.{IsFiniteIterable, size};
ghost use Rattle.std.specs.List.{IsAmong};
ghost use Rattle.std.specs.Map.Iter.{deref_pair};
ghost use Rattle.std.specs.Option.{option_copied, option_map, option_copied_mut};
ghost use Rattle.std.specs.Prelude.{◌≡◌, ◌≤◌, ◌+◌, ◌==◌, ◌<◌, [], slice_get, length, map, None, Some, IsOk, IsTrue, IfErr, IfOk, IfSome, OnErr, OnOk, is_some, true, ◌^◌};
ghost use Rattle.starlark_hash.specs.Clone.{IsEqualClone};
ghost use Rattle.starlark_hash.specs.declared.hash_value.StarlarkHashValue.{StarlarkHashValue};
ghost use Rattle.starlark_hash.specs.Entries.{entry_value, pair_of};
ghost use Rattle.starlark_hash.specs.Hasher.{own_hash};
ghost use Rattle.starlark_hash.specs.Lookup.{found};
ghost use Rattle.starlark_small.specs.Clone.{Clones};
ghost use Rattle.starlark_small.specs.Collect.{Extends, FindsLast, IsExtended, IsMadeOf, own_entry};
ghost use Rattle.starlark_small.specs.Insert.{Inserts, IsRefusedInsertion, LeavesMemory};
ghost use Rattle.starlark_small.specs.Lookup.{AreOwn, HasKey, IsEmpty, NamesIndex, Updates, contains, get};
ghost use Rattle.starlark_small.specs.Map.{KeepsMemory, own_hashed};
ghost use Rattle.starlark_small.specs.MapEntry.{Enters};
ghost use Rattle.starlark_small.specs.New.{IsBare, MakesEmptyFor};
ghost use Rattle.starlark_small.specs.Remove.{Removes};
ghost use Rattle.starlark_small.specs.Sort.{SortsByKey};
ghost use Rattle.starlark_sets.specs.Lend.{follows_entry, lends_get, lends_inside};

mod compare;
mod iter;

use starlark_hash::{NoRoom, Query};
use starlark_small::{Entry, SmallMap};
use std::alloc::{AllocError, Global};
use std::hash::Hash;
use std::marker::Model;

/// A `SmallMap` that is compared and hashed in its order. A contract sees it as the map inside, and its calls have the
/// clauses of that map's calls.
#[derive(Debug, Drop)]
pub struct OrderedMap<K: Eq, V>(SmallMap<K, V>);

impl<K: Eq, V> Model for OrderedMap<K, V> {
    ghost use Rattle.starlark_small.specs.Map.{Map};

    ghost Value = { Map K V };

    ghost view = { λ m. m.0 };
}

impl<K: Eq, V> OrderedMap<K, V> {
    /// Makes an empty map without room, capacity and hash index. It asks for no memory until the first insertion.
    #[inline]
    pub fn new(alloc: Global) -> Self
        ensures { IsBare result }
    {
        OrderedMap(SmallMap::new(alloc))
    }

    /// Makes an empty map of this capacity, with room for that many entries, and with a hash index if that many need
    /// one. If memory is refused, or for more than 3,489,660,928 entries, nothing is made. Capacity 0 asks for no
    /// memory.
    pub fn with_capacity(alloc: Global, capacity: usize) -> Result<Self, AllocError>
        ensures { MakesEmptyFor capacity result }
    {
        Ok(OrderedMap(SmallMap::with_capacity(alloc, capacity)?))
    }

    /// Returns the number of entries.
    #[inline]
    pub fn len(&self) -> usize
        ensures len { result ≡ length self.now.entries }
        ensures few { length self.now.entries < 2 ^ 63 }
    {
        self.0.len()
    }

    /// Returns whether there are no entries.
    #[inline]
    pub fn is_empty(&self) -> bool
        ensures { result ≡ (length self.now.entries == 0) }
    {
        self.0.is_empty()
    }

    /// Returns the value under the query's own hash whose key the query stands for, or `None`.
    #[inline(always)]
    pub fn get<Q: Query<K> + Hash>(&self, key: Q) -> Option<&V>
        // What is found comes back. It is one of the map's values, and the query stands for one of its keys.
        ensures value { option_copied result ≡ get Q.stands_for Q.hash_input self.now key }
        ensures member { IfSome (option_copied result) (λ value. IsAmong (map entry_value self.now.entries) value) }
        ensures key { IfSome result (λ _. HasKey (Q.stands_for key) self.now) }
    {
        self.0.get(key)
    }

    /// Returns the key and the value at an index, or `None` past the end.
    #[inline]
    pub fn get_index(&self, index: usize) -> Option<(&K, &V)>
        ensures { option_map deref_pair result ≡ option_map pair_of (slice_get self.now.entries index) }
    {
        self.0.get_index(index)
    }

    /// Returns the index under the query's own hash whose key the query stands for.
    #[inline(always)]
    pub fn get_index_of<Q: Query<K> + Hash>(&self, key: Q) -> Option<usize>
        ensures { NamesIndex (Q.stands_for key) (own_hash Q.hash_input key) self.now result }
    {
        self.0.get_index_of(key)
    }

    /// Returns whether there is an entry under the query's own hash whose key the query stands for.
    #[inline(always)]
    pub fn contains_key<Q: Query<K> + Hash>(&self, key: Q) -> bool
        // Whether something is found. If so, the query stands for one of the map's keys.
        ensures found { result ≡ contains Q.stands_for Q.hash_input self.now key }
        ensures key { IsTrue result → HasKey (Q.stands_for key) self.now }
    {
        self.0.contains_key(key)
    }

    /// Lends the value under the query's own hash whose key the query stands for. The map ends with what is left in the
    /// value, and all else stays. If there is no such entry, the call returns `None` and the map stays.
    #[inline(always)]
    pub fn get_mut<Q: Query<K> + Hash>(&mut self, key: Q) -> Option<&mut V>
        ensures* writes_back { sem 𝓛 (lends_get K.row V.row K.PartialEq self.entry (Q.stands_for key) (own_hash Q.hash_input key) result) }
        ensures value { option_copied_mut result ≡ get Q.stands_for Q.hash_input self.old key }
        ensures key { IfSome result (λ _. HasKey (Q.stands_for key) self.old) }
    {
        self.0.get_mut(key)
    }

    /// Returns the entry of a key under its own hash. If the key is there, the stored key stays and this one is
    /// dropped. The map ends as the entry leaves it.
    pub fn entry(&mut self, key: K) -> Entry<'_, K, V>
    where
        K: Hash + Drop,
        ensures* writes_back { sem 𝓛 (follows_entry K.row V.row K.PartialEq self.entry result) }
        ensures enters { Enters K.eq self.old (own_hashed K.hash_input key) result }
    {
        self.as_mut_small_map().entry(key)
    }

    /// Lends the map inside to a function over small maps, such as one that goes by entries. The ordered map ends as
    /// that function leaves it.
    #[inline]
    pub fn as_mut_small_map(&mut self) -> &mut SmallMap<K, V>
        ensures* writes_back { sem 𝓛 (lends_inside K.row V.row K.PartialEq self.entry result) }
        ensures value { result.now ≡ self.old }
    {
        &mut self.0
    }

    /// Inserts a value under the key's own hash. If the key is there, its index and its stored key stay, its value is
    /// replaced, and the old value is returned; a new key is appended. Only a new key is refused, if there is no room
    /// and memory is refused. Capacity, room and hash index are left as `SmallMap::insert_hashed` leaves them.
    #[inline]
    pub fn insert(&mut self, key: K, value: V) -> Result<Option<V>, NoRoom<(K, V)>>
    where
        K: Hash + Drop,
        // Done: the value that was there comes back, the key has this one, and every other key has what it had.
        ensures old { IfOk result (λ was. was ≡ get K.eq K.hash_input self.old key) }
        ensures updates { OnOk result (Updates K.eq K.hash_input self.old self.new key (Some value)) }
        // The list now: a key that is there keeps its index and its stored key, and a new one is appended.
        ensures inserts { OnOk result (Inserts K.eq self.old self.new (own_hashed K.hash_input key) value) }
        // Keys that are under their own hashes stay so, also if this one is refused.
        ensures own { AreOwn K.hash_input self.old → AreOwn K.hash_input self.new }
        // Refused: only a new key, only without room. Key and value come back, and entries and hash index are
        // unchanged. The capacity may have grown.
        ensures refused { OnErr result (IsRefusedInsertion K.eq self.old self.new (own_hashed K.hash_input key)) }
        ensures handed_back { IfErr result (λ refused. refused.0 ≡ (key, value)) }
        // Done or refused: no room is lost, and with room to spare no memory is asked for.
        ensures memory { LeavesMemory K.eq self.old self.new (own_hashed K.hash_input key) }
    {
        self.0.insert(key, value)
    }

    /// Sorts by key; entries with equal keys keep their order. If the keys ascend already, no memory is asked for. A
    /// refusal leaves the entries as they were. Capacity and hash index stay.
    pub fn sort_keys(&mut self) -> Result<(), AllocError>
    where
        K: Ord,
        ensures { SortsByKey K.eq K.cmp self.old self.new result }
    {
        self.0.sort_keys()
    }

    /// Removes the entry under the query's own hash whose key the query stands for, drops its key and returns its
    /// value. The index of each later entry falls by one. Capacity and hash index stay.
    #[inline]
    pub fn remove<Q: Query<K> + Hash>(&mut self, key: Q) -> Option<V>
    where
        K: Drop,
        // The value that was found comes back.
        ensures value { result ≡ get Q.stands_for Q.hash_input self.old key }
        // The map now, by look-ups and as a list.
        ensures removes { Removes K.eq (Q.stands_for key) (own_hash Q.hash_input key) self.old self.new }
    {
        self.0.shift_remove(key)
    }

    /// Removes all entries. Capacity and hash index stay.
    pub fn clear(&mut self)
    where
        K: Drop,
        V: Drop,
        // No entry is left, and none is found.
        ensures entries { self.new.entries ≡ [] }
        ensures lacks { IsEmpty self.new }
        ensures own { (feeds : K → HashWrites) → AreOwn feeds self.new }
        // No room is lost, and capacity and hash index stay.
        ensures kept { KeepsMemory self.old self.new }
    {
        self.0.clear();
    }
}

impl<K: Eq, V> From<SmallMap<K, V>> for OrderedMap<K, V> {
    ghost from_gives = { λ map ordered. ordered ≡ map };

    /// Takes the map over, with its entries, room, capacity and hash index.
    #[inline]
    fn from(map: SmallMap<K, V>) -> Self {
        OrderedMap(map)
    }
}

impl<K: Eq + Hash + Drop, V: Drop> OrderedMap<K, V> {
    /// Inserts the items in their order, each under its key's own hash. Nothing is reserved first. With room for all
    /// items, capacity and hash index stay; otherwise the capacity grows as by one insertion after the other. An item
    /// is refused only if its key is new, there is no room left, and memory is refused or the map has 3,489,660,928
    /// entries. Then the items before it are in the map, and it and the items after it are dropped. The call requires
    /// that the iterator's type bounds its items.
    pub fn extend<I: IntoIterator<Item = (K, V)>>(&mut self, iter: I) -> Result<(), AllocError>
        requires { IsFiniteIterable I.into_iter_gives I.IntoIter.can_next I.IntoIter.remaining iter }
        // Done: each key has the last value that the items have for it, or else the one that it had.
        ensures found { OnOk result (FindsLast K.eq K.hash_input I.IntoIter.next_gives I.into_iter_gives iter (get K.eq K.hash_input self.old) self.new) }
        // Done: all items were inserted. Refused: those before the refused one were inserted. What was there stays,
        // under whatever hash.
        ensures entries { Extends K.eq (own_entry K.hash_input) I.IntoIter.next_gives I.into_iter_gives iter self.old.entries self.new.entries result }
        ensures stays { (under : StarlarkHashValue) (key : K) → is_some (found (K.eq key) under self.old.entries) ≡ true → is_some (found (K.eq key) under self.new.entries) ≡ true }
        ensures longer { length self.old.entries ≤ length self.new.entries }
        ensures own { AreOwn K.hash_input self.old → AreOwn K.hash_input self.new }
        // With room for all items no memory is asked for. Each item uses up at most one unit of room.
        ensures memory { IsExtended ((it : _) → I.into_iter_gives iter it → size (I.IntoIter.remaining it) ≤ self.old.room) self.old self.new result }
        ensures left { (it : _) × I.into_iter_gives iter it × (self.old.room ≤ self.new.room + size (I.IntoIter.remaining it)) }
    {
        self.0.extend(iter)
    }

    /// Makes a map of the items, inserted in their order, each under its key's own hash. The map begins with room for
    /// the lower bound of the iterator's `size_hint`. If memory is refused, nothing is made and the items are dropped.
    /// Capacity and hash index are as `SmallMap::from_iter` makes them. If the iterator's bound leaves no items, the
    /// call is not refused. The call requires that the iterator's type bounds its items.
    pub fn from_iter<I: IntoIterator<Item = (K, V)>>(
        alloc: Global,
        iter: I,
    ) -> Result<Self, AllocError>
        requires { IsFiniteIterable I.into_iter_gives I.IntoIter.can_next I.IntoIter.remaining iter }
        ensures found { IfOk result (FindsLast K.eq K.hash_input I.IntoIter.next_gives I.into_iter_gives iter (λ _. None)) }
        ensures made { IfOk result (IsMadeOf K.eq K.hash_input I.IntoIter.next_gives I.into_iter_gives I.IntoIter.remaining iter) }
        ensures succeeds { ((it : _) → I.into_iter_gives iter it → size (I.IntoIter.remaining it) ≡ 0) → IsOk result }
    {
        Ok(OrderedMap(SmallMap::from_iter(alloc, iter)?))
    }
}

impl<K: Eq + Clone, V: Clone> OrderedMap<K, V> {
    /// Makes a map of clones of the entries, under the same hashes and in their order. The same keys are found in it.
    /// Its capacity is their number, and it has a hash index exactly if that is above `UNINDEXED`. If memory is
    /// refused, also to the clone of a key or a value, nothing is made. Without entries the call is not refused.
    pub fn clone(&self) -> Result<Self, AllocError>
        // A clone of a key is equal to it.
        requires { IsEqualClone K.eq K.is_clone }
        ensures { Clones K.eq K.is_clone V.is_clone self.now result }
    {
        Ok(OrderedMap(self.0.clone()?))
    }
}
