//! `SmallMap`s made of an iterator's items, or extended by them.
ghost use Rattle.std.specs.Prelude.{◌≡◌, ◌+◌, ◌≤◌, None, IfOk, IsOk, OnOk, is_some, length, true};
ghost use Rattle.std.specs.Iterator.{IsFiniteIterable, IsFinite, size};
ghost use Rattle.starlark_hash.specs.declared.hash_value.StarlarkHashValue.{StarlarkHashValue};
ghost use Rattle.starlark_hash.specs.Lookup.{found};
ghost use Rattle.starlark_small.specs.Collect.{Collects, Extends, FindsLast, InsertsItems, InsertsEach, IsExtended, KeepsOwn, own_entry, IsMadeOf};
ghost use Rattle.starlark_small.specs.Lookup.{AreOwn, get};

use super::SmallMap;
use crate::index::UNINDEXED;
use starlark_hash::Hashed;
use std::alloc::{AllocError, Global};
use std::hash::Hash;

impl<K: Eq + Hash + Drop, V: Drop> SmallMap<K, V> {
    /// Inserts the items in their order by `insert`, each under its key's own hash. Nothing is reserved before, so the
    /// capacity grows as by single insertions. If there is room for all items, capacity and hash index stay. If a new
    /// key is refused, the items before it are in the map and have used up the room, and the refused item and the rest
    /// are dropped. The call requires that the iterator's type bounds its items.
    pub fn extend<I: IntoIterator<Item = (K, V)>>(&mut self, iter: I) -> Result<(), AllocError>
        requires { IsFiniteIterable I.into_iter_gives I.IntoIter.can_next I.IntoIter.remaining iter }
        // Done: each key has the last value that the items have for it, or else its old value.
        ensures found { OnOk result (FindsLast K.eq K.hash_input I.IntoIter.next_gives I.into_iter_gives iter (get K.eq K.hash_input self.old) self.new) }
        // Done or refused: the items were inserted, or those before a refused key. Each key that was found is still
        // found.
        ensures entries { Extends K.eq (own_entry K.hash_input) I.IntoIter.next_gives I.into_iter_gives iter self.old.entries self.new.entries result }
        ensures stays { (under : StarlarkHashValue) (key : K) → is_some (found (K.eq key) under self.old.entries) ≡ true → is_some (found (K.eq key) under self.new.entries) ≡ true }
        ensures longer { length self.old.entries ≤ length self.new.entries }
        ensures own { AreOwn K.hash_input self.old → AreOwn K.hash_input self.new }
        // With room for all items no memory is asked for. Each item uses up room for one at most.
        ensures memory { IsExtended ((it : _) → I.into_iter_gives iter it → size (I.IntoIter.remaining it) ≤ self.old.room) self.old self.new result }
        ensures left { (it : _) × I.into_iter_gives iter it × (self.old.room ≤ self.new.room + size (I.IntoIter.remaining it)) }
    {
        self.insert_items(iter.into_iter())
    }

    /// A map of the items, inserted in their order, each under its key's own hash. The map begins with room for the
    /// lower bound of the iterator's `size_hint`, and from there the capacity grows as by single insertions. If memory
    /// is refused, nothing is made and the items are dropped. There is a hash index exactly if that room or the length
    /// is above `UNINDEXED`. If the iterator's type shows that there are no items, the call is not refused. The call
    /// requires that the iterator's type bounds its items.
    pub fn from_iter<I: IntoIterator<Item = (K, V)>>(
        alloc: Global,
        iter: I,
    ) -> Result<Self, AllocError>
        requires { IsFiniteIterable I.into_iter_gives I.IntoIter.can_next I.IntoIter.remaining iter }
        ensures found { IfOk result (FindsLast K.eq K.hash_input I.IntoIter.next_gives I.into_iter_gives iter (λ _. None)) }
        ensures made { IfOk result (IsMadeOf K.eq K.hash_input I.IntoIter.next_gives I.into_iter_gives I.IntoIter.remaining iter) }
        ensures succeeds { ((it : _) → I.into_iter_gives iter it → size (I.IntoIter.remaining it) ≡ 0) → IsOk result }
    {
        let items = iter.into_iter();
        let mut map = SmallMap::with_capacity(alloc, items.size_hint().0)?;
        map.insert_items(items)?;
        Ok(map)
    }

    // Inserts the items of an iterator.
    fn insert_items<I: Iterator<Item = (K, V)>>(&mut self, mut items: I) -> Result<(), AllocError>
        requires can { I.can_next items }
        requires finite { IsFinite (I.remaining items) }
        ensures entries { InsertsItems K.eq (own_entry K.hash_input) I.next_gives items self.old.entries self.new.entries result }
        ensures memory { IsExtended (size (I.remaining items) ≤ self.old.room) self.old self.new result }
        ensures left { self.old.room ≤ self.new.room + size (I.remaining items) }
    {
        prove!(self.index().is_some() || self.len() <= UNINDEXED);
        while let Some(pair) = items.next() {
            let (key, value) = pair;
            match self.insert(key, value) {
                Ok(_old) => {}
                Err(_refused) => return Err(AllocError),
            }
        }
        Ok(())
    }
}

impl<K: Eq + Drop, V: Drop> SmallMap<K, V> {
    /// A map of the items, inserted in their order, each under its precomputed hash. Room, capacity and hash index are
    /// as `from_iter` makes them. If memory is refused, nothing is made and the items are dropped. It is not refused if
    /// the iterator's bounds say that there are no items. The call requires that the iterator's type bounds its items.
    pub fn from_iter_hashed<I: IntoIterator<Item = (Hashed<K>, V)>>(
        alloc: Global,
        iter: I,
    ) -> Result<Self, AllocError>
        requires { IsFiniteIterable I.into_iter_gives I.IntoIter.can_next I.IntoIter.remaining iter }
        ensures map { IfOk result (Collects K.eq (λ item. item) I.IntoIter.next_gives I.into_iter_gives I.IntoIter.remaining iter) }
        ensures each { IfOk result (InsertsEach K.eq I.IntoIter.next_gives I.into_iter_gives iter) }
        ensures own { IfOk result (KeepsOwn I.IntoIter.next_gives I.into_iter_gives iter) }
        ensures succeeds { ((it : _) → I.into_iter_gives iter it → size (I.IntoIter.remaining it) ≡ 0) → IsOk result }
    {
        let items = iter.into_iter();
        let mut map = SmallMap::with_capacity(alloc, items.size_hint().0)?;
        map.insert_entries(items)?;
        Ok(map)
    }

    // Inserts the entries of an iterator.
    fn insert_entries<I: Iterator<Item = (Hashed<K>, V)>>(
        &mut self,
        mut items: I,
    ) -> Result<(), AllocError>
        requires can { I.can_next items }
        requires finite { IsFinite (I.remaining items) }
        ensures entries { InsertsItems K.eq (λ item. item) I.next_gives items self.old.entries self.new.entries result }
        ensures memory { IsExtended (size (I.remaining items) ≤ self.old.room) self.old self.new result }
    {
        prove!(self.index().is_some() || self.len() <= UNINDEXED);
        while let Some(entry) = items.next() {
            let (key, value) = entry;
            match self.insert_hashed(key, value) {
                Ok(_old) => {}
                Err(_refused) => return Err(AllocError),
            }
        }
        Ok(())
    }
}
