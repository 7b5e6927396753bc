//! Sets that take in the items of iterators.
ghost use Rattle.std.specs.Prelude.{◌≡◌, ◌≤◌, ◌+◌, IfOk, IsOk, OnOk, is_some, length, true};
ghost use Rattle.std.specs.Iterator.{IsFiniteIterable, size};
ghost use Rattle.starlark_hash.specs.declared.hash_value.StarlarkHashValue.{StarlarkHashValue};
ghost use Rattle.starlark_hash.specs.Lookup.{found};
ghost use Rattle.starlark_small.specs.Collect.{Collects, Extends, IsExtended};
ghost use Rattle.starlark_small.specs.Lookup.{AreOwn, contains};
ghost use Rattle.starlark_sets.specs.Collect.{HasEach, HasNoMore, InsertsEach, IsSetOf, KeepsOwn, element_entry, own_element};

use super::SmallSet;
use starlark_hash::{Hashed, WithUnit};
use starlark_small::SmallMap;
use std::alloc::{AllocError, Global};
use std::hash::Hash;

impl<T: Eq + Hash + Drop> SmallSet<T> {
    /// Inserts the items in their order, each under its own hash. An item whose equal is there is dropped, and the
    /// stored one stays. Nothing is reserved first. With room for all items, capacity and hash index stay; otherwise
    /// the capacity grows as by one insertion after the other. An item is refused only if it is new, there is no room
    /// left, and memory is refused or the set has 3,489,660,928 elements. Then the items before it are in the set, and
    /// it and the items after it are dropped. The call requires that the iterator's type bounds its items.
    pub fn extend<I: IntoIterator<Item = T>>(&mut self, iter: I) -> Result<(), AllocError>
        requires { IsFiniteIterable I.into_iter_gives I.IntoIter.can_next I.IntoIter.remaining iter }
        // Done: the set has each of the items, and each element that it had.
        ensures found { OnOk result (HasEach T.eq T.hash_input I.IntoIter.next_gives I.into_iter_gives iter (contains T.eq T.hash_input self.old) self.new) }
        // Done: all items were inserted. Refused: those before the refused one were inserted. What was there stays,
        // under whatever hash.
        ensures entries { Extends T.eq (own_element T.hash_input) I.IntoIter.next_gives I.into_iter_gives iter self.old.entries self.new.entries result }
        ensures stays { (under : StarlarkHashValue) (element : T) → is_some (found (T.eq element) under self.old.entries) ≡ true → is_some (found (T.eq element) under self.new.entries) ≡ true }
        ensures longer { length self.old.entries ≤ length self.new.entries }
        ensures own { AreOwn T.hash_input self.old → AreOwn T.hash_input self.new }
        // With room for all items no memory is asked for. Each item uses up at most one unit of room.
        ensures memory { IsExtended ((it : _) → I.into_iter_gives iter it → size (I.IntoIter.remaining it) ≤ self.old.room) self.old self.new result }
        ensures left { (it : _) × I.into_iter_gives iter it × (self.old.room ≤ self.new.room + size (I.IntoIter.remaining it)) }
    {
        self.map.extend(WithUnit::new(iter.into_iter()))
    }

    /// Makes a set of the items, inserted in their order, each under its own hash. The set begins with room for the
    /// lower bound of the iterator's `size_hint`. If memory is refused, nothing is made and the items are dropped.
    /// Capacity and hash index are as `SmallMap::from_iter` makes them. If the iterator's bound leaves no items, the
    /// call is not refused. The call requires that the iterator's type bounds its items.
    pub fn from_iter<I: IntoIterator<Item = T>>(alloc: Global, iter: I) -> Result<Self, AllocError>
        requires { IsFiniteIterable I.into_iter_gives I.IntoIter.can_next I.IntoIter.remaining iter }
        ensures made { IfOk result (IsSetOf T.eq T.hash_input I.IntoIter.next_gives I.into_iter_gives I.IntoIter.remaining iter) }
        ensures most { IfOk result (HasNoMore I.IntoIter.next_gives I.into_iter_gives iter) }
        ensures succeeds { ((it : _) → I.into_iter_gives iter it → size (I.IntoIter.remaining it) ≡ 0) → IsOk result }
    {
        Ok(SmallSet {
            map: SmallMap::from_iter(alloc, WithUnit::new(iter.into_iter()))?,
            alloc,
        })
    }
}

impl<T: Eq + Drop> SmallSet<T> {
    /// Makes a set of the items, inserted in their order, each under the hash that it comes with. Room, memory and
    /// refusals are those of `from_iter`.
    pub fn from_iter_hashed<I: IntoIterator<Item = Hashed<T>>>(
        alloc: Global,
        iter: I,
    ) -> Result<Self, AllocError>
        requires { IsFiniteIterable I.into_iter_gives I.IntoIter.can_next I.IntoIter.remaining iter }
        ensures set { IfOk result (Collects T.eq element_entry I.IntoIter.next_gives I.into_iter_gives I.IntoIter.remaining iter) }
        ensures each { IfOk result (InsertsEach T.eq I.IntoIter.next_gives I.into_iter_gives iter) }
        ensures own { IfOk result (KeepsOwn I.IntoIter.next_gives I.into_iter_gives iter) }
        ensures succeeds { ((it : _) → I.into_iter_gives iter it → size (I.IntoIter.remaining it) ≡ 0) → IsOk result }
    {
        Ok(SmallSet {
            map: SmallMap::from_iter_hashed(alloc, WithUnit::new(iter.into_iter()))?,
            alloc,
        })
    }
}
