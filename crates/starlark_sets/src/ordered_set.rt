//! A set whose order counts when it is compared. The files of this module alone see the set inside.
ghost use Rattle.std.specs.Hash.{HashWrites};
ghost use Rattle.std.specs.Iterator.{IsFiniteIterable, size};
ghost use Rattle.std.specs.Option.{option_copied, option_map};
ghost use Rattle.std.specs.Prelude.{◌≡◌, ◌≤◌, ◌+◌, ◌-◌, ◌==◌, [], not, false, true, is_some, slice_get, length, None, IfErr, IfSome, IsOk, IsTrue, IfOk, OnErr, OnOk, Some, ◌<◌, ◌^◌};
ghost use Rattle.starlark_hash.specs.Clone.{IsEqualClone};
ghost use Rattle.starlark_hash.specs.Entries.{entry_key};
ghost use Rattle.starlark_hash.specs.HashValue.{hash_of, key_of};
ghost use Rattle.starlark_hash.specs.Hasher.{own_hash};
ghost use Rattle.starlark_hash.specs.Lookup.{found};
ghost use Rattle.starlark_hash.specs.Unit.{IsUnitClone};
ghost use Rattle.starlark_hash.specs.declared.hash_value.StarlarkHashValue.{StarlarkHashValue};
ghost use Rattle.starlark_small.specs.Clone.{Clones};
ghost use Rattle.starlark_small.specs.Collect.{Extends, IsExtended};
ghost use Rattle.starlark_small.specs.Insert.{Inserts, IsInserted, IsRefused, IsRefusedInsertion, LeavesMemory};
ghost use Rattle.starlark_small.specs.Lookup.{AreOwn, HasKey, IsEmpty, NamesIndex, Updates, contains, get_key};
ghost use Rattle.starlark_small.specs.Map.{KeepsMemory, own_hashed};
ghost use Rattle.starlark_small.specs.New.{IsBare, MakesEmptyFor};
ghost use Rattle.starlark_small.specs.Remove.{Removes};
ghost use Rattle.starlark_small.specs.Sort.{SortsByKey, Turns};
ghost use Rattle.starlark_sets.specs.Collect.{HasEach, IsSetOf, own_element};

mod compare;
mod iter;
mod try_insert;

use crate::small_set::SmallSet;
pub use iter::{IntoIter, Iter};
use starlark_hash::{Hashed, NoRoom, Query};
use std::alloc::{AllocError, Global};
use std::hash::Hash;
use std::marker::Model;
pub use try_insert::{OccupiedError, TryInsertError};

/// A `SmallSet` that is compared and hashed in its order. A contract sees it as the set inside, and its calls have the
/// clauses of that set's calls.
#[derive(Debug, Drop)]
pub struct OrderedSet<T: Eq>(SmallSet<T>);

impl<T: Eq> Model for OrderedSet<T> {
    ghost use Rattle.starlark_sets.specs.Set.{Set};

    ghost Value = { Set T };

    ghost view = { λ s. s.0 };
}

impl<T: Eq> OrderedSet<T> {
    /// Makes an empty set without room, capacity and hash index. It asks for no memory until the first insertion.
    #[inline]
    pub fn new(alloc: Global) -> Self
        ensures { IsBare result }
    {
        OrderedSet(SmallSet::new(alloc))
    }

    /// Makes an empty set of this capacity, with room for that many elements, and with a hash index if that many need
    /// one. If memory is refused, or for more than 3,489,660,928 elements, nothing is made. Capacity 0 asks for no
    /// memory.
    pub fn with_capacity(alloc: Global, capacity: usize) -> Result<Self, AllocError>
        ensures { MakesEmptyFor capacity result }
    {
        Ok(OrderedSet(SmallSet::with_capacity(alloc, capacity)?))
    }

    /// Returns the number of elements.
    #[inline]
    pub fn len(&self) -> usize
        ensures len { result ≡ length self.now.entries }
        ensures few { length self.now.entries < 2 ^ 63 }
    {
        self.0.len()
    }

    /// Returns whether there are no elements.
    #[inline]
    pub fn is_empty(&self) -> bool
        ensures { result ≡ (length self.now.entries == 0) }
    {
        self.0.is_empty()
    }

    /// Returns the element under the query's own hash that the query stands for.
    #[inline(always)]
    pub fn get<Q: Query<T> + Hash>(&self, query: Q) -> Option<&T>
        // The stored element that is found comes back, and the query stands for it.
        ensures element { option_copied result ≡ get_key Q.stands_for Q.hash_input self.now query }
        ensures there { is_some result ≡ contains Q.stands_for Q.hash_input self.now query }
        ensures equivalent { IfSome result (λ element. IsTrue (Q.stands_for query element.now)) }
    {
        self.0.get(query)
    }

    /// Returns whether there is an element under the query's own hash that the query stands for.
    #[inline(always)]
    pub fn contains<Q: Query<T> + Hash>(&self, query: Q) -> bool
        // Whether an element is found. If so, the query stands for one of the set's elements.
        ensures found { result ≡ contains Q.stands_for Q.hash_input self.now query }
        ensures key { IsTrue result → HasKey (Q.stands_for query) self.now }
    {
        self.0.contains(query)
    }

    /// Returns whether there is an element under this hash that the query stands for.
    #[inline(always)]
    pub fn contains_hashed<Q: Query<T>>(&self, query: Hashed<Q>) -> bool
        // Whether an element is found. If so, the query stands for one of the set's elements.
        ensures found { result ≡ is_some (found (Q.stands_for (key_of query)) (hash_of query) self.now.entries) }
        ensures key { IsTrue result → HasKey (Q.stands_for (key_of query)) self.now }
    {
        self.0.contains_hashed(query)
    }

    /// Returns the element at an index, or `None` past the end.
    #[inline]
    pub fn get_index(&self, index: usize) -> Option<&T>
        ensures { option_copied result ≡ option_map entry_key (slice_get self.now.entries index) }
    {
        self.0.get_index(index)
    }

    /// Returns the index of the element under the query's own hash that the query stands for.
    #[inline(always)]
    pub fn get_index_of<Q: Query<T> + Hash>(&self, query: Q) -> Option<usize>
        ensures { NamesIndex (Q.stands_for query) (own_hash Q.hash_input query) self.now result }
    {
        self.0.get_index_of(query)
    }

    /// Returns the first element, if there is one.
    #[inline]
    pub fn first(&self) -> Option<&T>
        ensures { option_copied result ≡ option_map entry_key (slice_get self.now.entries 0) }
    {
        self.0.first()
    }

    /// Returns the last element, if there is one.
    #[inline]
    pub fn last(&self) -> Option<&T>
        ensures { option_copied result ≡ option_map entry_key (slice_get self.now.entries (length self.now.entries - 1)) }
    {
        self.0.last()
    }

    /// Inserts an element under its own hash, and returns whether it was new. An element that is there stays, and this
    /// one is dropped; a new one is appended. Only a new element is refused, if there is no room and memory is refused.
    /// Capacity, room and hash index are left as `SmallMap::insert_hashed` leaves them.
    #[inline]
    pub fn insert(&mut self, element: T) -> Result<bool, NoRoom<T>>
    where
        T: Hash + Drop,
        // Done: whether the element was lacking comes back. It is there now, and every other element is there if it was.
        ensures is_new { IfOk result (λ is_new. is_new ≡ not (contains T.eq T.hash_input self.old element)) }
        ensures updates { OnOk result (Updates T.eq T.hash_input self.old self.new element (Some tt)) }
        // An element that was there changes nothing.
        ensures there { contains T.eq T.hash_input self.old element ≡ true → IsOk result × (self.new ≡ self.old) }
        // The list now: an element that is there keeps its index, and a new one is appended.
        ensures inserts { OnOk result (Inserts T.eq self.old self.new (own_hashed T.hash_input element) tt) }
        // Elements that are under their own hashes stay so, also if this one is refused.
        ensures own { AreOwn T.hash_input self.old → AreOwn T.hash_input self.new }
        // Refused: only a new element, only without room. It comes back, and elements and hash index are unchanged. The
        // capacity may have grown.
        ensures refused { OnErr result (IsRefusedInsertion T.eq self.old self.new (own_hashed T.hash_input element)) }
        ensures handed_back { IfErr result (λ refused. refused.0 ≡ element) }
        // Done or refused: no room is lost, and with room to spare no memory is asked for.
        ensures memory { LeavesMemory T.eq self.old self.new (own_hashed T.hash_input element) }
    {
        self.0.insert(element)
    }

    /// Appends a new element under its own hash, without a look-up. The element is refused if there is no room and
    /// memory is refused.
    pub fn insert_unique_unchecked(&mut self, element: T) -> Result<(), NoRoom<T>>
    where
        T: Hash,
        requires { contains T.eq T.hash_input self.old element ≡ false }
        // Done: the element is the last, it is there now, and every other element is there if it was.
        ensures inserted { OnOk result (IsInserted self.old self.new (own_hashed T.hash_input element) tt) }
        ensures updates { OnOk result (Updates T.eq T.hash_input self.old self.new element (Some tt)) }
        // Elements that are under their own hashes stay so, also if this one is refused.
        ensures own { AreOwn T.hash_input self.old → AreOwn T.hash_input self.new }
        // Refused: only without room. The element comes back, and elements and hash index are unchanged. The capacity
        // may have grown.
        ensures refused { OnErr result (IsRefused self.old self.new) }
        ensures full { OnErr result (self.old.room ≡ 0) }
        ensures handed_back { IfErr result (λ refused. refused.0 ≡ element) }
    {
        self.0.insert_unique_unchecked(element)
    }

    /// Sorts the elements; equal ones keep their order. If they ascend already, no memory is asked for. A refusal
    /// leaves the elements as they were. Capacity and hash index stay.
    pub fn sort(&mut self) -> Result<(), AllocError>
    where
        T: Ord,
        ensures { SortsByKey T.eq T.cmp self.old self.new result }
    {
        self.0.sort()
    }

    /// Removes the element under the query's own hash that the query stands for, and returns it. The index of each
    /// later element falls by one. Capacity and hash index stay.
    #[inline]
    pub fn take<Q: Query<T> + Hash>(&mut self, query: Q) -> Option<T>
        // The stored element that was found comes back, and the query stands for it.
        ensures taken { result ≡ get_key Q.stands_for Q.hash_input self.old query }
        ensures there { is_some result ≡ contains Q.stands_for Q.hash_input self.old query }
        ensures equivalent { IfSome result (λ element. IsTrue (Q.stands_for query element)) }
        // The set now, by look-ups and as a list.
        ensures removes { Removes T.eq (Q.stands_for query) (own_hash Q.hash_input query) self.old self.new }
    {
        self.0.take(query)
    }

    /// Removes all elements. Capacity and hash index stay.
    pub fn clear(&mut self)
    where
        T: Drop,
        // No element is left, and none is found.
        ensures entries { self.new.entries ≡ [] }
        ensures lacks { IsEmpty self.new }
        ensures own { (feeds : T → HashWrites) → AreOwn feeds self.new }
        // No room is lost, and capacity and hash index stay.
        ensures kept { KeepsMemory self.old self.new }
    {
        self.0.clear();
    }

    /// Reverses the order of the elements. Capacity and hash index stay.
    pub fn reverse(&mut self)
        ensures { Turns T.eq self.old self.new }
    {
        self.0.reverse();
    }
}

impl<T: Eq> From<SmallSet<T>> for OrderedSet<T> {
    ghost from_gives = { λ set ordered. ordered ≡ set };

    /// Takes the set over, with its elements, room, capacity and hash index.
    #[inline]
    fn from(set: SmallSet<T>) -> Self {
        OrderedSet(set)
    }
}

impl<T: Eq + Hash + Drop> OrderedSet<T> {
    /// Inserts the items in their order, each under its own hash. An item whose equal is there is dropped, and the
    /// stored one stays. Nothing is reserved first. With room for all items, capacity and hash index stay; otherwise
    /// the capacity grows as by one insertion after the other. An item is refused only if it is new, there is no room
    /// left, and memory is refused or the set has 3,489,660,928 elements. Then the items before it are in the set, and
    /// it and the items after it are dropped. The call requires that the iterator's type bounds its items.
    pub fn extend<I: IntoIterator<Item = T>>(&mut self, iter: I) -> Result<(), AllocError>
        requires { IsFiniteIterable I.into_iter_gives I.IntoIter.can_next I.IntoIter.remaining iter }
        // Done: the set has each of the items, and each element that it had.
        ensures found { OnOk result (HasEach T.eq T.hash_input I.IntoIter.next_gives I.into_iter_gives iter (contains T.eq T.hash_input self.old) self.new) }
        // Done: all items were inserted. Refused: those before the refused one were inserted. What was there stays,
        // under whatever hash.
        ensures entries { Extends T.eq (own_element T.hash_input) I.IntoIter.next_gives I.into_iter_gives iter self.old.entries self.new.entries result }
        ensures stays { (under : StarlarkHashValue) (element : T) → is_some (found (T.eq element) under self.old.entries) ≡ true → is_some (found (T.eq element) under self.new.entries) ≡ true }
        ensures longer { length self.old.entries ≤ length self.new.entries }
        ensures own { AreOwn T.hash_input self.old → AreOwn T.hash_input self.new }
        // With room for all items no memory is asked for. Each item uses up at most one unit of room.
        ensures memory { IsExtended ((it : _) → I.into_iter_gives iter it → size (I.IntoIter.remaining it) ≤ self.old.room) self.old self.new result }
        ensures left { (it : _) × I.into_iter_gives iter it × (self.old.room ≤ self.new.room + size (I.IntoIter.remaining it)) }
    {
        self.0.extend(iter)
    }

    /// Makes a set of the items, inserted in their order, each under its own hash. The set begins with room for the
    /// lower bound of the iterator's `size_hint`. If memory is refused, nothing is made and the items are dropped.
    /// Capacity and hash index are as `SmallMap::from_iter` makes them. If the iterator's bound leaves no items, the
    /// call is not refused. The call requires that the iterator's type bounds its items.
    pub fn from_iter<I: IntoIterator<Item = T>>(alloc: Global, iter: I) -> Result<Self, AllocError>
        requires { IsFiniteIterable I.into_iter_gives I.IntoIter.can_next I.IntoIter.remaining iter }
        ensures made { IfOk result (IsSetOf T.eq T.hash_input I.IntoIter.next_gives I.into_iter_gives I.IntoIter.remaining iter) }
        ensures succeeds { ((it : _) → I.into_iter_gives iter it → size (I.IntoIter.remaining it) ≡ 0) → IsOk result }
    {
        Ok(OrderedSet(SmallSet::from_iter(alloc, iter)?))
    }
}

impl<T: Eq + Clone> OrderedSet<T> {
    /// Makes a set of clones of the elements, under the same hashes and in their order. The same elements are found in
    /// it. Its capacity is their number, and it has a hash index exactly if that is above `UNINDEXED`. If memory is
    /// refused, also to the clone of an element, nothing is made. Without elements the call is not refused.
    pub fn clone(&self) -> Result<Self, AllocError>
        // A clone is equal to its element.
        requires { IsEqualClone T.eq T.is_clone }
        ensures { Clones T.eq T.is_clone IsUnitClone self.now result }
    {
        Ok(OrderedSet(self.0.clone()?))
    }
}
