//! The set: an `UnorderedMap` to `()`.
ghost use Rattle.std.specs.Prelude.{◌≡◌, ◌==◌, ◌≤◌, ◌+◌, [], length, map, not, is_some, true, IfErr, IfOk, IsOk, IsSortedByKey, IsPermutation, OnErr, OnOk, Some, if◌then◌else◌};
ghost use Rattle.std.specs.Map.Iter.{deref};
ghost use Rattle.starlark_hash.specs.HashValue.{hash_of, key_of};
ghost use Rattle.starlark_hash.specs.Hasher.{own_hash};
ghost use Rattle.starlark_table.specs.Growth.{most_for};
ghost use Rattle.starlark_table.specs.Table.{GrowsAsNeeded, table_len};
ghost use Rattle.starlark_unordered.specs.Lookup.{contains, get_under, IsEmpty, Updates};
ghost use Rattle.starlark_unordered.specs.Insert.{IsRefusedPair};
ghost use Rattle.std.specs.List.{AllZip};
ghost use Rattle.starlark_hash.specs.Clone.{IsEqualClone, IsLawfulClone};
ghost use Rattle.starlark_unordered.specs.Pairs.{pairs_of, with_pair, HasDistinctKeys};

mod collect;
mod compare;
mod debug;
mod raw_entry;

use crate::unordered_map::UnorderedMap;
pub use raw_entry::{RawEntryBuilderMut, RawEntryMut, RawOccupiedEntryMut, RawVacantEntryMut};
use starlark_hash::{HashQuery, Hashed, NoRoom, Query};
use std::alloc::{AllocError, Global};
use std::hash::Hash;
use std::marker::Model;

/// A set without an order: elements of which no two are equal. It is seen as the map from the elements to `()`, and
/// compares by that map.
#[derive(Drop)]
pub struct UnorderedSet<T: Eq + Hash> {
    map: UnorderedMap<T, ()>,
    // The allocator that `entries_sorted` uses.
    alloc: Global,
}

impl<T: Eq + Hash> Model for UnorderedSet<T> {
    ghost use Rattle.starlark_unordered.specs.Set.{Set};

    ghost Value = { Set T };

    ghost view = { λ s. s.map };
}

impl<T: Eq + Hash> UnorderedSet<T> {
    ghost use Rattle.starlark_unordered.specs.Set.{elements_of};

    /// An empty set without room. It asks for no memory before the first insertion.
    pub fn new(alloc: Global) -> Self
        ensures empty { pairs_of result ≡ [] }
        ensures found { IsEmpty result }
        ensures room { result.room ≡ 0 }
    {
        UnorderedSet {
            map: UnorderedMap::new(alloc),
            alloc,
        }
    }

    /// An empty set with room for at least `capacity` elements, and for at most twice as many, or 6. If memory is refused,
    /// nothing is made. Capacity 0 is never refused.
    pub fn with_capacity(alloc: Global, capacity: usize) -> Result<Self, AllocError>
        ensures empty { IfOk result (λ set. pairs_of set ≡ []) }
        ensures found { IfOk result (λ set. IsEmpty set) }
        ensures room { IfOk result (λ set. capacity ≤ set.room) }
        ensures most { IfOk result (λ set. set.room ≤ most_for capacity) }
        ensures none_for_none { capacity ≡ 0 → IsOk result }
    {
        Ok(UnorderedSet {
            map: UnorderedMap::with_capacity(alloc, capacity)?,
            alloc,
        })
    }

    /// Inserts the element, and returns whether it is new. If an equal one is there, it is kept, and this one is dropped.
    /// Only a new element is refused, if there is no room and no memory is found: then it comes back, and the set is
    /// unchanged. The set grows only at room 0, to room for at most twice its elements, or for 6.
    pub fn insert(&mut self, element: T) -> Result<bool, NoRoom<T>>
    where
        T: Drop,
        // Done: true says that the set lacked the element.
        ensures old { IfOk result (λ is_new. is_new ≡ not (contains T.eq self.old element)) }
        // The set has the element, and of all others those that it had. The next clauses say so of the list of elements and
        // of their number.
        ensures updates { OnOk result (Updates T.eq self.old self.new element (Some tt)) }
        ensures pairs { OnOk result (IsPermutation (with_pair T.eq element tt (pairs_of self.old)) (pairs_of self.new)) }
        ensures count { OnOk result (length (pairs_of self.new) ≡ length (pairs_of self.old) + (if contains T.eq self.old element then 0 else 1)) }
        // Refused: only a new element, only at room 0. It comes back, and the set is unchanged.
        ensures refused { OnErr result (IsRefusedPair T.eq self.old self.new element) }
        ensures handed_back { IfErr result (λ refused. refused.0 ≡ element) }
        // The set grows only for an element that does not fit.
        ensures memory { GrowsAsNeeded self.old self.new }
    {
        match self.map.insert(element, ()) {
            Ok(old) => Ok(old.is_none()),
            Err(NoRoom((element, _))) => Err(NoRoom(element)),
        }
    }

    /// Removes every element. Their room comes back.
    pub fn clear(&mut self)
    where
        T: Drop,
        ensures empty { pairs_of self.new ≡ [] }
        ensures found { IsEmpty self.new }
        ensures room { self.new.room ≡ table_len self.old + self.old.room }
    {
        self.map.clear();
    }

    /// Whether there is no element.
    #[inline]
    pub fn is_empty(&self) -> bool
        ensures { result ≡ (length (pairs_of self.now) == 0) }
    {
        self.map.is_empty()
    }

    /// The number of elements.
    #[inline]
    pub fn len(&self) -> usize
        ensures len { result ≡ length (pairs_of self.now) }
        ensures distinct { HasDistinctKeys T.eq (pairs_of self.now) }
    {
        self.map.len()
    }

    /// Whether the set has the element that the query stands for.
    #[inline(always)]
    pub fn contains<Q: HashQuery<T>>(&self, query: Q) -> bool
        ensures { result ≡ contains Q.stands_for self.now query }
    {
        self.map.contains_key(query)
    }

    /// Whether the set has the element, and this is its own hash.
    #[inline(always)]
    pub fn contains_hashed<Q: Query<T>>(&self, element: Hashed<Q>) -> bool
        ensures value { result ≡ is_some (get_under Q.stands_for T.hash_input self.now element) }
        // If it is found, a look-up without a hash finds the element. If an equal one with this own hash is there, it is
        // found here too.
        ensures found { result ≡ true → contains Q.stands_for self.now (key_of element) ≡ true }
        ensures own { (same : T) → hash_of element ≡ own_hash T.hash_input same → Q.stands_for (key_of element) ≡ T.eq same → contains T.eq self.now same ≡ result }
    {
        self.map.contains_key_hashed(element)
    }

    /// The elements, each once, in ascending order. Refused only if memory is refused.
    pub fn entries_sorted(&self) -> Result<Vec<&T>, AllocError>
    where
        T: Ord,
        ensures each { IfOk result (λ entries. IsPermutation (elements_of self.now) (map deref entries.items)) }
        ensures ascends { IfOk result (λ entries. IsSortedByKey (λ entry. entry.now) T.cmp entries.items) }
    {
        let mut entries = Vec::from_iter(self.alloc, self.map.keys_unordered())?;
        entries.sort_by(|a, b| (*a).cmp(*b))?;
        Ok(entries)
    }
}

impl<T: Eq + Hash + Clone> UnorderedSet<T> {
    ghost use Rattle.starlark_unordered.specs.Set.{elements_of};

    /// A set of clones of the elements, each in its original's slot, with as much room. If memory is refused, also to the
    /// clone of an element, nothing is made. An empty set without room needs no memory. The clone of an element must be
    /// equal to the element.
    pub fn clone(&self) -> Result<Self, AllocError>
        // The clone of an element is equal to the element.
        requires { IsEqualClone T.eq T.is_clone }
        ensures elements { IfOk result (λ set. AllZip T.is_clone (elements_of self.now) (elements_of set)) }
        ensures same { IsLawfulClone T.is_clone → IfOk result (λ set. pairs_of set ≡ pairs_of self.now) }
        ensures found { IfOk result (λ set. (element : T) → contains T.eq set element ≡ contains T.eq self.now element) }
        ensures room { IfOk result (λ set. set.room ≡ self.now.room) }
        ensures none_for_none { pairs_of self.now ≡ [] → self.now.room ≡ 0 → IsOk result }
    {
        Ok(UnorderedSet {
            map: self.map.clone()?,
            alloc: self.alloc,
        })
    }
}
