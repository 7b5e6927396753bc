//! A set whose elements ascend. No other module sees its ordered set.
ghost use Rattle.std.specs.Prelude.{◌≡◌, ◌<◌, ◌^◌, [], All, drop, false, is_some, length, map, nat_lt, IsOk, IsTrue, IfOk, IfErr, IfSome, ◌==◌, slice_get};
ghost use Rattle.std.specs.Ordering.{is_gt};
ghost use Rattle.starlark_small.specs.New.{IsBare};
ghost use Rattle.starlark_small.specs.Clone.{Clones};
ghost use Rattle.starlark_hash.specs.Sort.{Ascends};
ghost use Rattle.std.specs.Iterator.{IsFiniteIterable};
ghost use Rattle.starlark_hash.specs.Clone.{IsEqualClone};
ghost use Rattle.starlark_hash.specs.Unit.{IsUnitClone};
ghost use Rattle.starlark_map.specs.SortedCollect.{GivesNothing, SortsInto};
ghost use Rattle.starlark_map.specs.Sorted.{AscendsAlong, AscendsStrictly, CollectsSorted};
ghost use Rattle.starlark_small.specs.Collect.{insert_all};
ghost use Rattle.starlark_small.specs.Index.{unindexed};
ghost use Rattle.starlark_sets.specs.Collect.{HasEach, own_element};
ghost use Rattle.std.specs.Option.{option_copied, option_map};
ghost use Rattle.starlark_hash.specs.Entries.{IsSingle, entry_key};
ghost use Rattle.starlark_small.specs.Lookup.{AreOwn, HasKey, contains, get_key, keys};

mod compare;
mod iter;

use crate::sorted_vec::SortedVec;
use starlark_hash::Query;
use starlark_sets::{OrderedSet, SmallSet};
use std::alloc::{AllocError, Global};
use std::hash::Hash;
use std::marker::Model;

/// An `OrderedSet` whose elements ascend. They ascend strictly if each is stored under its own hash; equal elements
/// under different hashes may be adjacent. It is seen as its ordered set, by which it is compared and hashed.
#[derive(Debug, Drop)]
pub struct SortedSet<T: Ord + Hash> {
    inner: OrderedSet<T>,
}

impl<T: Ord + Hash> Model for SortedSet<T> {
    ghost use Rattle.starlark_hash.specs.Sort.{Ascends};
    ghost use Rattle.starlark_sets.specs.Set.{Set};

    ghost Value = { Set T };

    ghost view = { λ s. s.inner };

    ghost invariant = { λ s. Ascends T.cmp s.inner.entries };
}

impl<T: Ord + Hash> SortedSet<T> {
    /// An empty set, which asks for no memory.
    #[inline]
    pub fn new(alloc: Global) -> Self
        ensures { IsBare result }
    {
        SortedSet {
            inner: OrderedSet::new(alloc),
        }
    }

    /// The elements of a set, which must ascend already.
    #[tactic(auto, using(crate::proofs::AscendingKeys::along))]
    #[inline]
    pub fn new_unchecked(inner: OrderedSet<T>) -> Self
        requires ascends { Ascends T.cmp inner.entries }
        ensures same { result ≡ inner }
        ensures along { AscendsAlong T.cmp (keys result) }
    {
        SortedSet { inner }
    }

    /// The elements of the set, sorted; equal ones, under different hashes, keep their order. If they ascend already,
    /// it asks for no memory. If memory is refused, the set is handed back with its elements unchanged. Capacity and
    /// hash index are those of the set, done or refused.
    #[tactic(auto, using(crate::proofs::AscendingKeys::sorts))]
    pub fn from_ordered_set(set: OrderedSet<T>) -> Result<Self, OrderedSet<T>>
        ensures { SortsInto T.eq T.cmp set result }
    {
        let mut inner = set;
        match inner.sort() {
            Ok(()) => Ok(SortedSet { inner }),
            Err(_) => Err(inner),
        }
    }

    /// The elements of a `SmallSet`, sorted. Memory and refusals are those of [`SortedSet::from_ordered_set`].
    #[tactic(auto, using(crate::proofs::AscendingKeys::sorts))]
    pub fn from_small_set(set: SmallSet<T>) -> Result<Self, SmallSet<T>>
        ensures { SortsInto T.eq T.cmp set result }
    {
        let mut source = set;
        match source.sort() {
            Ok(()) => Ok(SortedSet {
                inner: OrderedSet::from(source),
            }),
            Err(_) => Err(source),
        }
    }

    /// The number of elements.
    #[inline]
    pub fn len(&self) -> usize
        ensures len { result ≡ length self.now.entries }
        ensures few { length self.now.entries < 2 ^ 63 }
    {
        self.inner.len()
    }

    /// Whether there are no elements.
    #[inline]
    pub fn is_empty(&self) -> bool
        ensures { result ≡ (length self.now.entries == 0) }
    {
        self.inner.is_empty()
    }

    /// The element under the query's own hash that the query stands for.
    #[inline]
    pub fn get<Q: Query<T> + Hash>(&self, value: Q) -> Option<&T>
        // The element that is found is the stored one, and the query stands for it.
        ensures element { option_copied result ≡ get_key Q.stands_for Q.hash_input self.now value }
        ensures there { is_some result ≡ contains Q.stands_for Q.hash_input self.now value }
        ensures equivalent { IfSome result (λ element. IsTrue (Q.stands_for value element.now)) }
    {
        self.inner.get(value)
    }

    /// Whether there is an element under the query's own hash that the query stands for.
    #[inline]
    pub fn contains<Q: Query<T> + Hash>(&self, value: Q) -> bool
        // If an element is found, the set has one that the query stands for.
        ensures found { result ≡ contains Q.stands_for Q.hash_input self.now value }
        ensures key { IsTrue result → HasKey (Q.stands_for value) self.now }
    {
        self.inner.contains(value)
    }

    /// The element at an index; `None` past the end. The elements ascend, and no two have the same hash and are equal;
    /// if each is stored under its own hash, they ascend strictly.
    #[inline]
    pub fn get_index(&self, index: usize) -> Option<&T>
        // The element is not greater than any from the index on, so that the first is the least.
        ensures element { option_copied result ≡ option_map entry_key (slice_get self.now.entries index) }
        ensures least { IfSome result (λ element. All (λ other. is_gt (T.cmp element.now other) ≡ false) (drop index (keys self.now))) }
        // The elements ascend, and no two have the same hash and are equal.
        ensures single { IsSingle T.eq self.now.entries }
        ensures ascends { Ascends T.cmp self.now.entries }
        ensures strictly { AreOwn T.hash_input self.now → AscendsStrictly T.cmp self.now.entries }
    {
        prove!(self.inner.iter_hashed().len() == self.inner.len());
        self.inner.get_index(index)
    }
}

impl<T: Ord + Hash + Drop> SortedSet<T> {
    /// The items, each once and under its own hash; of equal items the first is kept. The elements ascend strictly. The
    /// capacity is the length of the vector, and there is a hash index exactly if that is above `UNINDEXED`. If memory
    /// is refused, the vector is handed back unchanged. It is not refused if there are no items.
    pub fn from_sorted_vec(vec: SortedVec<T>) -> Result<Self, SortedVec<T>>
        // Done: the items were inserted in their order. The elements ascend, with no two equal, each under its own hash.
        ensures entries { IfOk result (λ set. set.entries ≡ insert_all T.eq [] (map (own_element T.hash_input) vec)) }
        ensures along { IfOk result (λ set. AscendsAlong T.cmp (keys set)) }
        ensures strictly { IfOk result (λ set. AscendsStrictly T.cmp set.entries) }
        ensures own { IfOk result (AreOwn T.hash_input) }
        // The capacity is the length of the vector, and there is a hash index only for a long one.
        ensures capacity { IfOk result (λ set. set.capacity ≡ length vec) }
        ensures indexed { IfOk result (λ set. set.indexed ≡ nat_lt unindexed (length vec)) }
        // Refused, which does not happen without items: the vector comes back.
        ensures handed_back { IfErr result (λ source. source ≡ vec) }
        ensures succeeds { length vec ≡ 0 → IsOk result }
    {
        let Ok(mut inner) = OrderedSet::with_capacity(vec.allocator(), vec.iter().len()) else {
            return Err(vec);
        };
        match inner.extend(vec) {
            Ok(()) => Ok(SortedSet { inner }),
            Err(_) => unreachable!(),
        }
    }

    /// The items, inserted into an empty set in their order, each under its own hash, and then sorted. If memory is
    /// refused, nothing is made and the items are dropped. It is not refused if the iterator's bounds say that it has
    /// no items. Of equal items the first is kept. The call requires that the iterator's type bounds its items.
    pub fn from_iter<I: IntoIterator<Item = T>>(alloc: Global, iter: I) -> Result<Self, AllocError>
        requires { IsFiniteIterable I.into_iter_gives I.IntoIter.can_next I.IntoIter.remaining iter }
        // Done: the set has exactly the items. The elements ascend, each under its own hash.
        ensures found { IfOk result (HasEach T.eq T.hash_input I.IntoIter.next_gives I.into_iter_gives iter (λ _. false)) }
        ensures along { IfOk result (λ set. AscendsAlong T.cmp (keys set)) }
        ensures own { IfOk result (AreOwn T.hash_input) }
        // The set as a list, with its capacity and whether it has a hash index.
        ensures set { IfOk result (CollectsSorted T.eq T.cmp (own_element T.hash_input) I.IntoIter.next_gives I.into_iter_gives I.IntoIter.remaining iter) }
        ensures succeeds { GivesNothing I.into_iter_gives I.IntoIter.next_gives I.IntoIter.remaining iter → IsOk result }
    {
        let set = OrderedSet::from_iter(alloc, iter)?;
        match SortedSet::from_ordered_set(set) {
            Ok(sorted) => Ok(sorted),
            Err(_) => Err(AllocError),
        }
    }
}

impl<T: Ord + Hash + Clone> SortedSet<T> {
    /// A set of clones of the elements under the same hashes, in their order, so that the same elements are found in
    /// it. Its capacity is their number, and it has a hash index exactly if it is longer than `UNINDEXED`. If memory is
    /// refused, also to the clone of an element, nothing is made. It is not refused if there are no elements. The clone
    /// of an element must be equal to the element.
    pub fn clone(&self) -> Result<Self, AllocError>
        // The clone of an element is equal to the element.
        requires { IsEqualClone T.eq T.is_clone }
        ensures clones { Clones T.eq T.is_clone IsUnitClone self.now result }
        ensures along { IfOk result (λ set. AscendsAlong T.cmp (keys set)) }
    {
        Ok(SortedSet {
            inner: self.inner.clone()?,
        })
    }
}
