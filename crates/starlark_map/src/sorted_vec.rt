//! A vector whose items ascend. No other module sees its `Vec`.
ghost use Rattle.starlark_map.specs.SortedCollect.{HasEveryItem};
ghost use Rattle.std.specs.Iterator.Adapters.{IterYieldsInOrder, IterYieldsInReverse};
ghost use Rattle.std.specs.Iterator.Runs.{EveryRun, ItemsAre};
ghost use Rattle.std.specs.Iterator.{IsFiniteIterable};
ghost use Rattle.std.specs.List.{AllZip};
ghost use Rattle.std.specs.List.Sorted.{IsPermutation, IsSorted, IsStable};
ghost use Rattle.std.specs.Prelude.{◌≡◌, ◌^◌, ◌<◌, ◌≤◌, [], length, IsOk, IfOk, IfErr};
ghost use Rattle.std.specs.Slice.Iter.{iter_rest};
ghost use Rattle.std.specs.Vec.Iter.{into_iter_items, into_iter_len, into_iter_steps};
ghost use Rattle.std.specs.declared.alloc.Global.{Global};
ghost use Rattle.starlark_hash.specs.Clone.{IsEqualClone, IsLawfulClone};

use std::alloc::{AllocError, Global};
use std::marker::Model;
use std::slice::Iter;
use std::vec::IntoIter;

mod compare;

/// A vector whose items ascend. Equal items may be adjacent. It is seen as the list of its items, which decides `==`,
/// the order and `Hash`.
#[derive(Drop, Debug)]
pub struct SortedVec<T: Ord> {
    vec: Vec<T>,
}

impl<T: Ord> Model for SortedVec<T> {
    ghost use Rattle.std.specs.Prelude.{List};
    ghost use Rattle.std.specs.List.Sorted.{IsSorted};

    ghost Value = { List T };

    ghost view = { λ v. v.vec.items };

    ghost invariant = { λ v. IsSorted T.cmp v.vec.items };
}

impl<T: Ord> SortedVec<T> {
    /// An empty vector, which asks for no memory.
    #[inline]
    pub fn new(alloc: Global) -> Self
        ensures { result ≡ [] }
    {
        SortedVec {
            vec: Vec::new(alloc),
        }
    }

    /// The items of a vector, which must ascend already.
    #[inline]
    pub fn new_unchecked(vec: Vec<T>) -> Self
        requires ascends { IsSorted T.cmp vec.items }
        ensures { result ≡ vec.items }
    {
        SortedVec { vec }
    }

    /// Every item of the vector, sorted; equal items keep their order. If memory is refused, the vector is handed back
    /// with the same items. Up to 20 items need none.
    pub fn from_vec(vec: Vec<T>) -> Result<Self, Vec<T>>
        // Done: every item, as often as before, in ascending order; equal items keep their order.
        ensures every_item { IfOk result (IsPermutation vec.items) }
        ensures ascends { IfOk result (IsSorted T.cmp) }
        ensures stable { IfOk result (IsStable T.cmp vec.items) }
        // Refused, which does not happen up to 20 items: the vector comes back.
        ensures handed_back { IfErr result (λ source. source.items ≡ vec.items) }
        ensures succeeds { length vec.items ≤ 20 → IsOk result }
    {
        let mut vec = vec;
        match vec.sort() {
            Ok(()) => Ok(SortedVec { vec }),
            Err(_) => Err(vec),
        }
    }

    // The allocator of the items.
    #[inline]
    pub(crate) fn allocator(&self) -> Global {
        *self.vec.allocator()
    }

    /// The items in order, from both ends.
    #[inline]
    pub fn iter(&self) -> Iter<'_, T>
        ensures items { iter_rest result ≡ self.now }
        ensures ascends { IsSorted T.cmp self.now }
        ensures fits { length self.now < 2 ^ 64 }
        ensures runs { IterYieldsInOrder T }
        ensures runs_back { IterYieldsInReverse T }
    {
        self.vec.iter()
    }
}

impl<T: Ord + Clone> SortedVec<T> {
    /// A vector of clones of the items, in their order. If memory is refused, also to the clone of an item, nothing is
    /// made. It is not refused if there are no items. The clone of an item must be equal to the item.
    pub fn clone(&self) -> Result<Self, AllocError>
        // The clone of an item is equal to the item.
        requires { IsEqualClone T.eq T.is_clone }
        ensures items { IfOk result (AllZip T.is_clone self.now) }
        ensures same { IfOk result (λ sorted. IsLawfulClone T.is_clone → sorted ≡ self.now) }
        ensures succeeds { length self.now ≡ 0 → IsOk result }
    {
        if self.vec.is_empty() {
            return Ok(SortedVec::new(self.allocator()));
        }
        Ok(SortedVec {
            vec: self.vec.clone()?,
        })
    }
}

impl<T: Ord + Drop> SortedVec<T> {
    /// Every item of the iterator, sorted; equal items keep their order. If memory is refused, the items are dropped.
    /// The call requires that the iterator's type bounds its items.
    pub fn from_iter<I: IntoIterator<Item = T>>(alloc: Global, iter: I) -> Result<Self, AllocError>
        requires { IsFiniteIterable I.into_iter_gives I.IntoIter.can_next I.IntoIter.remaining iter }
        ensures items { IfOk result (HasEveryItem T.cmp I.into_iter_gives I.IntoIter.next_gives iter) }
        ensures ascends { IfOk result (λ sorted. IsSorted T.cmp sorted) }
    {
        let vec = Vec::from_iter(alloc, iter)?;
        match SortedVec::from_vec(vec) {
            Ok(sorted) => Ok(sorted),
            Err(_) => Err(AllocError),
        }
    }
}

impl<T: Ord + Drop> IntoIterator for SortedVec<T> {
    type Item = T;

    type IntoIter = IntoIter<T>;

    ghost into_iter_gives = { λ s rest. (into_iter_items rest ≡ s) × (into_iter_len rest ≡ length s) × (into_iter_len rest < 2 ^ 64) × EveryRun (into_iter_steps {X = T} {Z = Global}) (λ p. ItemsAre p (into_iter_items p.from)) × IsSorted T.cmp s };

    /// The items by value, in order: they ascend.
    #[inline]
    fn into_iter(self) -> IntoIter<T> {
        self.vec.into_iter()
    }
}
