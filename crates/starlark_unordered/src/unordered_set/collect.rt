//! `UnorderedSet`s from the items of iterators.
ghost use Rattle.std.specs.Iterator.{IsFiniteIterable, size};
ghost use Rattle.std.specs.Prelude.{◌≡◌, IfOk, IsOk};
ghost use Rattle.starlark_hash.specs.Unit.{StepsBeside};
ghost use Rattle.starlark_unordered.specs.Collect.{HasEachItem, IsCollected};

use super::UnorderedSet;
use crate::unordered_map::UnorderedMap;
use starlark_hash::WithUnit;
use std::alloc::{AllocError, Global};
use std::hash::Hash;

impl<T: Eq + Hash + Drop> UnorderedSet<T> {
    /// A set of the items, inserted in their order by `insert`; the first of equal items is kept. It begins with room
    /// for the lower bound of the iterator's `size_hint`. If memory is refused, nothing is made and the items are
    /// dropped. It is not refused if there are no items. The call requires that the iterator's type bounds its items.
    pub fn from_iter<I: IntoIterator<Item = T>>(alloc: Global, iter: I) -> Result<Self, AllocError>
        requires { IsFiniteIterable I.into_iter_gives I.IntoIter.can_next I.IntoIter.remaining iter }
        ensures found { IfOk result (λ set. HasEachItem T.eq I.IntoIter.next_gives I.into_iter_gives iter set) }
        ensures pairs { IfOk result (λ set. IsCollected T.eq (StepsBeside I.IntoIter.next_gives) I.into_iter_gives I.IntoIter.remaining iter set) }
        ensures none_for_none { ((it : I.IntoIter) → I.into_iter_gives iter it → size (I.IntoIter.remaining it) ≡ 0) → IsOk result }
    {
        Ok(UnorderedSet {
            map: UnorderedMap::from_iter(alloc, WithUnit::new(iter.into_iter()))?,
            alloc,
        })
    }
}
