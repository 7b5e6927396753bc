//! Sets of an iterator's items, by `collect` too.
ghost use Rattle.std.specs.Iterator.{size, DrainsIf, IsFiniteIterable};
ghost use Rattle.std.specs.Prelude.{[], ◌≡◌, IfOk, IsOk, List, ⊤};
ghost use Rattle.starlark_dict.specs.DictSet.{insert_all, HasEach, IsFromIterResult};

use super::DictSet;
use crate::Dict;
use starlark_hash::WithUnit;
use std::alloc::{AllocError, Global};
use std::hash::Hash;

impl<T: Eq + Hash + Drop> FromIterator<T> for DictSet<T> {
    type Alloc = Global;

    ghost from_iter_gives = { λ xs s. (s.keys ≡ insert_all T.eq [] xs) × IsFromIterResult T.eq xs s };

    /// A set of the items, inserted in their order. Where memory is refused, nothing is made and the items are dropped;
    /// an iterator that bounds that it has no items is not refused. The call requires that the iterator's type bounds
    /// its items.
    fn from_iter<I: IntoIterator<Item = T>>(alloc: Global, iter: I) -> Result<Self, AllocError>
        requires { IsFiniteIterable I.into_iter_gives I.IntoIter.can_next I.IntoIter.remaining iter }
        ensures ran { IfOk result (λ s. (it : I.IntoIter) × (xs : List T) × I.into_iter_gives iter it × DrainsIf I.IntoIter.next_gives ⊤ it xs × (s.keys ≡ insert_all T.eq [] xs) × IsFromIterResult T.eq xs s) }
        ensures members { IfOk result (HasEach T.eq I.IntoIter.next_gives I.into_iter_gives iter) }
        ensures succeeds { ((it : I.IntoIter) → I.into_iter_gives iter it → size (I.IntoIter.remaining it) ≡ 0) → IsOk result }
    {
        let dict = Dict::from_iter(alloc, WithUnit::new(iter.into_iter()))?;
        Ok(DictSet { dict })
    }
}
