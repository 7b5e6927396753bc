//! A `Vec2` made of the items of an iterator, and of clones.
ghost use Rattle.std.specs.Prelude.{◌≡◌, ◌-◌, ◌≤◌, length, IfOk, IsOk, OnErr};
ghost use Rattle.std.specs.List.{AllZip};
ghost use Rattle.std.specs.Iterator.{IsFiniteIterable, IsFinite, size};
ghost use Rattle.starlark_vec2.specs.PairList.{pair_list, IsFull, StaysOrIsFull};
ghost use Rattle.starlark_vec2.specs.Collect.{Pushes, Extends, MayExceedRoom, Collects};
ghost use Rattle.starlark_hash.specs.Clone.{IsPairClone, IsLawfulClone};

use super::Vec2;
use starlark_columns::pair::{give_back, with_rows};
use std::alloc::{AllocError, Global};

impl<A: Drop, B: Drop> Vec2<A, B> {
    /// Appends the items, in their order. Room for the lower bound of the iterator's `size_hint` is made first. If
    /// there is no memory, the list is unchanged or filled by the first items; the others are dropped. It is never
    /// refused if there is room for all items. The call requires that the iterator's type bounds its items.
    pub fn extend<I: IntoIterator<Item = (A, B)>>(&mut self, iter: I) -> Result<(), AllocError>
        requires { IsFiniteIterable I.into_iter_gives I.IntoIter.can_next I.IntoIter.remaining iter }
        ensures list { Extends I.into_iter_gives I.IntoIter.next_gives I.IntoIter.remaining iter self.old self.new result }
        ensures succeeds { ((it : _) → I.into_iter_gives iter it → size (I.IntoIter.remaining it) ≤ self.old.capacity - length self.old.pairs) → IsOk result }
        ensures exceeds { OnErr result (MayExceedRoom I.into_iter_gives I.IntoIter.remaining iter self.old) }
        ensures full { OnErr result (StaysOrIsFull self.old self.new) }
    {
        let items = iter.into_iter();
        self.reserve(items.size_hint().0)?;
        self.push_items(items)
    }

    /// A list of the items, in their order. It begins with a capacity of the lower bound of the iterator's `size_hint`.
    /// If there is no memory, nothing is made and the items are dropped. Without items it is never refused. The call
    /// requires that the iterator's type bounds its items.
    pub fn from_iter<I: IntoIterator<Item = (A, B)>>(
        alloc: Global,
        iter: I,
    ) -> Result<Vec2<A, B>, AllocError>
        requires { IsFiniteIterable I.into_iter_gives I.IntoIter.can_next I.IntoIter.remaining iter }
        ensures list { IfOk result (Collects I.into_iter_gives I.IntoIter.next_gives I.IntoIter.remaining iter) }
        ensures succeeds { ((it : _) → I.into_iter_gives iter it → size (I.IntoIter.remaining it) ≡ 0) → IsOk result }
    {
        let items = iter.into_iter();
        let mut list = Vec2::with_capacity(alloc, items.size_hint().0)?;
        list.push_items(items)?;
        Ok(list)
    }

    // Appends the items of an iterator.
    fn push_items<I: Iterator<Item = (A, B)>>(&mut self, mut items: I) -> Result<(), AllocError>
        requires can { I.can_next items }
        requires finite { IsFinite (I.remaining items) }
        ensures list { Pushes I.next_gives items self.old self.new result }
        ensures succeeds { size (I.remaining items) ≤ self.old.capacity - length self.old.pairs → IsOk result }
        ensures full { OnErr result (IsFull self.new) }
    {
        while let Some(pair) = items.next() {
            let (a, b) = pair;
            if self.push(a, b).is_err() {
                prove!(self.len() <= self.capacity());
                return Err(AllocError);
            }
        }
        Ok(())
    }
}

impl<A: Clone, B: Clone> Vec2<A, B> {
    /// A list of clones of the pairs, whose capacity is their number. If memory is refused, also to the clone of a
    /// part, nothing is made. Without pairs no memory is needed.
    #[tactic(auto, using(crate::proofs::Pairs::columns))]
    pub fn clone(&self) -> Result<Vec2<A, B>, AllocError>
        ensures pairs { IfOk result (λ v. AllZip (IsPairClone A.is_clone B.is_clone) self.now.pairs v.pairs) }
        ensures capacity { IfOk result (λ v. v.capacity ≡ length self.now.pairs) }
        ensures same { IfOk result (λ v. IsLawfulClone A.is_clone → IsLawfulClone B.is_clone → v ≡ pair_list self.now.pairs (length self.now.pairs)) }
        ensures succeeds { length self.now.pairs ≡ 0 → IsOk result }
    {
        let len = self.len;
        let old = self.spot;
        let (spot, mut seconds, mut firsts, block) = with_rows(self.alloc, len)?;
        let behind = block.second(spot);
        match self
            .firsts
            .clone_items(self.block.second(old).address, len, &mut firsts, behind)
        {
            Ok(()) => match self
                .seconds
                .clone_items(old.address, len, &mut seconds, spot)
            {
                Ok(()) => Ok(Vec2 {
                    firsts,
                    seconds,
                    len,
                    spot,
                    alloc: self.alloc,
                    block,
                }),
                Err(refused) => {
                    firsts.truncate(behind, len, 0);
                    give_back(self.alloc, spot, seconds, firsts, block);
                    Err(refused)
                }
            },
            Err(refused) => {
                give_back(self.alloc, spot, seconds, firsts, block);
                Err(refused)
            }
        }
    }
}
