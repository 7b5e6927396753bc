//! `Vec2::sort_by`: an array of indices is sorted, and then the pairs are moved in place.
ghost use Rattle.std.specs.Prelude.{◌≡◌, ◌≤◌, length, zip, IfOk, IsOk, OnOk, OnErr, IsPermutation};
ghost use Rattle.std.specs.List.{range_with_len};
ghost use Rattle.starlark_vec2.specs.Sort.{CanCompare, Sorts, ComparesAt, SortsPositions, PutsInOrder};

use super::Vec2;
use std::alloc::{AllocError, Global};
use std::cmp::Ordering;

impl<A, B> Vec2<A, B> {
    /// Sorts the pairs. Those that compare as equal keep their order, which Rust's does not state. If memory is
    /// refused, the list is unchanged, since all of it is allocated before a pair moves. Up to one pair needs no
    /// memory. Whatever the closure returns, the list has the same pairs, and the same capacity. The closure must be
    /// one that may be called with any two of the pairs, in each state that its calls leave.
    pub fn sort_by<F: FnMut((&A, &B), (&A, &B)) -> Ordering>(
        &mut self,
        compare: F,
    ) -> Result<(), AllocError>
        requires { CanCompare F.FnMut self.old.pairs compare }
        ensures sorted { OnOk result (Sorts F.FnMut compare self.old.pairs self.new.pairs) }
        ensures rearranged { IsPermutation self.old.pairs self.new.pairs }
        ensures unchanged { OnErr result (self.new.pairs ≡ self.old.pairs) }
        ensures capacity { self.new.capacity ≡ self.old.capacity }
        ensures succeeds { length self.old.pairs ≤ 1 → IsOk result }
    {
        if self.len() < 2 {
            return Ok(());
        }
        let order = self.sorted_positions(compare)?;
        let (spot, len) = (self.spot, self.len);
        put_in_order(
            self.firsts.items_mut(self.block.second(spot).address, len),
            self.seconds.items_mut(spot.address, len),
            order,
        );
        Ok(())
    }

    // The indices of the pairs, in the order in which the comparator sorts the pairs.
    fn sorted_positions<F: FnMut((&A, &B), (&A, &B)) -> Ordering>(
        &self,
        mut compare: F,
    ) -> Result<Vec<usize>, AllocError>
        requires { CanCompare F.FnMut self.now.pairs compare }
        ensures positions { IfOk result (λ order. IsPermutation (range_with_len 0 (length self.now.pairs)) order.items) }
        ensures sorted { IfOk result (λ order. SortsPositions F.FnMut compare self.now.pairs order.items) }
    {
        let mut order = positions(self.alloc, self.len())?;
        order.sort_by(
            |i: &usize, j: &usize| -> Ordering
                requires { CanCompare F.FnMut self.now.pairs compare }
                ensures same { self.exit.now ≡ self.entry.now }
                ensures called { ComparesAt F.FnMut self.entry.now.pairs compare.entry i.now j.now result compare.exit }
            { self.compare_at(&mut compare, *i, *j) },
        )?;
        Ok(order)
    }

    // Compares the pairs at two indices. An index past the end is sorted behind all others.
    #[inline]
    fn compare_at<F: FnMut((&A, &B), (&A, &B)) -> Ordering>(
        &self,
        compare: &mut F,
        i: usize,
        j: usize,
    ) -> Ordering
        requires { CanCompare F.FnMut self.now.pairs compare.old }
        ensures { ComparesAt F.FnMut self.now.pairs compare.old i j result compare.new }
    {
        match (self.get(i), self.get(j)) {
            (Some(x), Some(y)) => compare(x, y),
            (Some(_), None) => Ordering::Less,
            (None, _) => Ordering::Equal,
        }
    }
}

#[tactic(auto, using(std::proofs::lemmas::List::length_push, crate::proofs::Positions::range_with_len_more))]
fn positions(alloc: Global, n: usize) -> Result<Vec<usize>, AllocError>
    ensures { IfOk result (λ v. v.items ≡ range_with_len 0 n) }
{
    let mut all = Vec::with_capacity(alloc, n)?;
    for i in 0..n {
        all.push_reserved(i);
    }
    Ok(all)
}

// Moves the pairs in place, so that each index `i` has the pair that was at `order[i]`.
fn put_in_order<A, B>(firsts: &mut [A], seconds: &mut [B], mut order: Vec<usize>)
    requires even { length firsts.old ≡ length seconds.old }
    requires positions { IsPermutation (range_with_len 0 (length firsts.old)) order.items }
    ensures { PutsInOrder (zip firsts.old seconds.old) order.items (zip firsts.new seconds.new) }
{
    let mut index = 0;
    while index < order.len() {
        let from = order[index];
        if from == index {
            index += 1;
        } else {
            // The pair that belongs at `from` is at `next`. The swaps put it there, and store in `order[index]` where the
            // pair that was at `from` is now.
            let next = order[from];
            firsts.swap(from, next);
            seconds.swap(from, next);
            order.swap(index, from);
        }
    }
}
