//! `Vec2::sort_pairs_by`: the pairs move to one vector, are sorted there, and move back.
ghost use Rattle.std.specs.Prelude.{◌≡◌, ◌≤◌, [], length, IfOk, OnOk, OnErr, IsPermutation};
ghost use Rattle.starlark_vec2.specs.PairList.{with_pairs};
ghost use Rattle.starlark_vec2.specs.Sort.{SortsItems};

use super::Vec2;
use std::alloc::AllocError;
use std::cmp::Ordering;

impl<A, B> Vec2<A, B> {
    /// Sorts the pairs by a closure that may be called with any two pairs. Those that compare as equal keep their
    /// order. While they are sorted, both parts of a pair are stored side by side, so that a long list takes less time
    /// than by `sort_by`. If memory is refused, the list is unchanged. Whatever the closure returns, the list has the
    /// same pairs, and the same capacity.
    pub fn sort_pairs_by<F: FnMut(&(A, B), &(A, B)) -> Ordering>(
        &mut self,
        compare: F,
    ) -> Result<(), AllocError>
        requires { F.IsAlwaysCallable compare }
        ensures sorted { OnOk result (SortsItems F.FnMut compare self.old.pairs self.new.pairs) }
        ensures rearranged { IsPermutation self.old.pairs self.new.pairs }
        ensures unchanged { OnErr result (self.new.pairs ≡ self.old.pairs) }
        ensures capacity { self.new.capacity ≡ self.old.capacity }
    {
        prove!(self.len() <= self.capacity());
        let mut pairs = self.take_pairs()?;
        let sorted = pairs.sort_by(compare);
        self.put_pairs(pairs);
        sorted
    }

    // Moves the pairs to a vector, in their order. The capacity stays.
    fn take_pairs(&mut self) -> Result<Vec<(A, B)>, AllocError>
        ensures pairs { IfOk result (λ taken. taken.items ≡ self.old.pairs) }
        ensures left { OnOk result (self.new ≡ with_pairs self.old []) }
        ensures unchanged { OnErr result (self.new ≡ self.old) }
    {
        let mut taken = Vec::with_capacity(self.alloc, self.len())?;
        while let Some(pair) = self.pop() {
            taken.push_reserved(pair);
        }
        taken.reverse();
        Ok(taken)
    }

    // Moves the pairs of a vector to this list, which must have no pairs and enough room. The capacity stays.
    fn put_pairs(&mut self, pairs: Vec<(A, B)>)
        requires empty { self.old.pairs ≡ [] }
        requires room { length pairs.items ≤ self.old.capacity }
        ensures { self.new ≡ with_pairs self.old pairs.items }
    {
        let mut rest = pairs.into_iter();
        while let Some(pair) = rest.next() {
            let (a, b) = pair;
            self.push_reserved(a, b);
        }
        rest.destroy_empty();
    }
}
