//! `Vec2::sort_pairs_with_moves_by`: the pairs are sorted together with their old indices, which then say where each
//! pair went.
ghost use Rattle.std.specs.Prelude.{◌≡◌, ◌≤◌, ◌^◌, [], length, map, IfOk, OnOk, OnErr, IsPermutation};
ghost use Rattle.std.specs.List.{enumerate_from, range_with_len};
ghost use Rattle.starlark_vec2.specs.Sort.{Moves, PutsInOrder, SortsNumbered};
ghost use Rattle.starlark_vec2.specs.PairList.{with_pairs};

use super::Vec2;
use std::alloc::AllocError;
use std::cmp::Ordering;

impl<A, B> Vec2<A, B> {
    /// Sorts the pairs as `sort_pairs_by` does, and returns the new index of each pair, by its old index. The closure
    /// sees each pair after its old index. It is refused if there is no memory, or if indices do not fit in 32 bits;
    /// the list is then unchanged.
    pub fn sort_pairs_with_moves_by<F: FnMut(&(u32, (A, B)), &(u32, (A, B))) -> Ordering>(
        &mut self,
        compare: F,
    ) -> Result<Vec<u32>, AllocError>
        requires callable { F.IsAlwaysCallable compare }
        ensures sorted { OnOk result (SortsNumbered F.FnMut compare self.old.pairs self.new.pairs) }
        ensures moves { IfOk result (λ to. Moves self.old.pairs to.items self.new.pairs) }
        ensures unchanged { OnErr result (self.new.pairs ≡ self.old.pairs) }
        ensures capacity { self.new.capacity ≡ self.old.capacity }
    {
        if self.len() > u32::MAX as usize {
            return Err(AllocError);
        }
        prove!(self.len() <= self.capacity());
        let mut to = vec![in self.alloc; 0u32; self.len()]?;
        let mut numbered = self.take_numbered()?;
        let sorted = numbered.sort_by(compare);
        note_moves(numbered.as_slice(), to.as_mut_slice());
        self.put_numbered(numbered);
        sorted?;
        Ok(to)
    }

    // Moves the pairs to a vector, in their order, each after its index. The capacity stays.
    fn take_numbered(&mut self) -> Result<Vec<(u32, (A, B))>, AllocError>
        requires few { length self.old.pairs ≤ 2 ^ 32 }
        ensures pairs { IfOk result (λ taken. taken.items ≡ enumerate_from 0 self.old.pairs) }
        ensures left { OnOk result (self.new ≡ with_pairs self.old []) }
        ensures unchanged { OnErr result (self.new ≡ self.old) }
    {
        let mut taken = Vec::with_capacity(self.alloc, self.len())?;
        while let Some(pair) = self.pop() {
            taken.push_reserved((self.len() as u32, pair));
        }
        taken.reverse();
        Ok(taken)
    }

    // Moves the pairs of a vector to this list, which must have no pairs and enough room. The capacity stays.
    fn put_numbered(&mut self, numbered: Vec<(u32, (A, B))>)
        requires empty { self.old.pairs ≡ [] }
        requires room { length numbered.items ≤ self.old.capacity }
        ensures { self.new ≡ with_pairs self.old (map (λ p. p.1) numbered.items) }
    {
        let mut rest = numbered.into_iter();
        while let Some(next) = rest.next() {
            let (_, (a, b)) = next;
            self.push_reserved(a, b);
        }
        rest.destroy_empty();
    }
}

// Stores at each old index in `to` the index that its item has in `numbered`.
fn note_moves<X>(numbered: &[(u32, X)], to: &mut [u32])
    requires indices { IsPermutation (range_with_len 0 (length to.old)) (map (λ p. p.0) numbered.now) }
    requires few { length to.old ≤ 2 ^ 32 }
    ensures { PutsInOrder to.new (map (λ p. p.0) numbered.now) (range_with_len 0 (length to.old)) }
{
    for j in 0..numbered.len() {
        let index = numbered[j].0;
        to[index as usize] = j as u32;
    }
}
