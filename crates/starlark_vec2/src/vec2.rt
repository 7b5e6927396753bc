//! `Vec2`, a list of pairs in two columns, with a capacity of its own. Only its child modules see its fields.
ghost use Rattle.std.specs.Prelude.{◌≡◌, ◌+◌, ◌*◌, ◌-◌, ◌^◌, ◌<◌, ◌≤◌, ◌==◌, [], ◌∷◌, ◌++◌, length, take, remove, reverse, slice_get, is_ok, if◌then◌else◌, IfOk, IfErr, IsOk};
ghost use Rattle.std.specs.Option.{option_map};
ghost use Rattle.std.specs.Map.Iter.{TakesLast, deref_pair};
ghost use Rattle.starlark_vec2.specs.Growth as after;
ghost use Rattle.starlark_vec2.specs.PairList.{pair_list, firsts_of, seconds_of, with_pairs};
ghost use Rattle.starlark_vec2.specs.Growth.{reserved_capacity, TakesNoBytes};
ghost use Rattle.starlark_vec2.specs.Iter.{WalkShows, WalkShowsBack};

mod collect;
mod compare;
mod debug;
mod get_mut;
mod growth;
mod into_iter;
mod iter;
mod retain;
mod sort;
mod sort_moves;
mod sort_pairs;

use growth::grown;
pub use into_iter::IntoIter;
pub use iter::Iter;
use starlark_columns::pair::{Block, give_back, no_rows, with_rows};
use starlark_columns::{Row, Spot};
use starlark_hash::NoRoom;
use std::alloc::{AllocError, Global};
use std::marker::Model;
use std::mem;

/// A list of pairs. The first parts are stored side by side, and so are the second parts. The model is the list of the
/// pairs and the capacity. No public clause names a column or a block, so the representation can change without the
/// contracts.
pub struct Vec2<A, B> {
    // Both columns are in one block, the second parts in front: a look-up of a second part needs only the spot.
    firsts: Row<A>,
    seconds: Row<B>,
    // How many cells at the front of each column are filled.
    len: usize,
    // The address of the block, and how many cells each column has.
    spot: Spot<B>,
    alloc: Global,
    // The right to deallocate the block.
    block: Block<B, A>,
}

impl<A, B> Model for Vec2<A, B> {
    ghost use Rattle.std.specs.Prelude.{length, zip};
    ghost use Rattle.starlark_columns.specs.Block.{IsBlockOf, IsSpotOf};
    ghost use Rattle.starlark_columns.specs.Cells.{items_of};
    ghost use Rattle.starlark_vec2.specs.PairList.{PairList, pair_list};
    ghost use Rattle.starlark_vec2.specs.Columns.{AreColumns};

    ghost Value = { PairList A B };

    ghost view = { λ v. pair_list (zip (items_of v.firsts.cells) (items_of v.seconds.cells)) (length v.firsts.cells) };

    ghost invariant = { λ v. AreColumns v.firsts.cells v.seconds.cells v.len × IsBlockOf v.block v.seconds v.firsts × IsSpotOf v.spot v.block };
}

// Construction

impl<A, B> Vec2<A, B> {
    /// A list without pairs. It takes no memory.
    #[tactic(auto, using(crate::proofs::Pairs::columns))]
    #[inline]
    pub fn new(alloc: Global) -> Vec2<A, B>
        ensures { result ≡ pair_list [] 0 }
    {
        let (spot, seconds, firsts, block) = no_rows(alloc);
        Vec2 {
            firsts,
            seconds,
            len: 0,
            spot,
            alloc,
            block,
        }
    }

    /// A list without pairs, with room for `capacity` of them. Capacity 0 needs no memory, nor do pairs without bytes.
    /// It is refused if memory is needed and there is none.
    #[tactic(auto, using(crate::proofs::Pairs::columns))]
    #[inline]
    pub fn with_capacity(alloc: Global, capacity: usize) -> Result<Vec2<A, B>, AllocError>
        ensures made { IfOk result (λ v. v ≡ pair_list [] capacity) }
        ensures succeeds { capacity ≡ 0 → IsOk result }
        ensures weightless { TakesNoBytes A.row B.row → IsOk result }
    {
        let (spot, seconds, firsts, block) = with_rows(alloc, capacity)?;
        Ok(Vec2 {
            firsts,
            seconds,
            len: 0,
            spot,
            alloc,
            block,
        })
    }
}

// Reading

impl<A, B> Vec2<A, B> {
    /// The number of pairs.
    #[tactic(auto, using(crate::proofs::Pairs::columns))]
    #[inline]
    pub fn len(&self) -> usize
        ensures len { result ≡ length self.now.pairs }
        ensures fits { length self.now.pairs < 2 ^ 64 }
    {
        self.len
    }

    /// How many pairs there may be before the list grows.
    #[tactic(auto, using(crate::proofs::Pairs::columns))]
    #[inline]
    pub fn capacity(&self) -> usize
        ensures capacity { result ≡ self.now.capacity }
        ensures within { length self.now.pairs ≤ self.now.capacity }
    {
        self.spot.count
    }

    /// Whether there are no pairs.
    #[tactic(auto, using(crate::proofs::Pairs::columns))]
    #[inline]
    pub fn is_empty(&self) -> bool
        ensures { result ≡ (length self.now.pairs == 0) }
    {
        self.len() == 0
    }

    /// The first parts of the pairs, in their order.
    #[tactic(auto, using(crate::proofs::Pairs::columns))]
    #[inline]
    pub fn firsts(&self) -> &[A]
        ensures { result.now ≡ firsts_of self.now.pairs }
    {
        let address = self.block.second(self.spot).address;
        self.firsts.items(address, self.len)
    }

    /// The second parts of the pairs, in their order.
    #[tactic(auto, using(crate::proofs::Pairs::columns))]
    #[inline]
    pub fn seconds(&self) -> &[B]
        ensures { result.now ≡ seconds_of self.now.pairs }
    {
        self.seconds.items(self.spot.address, self.len)
    }

    /// The pair at this index, if there is one.
    #[tactic(auto, using(crate::proofs::Pairs::columns))]
    #[inline]
    pub fn get(&self, index: usize) -> Option<(&A, &B)>
        ensures { option_map deref_pair result ≡ slice_get self.now.pairs index }
    {
        if index < self.len() {
            Some(self.get_unchecked(index))
        } else {
            None
        }
    }

    /// The pair at this index. It is unsafe in Rust; here the index is proved to be within the length.
    #[tactic(auto, using(crate::proofs::Pairs::columns, crate::proofs::TwoColumns::pair_is))]
    #[inline]
    pub fn get_unchecked(&self, index: usize) -> (&A, &B)
        requires { index < length self.now.pairs }
        ensures { slice_get self.now.pairs index ≡ Some (deref_pair result) }
    {
        let (spot, len) = (self.spot, self.len);
        (
            self.firsts
                .item(self.block.second(spot).address, len, index),
            self.seconds.item(spot.address, len, index),
        )
    }

    /// The first pair, if there is one.
    #[tactic(auto, using(crate::proofs::Pairs::columns))]
    #[inline]
    pub fn first(&self) -> Option<(&A, &B)>
        ensures { option_map deref_pair result ≡ slice_get self.now.pairs 0 }
    {
        self.get(0)
    }

    /// The last pair, if there is one.
    #[tactic(auto, using(crate::proofs::Pairs::columns))]
    #[inline]
    pub fn last(&self) -> Option<(&A, &B)>
        ensures { option_map deref_pair result ≡ slice_get self.now.pairs (length self.now.pairs - 1) }
    {
        self.get(self.len().checked_sub(1)?)
    }

    /// The pairs, in their order.
    #[tactic(auto, using(crate::proofs::Pairs::columns))]
    #[inline]
    pub fn iter(&self) -> Iter<'_, A, B>
        ensures rest { result ≡ self.now.pairs }
        ensures fits { length self.now.pairs < 2 ^ 64 }
        ensures runs { WalkShows deref_pair result self.now.pairs }
        ensures runs_back { WalkShowsBack deref_pair result self.now.pairs }
    {
        Iter::new(self.firsts(), self.seconds())
    }
}

// Growing

impl<A, B> Vec2<A, B> {
    /// Makes room for `additional` further pairs. The list grows only if there is less room: to the largest of the
    /// needed capacity, 4, and twice the old capacity (capped at the greatest `usize`). Rust's grows by a rule of its
    /// own. If memory is refused, or a block would be too large, the list is unchanged. With enough room it is never
    /// refused, and nothing changes. Pairs without bytes are refused only if 64 bits do not count them.
    #[tactic(auto, using(crate::proofs::Pairs::columns))]
    #[inline]
    pub fn reserve(&mut self, additional: usize) -> Result<(), AllocError>
        ensures list { self.new ≡ (if is_ok result then after.reserve self.old additional else self.old) }
        ensures succeeds { additional ≤ self.old.capacity - length self.old.pairs → IsOk result }
        ensures weightless { TakesNoBytes A.row B.row → length self.old.pairs + additional < 2 ^ 64 → IsOk result }
    {
        if additional <= self.capacity() - self.len {
            return Ok(());
        }
        self.grow(additional)
    }

    // Grows the list. It is a function of its own, so that the test in `reserve` is inlined.
    #[tactic(auto, using(crate::proofs::Pairs::columns))]
    #[cold]
    #[inline(never)]
    fn grow(&mut self, additional: usize) -> Result<(), AllocError>
        requires { self.old.capacity - length self.old.pairs < additional }
        ensures list { self.new ≡ (if is_ok result then after.reserve self.old additional else self.old) }
        ensures weightless { TakesNoBytes A.row B.row → length self.old.pairs + additional < 2 ^ 64 → IsOk result }
    {
        let Some(capacity) = grown(self.len, self.capacity(), additional) else {
            return Err(AllocError);
        };
        self.refit(capacity)
    }

    // Moves the pairs to columns of `capacity` cells in a new block, and deallocates the old one.
    #[tactic(auto, using(crate::proofs::Pairs::columns))]
    fn refit(&mut self, capacity: usize) -> Result<(), AllocError>
        requires { length self.old.pairs ≤ capacity }
        ensures list { self.new ≡ (if is_ok result then pair_list self.old.pairs capacity else self.old) }
        ensures succeeds { capacity ≡ 0 → IsOk result }
        ensures weightless { TakesNoBytes A.row B.row → IsOk result }
    {
        let (spot, mut seconds, mut firsts, mut block) = with_rows(self.alloc, capacity)?;
        let old = self.spot;
        let (behind, ahead) = (self.block.second(old), block.second(spot));
        self.firsts.move_all(behind, self.len, &mut firsts, ahead);
        self.seconds.move_all(old, self.len, &mut seconds, spot);
        mem::swap(&mut self.firsts, &mut firsts);
        mem::swap(&mut self.seconds, &mut seconds);
        mem::swap(&mut self.block, &mut block);
        self.spot = spot;
        give_back(self.alloc, old, seconds, firsts, block);
        Ok(())
    }

    /// Appends a pair. Both columns have room before either part is stored. If there is no memory, the list is
    /// unchanged and the pair is handed back; that cannot happen while the length is below the capacity, nor, while 64
    /// bits count them, to pairs without bytes.
    #[tactic(auto, using(crate::proofs::Pairs::columns))]
    #[inline]
    pub fn push(&mut self, a: A, b: B) -> Result<(), NoRoom<(A, B)>>
        ensures list { self.new ≡ (if is_ok result then after.push self.old (a, b) else self.old) }
        ensures handed_back { IfErr result (λ refused. refused.0 ≡ (a, b)) }
        ensures succeeds { length self.old.pairs < self.old.capacity → IsOk result }
        ensures weightless { TakesNoBytes A.row B.row → length self.old.pairs + 1 < 2 ^ 64 → IsOk result }
    {
        if self.reserve(1).is_err() {
            return Err(NoRoom((a, b)));
        }
        self.push_reserved(a, b);
        Ok(())
    }

    /// Appends a pair for which there is room, as there is after `reserve`. The capacity stays.
    #[tactic(auto, using(crate::proofs::Pairs::columns))]
    #[inline]
    pub fn push_reserved(&mut self, a: A, b: B)
        requires { length self.old.pairs < self.old.capacity }
        ensures { self.new ≡ with_pairs self.old (self.old.pairs ++ (a, b) ∷ []) }
    {
        let (spot, len) = (self.spot, self.len);
        prove!(len < spot.count);
        self.firsts.push_last(self.block.second(spot), len, a);
        self.seconds.push_last(spot, len, b);
        self.len = len + 1;
    }
}

// Removal, shrinking and order

impl<A, B> Vec2<A, B> {
    /// Removes and returns the pair at this index. Each later pair moves one index down. The capacity stays.
    #[tactic(auto, using(crate::proofs::Pairs::columns))]
    #[inline]
    pub fn remove(&mut self, index: usize) -> (A, B)
        requires { index < length self.old.pairs }
        ensures taken { slice_get self.old.pairs index ≡ Some result }
        ensures list { self.new ≡ with_pairs self.old (remove self.old.pairs index) }
    {
        let (spot, len) = (self.spot, self.len);
        self.len = len - 1;
        (
            self.firsts.remove_at(self.block.second(spot), len, index),
            self.seconds.remove_at(spot, len, index),
        )
    }

    /// Removes and returns the last pair, if there is one. The capacity stays.
    #[tactic(auto, using(crate::proofs::Pairs::columns))]
    #[inline]
    pub fn pop(&mut self) -> Option<(A, B)>
        ensures taken { TakesLast (λ p. p) self.old.pairs result self.new.pairs }
        ensures capacity { self.new.capacity ≡ self.old.capacity }
    {
        if self.len == 0 {
            return None;
        }
        let spot = self.spot;
        self.len -= 1;
        Some((
            self.firsts.take_last(self.block.second(spot), self.len),
            self.seconds.take_last(spot, self.len),
        ))
    }

    /// Makes the capacity equal to the length. If memory is refused, the list is unchanged, since the new block is
    /// allocated before a pair moves. No memory is needed without pairs, if the capacity fits already, and for pairs
    /// without bytes.
    #[tactic(auto, using(crate::proofs::Pairs::columns))]
    pub fn shrink_to_fit(&mut self) -> Result<(), AllocError>
        ensures list { self.new ≡ (if is_ok result then pair_list self.old.pairs (length self.old.pairs) else self.old) }
        ensures succeeds_empty { length self.old.pairs ≡ 0 → IsOk result }
        ensures succeeds_fitting { length self.old.pairs ≡ self.old.capacity → IsOk result }
        ensures weightless { TakesNoBytes A.row B.row → IsOk result }
    {
        if self.len == self.capacity() {
            return Ok(());
        }
        self.refit(self.len)
    }

    /// Reverses the order of the pairs. The capacity stays.
    #[tactic(auto, using(crate::proofs::Pairs::columns))]
    #[inline]
    pub fn reverse(&mut self)
        ensures { self.new ≡ with_pairs self.old (reverse self.old.pairs) }
    {
        let address = self.block.second(self.spot).address;
        self.firsts.turn_round(address, self.len);
        self.seconds.turn_round(self.spot.address, self.len);
    }
}

impl<A: Drop, B: Drop> Vec2<A, B> {
    /// Drops all pairs. The capacity stays.
    #[tactic(auto, using(crate::proofs::Pairs::columns))]
    #[inline]
    pub fn clear(&mut self)
        ensures { self.new ≡ with_pairs self.old [] }
    {
        self.truncate(0);
    }

    /// Drops the pairs from the index `len` on. If `len` is not below the length, nothing changes. The capacity stays.
    #[tactic(auto, using(crate::proofs::Pairs::columns, std::proofs::lemmas::List::take_all))]
    #[inline]
    pub fn truncate(&mut self, len: usize)
        ensures { self.new ≡ with_pairs self.old (take len self.old.pairs) }
    {
        if len < self.len() {
            let spot = self.spot;
            self.firsts.truncate(self.block.second(spot), self.len, len);
            self.seconds.truncate(spot, self.len, len);
            self.len = len;
        }
    }
}

impl<A: Drop, B: Drop> Drop for Vec2<A, B> {
    fn drop(self) {
        let Vec2 {
            mut firsts,
            mut seconds,
            len,
            spot,
            alloc,
            block,
        } = self;
        firsts.truncate(block.second(spot), len, 0);
        seconds.truncate(spot, len, 0);
        give_back(alloc, spot, seconds, firsts, block);
    }
}
