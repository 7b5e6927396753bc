//! Mutable references into a `Vec2`.
ghost use Rattle.std.specs.Prelude.{◌≡◌, ◌<◌, ◌^◌, length, slice_get, get_or, Some, None};
ghost use Rattle.std.specs.Option.{option_map, option_copied_mut};
ghost use Rattle.std.specs.Borrow.{sem};
ghost use Rattle.starlark_columns.specs.Cells.{items_of, IsFilled};
ghost use Rattle.starlark_columns.specs.Block.{IsBehind};
ghost use Rattle.starlark_columns.specs.Front.{IsFront};
ghost use Rattle.starlark_vec2.specs.PairList.{firsts_of};
ghost use Rattle.starlark_vec2.specs.Lend.{deref_both_mut, lends_first, lends_firsts, lends_both, lends_both_if, firsts_follow};
ghost use Rattle.starlark_columns.specs.Lend.{lends_item};
ghost use Rattle.starlark_vec2.specs.Columns.{lends_cell_if, lends_cells};

use super::Vec2;
use crate::loan::Loan;
use crate::pairs_mut::PairsMut;
use starlark_columns::pair::second_at;
use starlark_columns::{Row, Spot};

impl<A, B> Vec2<A, B> {
    /// The first parts of the pairs, in their order, mutably.
    #[tactic(auto, using(crate::proofs::TwoColumns::firsts_end, crate::proofs::TwoColumns::firsts_are))]
    #[inline]
    pub fn firsts_mut(&mut self) -> &mut [A]
        ensures* writes_back { sem 𝓛 (lends_firsts A.row B.row self.entry result) }
        ensures value { result.now ≡ firsts_of self.old.pairs }
    {
        let address = self.block.second(self.spot).address;
        self.firsts.items_mut(address, self.len)
    }

    /// The first part of the pair at this index, mutably.
    #[tactic(auto, using(crate::proofs::TwoColumns::in_columns, crate::proofs::TwoColumns::first_end, crate::proofs::TwoColumns::first_is))]
    #[inline]
    pub fn first_at_mut(&mut self, index: usize) -> &mut A
        requires { index < length self.old.pairs }
        ensures* writes_back { sem 𝓛 (lends_first A.row B.row self.entry index result) }
        ensures value { slice_get (firsts_of self.old.pairs) index ≡ Some result.now }
    {
        let address = self.block.second(self.spot).address;
        self.firsts.item_mut(address, self.len, index)
    }

    /// Both parts of the pair at this index, mutably. It is unsafe in Rust; here the index is proved to be within the
    /// length.
    #[inline]
    pub fn get_unchecked_mut(&mut self, index: usize) -> (&mut A, &mut B)
        requires { index < length self.old.pairs }
        ensures* writes_back { sem 𝓛 (lends_both A.row B.row self.entry index result) }
        ensures value { slice_get self.old.pairs index ≡ Some (deref_both_mut result) }
    {
        let spot = self.spot;
        lend_columns(&mut self.firsts, &mut self.seconds, spot, index)
    }

    /// Both parts of the pair at this index, mutably, if there is one.
    #[inline]
    pub fn get_mut(&mut self, index: usize) -> Option<(&mut A, &mut B)>
        ensures* writes_back { sem 𝓛 (lends_both_if A.row B.row self.entry index result) }
        ensures value { option_map deref_both_mut result ≡ slice_get self.old.pairs index }
    {
        let spot = self.spot;
        let len = self.len;
        match lend_behind_if(&mut self.firsts, spot, len, index) {
            Some(first) => Some((first, lend_front(&mut self.seconds, spot, index))),
            None => None,
        }
    }
}

impl<K, V, B> Vec2<(K, V), B> {
    // Lends the values of the first parts, each of which is a key and a value.
    #[inline]
    fn lend_firsts(&mut self) -> Loan<'_, K, V>
        ensures* writes_back { sem 𝓛 (firsts_follow K.row V.row B.row self.entry result.tie) }
        ensures untouched { result.from ≡ 0 }
        ensures rest { result.rest ≡ firsts_of self.old.pairs }
    {
        let spot = self.spot;
        let len = self.len;
        Loan::behind(&mut self.firsts, spot, len)
    }

    /// The first parts of the pairs, each of which is a key and a value, as `(&K, &mut V)`. Nothing but these values
    /// can change.
    #[tactic(auto, using(crate::proofs::Pairs::values))]
    #[inline]
    pub fn iter_firsts_mut(&mut self) -> PairsMut<'_, K, V>
        ensures* writes_back { sem 𝓛 (firsts_follow K.row V.row B.row self.entry result.1) }
        ensures rest { result.0 ≡ firsts_of self.old.pairs }
        ensures fits { length self.old.pairs < 2 ^ 64 }
    {
        let len = self.len();
        PairsMut::of(self.lend_firsts(), len)
    }
}

// The item at this index of the column in front, mutably.
#[inline]
fn lend_front<T>(column: &mut Row<T>, spot: Spot<T>, index: usize) -> &mut T
    requires at { spot.address.at ≡ column.old.at }
    requires filled { IsFilled column.old.cells index }
    ensures* writes_back { sem 𝓛 (lends_item T.row column.entry index result) }
    ensures value { get_or column.old.cells index None ≡ Some result.now }
{
    column.get_mut(spot.address, index)
}

// The item at this index of the column behind, mutably. Its address is computed from the spot of the block.
#[inline]
fn lend_behind<T, B>(column: &mut Row<T>, spot: Spot<B>, index: usize) -> &mut T
    requires at { IsBehind B.row T.row spot column.old.at }
    requires filled { IsFilled column.old.cells index }
    ensures* writes_back { sem 𝓛 (lends_item T.row column.entry index result) }
    ensures value { get_or column.old.cells index None ≡ Some result.now }
{
    column.get_mut(second_at(spot), index)
}

// The item at this index of the column behind, mutably, if the index is below `len`.
#[tactic(auto, using(std::proofs::lemmas::Option::slice_get_past))]
#[inline]
fn lend_behind_if<T, B>(
    column: &mut Row<T>,
    spot: Spot<B>,
    len: usize,
    index: usize,
) -> Option<&mut T>
    requires at { IsBehind B.row T.row spot column.old.at }
    requires front { IsFront column.old.cells len }
    ensures* writes_back { sem 𝓛 (lends_cell_if T.row column.entry index result) }
    ensures value { slice_get (items_of column.old.cells) index ≡ option_copied_mut result }
{
    if index < len {
        Some(column.get_mut(second_at(spot), index))
    } else {
        None
    }
}

// The items at this index of both columns of a block, mutably. The second column is in front.
#[inline]
fn lend_columns<'a, A, B>(
    firsts: &'a mut Row<A>,
    seconds: &'a mut Row<B>,
    spot: Spot<B>,
    index: usize,
) -> (&'a mut A, &'a mut B)
    requires behind { IsBehind B.row A.row spot firsts.old.at }
    requires front { spot.address.at ≡ seconds.old.at }
    requires in_firsts { IsFilled firsts.old.cells index }
    requires in_seconds { IsFilled seconds.old.cells index }
    ensures* writes_back { sem 𝓛 (lends_cells A.row B.row firsts.entry seconds.entry index result) }
    ensures values { (get_or firsts.old.cells index None ≡ Some result.0.now) × (get_or seconds.old.cells index None ≡ Some result.1.now) }
{
    let first = lend_behind(firsts, spot, index);
    let second = lend_front(seconds, spot, index);
    (first, second)
}
