//! The right to write the values of pairs that are stored side by side, while their keys do not change.
ghost use Rattle.std.specs.Prelude.{◌≡◌, ℕ, List, [], ◌∷◌};
ghost use denote.Struct.Tuple.{Tuple};
ghost use Rattle.starlark_columns.specs.Block.{IsBehind};
ghost use Rattle.std.specs.Borrow.{GName, sem};
ghost use Rattle.std.specs.Map.Iter.{deref_pair_mut};
ghost use Rattle.starlark_columns.specs.Front.{IsFront};
ghost use Rattle.starlark_columns.specs.Lend.{lends_front};
ghost use Rattle.starlark_columns.specs.Cells.{items_of};
ghost use Rattle.starlark_vec2.specs.Loan.{pairs_follow, frozen, IsEnd, TakesEnd};

use starlark_columns::pair::second_at;
use starlark_columns::{Address, Row, Spot};
use std::marker::{Model, PhantomData};

// The right to write the values of the pairs that are still to be taken: `rest`, which begin at the index `from` of the
// pairs at `start`. Their keys do not change. `name` is the name of the loan of these pairs. `tie` is the name of the
// loan of all pairs, which determines what the lender ends as. `PairsMut` iterates over it.
#[derive(Drop)]
pub struct Loan<'a, K, V> {
    start: *mut (K, V),
    mark: PhantomData<&'a mut (K, V)>,
    ghost name: { GName },
    pub ghost tie: { GName },
    pub ghost from: { ℕ },
    pub ghost rest: { List (K × V) },
}

impl<'a, K, V> Model for Loan<'a, K, V> {
    ghost also_owns = { λ l. frozen 'a K.row V.row l.start l.from l.name l.rest };
}

// The `len` pairs of a column, mutably.
#[inline]
fn run_mut<K, V>(pairs: &mut Row<(K, V)>, address: Address<(K, V)>, len: usize) -> &mut [(K, V)]
    requires at { address.at ≡ pairs.old.at }
    requires front { IsFront pairs.old.cells len }
    ensures* writes_back { sem 𝓛 (lends_front (Tuple (K.row ∷ V.row ∷ [])) pairs.entry result) }
    ensures value { result.now ≡ items_of pairs.old.cells }
{
    pairs.items_mut(address, len)
}

impl<'a, K, V> Loan<'a, K, V> {
    // Lends all pairs of a column, of which there are `len`.
    #[inline]
    pub(crate) fn new(
        pairs: &'a mut Row<(K, V)>,
        address: Address<(K, V)>,
        len: usize,
    ) -> Loan<'a, K, V>
        requires at { address.at ≡ pairs.old.at }
        requires front { IsFront pairs.old.cells len }
        ensures* writes_back { sem 𝓛 (pairs_follow K.row V.row pairs.entry result.tie) }
        ensures rest { (result.from ≡ 0) × (result.rest ≡ items_of pairs.old.cells) }
    {
        let run = run_mut(pairs, address, len);
        Loan {
            start: run.as_mut_ptr(),
            mark: PhantomData,
        }
    }

    // Lends the second column of a block, whose address is computed from the spot of the block.
    #[inline]
    pub(crate) fn behind<B>(pairs: &'a mut Row<(K, V)>, spot: Spot<B>, len: usize) -> Loan<'a, K, V>
        requires at { IsBehind B.row (Tuple (K.row ∷ V.row ∷ [])) spot pairs.old.at }
        requires front { IsFront pairs.old.cells len }
        ensures* writes_back { sem 𝓛 (pairs_follow K.row V.row pairs.entry result.tie) }
        ensures rest { (result.from ≡ 0) × (result.rest ≡ items_of pairs.old.cells) }
    {
        Loan::new(pairs, second_at(spot), len)
    }

    // Takes the first or the last of the pairs that are left, which is at `index` among all pairs.
    #[inline]
    pub(crate) fn take_end(&mut self, index: usize) -> (&'a K, &'a mut V)
        requires { IsEnd self.old.from self.old.rest index }
        ensures { TakesEnd self.old.from self.old.rest index (deref_pair_mut result) self.new.from self.new.rest × (self.new.tie ≡ self.old.tie) }
    {
        unsafe {
            let pair = self.start.add(index);
            (&(*pair).0, &mut (*pair).1)
        }
    }
}
