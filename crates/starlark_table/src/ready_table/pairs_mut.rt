//! Tables of pairs, whose values are written in place.
ghost use Rattle.std.specs.Prelude.{◌≡◌, ◌^◌, ◌<◌, length};
ghost use Rattle.std.specs.Borrow.{sem};
ghost use Rattle.starlark_table.specs.Table.{items_of};
ghost use Rattle.starlark_table.specs.Lend.{values_follow};

use super::ReadyTable;
use crate::kept_hash::KeptHash;
use crate::loan::PairLoan;
use crate::pairs_mut::PairsMut;
use crate::tags::tags_beside;
use starlark_columns::loan::AllButLast;

impl<K, V, H: KeptHash> ReadyTable<(K, V), H> {
    // The right to write the values, for a `PairsMut`.
    #[inline]
    #[tactic(auto, using(crate::proofs::LentSlots::marking))]
    fn lend_pairs(&mut self) -> PairLoan<'_, K, V, H>
        ensures* writes_back { sem 𝓛 (values_follow K.row V.row H.row ⟦<H as KeptHash>⟧ self.entry result.tie) }
        ensures rest { (result.from ≡ 0) × (result.rest ≡ self.old.slots) }
    {
        let count = tags_beside(&self.slots);
        let (slots, tags) = self.lend_kept::<AllButLast>();
        PairLoan::new(slots, tags.as_slice(count))
    }

    /// The pairs in the order of iteration, each value for writing, with exact length and size hint. There are fewer than
    /// 2^64 of them. The table ends with the values that are left in its slots. Hashes, keys and all else are unchanged.
    #[inline]
    pub fn pairs_mut(&mut self) -> PairsMut<'_, K, V, H>
        ensures* writes_back { sem 𝓛 (values_follow K.row V.row H.row ⟦<H as KeptHash>⟧ self.entry result.1) }
        ensures pairs { result.0 ≡ items_of self.old }
        ensures fits { length (items_of self.old) < 2 ^ 64 }
    {
        let left = self.len();
        let end = self.slots.cells();
        PairsMut::new(self.lend_pairs(), end, left)
    }
}
