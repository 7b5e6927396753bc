//! Mutable references into a `VecMap`, and the iterators that lend its values mutably.
ghost use Rattle.std.specs.Prelude.{◌≡◌, ◌<◌, ◌^◌, length, map, slice_get, Some};
ghost use Rattle.std.specs.Borrow.{sem};
ghost use Rattle.std.specs.Map.{values_of};
ghost use Rattle.starlark_hash.specs.Entries.{entry_value, pair_of};
ghost use Rattle.starlark_vecmap.specs.EntryList.{deref_entry_mut};
ghost use Rattle.starlark_vecmap.specs.Lend.{lends_value, values_follow};

use super::{IterMut, ValuesMut, VecMap};
use starlark_hash::{Hashed, StarlarkHashValue};

impl<K, V> VecMap<K, V> {
    /// The entry at this index, with its value mutable. All else stays. It is unsafe in Rust; here the index is proved
    /// to be within the length.
    #[inline]
    pub fn get_unchecked_mut(&mut self, index: usize) -> (Hashed<&K>, &mut V)
        requires { index < length self.old.entries }
        ensures* writes_back { sem 𝓛 (lends_value K.row V.row self.entry index result.1) }
        ensures value { slice_get self.old.entries index ≡ Some (deref_entry_mut result) }
    {
        let hash = StarlarkHashValue::new_unchecked(self.columns.seconds()[index]);
        let pair = self.columns.first_at_mut(index);
        (Hashed::new_unchecked(hash, &pair.0), &mut pair.1)
    }

    /// The keys and values of the entries, in their order, with the values mutable. Keys, hashes and capacity stay.
    #[inline]
    pub fn iter_mut(&mut self) -> IterMut<'_, K, V>
        ensures* writes_back { sem 𝓛 (values_follow K.row V.row self.entry result.1) }
        ensures rest { result.0 ≡ map pair_of self.old.entries }
        ensures fits { length self.old.entries < 2 ^ 64 }
    {
        self.columns.iter_firsts_mut()
    }

    /// The values of the entries, in their order, mutably. Keys, hashes and capacity stay.
    #[tactic(auto, using(crate::proofs::WrittenValues::written))]
    #[inline]
    pub fn values_mut(&mut self) -> ValuesMut<'_, K, V>
        ensures* writes_back { sem 𝓛 (values_follow K.row V.row self.entry result.1) }
        ensures rest { values_of result.0 ≡ map entry_value self.old.entries }
        ensures fits { length self.old.entries < 2 ^ 64 }
    {
        ValuesMut::of(self.iter_mut())
    }
}
