//! The iterators of an `UnorderedMap`, in an order that nothing promises.
ghost use Rattle.std.specs.Prelude.{◌≡◌, ◌<◌, ◌≤◌, ◌+◌, ◌^◌, [], IfErr, IfOk, IsOk, IsPermutation, IsSortedByKey, List, length, map};
ghost use Rattle.std.specs.Map.{keys_of, values_of};
ghost use Rattle.std.specs.Map.Iter.{deref, deref_pair, ShowsInOrder};
ghost use Rattle.std.specs.Option.{option_map};
ghost use Rattle.starlark_table.specs.Growth.{most_for};
ghost use Rattle.starlark_table.specs.Table.{table_len};
ghost use Rattle.starlark_unordered.specs.Lookup.{get};
ghost use Rattle.starlark_unordered.specs.Pairs.{pairs_of, HasDistinctKeys};
ghost use Rattle.starlark_unordered.specs.MapValues.{CanMapValues, GivesChange, MapsValues};
ghost use Rattle.starlark_unordered.specs.Iter.{AreFound};
ghost use Rattle.std.specs.Borrow.{sem};
ghost use Rattle.starlark_unordered.specs.Lend.{values_follow};

use super::UnorderedMap;
use crate::into_hash_map::move_pairs;
use crate::iter::{Entries, KeysUnordered, ValuesUnordered};
use crate::iter_mut::{EntriesMut, ValuesUnorderedMut};
use crate::map_values::map_members;
use starlark_table::ReadyTable;
use std::alloc::AllocError;
use std::collections::HashMap;
use std::hash::Hash;

impl<K: Eq + Hash, V> UnorderedMap<K, V> {
    /// The pairs, each once, with exact length and size hint. No two keys are equal.
    #[inline]
    pub fn entries_unordered(&self) -> Entries<'_, K, V>
        ensures pairs { result ≡ pairs_of self.now }
        ensures distinct { HasDistinctKeys K.eq (pairs_of self.now) }
        ensures fits { length (pairs_of self.now) < 2 ^ 64 }
        ensures runs { ShowsInOrder (deref_pair {K = K} {X = V}) }
    {
        // The number of pairs is a `usize`, which the clause `fits` says.
        prove!(self.table.len() <= usize::MAX);
        Entries::new(self.table.iter())
    }

    /// The keys, each once, with exact length and size hint.
    #[inline]
    pub fn keys_unordered(&self) -> KeysUnordered<'_, K, V>
        ensures keys { result ≡ keys_of (pairs_of self.now) }
        ensures fits { length (pairs_of self.now) < 2 ^ 64 }
        ensures runs { ShowsInOrder (deref {X = K}) }
    {
        KeysUnordered::new(self.entries_unordered())
    }

    /// The values, each once for its key, with exact length and size hint.
    #[inline]
    pub fn values_unordered(&self) -> ValuesUnordered<'_, K, V>
        ensures values { result ≡ values_of (pairs_of self.now) }
        ensures found { AreFound K.eq (pairs_of self.now) result }
        ensures fits { length (pairs_of self.now) < 2 ^ 64 }
        ensures runs { ShowsInOrder (deref {X = V}) }
    {
        ValuesUnordered::new(self.entries_unordered())
    }

    /// The pairs, each once, in ascending order of their keys. Refused only if memory is refused.
    pub fn entries_sorted(&self) -> Result<Vec<(&K, &V)>, AllocError>
    where
        K: Ord,
        ensures each { IfOk result (λ entries. IsPermutation (pairs_of self.now) (map deref_pair entries.items)) }
        ensures ascends { IfOk result (λ entries. IsSortedByKey (λ entry. entry.0.now) K.cmp entries.items) }
    {
        let mut entries = Vec::from_iter(self.alloc, self.entries_unordered())?;
        entries.sort_by(|a, b| a.0.cmp(b.0))?;
        Ok(entries)
    }

    /// The pairs in a map of the standard library. If memory is refused, they are dropped.
    pub fn into_hash_map(self) -> Result<HashMap<K, V>, AllocError>
    where
        K: Drop,
        V: Drop,
        ensures { IfOk result (λ m. IsPermutation (pairs_of self) m.entries) }
    {
        let UnorderedMap { table, alloc } = self;
        let mut map = HashMap::with_capacity(alloc, table.len())?;
        move_pairs(table.into_iter(), &mut map)?;
        Ok(map)
    }

    /// The map with what `f` returns in place of each value. All memory is asked for before the first call. If it is
    /// refused, `f` was not called, and the map comes back; an empty map is not refused. `f` is called once on each value,
    /// in the order of iteration.
    pub fn map_values<W, F: FnMut(V) -> W>(
        self,
        f: F,
    ) -> Result<UnorderedMap<K, W>, UnorderedMap<K, V>>
    where
        K: Drop,
        V: Drop,
        W: Drop,
        requires { CanMapValues F.FnMut (pairs_of self) f }
        // Done: `f` was called on each value in turn, and the keys are unchanged.
        ensures mapped { IfOk result (λ map. (last : F) × (mapped : List (K × W)) × MapsValues F.FnMut f (pairs_of self) mapped last × IsPermutation mapped (pairs_of map)) }
        ensures count { IfOk result (λ map. length (pairs_of map) ≡ length (pairs_of self)) }
        // If each call returns this change of the value and leaves `f` unchanged, look-ups find the old values, changed.
        ensures changed { (change : V → W) → GivesChange F.FnMut f change → IfOk result (λ map. (key : K) → get K.eq map key ≡ option_map change (get K.eq self key)) }
        ensures room { IfOk result (λ map. table_len map + map.room ≤ most_for (table_len self)) }
        // Refused: the map comes back. An empty map is not refused.
        ensures handed_back { IfErr result (λ map. map ≡ self) }
        ensures none_for_none { pairs_of self ≡ [] → IsOk result }
    {
        let UnorderedMap { table, alloc } = self;
        let Ok(mut mapped) = ReadyTable::keeping(alloc, table.len()) else {
            return Err(UnorderedMap { table, alloc });
        };
        map_members(table.into_iter(), &mut mapped, f);
        Ok(UnorderedMap {
            table: mapped,
            alloc,
        })
    }

    /// The pairs, each once, for writing the values, with exact length and size hint. No two keys are equal. The map ends
    /// with what is left in the values, and all else is unchanged.
    #[inline]
    pub fn entries_unordered_mut(&mut self) -> EntriesMut<'_, K, V>
        ensures* writes_back { sem 𝓛 (values_follow K.row V.row K.Hash self.entry result.1) }
        ensures pairs { result.0 ≡ pairs_of self.old }
        ensures distinct { HasDistinctKeys K.eq (pairs_of self.old) }
        ensures fits { length (pairs_of self.old) < 2 ^ 64 }
    {
        self.table.pairs_mut()
    }

    /// The values, each once for its key, for writing, with exact length and size hint. The map ends with what is left in
    /// them, and all else is unchanged.
    #[inline]
    pub fn values_unordered_mut(&mut self) -> ValuesUnorderedMut<'_, K, V>
        ensures* writes_back { sem 𝓛 (values_follow K.row V.row K.Hash self.entry result.1) }
        ensures values { values_of result.0 ≡ values_of (pairs_of self.old) }
        ensures fits { length (pairs_of self.old) < 2 ^ 64 }
    {
        ValuesUnorderedMut::new(self.entries_unordered_mut())
    }
}
