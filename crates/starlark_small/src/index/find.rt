//! Searches of a list through its hash index.
ghost use Rattle.std.specs.Prelude.{◌≡◌, ◌<◌, Some, length, slice_get};
ghost use Rattle.std.specs.Fn.{CalledAt, TakesAt};
ghost use Rattle.starlark_hash.specs.Entries.{position_of};
ghost use Rattle.starlark_hash.specs.HashValue.{hash_of, key_of};
ghost use Rattle.starlark_hash.specs.Search.{CanSearch, Searches, keys_under};
ghost use Rattle.starlark_small.specs.Index.{IsIndexOf, IsIndexed, IsSound};

use super::Index;
use super::hash_table::HashTable;
use starlark_hash::{Hashed, Query, StarlarkHashValue};
use starlark_vecmap::VecMap;

impl Index {
    /// An index under the hash whose key `eq` accepts.
    #[inline(always)]
    pub(crate) fn find<K, V, F: FnMut(&K) -> bool>(
        &self,
        entries: &VecMap<K, V>,
        hash: StarlarkHashValue,
        eq: F,
    ) -> Option<usize>
        requires indexed { IsIndexed entries.now.entries self.now }
        requires callable { CanSearch F.FnMut (keys_under hash entries.now.entries) eq }
        ensures { (last : F) × Searches F.FnMut (keys_under hash entries.now.entries) eq result last }
    {
        match self.table.get() {
            Some(table) => find_in(table, entries, hash, eq),
            None => entries.get_index_of_hashed_raw(hash, eq),
        }
    }

    /// The index under the query's hash whose key the query stands for. No two entries of the list have one hash and
    /// equal keys.
    #[inline(always)]
    pub(crate) fn position_of<K: Eq, V, Q: Query<K>>(
        &self,
        entries: &VecMap<K, V>,
        key: Hashed<Q>,
    ) -> Option<usize>
        requires sound { IsSound K.eq entries.now.entries self.now }
        ensures { result ≡ position_of (hash_of key) (Q.stands_for (key_of key)) entries.now.entries }
    {
        match self.table.get() {
            Some(table) => {
                let hash = key.hash();
                let query = key.into_key();
                find_in(table, entries, hash, move |k: &K| query.stands_for(k))
            }
            None => entries.get_index_of_hashed_among_few(key),
        }
    }
}

// An index under the hash whose key `eq` accepts.
#[inline(always)]
fn find_in<K, V, F: FnMut(&K) -> bool>(
    table: &HashTable,
    entries: &VecMap<K, V>,
    hash: StarlarkHashValue,
    mut eq: F,
) -> Option<usize>
    requires index { IsIndexOf entries.now.entries table.now }
    requires callable { CanSearch F.FnMut (keys_under hash entries.now.entries) eq }
    ensures { (last : F) × Searches F.FnMut (keys_under hash entries.now.entries) eq result last }
{
    // A hash is below 2^32, so no two hashes have the same promotion.
    let _number = hash.get();
    // The address of the pairs is computed once, before the search.
    let pairs = entries.pairs();
    table.find(
        hash,
        |i: &u32| -> bool
            requires within { i.now < length pairs.now }
            requires takes { (p : K × V) → slice_get pairs.now i.now ≡ Some p → TakesAt F.FnMut eq p.0 }
            ensures { (p : K × V) → slice_get pairs.entry.now i.now ≡ Some p → CalledAt F.FnMut eq.entry p.0 result eq.exit }
        { eq(&pairs[*i as usize].0) },
    )
}
