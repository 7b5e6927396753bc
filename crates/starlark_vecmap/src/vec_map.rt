//! `VecMap`, a list of entries in two columns. Only its child modules see its field.
ghost use Rattle.std.specs.Prelude.{◌≡◌, ◌-◌, ◌^◌, ◌<◌, ◌≤◌, ◌==◌, [], ◌∷◌, ◌++◌, length, map, remove, reverse, slice_get, is_ok, None, if◌then◌else◌, IfOk, IfErr, IfSome, IsOk};
ghost use Rattle.std.specs.Option.{option_map};
ghost use Rattle.std.specs.Map.Iter.{TakesLast, ShowsInOrder, ShowsInReverse, GivesInOrder, GivesInReverse, deref, deref_pair};
ghost use Rattle.starlark_hash.specs.Entries.{Entry, entry_key, entry_value, pair_of, position_of, entry_at, without};
ghost use Rattle.starlark_hash.specs.HashValue.{hash_of, key_of};
ghost use Rattle.starlark_hash.specs.Search.{Asks, CanSearch, keys_under};
ghost use Rattle.starlark_vecmap.specs.EntryList as list;
ghost use Rattle.starlark_vecmap.specs.EntryList.{entry_list, with_entries, deref_entry};

mod clone;
mod compare;
mod into_iter;
mod iter;
mod iter_mut;
mod retain;
mod sort;

use crate::columns::{search_columns, search_few};
use crate::hash_search::BLOCK;
pub use into_iter::{IntoIter, IntoIterHashed, IntoKeys, IntoValues};
pub use iter::{Iter, IterHashed, Keys, Values};
use starlark_hash::{Hashed, NoRoom, Query, StarlarkHashValue};
use starlark_vec2::Vec2;
pub use starlark_vec2::{PairsMut as IterMut, ValuesMut};
use std::alloc::{AllocError, Global};
use std::marker::Model;

/// A list of entries, looked up by hash and key. An entry is a key with a hash, and a value. Nothing prevents two
/// entries with the same hash and equal keys. The model is the list of the entries and the capacity. Its iterators are
/// double-ended, with an exact length and size hint.
#[derive(Drop)]
pub struct VecMap<K, V> {
    // The keys with their values, and the number of each key's hash.
    columns: Vec2<(K, V), u32>,
}

impl<K, V> Model for VecMap<K, V> {
    ghost use Rattle.std.specs.Prelude.{map};
    ghost use Rattle.starlark_vecmap.specs.EntryList.{EntryList, entry_list, entry_of};

    ghost Value = { EntryList K V };

    ghost view = { λ m. entry_list (map entry_of m.columns.pairs) m.columns.capacity };
}

// Construction

impl<K, V> VecMap<K, V> {
    /// A map without entries. It takes no memory.
    #[inline]
    pub fn new(alloc: Global) -> Self
        ensures { result ≡ entry_list [] 0 }
    {
        VecMap {
            columns: Vec2::new(alloc),
        }
    }

    /// A map without entries, with room for `capacity` of them. Capacity 0 needs no memory. It is refused if memory is
    /// needed and there is none.
    #[inline]
    pub fn with_capacity(alloc: Global, capacity: usize) -> Result<Self, AllocError>
        ensures made { IfOk result (λ m. m ≡ entry_list [] capacity) }
        ensures succeeds { capacity ≡ 0 → IsOk result }
    {
        Ok(VecMap {
            columns: Vec2::with_capacity(alloc, capacity)?,
        })
    }
}

// Reading

impl<K, V> VecMap<K, V> {
    /// The number of entries.
    #[inline]
    pub fn len(&self) -> usize
        ensures len { result ≡ length self.now.entries }
        ensures fits { length self.now.entries < 2 ^ 64 }
    {
        self.columns.len()
    }

    /// Whether there are no entries.
    #[inline]
    pub fn is_empty(&self) -> bool
        ensures { result ≡ (length self.now.entries == 0) }
    {
        self.columns.is_empty()
    }

    /// How many entries there may be before the map grows.
    #[inline]
    pub fn capacity(&self) -> usize
        ensures capacity { result ≡ self.now.capacity }
        ensures within { length self.now.entries ≤ self.now.capacity }
    {
        self.columns.capacity()
    }

    /// The first index under the hash whose key `accepts` accepts, or `None` if it refuses all keys under the hash. It is
    /// called only on keys under the hash, from the front and at most once on each, until it accepts one. Each call finds
    /// the state that the call before left. The call requires that `accepts` may be called on those keys, in any order, on
    /// each after it refused those before.
    #[inline]
    pub fn get_index_of_hashed_raw<F: FnMut(&K) -> bool>(
        &self,
        hash: StarlarkHashValue,
        accepts: F,
    ) -> Option<usize>
        requires { CanSearch F.FnMut (keys_under hash self.now.entries) accepts }
        ensures { (last : F) × Asks F.FnMut accepts (keys_under hash self.now.entries) result last }
    {
        search_columns(self.columns.firsts(), self.columns.seconds(), hash, accepts)
    }

    /// The first index under the query's hash whose key the query stands for.
    #[inline]
    pub fn get_index_of_hashed<Q: Query<K>>(&self, key: Hashed<Q>) -> Option<usize>
    where
        K: Eq,
        ensures index { result ≡ position_of (hash_of key) (Q.stands_for (key_of key)) self.now.entries }
        ensures within { IfSome result (λ i. i < length self.now.entries) }
    {
        let hash = key.hash();
        let query = key.into_key();
        self.get_index_of_hashed_raw(hash, move |k: &K| query.stands_for(k))
    }

    /// The first index under the query's hash whose key the query stands for, in a map of at most 32 entries. The code
    /// is short, since it has one search only. Rust has no such call.
    #[inline(always)]
    pub fn get_index_of_hashed_among_few<Q: Query<K>>(&self, key: Hashed<Q>) -> Option<usize>
    where
        K: Eq,
        requires { length self.now.entries ≤ 32 }
        ensures index { result ≡ position_of (hash_of key) (Q.stands_for (key_of key)) self.now.entries }
        ensures within { IfSome result (λ i. i < length self.now.entries) }
    {
        // This is never so. The compiler learns it from the test, and a hit takes four instructions less.
        if self.len() > BLOCK {
            return None;
        }
        let hash = key.hash();
        let query = key.into_key();
        self.search_few(hash, move |k: &K| query.stands_for(k))
    }

    // The first index under the hash for whose key `accepts` returns true, in a map of at most 32 entries.
    #[inline(always)]
    fn search_few<F: FnMut(&K) -> bool>(&self, hash: StarlarkHashValue, accepts: F) -> Option<usize>
        requires few { length self.now.entries ≤ 32 }
        requires callable { CanSearch F.FnMut (keys_under hash self.now.entries) accepts }
        ensures { (last : F) × Asks F.FnMut accepts (keys_under hash self.now.entries) result last }
    {
        search_few(self.columns.firsts(), self.columns.seconds(), hash, accepts)
    }

    /// The key and the value at this index, if there is an entry.
    #[inline]
    pub fn get_index(&self, index: usize) -> Option<(&K, &V)>
        ensures { option_map deref_pair result ≡ option_map pair_of (slice_get self.now.entries index) }
    {
        let (pair, _) = self.columns.get(index)?;
        Some((&pair.0, &pair.1))
    }

    /// The entry at this index. It is unsafe in Rust; here the index is proved to be within the length.
    #[inline]
    pub fn get_unchecked(&self, index: usize) -> (Hashed<&K>, &V)
        requires { index < length self.now.entries }
        ensures { slice_get self.now.entries index ≡ Some (deref_entry result) }
    {
        let (pair, hash) = self.columns.get_unchecked(index);
        let hash = StarlarkHashValue::new_unchecked(*hash);
        (Hashed::new_unchecked(hash, &pair.0), &pair.1)
    }
}

// Iterators

impl<K, V> VecMap<K, V> {
    /// The keys and values of the entries as a slice, in their order. Rust has no such call.
    #[tactic(auto, using(crate::proofs::Views::views))]
    #[inline]
    pub fn pairs(&self) -> &[(K, V)]
        ensures { result.now ≡ map pair_of self.now.entries }
    {
        self.columns.firsts()
    }

    /// The keys, in their order.
    #[tactic(auto, using(crate::proofs::Views::views))]
    #[inline]
    pub fn keys(&self) -> Keys<'_, K, V>
        ensures rest { result ≡ map entry_key self.now.entries }
        ensures fits { length self.now.entries < 2 ^ 64 }
        ensures runs { ShowsInOrder (deref {X = K}) }
        ensures runs_back { ShowsInReverse (deref {X = K}) }
    {
        Keys::new(self.iter())
    }

    /// The values, in their order.
    #[tactic(auto, using(crate::proofs::Views::views))]
    #[inline]
    pub fn values(&self) -> Values<'_, K, V>
        ensures rest { result ≡ map entry_value self.now.entries }
        ensures fits { length self.now.entries < 2 ^ 64 }
        ensures runs { ShowsInOrder (deref {X = V}) }
        ensures runs_back { ShowsInReverse (deref {X = V}) }
    {
        Values::new(self.iter())
    }

    /// The keys and values of the entries, in their order.
    #[tactic(auto, using(crate::proofs::Views::views))]
    #[inline]
    pub fn iter(&self) -> Iter<'_, K, V>
        ensures rest { result ≡ map pair_of self.now.entries }
        ensures fits { length self.now.entries < 2 ^ 64 }
        ensures runs { ShowsInOrder (deref_pair {K = K} {X = V}) }
        ensures runs_back { ShowsInReverse (deref_pair {K = K} {X = V}) }
    {
        Iter::new(self.columns.firsts())
    }

    /// The entries, in their order.
    #[tactic(auto, using(crate::proofs::Views::views))]
    #[inline]
    pub fn iter_hashed(&self) -> IterHashed<'_, K, V>
        ensures rest { result ≡ self.now.entries }
        ensures fits { length self.now.entries < 2 ^ 64 }
        ensures runs { ShowsInOrder (deref_entry {K = K} {V = V}) }
        ensures runs_back { ShowsInReverse (deref_entry {K = K} {V = V}) }
        ensures few { length self.now.entries < 2 ^ 63 }
    {
        // A hash takes four bytes, so there are fewer than 2^63.
        let _hashes = self.columns.seconds();
        IterHashed::new(self.columns.iter())
    }
}

impl<K: Drop, V: Drop> VecMap<K, V> {
    /// The entries by value, in their order.
    #[inline]
    pub fn into_iter_hashed(self) -> IntoIterHashed<K, V>
        ensures rest { result ≡ self.entries }
        ensures fits { length self.entries < 2 ^ 64 }
        ensures runs { GivesInOrder (Entry K V) }
        ensures runs_back { GivesInReverse (Entry K V) }
    {
        let VecMap { columns } = self;
        IntoIterHashed::new(columns.into_iter())
    }

    /// The keys by value, in their order.
    #[tactic(auto, using(crate::proofs::Views::views))]
    #[inline]
    pub fn into_keys(self) -> IntoKeys<K, V>
        ensures rest { result ≡ map entry_key self.entries }
        ensures fits { length self.entries < 2 ^ 64 }
        ensures runs { GivesInOrder K }
        ensures runs_back { GivesInReverse K }
    {
        IntoKeys::new(self.into_iter())
    }

    /// The values by value, in their order.
    #[tactic(auto, using(crate::proofs::Views::views))]
    #[inline]
    pub fn into_values(self) -> IntoValues<K, V>
        ensures rest { result ≡ map entry_value self.entries }
        ensures fits { length self.entries < 2 ^ 64 }
        ensures runs { GivesInOrder V }
        ensures runs_back { GivesInReverse V }
    {
        IntoValues::new(self.into_iter())
    }
}

impl<K: Drop, V: Drop> IntoIterator for VecMap<K, V> {
    type Item = (K, V);

    type IntoIter = IntoIter<K, V>;

    ghost into_iter_gives = { λ m rest. (rest ≡ map pair_of m.entries) × (length m.entries < 2 ^ 64) × GivesInOrder (K × V) × GivesInReverse (K × V) };

    /// The keys and values of the entries by value, in their order.
    #[inline]
    fn into_iter(self) -> IntoIter<K, V> {
        IntoIter::new(self.into_iter_hashed())
    }
}

// Growing

impl<K, V> VecMap<K, V> {
    /// Makes room for `additional` further entries. The map grows only if there is less room: to the largest of the
    /// needed capacity, 4, and twice the old capacity. If memory is refused, the map is unchanged. With enough room it
    /// is never refused, and nothing changes.
    #[inline]
    pub fn reserve(&mut self, additional: usize) -> Result<(), AllocError>
        ensures list { self.new ≡ (if is_ok result then list.reserve self.old additional else self.old) }
        ensures succeeds { additional ≤ self.old.capacity - length self.old.entries → IsOk result }
    {
        self.columns.reserve(additional)
    }

    /// Appends an entry; an entry with the same hash and an equal key stays where it is. If there is no memory, the map
    /// is unchanged and the entry is handed back; that cannot happen while the length is below the capacity.
    #[inline]
    pub fn insert_hashed_unique_unchecked(
        &mut self,
        key: Hashed<K>,
        value: V,
    ) -> Result<(), NoRoom<(Hashed<K>, V)>>
        ensures list { self.new ≡ (if is_ok result then list.push self.old (key, value) else self.old) }
        ensures handed_back { IfErr result (λ refused. refused.0 ≡ (key, value)) }
        ensures succeeds { length self.old.entries < self.old.capacity → IsOk result }
    {
        if self.reserve(1).is_err() {
            return Err(NoRoom((key, value)));
        }
        self.push_reserved(key, value);
        Ok(())
    }

    /// Appends an entry for which there is room, as there is after `reserve`. The capacity stays.
    #[inline]
    pub fn push_reserved(&mut self, key: Hashed<K>, value: V)
        requires { length self.old.entries < self.old.capacity }
        ensures { self.new ≡ with_entries self.old (self.old.entries ++ (key, value) ∷ []) }
    {
        let hash = key.hash().get();
        self.columns.push_reserved((key.into_key(), value), hash);
    }
}

// Removal and order

impl<K, V> VecMap<K, V> {
    /// Removes and returns the entry at this index. Each later entry moves one index down. The capacity stays.
    #[tactic(auto, using(crate::proofs::Views::views))]
    #[inline]
    pub fn remove(&mut self, index: usize) -> (Hashed<K>, V)
        requires { index < length self.old.entries }
        ensures taken { slice_get self.old.entries index ≡ Some result }
        ensures list { self.new ≡ with_entries self.old (remove self.old.entries index) }
    {
        let ((key, value), hash) = self.columns.remove(index);
        (
            Hashed::new_unchecked(StarlarkHashValue::new_unchecked(hash), key),
            value,
        )
    }

    /// Removes and returns the last entry, if there is one. The capacity stays.
    #[inline]
    pub fn pop(&mut self) -> Option<(Hashed<K>, V)>
        ensures taken { TakesLast (λ e. e) self.old.entries result self.new.entries }
        ensures capacity { self.new.capacity ≡ self.old.capacity }
    {
        let ((key, value), hash) = self.columns.pop()?;
        Some((
            Hashed::new_unchecked(StarlarkHashValue::new_unchecked(hash), key),
            value,
        ))
    }

    /// Reverses the order of the entries. The capacity stays.
    #[tactic(auto, using(crate::proofs::Views::views))]
    #[inline]
    pub fn reverse(&mut self)
        ensures { self.new ≡ with_entries self.old (reverse self.old.entries) }
    {
        self.columns.reverse();
    }
}

impl<K: Eq, V> VecMap<K, V> {
    /// Removes and returns the first entry under the query's hash whose key the query stands for, if there is one. Each
    /// later entry moves one index down. The capacity stays.
    pub fn remove_hashed_entry<Q: Query<K>>(&mut self, key: Hashed<Q>) -> Option<(K, V)>
        ensures taken { result ≡ option_map pair_of (entry_at self.old.entries (position_of (hash_of key) (Q.stands_for (key_of key)) self.old.entries)) }
        ensures list { self.new ≡ with_entries self.old (without self.old.entries (position_of (hash_of key) (Q.stands_for (key_of key)) self.old.entries)) }
    {
        let index = self.get_index_of_hashed(key)?;
        let (key, value) = self.remove(index);
        Some((key.into_key(), value))
    }
}

impl<K: Drop, V: Drop> VecMap<K, V> {
    /// Drops all entries. The capacity stays.
    #[inline]
    pub fn clear(&mut self)
        ensures { self.new ≡ with_entries self.old [] }
    {
        self.columns.clear();
    }
}
