//! What puts entries into a `SmallMap`.
ghost use Rattle.std.specs.Borrow.{sem};
ghost use Rattle.std.specs.Hash.{HashWrites};
ghost use Rattle.std.specs.Option.{option_map};
ghost use Rattle.std.specs.Prelude.{◌<◌, ◌≡◌, length, slice_get, Some, None, IfErr, IfOk, OnErr, OnOk};
ghost use Rattle.starlark_hash.specs.Entries.{pair_of};
ghost use Rattle.starlark_hash.specs.HashValue.{hash_of, key_of};
ghost use Rattle.starlark_hash.specs.Hasher.{own_hash};
ghost use Rattle.starlark_hash.specs.Lookup.{found, Writes};
ghost use Rattle.starlark_small.specs.Insert.{Inserts, IsInserted, IsRefused, IsRefusedInsertion, LeavesMemory};
ghost use Rattle.starlark_small.specs.Lend.{lends_inserted, lends_value, unhashed};
ghost use Rattle.starlark_small.specs.Lookup.{AreOwn, Updates, get};
ghost use Rattle.starlark_small.specs.Map.{own_hashed};

use super::SmallMap;
use crate::index::UNINDEXED;
use starlark_hash::{Hashed, NoRoom};
use std::hash::Hash;
use std::mem;

impl<K: Eq, V> SmallMap<K, V> {
    /// Inserts a value under the key's own hash. If the key is there, its index and its stored key stay, its value is
    /// replaced, and the old value is returned; a new key is appended. Only a new key is refused, if there is no room
    /// and no memory is found.
    #[inline(always)]
    pub fn insert(&mut self, key: K, value: V) -> Result<Option<V>, NoRoom<(K, V)>>
    where
        K: Hash + Drop,
        // Done: the value that was there comes back, the key has this one, and every other key has what it had.
        ensures old { IfOk result (λ was. was ≡ get K.eq K.hash_input self.old key) }
        ensures updates { OnOk result (Updates K.eq K.hash_input self.old self.new key (Some value)) }
        // The list now: a key that is there keeps its index and its stored key, and a new one is appended.
        ensures inserts { OnOk result (Inserts K.eq self.old self.new (own_hashed K.hash_input key) value) }
        // Keys that are under their own hashes stay so, also where this one is refused.
        ensures own { AreOwn K.hash_input self.old → AreOwn K.hash_input self.new }
        // Refused: only a new key, only without room. Key and value come back, and entries and index are unchanged; the
        // capacity may have grown.
        ensures refused { OnErr result (IsRefusedInsertion K.eq self.old self.new (own_hashed K.hash_input key)) }
        ensures handed_back { IfErr result (λ refused. refused.0 ≡ (key, value)) }
        // Done or refused: no room is lost, and with room to spare no memory is asked for.
        ensures memory { LeavesMemory K.eq self.old self.new (own_hashed K.hash_input key) }
    {
        match self.insert_hashed(Hashed::new(key), value) {
            Ok(old) => Ok(old),
            Err(NoRoom((key, value))) => Err(NoRoom((key.into_key(), value))),
        }
    }

    /// Inserts a value under a precomputed hash. If the key is there, its index and its stored key stay, its value is
    /// replaced, and the old value is returned; a new key is appended. Only a new key is refused, if there is no room
    /// and no memory is found. With room to spare, capacity and hash index stay. Otherwise the capacity grows as that
    /// of a `Vec2` does. It may have grown also if the key is refused; a second refusal grows it no further. There is a
    /// hash index afterwards exactly if there was one, or if the list is now longer than `UNINDEXED`. Length plus room
    /// never falls.
    #[inline(always)]
    pub fn insert_hashed(
        &mut self,
        key: Hashed<K>,
        value: V,
    ) -> Result<Option<V>, NoRoom<(Hashed<K>, V)>>
    where
        K: Drop,
        // Done: the value that was there comes back, the key has this one, and every other key has what it had.
        ensures old { IfOk result (λ was. was ≡ found (K.eq (key_of key)) (hash_of key) self.old.entries) }
        ensures updates { OnOk result (Writes K.eq (K.eq (key_of key)) (hash_of key) self.old.entries self.new.entries (Some value)) }
        // The list now: a key that is there keeps its index and its stored key, and a new one is appended.
        ensures inserts { OnOk result (Inserts K.eq self.old self.new key value) }
        // Keys that are under their own hashes stay so, also where this one is refused.
        ensures own { (feeds : K → HashWrites) → hash_of key ≡ own_hash feeds (key_of key) → AreOwn feeds self.old → AreOwn feeds self.new }
        // Refused: only a new key, only without room. Key and value come back, and entries and index are unchanged; the
        // capacity may have grown.
        ensures refused { OnErr result (IsRefusedInsertion K.eq self.old self.new key) }
        ensures handed_back { IfErr result (λ refused. refused.0 ≡ (key, value)) }
        // Done or refused: no room is lost, and with room to spare no memory is asked for.
        ensures memory { LeavesMemory K.eq self.old self.new key }
    {
        // The first group of the hash index mostly shows that the key is new.
        let spare = self.entries.capacity() - self.entries.len();
        if self.index.note_new(key.hash(), spare) {
            self.entries.push_reserved(key, value);
            return Ok(None);
        }
        self.insert_by_search(key, value)
    }

    // Inserts by a search for the key. It is not inlined: of an insertion, only the test of the first group is.
    #[inline(never)]
    fn insert_by_search(
        &mut self,
        key: Hashed<K>,
        value: V,
    ) -> Result<Option<V>, NoRoom<(Hashed<K>, V)>>
    where
        K: Drop,
        // Done: the value that was there comes back, the key has this one, and every other key has what it had.
        ensures old { IfOk result (λ was. was ≡ found (K.eq (key_of key)) (hash_of key) self.old.entries) }
        ensures updates { OnOk result (Writes K.eq (K.eq (key_of key)) (hash_of key) self.old.entries self.new.entries (Some value)) }
        // The list now: a key that is there keeps its index and its stored key, and a new one is appended.
        ensures inserts { OnOk result (Inserts K.eq self.old self.new key value) }
        // Keys that are under their own hashes stay so, also where this one is refused.
        ensures own { (feeds : K → HashWrites) → hash_of key ≡ own_hash feeds (key_of key) → AreOwn feeds self.old → AreOwn feeds self.new }
        // Refused: only a new key, only without room. Key and value come back, and entries and index are unchanged; the
        // capacity may have grown.
        ensures refused { OnErr result (IsRefusedInsertion K.eq self.old self.new key) }
        ensures handed_back { IfErr result (λ refused. refused.0 ≡ (key, value)) }
        // Done or refused: no room is lost, and with room to spare no memory is asked for.
        ensures memory { LeavesMemory K.eq self.old self.new key }
    {
        prove!(self.index().is_some() || self.len() <= UNINDEXED);
        match self.get_index_of_hashed(key.as_ref()) {
            Some(i) => Ok(Some(mem::replace(self.value_at_mut(i), value))),
            None => match self.push(key, value) {
                Ok(_) => Ok(None),
                Err(refused) => Err(refused),
            },
        }
    }

    /// Appends a new key under its own hash, without a look-up, and lends it with its value. The map ends with what is
    /// left in the value. The key is refused if there is no room and no memory is found: then entries and hash index
    /// are unchanged.
    pub fn insert_unique_unchecked(
        &mut self,
        key: K,
        value: V,
    ) -> Result<(&K, &mut V), NoRoom<(K, V)>>
    where
        K: Hash,
        requires { get K.eq K.hash_input self.old key ≡ None }
        ensures* writes_back { sem 𝓛 (lends_inserted K.row V.row K.PartialEq self.entry (own_hashed K.hash_input key) result) }
        ensures pair { IfOk result (λ p. (p.0.now ≡ key) × (p.1.now ≡ value)) }
        ensures full { OnErr result (self.old.room ≡ 0) }
        ensures handed_back { IfErr result (λ refused. refused.0 ≡ (key, value)) }
    {
        without_hash(self.insert_hashed_unique_unchecked(Hashed::new(key), value))
    }

    /// Appends a key that is new under a precomputed hash, without a look-up, and lends it with its value. The map ends
    /// with what is left in the value. The key is refused if there is no room and no memory is found: then entries and
    /// hash index are unchanged. Capacity, room and hash index become what `insert_hashed` makes of them.
    pub fn insert_hashed_unique_unchecked(
        &mut self,
        key: Hashed<K>,
        value: V,
    ) -> Result<(&K, &mut V), NoRoom<(Hashed<K>, V)>>
        requires { found (K.eq (key_of key)) (hash_of key) self.old.entries ≡ None }
        ensures* writes_back { sem 𝓛 (lends_inserted K.row V.row K.PartialEq self.entry key result) }
        ensures pair { IfOk result (λ p. (p.0.now ≡ key_of key) × (p.1.now ≡ value)) }
        ensures full { OnErr result (self.old.room ≡ 0) }
        ensures handed_back { IfErr result (λ refused. refused.0 ≡ (key, value)) }
    {
        match self.push(key, value) {
            Ok(index) => Ok(self.entry_mut(index)),
            Err(refused) => Err(refused),
        }
    }

    /// Appends a new key under its own hash, without a look-up, and returns its index. The key is refused if there is
    /// no room and no memory is found. Rust's crate has no such call. It is here since a contract can say more of an
    /// index than of the entry that `insert_unique_unchecked` lends.
    pub fn push_own(&mut self, key: K, value: V) -> Result<usize, NoRoom<(K, V)>>
    where
        K: Hash,
        requires { get K.eq K.hash_input self.old key ≡ None }
        // Done: the index of the new entry comes back, which is the last; its key has the value, and every other key
        // has what it had.
        ensures index { IfOk result (λ i. i ≡ length self.old.entries) }
        ensures inserted { OnOk result (IsInserted self.old self.new (own_hashed K.hash_input key) value) }
        ensures updates { OnOk result (Updates K.eq K.hash_input self.old self.new key (Some value)) }
        // Keys that are under their own hashes stay so, also where this one is refused.
        ensures own { AreOwn K.hash_input self.old → AreOwn K.hash_input self.new }
        // Refused: only without room. Key and value come back, and entries and index are unchanged; the capacity may
        // have grown.
        ensures refused { OnErr result (IsRefused self.old self.new) }
        ensures full { OnErr result (self.old.room ≡ 0) }
        ensures handed_back { IfErr result (λ refused. refused.0 ≡ (key, value)) }
    {
        match self.push(Hashed::new(key), value) {
            Ok(index) => Ok(index),
            Err(NoRoom((key, value))) => Err(NoRoom((key.into_key(), value))),
        }
    }

    /// Appends a key that is new under a precomputed hash, without a look-up, and returns its index. The key is refused
    /// if there is no room and no memory is found.
    pub fn push(&mut self, key: Hashed<K>, value: V) -> Result<usize, NoRoom<(Hashed<K>, V)>>
        requires { found (K.eq (key_of key)) (hash_of key) self.old.entries ≡ None }
        // Done: the index of the new entry comes back, which is the last; its key has the value, and every other key
        // has what it had.
        ensures index { IfOk result (λ i. i ≡ length self.old.entries) }
        ensures inserted { OnOk result (IsInserted self.old self.new key value) }
        ensures updates { OnOk result (Writes K.eq (K.eq (key_of key)) (hash_of key) self.old.entries self.new.entries (Some value)) }
        // Keys that are under their own hashes stay so, also where this one is refused.
        ensures own { (feeds : K → HashWrites) → hash_of key ≡ own_hash feeds (key_of key) → AreOwn feeds self.old → AreOwn feeds self.new }
        // Refused: only without room. Key and value come back, and entries and index are unchanged; the capacity may
        // have grown.
        ensures refused { OnErr result (IsRefused self.old self.new) }
        ensures full { OnErr result (self.old.room ≡ 0) }
        ensures handed_back { IfErr result (λ refused. refused.0 ≡ (key, value)) }
    {
        prove!(self.index().is_some() || self.len() <= UNINDEXED);
        // Memory for the list and for the hash index is obtained before the entry is stored.
        if let Err(_) = self.reserve(1) {
            return Err(NoRoom((key, value)));
        }
        let index = self.entries.len();
        self.index.note(key.hash());
        self.entries.push_reserved(key, value);
        Ok(index)
    }

    // The key and the value at an index, the value for writing.
    #[inline]
    pub(crate) fn entry_mut(&mut self, index: usize) -> (&K, &mut V)
        requires { index < length self.old.entries }
        ensures* writes_back { sem 𝓛 (lends_value K.row V.row K.PartialEq self.entry index result.1) }
        ensures value { option_map pair_of (slice_get self.old.entries index) ≡ Some (result.0.now, result.1.now) }
    {
        let (key, value) = self.entries.get_unchecked_mut(index);
        (key.into_key(), value)
    }
}

// The result of an insertion, with a refused key that comes back without its hash.
fn without_hash<T, K, V>(answer: Result<T, NoRoom<(Hashed<K>, V)>>) -> Result<T, NoRoom<(K, V)>>
    ensures { result ≡ unhashed answer }
{
    match answer {
        Ok(lent) => Ok(lent),
        Err(NoRoom((key, value))) => Err(NoRoom((key.into_key(), value))),
    }
}
