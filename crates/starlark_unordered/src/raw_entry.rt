//! Raw entries: slots of a map, found by a query or by a hash and a closure.
ghost use Rattle.std.specs.Prelude.{◌≡◌, ◌+◌, ◌∷◌, true, Some, None, IfErr, IfOk, IfSome, IsPermutation, OnErr};
ghost use Rattle.std.specs.Borrow.{sem};
ghost use Rattle.std.specs.Option.{is_some, option_map};
ghost use Rattle.starlark_hash.specs.HashValue.{hash_of, key_of};
ghost use Rattle.starlark_hash.specs.Hasher.{own_hash};
ghost use Rattle.starlark_hash.specs.Search.{CanSearch, Searches};
ghost use Rattle.starlark_table.specs.Table.{item_in, table_len};
ghost use Rattle.starlark_unordered.specs.Lookup.{get};
ghost use Rattle.starlark_unordered.specs.Pairs.{pairs_of, keys_under, under_own};
ghost use Rattle.starlark_unordered.specs.Lend.{lends_placed, LendsSlot};

use crate::unordered_map::UnorderedMap;
use starlark_hash::{HashQuery, Hashed, NoRoom, Query, StarlarkHashValue};
use std::hash::Hash;
use std::mem;

/// A map whose slot has still to be chosen. Dropping this leaves the map unchanged.
pub struct RawEntryBuilderMut<'a, K: Eq + Hash, V> {
    map: &'a mut UnorderedMap<K, V>,
}

/// The chosen slot, occupied by a pair or vacant.
#[derive(Drop)]
pub enum RawEntryMut<'a, K: Eq + Hash, V> {
    /// A pair was found.
    Occupied(RawOccupiedEntryMut<'a, K, V>),
    /// No pair was found.
    Vacant(RawVacantEntryMut<'a, K, V>),
}

/// A pair of the map.
#[derive(Drop)]
pub struct RawOccupiedEntryMut<'a, K: Eq + Hash, V> {
    map: &'a mut UnorderedMap<K, V>,
    slot: usize,
    ghost there: { is_some (item_in map.now slot) ≡ true },
}

/// A map in which no pair was found. Dropping the entry leaves the map unchanged.
pub struct RawVacantEntryMut<'a, K: Eq + Hash, V> {
    map: &'a mut UnorderedMap<K, V>,
}

impl<K: Eq + Hash, V> Drop for RawEntryBuilderMut<'_, K, V> {
    // The map ends unchanged.
    fn drop(self)
        ensures { self.exit.0.now ≡ self.entry.map.now }
    {
        let RawEntryBuilderMut { map: _map } = self;
    }
}

impl<K: Eq + Hash, V> Drop for RawVacantEntryMut<'_, K, V> {
    // The map ends unchanged.
    fn drop(self)
        ensures { self.exit.0.now ≡ self.entry.map.now }
    {
        let RawVacantEntryMut { map: _map } = self;
    }
}

impl<K: Eq + Hash, V> UnorderedMap<K, V> {
    ghost use Rattle.starlark_unordered.specs.RawEntry.{HoldsMap};

    /// A builder of raw entries of the map, whose slot is chosen by a query, or by a hash and a closure.
    #[inline]
    pub fn raw_entry_mut(&mut self) -> RawEntryBuilderMut<'_, K, V>
        ensures holds { HoldsMap self.entry result.map }
    {
        RawEntryBuilderMut { map: self }
    }
}

impl<'a, K: Eq + Hash, V> RawEntryBuilderMut<'a, K, V> {
    ghost use Rattle.starlark_unordered.specs.RawEntry.{map_of_raw, slot_of_raw, HoldsMap, IsRawEntryAt, NamesSlot};

    /// The pair of the key that the query stands for, or a vacant entry if the map lacks it. The map is unchanged.
    #[inline]
    pub fn from_key<Q: HashQuery<K>>(self, query: Q) -> RawEntryMut<'a, K, V>
        ensures entry { IsRawEntryAt K.eq (Q.stands_for query) self.entry.map.now result }
        ensures names { NamesSlot (Q.stands_for query) self.entry.map (map_of_raw result) (slot_of_raw result) }
    {
        let RawEntryBuilderMut { map } = self;
        match map.slot_under(StarlarkHashValue::new(&query), query) {
            Some(slot) => RawEntryMut::Occupied(RawOccupiedEntryMut { map, slot }),
            None => RawEntryMut::Vacant(RawVacantEntryMut { map }),
        }
    }

    /// The pair of the key that the query stands for, if the supplied hash is the key's own, or otherwise a vacant entry.
    /// The map is unchanged.
    #[inline]
    pub fn from_key_hashed<Q: Query<K>>(self, key: Hashed<Q>) -> RawEntryMut<'a, K, V>
        ensures names { NamesSlot (under_own K.hash_input (hash_of key) (Q.stands_for (key_of key))) self.entry.map (map_of_raw result) (slot_of_raw result) }
    {
        let RawEntryBuilderMut { map } = self;
        match map.slot_hashed(key.hash(), key.into_key()) {
            Some(slot) => RawEntryMut::Occupied(RawOccupiedEntryMut { map, slot }),
            None => RawEntryMut::Vacant(RawVacantEntryMut { map }),
        }
    }

    /// A pair whose key's own hash this is and which `is_match` accepts. `is_match` is called only on keys of this hash, at
    /// most once on each and in no promised order, until it accepts one; a vacant entry says that it refused them all. The
    /// call requires only that `is_match` may be called on those keys, in the states that its refusals leave. The map is
    /// unchanged.
    pub fn from_hash<F: FnMut(&K) -> bool>(
        self,
        hash: StarlarkHashValue,
        is_match: F,
    ) -> RawEntryMut<'a, K, V>
        requires { CanSearch F.FnMut (keys_under K.hash_input hash self.map.now) is_match }
        ensures holds { HoldsMap self.entry.map (map_of_raw result) }
        // The slot of a key of this own hash that the closure accepts, or none if it refuses them all.
        ensures found { (last : F) × Searches F.FnMut (keys_under K.hash_input hash self.entry.map.now) is_match (slot_of_raw result) last }
    {
        let RawEntryBuilderMut { map } = self;
        match map.slot_accepted(hash, is_match) {
            Some(slot) => RawEntryMut::Occupied(RawOccupiedEntryMut { map, slot }),
            None => RawEntryMut::Vacant(RawVacantEntryMut { map }),
        }
    }
}

impl<'a, K: Eq + Hash, V> RawOccupiedEntryMut<'a, K, V> {
    ghost use Rattle.starlark_unordered.specs.RawEntry.{raw_keeps, stored_raw, with_raw_key, with_raw_value, IsInPlace};

    /// Replaces the value of the pair, and returns the old one. The other pairs are unchanged.
    #[inline]
    pub fn insert(&mut self, value: V) -> V
        ensures old { option_map (λ p. p.1) (stored_raw self.old) ≡ Some result }
        ensures new { self.new ≡ with_raw_value self.old value }
        ensures pairs { IfSome (stored_raw self.old) (λ p. IsInPlace p (p.0, value) (pairs_of self.old.map.now) (pairs_of self.new.map.now)) }
    {
        mem::replace(self.get_mut(), value)
    }

    /// Replaces the key of the pair, and returns the old one. The new key must be equal to it. The other pairs are
    /// unchanged.
    #[inline]
    pub fn insert_key(&mut self, key: K) -> K
        requires { IfSome (stored_raw self.old) (λ p. K.eq key p.0 ≡ true) }
        ensures old { option_map (λ p. p.0) (stored_raw self.old) ≡ Some result }
        ensures new { self.new ≡ with_raw_key self.old key }
        ensures pairs { IfSome (stored_raw self.old) (λ p. IsInPlace p (key, p.1) (pairs_of self.old.map.now) (pairs_of self.new.map.now)) }
    {
        let slot = self.slot;
        self.map.replace_key(slot, key)
    }

    /// The value of the pair.
    #[inline]
    pub fn get(&self) -> &V
        ensures { option_map (λ p. p.1) (stored_raw self.now) ≡ Some result.now }
    {
        self.map.value_at(self.slot)
    }

    /// The value of the pair, for writing. The map has what is left in it, and all else is unchanged.
    #[inline]
    pub fn get_mut(&mut self) -> &mut V
        ensures* writes_back { sem 𝓛 (raw_keeps K.row V.row self.entry result) }
        ensures value { option_map (λ p. p.1) (stored_raw self.old) ≡ Some result.now }
    {
        let slot = self.slot;
        self.map.value_at_mut(slot)
    }

    /// Removes the pair, and returns its value. The other pairs are unchanged, and the room comes back.
    #[inline]
    pub fn remove(self) -> V
    where
        K: Drop,
        ensures value { option_map (λ p. p.1) (stored_raw self.entry) ≡ Some result }
        ensures pairs { IfSome (stored_raw self.entry) (λ p. IsPermutation (pairs_of self.entry.map.now) (p ∷ pairs_of self.exit.0.now)) }
        ensures room { table_len self.exit.0.now + self.exit.0.now.room ≡ table_len self.entry.map.now + self.entry.map.now.room }
    {
        let slot = self.slot;
        let (_key, value) = self.map.take_out(slot);
        value
    }

    /// Removes the pair, and returns it. The other pairs are unchanged, and the room comes back.
    #[inline]
    pub fn remove_entry(self) -> (K, V)
        ensures pair { stored_raw self.entry ≡ Some result }
        ensures pairs { IsPermutation (pairs_of self.entry.map.now) (result ∷ pairs_of self.exit.0.now) }
        ensures room { table_len self.exit.0.now + self.exit.0.now.room ≡ table_len self.entry.map.now + self.entry.map.now.room }
    {
        let slot = self.slot;
        self.map.take_out(slot)
    }
}

impl<'a, K: Eq + Hash, V> RawVacantEntryMut<'a, K, V> {
    ghost use Rattle.starlark_unordered.specs.Lend.{lends_added, PutsPair};

    /// Inserts a key under its own hash, which is computed here, and lends it with its value. The map must lack the key.
    /// The map ends with one more pair, whose value is what is left behind the reference. It is refused if there is no room
    /// and no memory is found: then key and value come back, and the map is unchanged.
    pub fn insert(self, key: K, value: V) -> Result<(&'a K, &'a mut V), NoRoom<(K, V)>>
        requires { get K.eq self.map.now key ≡ None }
        ensures* writes_back { sem 𝓛 (lends_added K.row V.row K.Hash self.entry.map key result) }
        ensures pair { IfOk result (λ pair. (pair.0.now ≡ key) × (pair.1.now ≡ value)) }
        // Refused: only at room 0. Key and value come back.
        ensures full { OnErr result (self.entry.map.now.room ≡ 0) }
        ensures handed_back { IfErr result (λ refused. refused.0 ≡ (key, value)) }
    {
        lend_placed(self.place(key, value))
    }

    /// Inserts a key under a supplied hash, and lends it with its value. The map must lack the key, and the hash must be
    /// the key's own. The map ends with one more pair, whose value is what is left behind the reference. It is refused if
    /// there is no room and no memory is found: then key and value come back, and the map is unchanged.
    pub fn insert_hashed(
        self,
        key: Hashed<K>,
        value: V,
    ) -> Result<(&'a K, &'a mut V), NoRoom<(Hashed<K>, V)>>
        requires own { hash_of key ≡ own_hash K.hash_input (key_of key) }
        requires lacking { get K.eq self.map.now (key_of key) ≡ None }
        ensures* writes_back { sem 𝓛 (lends_added K.row V.row K.Hash self.entry.map (key_of key) result) }
        ensures pair { IfOk result (λ pair. (pair.0.now ≡ key_of key) × (pair.1.now ≡ value)) }
        // Refused: only at room 0. Key, hash and value come back.
        ensures full { OnErr result (self.entry.map.now.room ≡ 0) }
        ensures handed_back { IfErr result (λ refused. refused.0 ≡ (key, value)) }
    {
        lend_placed(self.place_hashed(key, value))
    }

    // Inserts a new key under its own hash, and returns the map with the slot, or with the refusal.
    fn place(self, key: K, value: V) -> (&'a mut UnorderedMap<K, V>, Result<usize, NoRoom<(K, V)>>)
        requires { get K.eq self.map.now key ≡ None }
        ensures { PutsPair self.entry.map result.0 key value (key, value) result.1 }
    {
        let RawVacantEntryMut { map } = self;
        let hash = StarlarkHashValue::new(&key);
        let placed = map.insert_new(hash, key, value);
        (map, placed)
    }

    // Inserts a new key under its own hash, which is supplied, and returns the map with the slot, or with the refusal.
    fn place_hashed(
        self,
        key: Hashed<K>,
        value: V,
    ) -> (
        &'a mut UnorderedMap<K, V>,
        Result<usize, NoRoom<(Hashed<K>, V)>>,
    )
        requires own { hash_of key ≡ own_hash K.hash_input (key_of key) }
        requires lacking { get K.eq self.map.now (key_of key) ≡ None }
        ensures { PutsPair self.entry.map result.0 (key_of key) value (key, value) result.1 }
    {
        let RawVacantEntryMut { map } = self;
        let hash = key.hash();
        let placed = match map.insert_new(hash, key.into_key(), value) {
            Ok(slot) => Ok(slot),
            Err(NoRoom((key, value))) => Err(NoRoom((Hashed::new_unchecked(hash, key), value))),
        };
        (map, placed)
    }
}

// Lends the pair in the slot, its value for writing, or passes the refusal on.
fn lend_placed<'a, K: Eq + Hash, V, E>(
    placed: (&'a mut UnorderedMap<K, V>, Result<usize, E>),
) -> Result<(&'a K, &'a mut V), E>
    requires { IfOk placed.1 (λ slot. is_some (item_in placed.0.now slot) ≡ true) }
    ensures* writes_back { sem 𝓛 (lends_placed K.row V.row K.Hash placed.entry.0 placed.entry.1 result) }
    ensures lends { LendsSlot placed.entry.0.now placed.entry.1 result }
{
    let (map, placed) = placed;
    match placed {
        Ok(slot) => Ok(map.pair_at_mut(slot)),
        Err(refused) => Err(refused),
    }
}
