//! Callers that look the entry of a `SmallMap` up under a key, which it may have or lack, and let it go.
ghost use Rattle.std.specs.Prelude.{◌≡◌, ◌↔◌, is_some, Some, None, IfErr, IfOk, IsSome, IsTrue, OnErr, OnOk};
ghost use Rattle.starlark_hash.specs.HashValue.{hash_of, key_of};
ghost use Rattle.starlark_hash.specs.Lookup.{found};
ghost use Rattle.starlark_callers.specs.Lend.{with_value_under};
ghost use Rattle.starlark_small.specs.Insert.{IsInserted, IsRefused};
ghost use Rattle.starlark_small.specs.Lookup.{get};

use crate::lent::put::put;
use starlark_hash::{Hashed, NoRoom};
use starlark_small::{Entry, SmallMap};
use std::hash::Hash;

/// Whether a map has this key under this hash. The entry is let go whole, and the map stays.
pub fn is_there<K: Eq + Drop, V>(map: &mut SmallMap<K, V>, key: Hashed<K>) -> bool
    ensures there { result ≡ is_some (found (K.eq (key_of key)) (hash_of key) map.old.entries) }
    ensures unchanged { map.new ≡ map.old }
{
    let entry = map.entry_hashed(key);
    match &entry {
        Entry::Occupied(_) => true,
        Entry::Vacant(_) => false,
    }
}

/// The value that a map has under a key's own hash. The entry is matched and let go in each arm, and the map stays.
pub fn look_up<K: Eq + Hash + Drop, V: Copy>(map: &mut SmallMap<K, V>, key: K) -> Option<V>
    ensures value { result ≡ get K.eq K.hash_input map.old key }
    ensures unchanged { map.new ≡ map.old }
{
    match map.entry(key) {
        Entry::Occupied(there) => Some(*there.get()),
        Entry::Vacant(_lacking) => None,
    }
}

/// Puts the value that a map has under this hash and key, by a closure that `Entry::and_modify` calls there. The entry
/// is let go whole; where the map has none, it stays.
#[tactic(auto, using(starlark_small::proofs::CallerLookup::look_ups))]
pub fn change_if_there<K: Eq + Drop, V: Drop>(map: &mut SmallMap<K, V>, key: Hashed<K>, value: V)
    ensures { map.new ≡ with_value_under K.eq map.old key value }
{
    let _entry = map.entry_hashed(key).and_modify(
        |slot: &mut V|
            ensures { slot.new ≡ value }
        { *slot = value },
    );
}

/// Inserts a key that a map lacks under this hash, by `VacantEntry::insert`, and says whether it was lacking. Where the
/// map has it, the value is dropped and the map stays. Where the new entry is refused, it comes back.
pub fn insert_if_lacking<K: Eq + Drop, V: Drop>(
    map: &mut SmallMap<K, V>,
    key: Hashed<K>,
    value: V,
) -> Result<bool, NoRoom<(Hashed<K>, V)>>
    ensures lacking { IfOk result (λ new. IsTrue new ↔ (found (K.eq (key_of key)) (hash_of key) map.old.entries ≡ None)) }
    ensures inserted { found (K.eq (key_of key)) (hash_of key) map.old.entries ≡ None → OnOk result (IsInserted map.old map.new key value) }
    ensures unchanged { IsSome (found (K.eq (key_of key)) (hash_of key) map.old.entries) → map.new ≡ map.old }
    ensures absent { OnErr result (found (K.eq (key_of key)) (hash_of key) map.old.entries ≡ None) }
    ensures full { OnErr result (map.old.room ≡ 0) }
    ensures refused { OnErr result (IsRefused map.old map.new) }
    ensures handed_back { IfErr result (λ back. back.0 ≡ (key, value)) }
{
    match map.entry_hashed(key) {
        Entry::Occupied(_there) => Ok(false),
        Entry::Vacant(lacking) => match lacking.insert(value) {
            Ok(_slot) => Ok(true),
            Err(refused) => Err(refused),
        },
    }
}

/// Puts the value under this hash and key through what `Entry::or_insert_with` lends, and gives the one that was there;
/// where the map has none, a new entry is made with what the closure gives, and that is what is replaced and given.
/// Where the new entry is refused, all comes back.
pub fn or_insert_then_put<K: Eq + Drop, V: Drop>(
    map: &mut SmallMap<K, V>,
    key: Hashed<K>,
    value: V,
    next: V,
) -> Result<V, (NoRoom<(Hashed<K>, V)>, V)>
    ensures taken { IfOk result (λ was. IsSome (found (K.eq (key_of key)) (hash_of key) map.old.entries) → found (K.eq (key_of key)) (hash_of key) map.old.entries ≡ Some was) }
    ensures written { IsSome (found (K.eq (key_of key)) (hash_of key) map.old.entries) → map.new ≡ with_value_under K.eq map.old key next }
    ensures begun { IfOk result (λ was. found (K.eq (key_of key)) (hash_of key) map.old.entries ≡ None → was ≡ value) }
    ensures inserted { found (K.eq (key_of key)) (hash_of key) map.old.entries ≡ None → OnOk result (IsInserted map.old map.new key next) }
    ensures absent { OnErr result (found (K.eq (key_of key)) (hash_of key) map.old.entries ≡ None) }
    ensures full { OnErr result (map.old.room ≡ 0) }
    ensures refused { OnErr result (IsRefused map.old map.new) }
    ensures handed_back { IfErr result (λ back. back.0.0 ≡ (key, value)) }
    ensures left { IfErr result (λ back. back.1 ≡ next) }
{
    let slot = map.entry_hashed(key).or_insert_with(
        ||
            ensures { result ≡ value }
        { value },
    );
    match slot {
        Ok(slot) => Ok(put(slot, next)),
        Err(refused) => Err((refused, next)),
    }
}
