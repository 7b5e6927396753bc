//! Callers of the new entries that a `SmallMap` lends.
ghost use Rattle.std.specs.Prelude.{◌≡◌, None, IfOk, IfErr, OnOk, OnErr};
ghost use Rattle.std.specs.Borrow.{sem};
ghost use Rattle.starlark_hash.specs.HashValue.{hash_of, key_of};
ghost use Rattle.starlark_hash.specs.Lookup.{found};
ghost use Rattle.starlark_small.specs.Insert.{IsInserted, IsRefused};
ghost use Rattle.starlark_small.specs.Lend.{lends_new};
ghost use Rattle.starlark_small.specs.Lookup.{get};
ghost use Rattle.starlark_small.specs.Map.{own_hashed};

use crate::lent::put::put;
use starlark_hash::{Hashed, NoRoom};
use starlark_small::SmallMap;
use std::hash::Hash;

/// Inserts a key that is new under this hash by `SmallMap::insert_hashed_unique_unchecked`, and hands on the reference
/// to its value alone: the map ends with what is left behind it. Where the entry is refused, it comes back.
pub fn lend_new_value<K: Eq, V>(
    map: &mut SmallMap<K, V>,
    key: Hashed<K>,
    value: V,
) -> Result<&mut V, NoRoom<(Hashed<K>, V)>>
    requires { found (K.eq (key_of key)) (hash_of key) map.old.entries ≡ None }
    ensures* writes_back { sem 𝓛 (lends_new K.row V.row K.PartialEq map.entry key result) }
    ensures value { IfOk result (λ lent. lent.now ≡ value) }
    ensures full { OnErr result (map.old.room ≡ 0) }
    ensures handed_back { IfErr result (λ back. back.0 ≡ (key, value)) }
{
    match map.insert_hashed_unique_unchecked(key, value) {
        Ok(entry) => Ok(entry.1),
        Err(refused) => Err(refused),
    }
}

/// Inserts a key that is new under its own hash by `SmallMap::insert_unique_unchecked`, and hands on the reference to its
/// value alone: the map ends with what is left behind it. Where the entry is refused, it comes back.
pub fn lend_own_new_value<K: Eq + Hash, V>(
    map: &mut SmallMap<K, V>,
    key: K,
    value: V,
) -> Result<&mut V, NoRoom<(K, V)>>
    requires { get K.eq K.hash_input map.old key ≡ None }
    ensures* writes_back { sem 𝓛 (lends_new K.row V.row K.PartialEq map.entry (own_hashed K.hash_input key) result) }
    ensures value { IfOk result (λ lent. lent.now ≡ value) }
    ensures full { OnErr result (map.old.room ≡ 0) }
    ensures handed_back { IfErr result (λ back. back.0 ≡ (key, value)) }
{
    match map.insert_unique_unchecked(key, value) {
        Ok(entry) => Ok(entry.1),
        Err(refused) => Err(refused),
    }
}

/// Inserts a key that is new under this hash with one value, puts another in its place, and gives the first. Where the
/// entry is refused, both values and the key come back.
pub fn insert_then_put<K: Eq, V>(
    map: &mut SmallMap<K, V>,
    key: Hashed<K>,
    value: V,
    next: V,
) -> Result<V, (NoRoom<(Hashed<K>, V)>, V)>
    requires { found (K.eq (key_of key)) (hash_of key) map.old.entries ≡ None }
    ensures taken { IfOk result (λ was. was ≡ value) }
    ensures inserted { OnOk result (IsInserted map.old map.new key next) }
    ensures full { OnErr result (map.old.room ≡ 0) }
    ensures refused { OnErr result (IsRefused map.old map.new) }
    ensures handed_back { IfErr result (λ back. back.0.0 ≡ (key, value)) }
    ensures left { IfErr result (λ back. back.1 ≡ next) }
{
    match lend_new_value(map, key, value) {
        Ok(slot) => Ok(put(slot, next)),
        Err(refused) => Err((refused, next)),
    }
}

/// Inserts a key that is new under its own hash with one value, puts another in its place, and gives the first. Where the
/// entry is refused, both values and the key come back.
pub fn insert_own_then_put<K: Eq + Hash, V>(
    map: &mut SmallMap<K, V>,
    key: K,
    value: V,
    next: V,
) -> Result<V, (NoRoom<(K, V)>, V)>
    requires { get K.eq K.hash_input map.old key ≡ None }
    ensures taken { IfOk result (λ was. was ≡ value) }
    ensures inserted { OnOk result (IsInserted map.old map.new (own_hashed K.hash_input key) next) }
    ensures full { OnErr result (map.old.room ≡ 0) }
    ensures refused { OnErr result (IsRefused map.old map.new) }
    ensures handed_back { IfErr result (λ back. back.0.0 ≡ (key, value)) }
    ensures left { IfErr result (λ back. back.1 ≡ next) }
{
    match lend_own_new_value(map, key, value) {
        Ok(slot) => Ok(put(slot, next)),
        Err(refused) => Err((refused, next)),
    }
}
