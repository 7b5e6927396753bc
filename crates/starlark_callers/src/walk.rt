//! Callers that walk.
ghost use Rattle.std.specs.Hash as fed;
ghost use Rattle.std.specs.Prelude.{[], ◌+◌, ◌<◌, ◌^◌, ◌↔◌, ◌≡◌, ◌≤◌, All, AllPairs, Contains, IfOk, IfSome, IsNone, IsTrue, None, OnOk, count_by, false, length, map, nat_eq, pos, sum};
ghost use Rattle.std.specs.String.{string_bytes, string_eq};
ghost use Rattle.std.specs.declared.alloc.Global.{Global};
ghost use Rattle.std.specs.declared.string.String.{String};
ghost use Rattle.starlark_hash.specs.Entries.{entry_key, entry_value, pair_of};
ghost use Rattle.starlark_small.specs.Lookup.{AreOwn, contains, get, keys};

use starlark_hash::{Hashed, NoRoom};
use starlark_sets::SmallSet;
use starlark_small::SmallMap;
use std::alloc::{AllocError, Global};
use std::hash::Hash;

/// The pairs by reference.
pub fn lent_pairs(
    entries: &SmallMap<u32, u64>,
    alloc: Global,
) -> Result<Vec<(&u32, &u64)>, AllocError>
    ensures { IfOk result (λ pairs. map (λ p. (p.0.now, p.1.now)) pairs.items ≡ map pair_of entries.now.entries) }
{
    entries.iter().collect(alloc)
}

/// The keys by value.
pub fn owned_keys<K: Eq + Drop, V: Drop>(
    entries: SmallMap<K, V>,
    alloc: Global,
) -> Result<Vec<K>, AllocError>
    ensures { IfOk result (λ all. all.items ≡ keys entries) }
{
    entries.into_keys().collect(alloc)
}

/// How many keys are shown, of which no two are equal.
pub fn distinct_keys<K: Eq + Hash, V>(entries: &SmallMap<K, V>) -> i64
    requires { AreOwn K.hash_input entries.now }
    ensures count { result ≡ pos (length entries.now.entries) }
    ensures distinct { AllPairs (λ d e. K.eq (entry_key d) (entry_key e) ≡ false) entries.now.entries }
{
    entries.keys().len() as i64
}

/// The sum of the values, by the pairs.
pub fn total_by_pairs(entries: &SmallMap<u32, u32>) -> u64
    requires { length entries.now.entries < 2 ^ 32 }
    ensures { result ≡ sum (map entry_value entries.now.entries) }
{
    entries.iter().map(|(_key, value)| *value as u64).sum()
}

/// Whether each value that is found is below a hundred.
pub fn all_below<K: Eq + Hash>(entries: &SmallMap<K, u64>) -> bool
    requires { AreOwn K.hash_input entries.now }
    ensures { IsTrue result ↔ ((key : K) → IfSome (get K.eq K.hash_input entries.now key) (λ value. value < 100)) }
{
    entries.values().all(|value| *value < 100)
}

/// Where all values are below a hundred, each that is found is, under whatever hash keys stand.
pub fn below_if_all<K: Eq + Hash>(entries: &SmallMap<K, u64>) -> bool
    ensures all { IsTrue result ↔ All (λ value. value < 100) (map entry_value entries.now.entries) }
    ensures found { IsTrue result → (key : K) → IfSome (get K.eq K.hash_input entries.now key) (λ value. value < 100) }
{
    entries.values().all(|value| *value < 100)
}

/// The greatest value, which none that is found exceeds.
pub fn greatest_found<K: Eq + Hash>(entries: &SmallMap<K, u64>) -> Option<u64>
    ensures there { IfSome result (λ most. Contains (map entry_value entries.now.entries) most) }
    ensures none { IsNone result → map entry_value entries.now.entries ≡ [] }
    ensures found { IfSome result (λ most. (key : K) → IfSome (get K.eq K.hash_input entries.now key) (λ value. value ≤ most)) }
{
    entries.values().copied().max()
}

/// Counts a key: all counts together are one more.
pub fn counted<K: Eq + Hash + Drop>(
    counts: &mut SmallMap<K, u32>,
    key: K,
) -> Result<(), NoRoom<(Hashed<K>, u32)>>
    requires { sum (map entry_value counts.old.entries) < 1000 }
    ensures { OnOk result (sum (map entry_value counts.new.entries) ≡ sum (map entry_value counts.old.entries) + 1) }
{
    *counts.entry(key).or_insert(0)? += 1;
    Ok(())
}

/// Puts a value under a new number: it adds to all together.
pub fn paid(sums: &mut SmallMap<u32, u64>, key: u32, value: u64) -> Result<(), NoRoom<(u32, u64)>>
    requires { get nat_eq fed.u32 sums.old key ≡ None }
    ensures { OnOk result (sum (map entry_value sums.new.entries) ≡ sum (map entry_value sums.old.entries) + value) }
{
    sums.insert(key, value)?;
    Ok(())
}

/// Writes 0 to each value along a walk of the pairs: the keys stay.
pub fn zeroed<K: Eq + Hash>(map: &mut SmallMap<K, u64>)
    ensures keys { keys map.new ≡ keys map.old }
    ensures count { length map.new.entries ≡ length map.old.entries }
    ensures there { (key : K) → contains K.eq K.hash_input map.new key ≡ contains K.eq K.hash_input map.old key }
    ensures own { AreOwn K.hash_input map.old → AreOwn K.hash_input map.new }
{
    for (_key, value) in map.iter_mut() {
        *value = 0;
    }
}

/// Writes 0 to each value of a map of strings, and answers how many there are.
pub fn zeroed_named(map: &mut SmallMap<String, u64>) -> usize
    ensures keys { keys map.new ≡ keys map.old }
    ensures count { result ≡ length map.old.entries }
    ensures there { (name : String Global) → contains string_eq (λ s. fed.str (string_bytes s)) map.new name ≡ contains string_eq (λ s. fed.str (string_bytes s)) map.old name }
{
    for (_name, value) in &mut *map {
        *value = 0;
    }
    map.len()
}

/// How many elements two sets share.
pub fn shared(set: &SmallSet<u32>, other: &SmallSet<u32>) -> usize
    ensures each { result ≡ count_by (contains nat_eq fed.u32 other.now) (keys set.now) }
    ensures within { result ≤ length set.now.entries }
{
    set.iter().filter(|n| other.contains(*n)).count()
}
