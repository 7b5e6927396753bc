//! Callers that look up, and write what they find.
ghost use Rattle.std.specs.Hash as fed;
ghost use Rattle.std.specs.Option.{option_map, unwrap_or};
ghost use Rattle.std.specs.Prelude.{◌≡◌, ◌<◌, ◌≤◌, All, Contains, IfSome, OnErr, Some, is_some, length, map, nat_eq, sum, true};
ghost use Rattle.std.specs.Set.{is_member};
ghost use Rattle.std.specs.Str.{bytes_eq};
ghost use Rattle.std.specs.String.{string_bytes, string_eq};
ghost use Rattle.std.specs.declared.alloc.Global.{Global};
ghost use Rattle.std.specs.declared.string.String.{String};
ghost use Rattle.starlark_hash.specs.Entries.{entry_value};
ghost use Rattle.starlark_small.specs.Lookup.{AreOwn, contains, contains_text, get, get_key, get_text, keys};

use starlark_hash::{Hashed, TextKey};
use starlark_map::sorted_set::SortedSet;
use starlark_sets::{OrderedMap, SmallSet};
use starlark_small::SmallMap;
use std::hash::Hash;

/// The value under a key, or another.
pub fn lookup_or<K: Eq + Hash>(map: &SmallMap<K, u64>, key: &K, default: u64) -> u64
    ensures { result ≡ unwrap_or (get K.eq K.hash_input map.now key.now) default }
{
    match map.get(key) {
        Some(value) => *value,
        None => default,
    }
}

/// The stored key and its value, beside their index.
pub fn stored(entries: &SmallMap<u32, u64>, key: u32) -> Option<(usize, &u32, &u64)>
    ensures key { option_map (λ found. found.1.now) result ≡ get_key nat_eq fed.u32 entries.now key }
    ensures value { option_map (λ found. found.2.now) result ≡ get nat_eq fed.u32 entries.now key }
{
    entries.get_full(&key)
}

/// The value at a key, or 0, which is no more than all together.
pub fn part_of_total(entries: &SmallMap<u32, u64>, key: u32) -> u64
    ensures part { result ≤ sum (map entry_value entries.now.entries) }
    ensures value { result ≡ unwrap_or (get nat_eq fed.u32 entries.now key) 0 }
{
    entries.get(&key).copied().unwrap_or(0)
}

/// The value at a text.
pub fn named(map: &SmallMap<String, u64>, name: &str) -> Option<u64>
    ensures { (s : String Global) → string_bytes s ≡ name.now → result ≡ get string_eq (λ s. fed.str (string_bytes s)) map.now s }
{
    map.get(name).copied()
}

/// The values at a text in a map of strings and in one of borrowed texts. The text is hashed once.
pub fn named_in_both(
    owned: &SmallMap<String, u64>,
    borrowed: &SmallMap<&str, u64>,
    name: &str,
) -> (Option<u64>, Option<u64>)
    ensures owned { result.0 ≡ get_text owned.now name.now }
    ensures borrowed { result.1 ≡ get (λ q k. bytes_eq q k.now) fed.str borrowed.now name.now }
{
    let query = Hashed::new(name);
    (
        owned.get_hashed(query).copied(),
        borrowed.get_hashed(query).copied(),
    )
}

/// The index of a number, which is one of the keys where there is an index.
pub fn index_of_key(entries: &SmallMap<u32, u64>, key: u32) -> Option<usize>
    ensures within { IfSome result (λ index. index < length entries.now.entries) }
    ensures listed { IfSome result (λ _. Contains (keys entries.now) key) }
    ensures member { IfSome result (λ _. is_member nat_eq (keys entries.now) key ≡ true) }
{
    entries.get_index_of(&key)
}

/// Writes a value where there is one. Keys under their own hashes stay so, and the value that is there changes nothing.
pub fn overwrite<K: Eq + Hash>(entries: &mut SmallMap<K, u64>, key: &K, value: u64)
    ensures keys { keys entries.new ≡ keys entries.old }
    ensures own { AreOwn K.hash_input entries.old → AreOwn K.hash_input entries.new }
    ensures same { get K.eq K.hash_input entries.old key.now ≡ Some value → entries.new.entries ≡ entries.old.entries }
{
    if let Some(there) = entries.get_mut(key) {
        *there = value;
    }
}

/// Raises a number to 8, or leaves it where it is no less than 7.
pub fn raise(number: &mut u32) -> Result<(), ()>
    ensures unchanged { OnErr result (number.new ≡ number.old) }
{
    if *number < 7 {
        *number = 8;
        Ok(())
    } else {
        Err(())
    }
}

/// Raises the number at a text. Where the number is left, the map is as it was.
pub fn raise_named(map: &mut SmallMap<String, u32>, name: &str) -> Result<(), ()>
    ensures unchanged { OnErr result (map.new.entries ≡ map.old.entries) }
{
    match map.get_mut(name) {
        Some(value) => raise(value),
        None => Err(()),
    }
}

/// The value at a key, within a bound that each value meets.
pub fn bounded<K: Eq + Hash>(entries: &OrderedMap<K, u64>, key: &K, most: u64) -> u64
    requires { All (λ value. value ≤ most) (map entry_value entries.now.entries) }
    ensures value { result ≡ unwrap_or (get K.eq K.hash_input entries.now key.now) 0 }
    ensures within { result ≤ most }
{
    entries.get(key).copied().unwrap_or(0)
}

/// The number under a text, or 0.
pub fn lookup_text(map: &OrderedMap<String, u64>, key: &str) -> u64
    ensures { result ≡ unwrap_or (get_text map.now key.now) 0 }
{
    match map.get(key) {
        Some(value) => *value,
        None => 0,
    }
}

/// The stored element that is equal to this one.
pub fn stored_element<T: Eq + Hash + Copy>(set: &SmallSet<T>, n: &T) -> Option<T>
    ensures there { is_some result ≡ contains T.eq T.hash_input set.now n.now }
    ensures equal { IfSome result (λ m. T.eq n.now m ≡ true) }
{
    match set.get(n) {
        Some(there) => Some(*there),
        None => None,
    }
}

/// Whether a set of strings has a text, by a `TextKey`.
pub fn has_text(set: &SmallSet<String>, text: &str) -> bool
    ensures { result ≡ contains_text set.now text.now }
{
    set.contains(&TextKey(text))
}

/// Whether a sorted set has an element.
pub fn has_sorted<T: Ord + Hash>(set: &SortedSet<T>, n: &T) -> bool
    ensures { result ≡ contains T.eq T.hash_input set.now n.now }
{
    set.contains(n)
}
