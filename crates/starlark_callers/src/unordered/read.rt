//! Callers that look up in unordered maps and sets, walk them, or compare.
ghost use Rattle.std.specs.Map.{values_of};
ghost use Rattle.std.specs.Option.{unwrap_or};
ghost use Rattle.std.specs.Prelude.{◌<◌, ◌^◌, ◌↔◌, ◌≡◌, ◌≤◌, All, IfNone, IfOk, IfSome, IsNone, IsPermutation, IsSortedByKey, IsTrue, None, Some, is_some, map, sum, true};
ghost use Rattle.starlark_hash.specs.HashValue.{hash_of, key_of};
ghost use Rattle.starlark_hash.specs.Hasher.{own_hash};
ghost use Rattle.starlark_unordered.specs.Bag.{same_bag};
ghost use Rattle.starlark_unordered.specs.Lookup.{contains, get, get_text};
ghost use Rattle.starlark_unordered.specs.Pairs.{pair_eq, pairs_of};
ghost use Rattle.starlark_hash.specs.Unit.{same_unit};

use starlark_hash::Hashed;
use starlark_unordered::{UnorderedMap, UnorderedSet};
use std::alloc::AllocError;
use std::hash::Hash;

/// The value at a key, or another.
pub fn lookup_or<K: Eq + Hash>(map: &UnorderedMap<K, u64>, key: &K, default: u64) -> u64
    ensures { result ≡ unwrap_or (get K.eq map.now key.now) default }
{
    match map.get(key) {
        Some(value) => *value,
        None => default,
    }
}

/// A value of a map whose values are at most 100, or 0.
pub fn score_of<K: Eq + Hash>(scores: &UnorderedMap<K, u64>, key: &K) -> u64
    requires { All (λ score. score ≤ 100) (values_of (pairs_of scores.now)) }
    ensures { result ≤ 100 }
{
    scores.get(key).copied().unwrap_or(0)
}

/// The value of a key that is there.
pub fn value_of<'a, K: Eq + Hash, V>(map: &'a UnorderedMap<K, V>, key: &K) -> &'a V
    requires { contains K.eq map.now key.now ≡ true }
    ensures { get K.eq map.now key.now ≡ Some result.now }
{
    &map[key]
}

/// The number of a text that is there.
pub fn number_of(numbers: &UnorderedMap<String, u64>, text: &str) -> u64
    requires { is_some (get_text numbers.now text.now) ≡ true }
    ensures { get_text numbers.now text.now ≡ Some result }
{
    numbers[text]
}

/// Whether a set of strings has a text.
pub fn has_text(texts: &UnorderedSet<String>, text: &str) -> bool
    ensures { result ≡ is_some (get_text texts.now text.now) }
{
    texts.contains(text)
}

/// What is found under whatever hash is the key's value.
pub fn value_under<K: Eq + Hash>(map: &UnorderedMap<K, u64>, key: Hashed<&K>) -> Option<u64>
    ensures under { IfSome result (λ value. get K.eq map.now (key_of key.entry).now ≡ Some value) }
    ensures own { hash_of key.entry ≡ own_hash K.hash_input (key_of key.entry).now → result ≡ get K.eq map.now (key_of key.entry).now }
{
    map.get_hashed(key).copied()
}

/// Whether each value that is found is below a hundred.
pub fn all_below<K: Eq + Hash>(map: &UnorderedMap<K, u64>) -> bool
    ensures { IsTrue result ↔ ((key : K) → IfSome (get K.eq map.now key) (λ value. value < 100)) }
{
    map.values_unordered().all(|value| *value < 100)
}

/// The greatest value, which none that is found exceeds.
pub fn greatest_found<K: Eq + Hash>(map: &UnorderedMap<K, u64>) -> Option<u64>
    ensures there { IfSome result (λ most. (key : K) × (get K.eq map.now key ≡ Some most)) }
    ensures none { IfNone result ((key : K) → get K.eq map.now key ≡ None) }
    ensures found { IfSome result (λ most. (key : K) → IfSome (get K.eq map.now key) (λ value. value ≤ most)) }
{
    map.values_unordered().copied().max()
}

/// The sum of the values, or none where it fits no `u64`.
pub fn checked_total(map: &UnorderedMap<u32, u64>) -> Option<u64>
    ensures total { IfSome result (λ total. total ≡ sum (values_of (pairs_of map.now))) }
    ensures beyond { IsNone result → 2 ^ 64 ≤ sum (values_of (pairs_of map.now)) }
{
    map.values_unordered()
        .try_fold(0u64, |total, value| total.checked_add(*value))
}

/// The pairs by reference, each once, in the order of their keys.
pub fn ascending<K: Ord + Hash, V>(
    entries: &UnorderedMap<K, V>,
) -> Result<Vec<(&K, &V)>, AllocError>
    ensures ascend { IfOk result (λ pairs. IsSortedByKey (λ p. p.0.now) K.cmp pairs.items) }
    ensures each { IfOk result (λ pairs. IsPermutation (pairs_of entries.now) (map (λ p. (p.0.now, p.1.now)) pairs.items)) }
{
    entries.entries_sorted()
}

/// Whether two sets have equal elements: if so, each finds what the other does.
pub fn same_set<T: Eq + Hash>(set: &UnorderedSet<T>, other: &UnorderedSet<T>) -> bool
    ensures each { result ≡ same_bag (pair_eq T.eq same_unit) (pairs_of set.now) (pairs_of other.now) }
    ensures found { result ≡ true → (element : T) → contains T.eq set.now element ≡ contains T.eq other.now element }
{
    *set == *other
}
