//! Callers that sort, reverse, retain and compare dictionaries. No clause of theirs names a hash.
ghost use Rattle.std.specs.HashMap.{hash_map_eq};
ghost use Rattle.std.specs.Option.{option_map};
ghost use Rattle.std.specs.Prelude.{[], ◌/◌, ◌∷◌, ◌≡◌, ◌≤◌, IfOk, IsSorted, OnOk, Some, filter, is_some, nat_eq, nat_lt, reverse, true, ℕ};
ghost use Rattle.starlark_dict.specs.Compare.{same_ordered};
ghost use Rattle.starlark_dict.specs.Dict.{dict_len, get, keys};
ghost use Rattle.starlark_dict.specs.Retain.{with_each_value};

use starlark_dict::{Dict, dict};
use std::alloc::{AllocError, Global};
use std::hash::Hash;

/// Sorts the keys, which ascend then; each key has what it had.
pub fn sorted<K: Ord + Hash, V>(dict: &mut Dict<K, V>) -> Result<(), AllocError>
    ensures ascend { OnOk result (IsSorted K.cmp (keys dict.new)) }
    ensures same { (key : K) → get K.eq dict.new key ≡ get K.eq dict.old key }
    ensures count { dict_len dict.new ≡ dict_len dict.old }
{
    dict.sort_keys()
}

/// Reverses the entries; each key has what it had.
pub fn turned<K: Eq + Hash, V>(dict: &mut Dict<K, V>)
    ensures turned { dict.new.entries ≡ reverse dict.old.entries }
    ensures same { (key : K) → get K.eq dict.new key ≡ get K.eq dict.old key }
{
    dict.reverse();
}

/// Keeps the values above a bound.
pub fn keep_above<K: Eq + Hash + Drop>(dict: &mut Dict<K, u64>, least: u64)
    ensures kept { dict.new.entries ≡ filter (λ p. nat_lt least p.1) dict.old.entries }
    ensures fewer { dict_len dict.new ≤ dict_len dict.old }
    ensures no_new { (key : K) → is_some (get K.eq dict.new key) ≡ true → is_some (get K.eq dict.old key) ≡ true }
    ensures found { (key : K) (value : ℕ) → get K.eq dict.new key ≡ Some value → get K.eq dict.old key ≡ Some value }
{
    dict.retain(|_key, value| *value > least);
}

/// Halves each value.
pub fn halve(counts: &mut Dict<u32, u64>)
    ensures written { counts.new.entries ≡ with_each_value (λ p. p.1 / 2) counts.old.entries }
    ensures found { (key : ℕ) → get nat_eq counts.new key ≡ option_map (λ n. n / 2) (get nat_eq counts.old key) }
    ensures there { (key : ℕ) → is_some (get nat_eq counts.new key) ≡ is_some (get nat_eq counts.old key) }
{
    counts.retain(|_key, count| {
        *count /= 2;
        true
    });
}

/// Clears each of the dictionaries that are values.
pub fn clear_each(dict: &mut Dict<u32, Dict<u32, u64>>)
    ensures keys { keys dict.new ≡ keys dict.old }
    ensures there { (key : ℕ) → is_some (get nat_eq dict.new key) ≡ is_some (get nat_eq dict.old key) }
{
    dict.retain(|_key, inner| {
        inner.clear();
        true
    });
}

/// Whether both have the same keys and values, in whatever order.
pub fn same<K: Eq + Hash, V: Eq>(dict: &Dict<K, V>, other: &Dict<K, V>) -> bool
    ensures { result ≡ hash_map_eq K.eq V.eq dict.now other.now }
{
    *dict == *other
}

/// Whether both have the same keys and values in the same order: if so, they are of one length.
pub fn same_in_order(dict: &Dict<u32, u64>, other: &Dict<u32, u64>) -> bool
    ensures each { result ≡ same_ordered nat_eq nat_eq dict.now.entries other.now.entries }
    ensures count { result ≡ true → dict_len dict.now ≡ dict_len other.now }
{
    dict.eq_ordered(other)
}

/// A dictionary that is written out, one key twice.
pub fn written_out(alloc: Global) -> Result<Dict<u32, u64>, AllocError>
    ensures all { IfOk result (λ d. d.entries ≡ (1, 30) ∷ (4, 20) ∷ []) }
    ensures one { IfOk result (λ d. get nat_eq d 1 ≡ Some 30) }
{
    dict![alloc; 1u32 => 10u64, 4 => 20, 1 => 30]
}
