//! Callers of dictionaries that walk, collect, put many in, and copy. No clause of theirs names a hash.
ghost use Rattle.std.specs.Map.{update_all};
ghost use Rattle.std.specs.Map.Iter.{deref_pair};
ghost use Rattle.std.specs.Option.{option_copied};
ghost use Rattle.std.specs.Prelude.{[], ◌≡◌, ◌≤◌, ◌<◌, ◌^◌, ◌↔◌, All, Contains, IfOk, IfSome, IsNone, IsTrue, None, OnOk, Some, false, is_some, map, nat_eq, pos, sum, true};
ghost use Rattle.starlark_dict.specs.Dict.{dict_len, get, get_by_text, insert_all, keys, values, IsUnique};
ghost use Rattle.starlark_hash.specs.Clone.{IsEqualClone};

use starlark_dict::Dict;
use starlark_hash::Hashed;
use std::alloc::{AllocError, Global};
use std::hash::Hash;

/// The pairs by reference.
pub fn lent_pairs(dict: &Dict<u32, u64>, alloc: Global) -> Result<Vec<(&u32, &u64)>, AllocError>
    ensures { IfOk result (λ pairs. map deref_pair pairs.items ≡ dict.now.entries) }
{
    dict.iter().collect(alloc)
}

/// The keys by value.
pub fn owned_keys<K: Eq + Hash + Drop, V: Drop>(
    dict: Dict<K, V>,
    alloc: Global,
) -> Result<Vec<K>, AllocError>
    ensures { IfOk result (λ all. all.items ≡ keys dict) }
{
    dict.into_keys().collect(alloc)
}

/// The pairs by value.
pub fn owned_pairs<K: Eq + Hash + Drop, V: Drop>(
    dict: Dict<K, V>,
    alloc: Global,
) -> Result<Vec<(K, V)>, AllocError>
    ensures { IfOk result (λ all. all.items ≡ dict.entries) }
{
    dict.into_iter().collect(alloc)
}

/// How many keys are shown, of which no two are equal.
pub fn distinct_keys<K: Eq + Hash, V>(dict: &Dict<K, V>) -> i64
    ensures count { result ≡ pos (dict_len dict.now) }
    ensures distinct { IsUnique K.eq dict.now }
{
    dict.keys().len() as i64
}

/// The sum of the values, by the pairs.
pub fn total_by_pairs(dict: &Dict<u32, u32>) -> u64
    requires { dict_len dict.now < 2 ^ 32 }
    ensures { result ≡ sum (values dict.now) }
{
    dict.iter().map(|(_key, value)| *value as u64).sum()
}

/// Whether all values are below a hundred.
pub fn all_below<K: Eq + Hash>(dict: &Dict<K, u64>) -> bool
    ensures { IsTrue result ↔ All (λ value. value < 100) (values dict.now) }
{
    dict.values().all(|value| *value < 100)
}

/// The greatest value.
pub fn greatest<K: Eq + Hash>(dict: &Dict<K, u64>) -> Option<u64>
    ensures there { IfSome result (λ most. Contains (values dict.now) most) }
    ensures none { IsNone result → values dict.now ≡ [] }
{
    dict.values().copied().max()
}

/// Whether some key has the value, by a loop.
pub fn has_value(dict: &Dict<u32, u64>, sought: u64) -> bool
    ensures { IsTrue result → Contains (values dict.now) sought }
{
    for (_key, value) in dict {
        if *value == sought {
            return true;
        }
    }
    false
}

/// Writes 0 to each value along a walk of the pairs: the keys stay.
pub fn zeroed<K: Eq + Hash>(dict: &mut Dict<K, u64>)
    ensures keys { keys dict.new ≡ keys dict.old }
    ensures count { dict_len dict.new ≡ dict_len dict.old }
    ensures there { (key : K) → is_some (get K.eq dict.new key) ≡ is_some (get K.eq dict.old key) }
{
    for (_key, value) in dict.iter_mut() {
        *value = 0;
    }
}

/// Writes 0 to each value, and answers how many there are.
pub fn zeroed_values(dict: &mut Dict<String, u64>) -> usize
    ensures keys { keys dict.new ≡ keys dict.old }
    ensures count { result ≡ dict_len dict.old }
{
    for value in dict.values_mut() {
        *value = 0;
    }
    dict.len()
}

/// A dictionary of the pairs of a vector, inserted in turn.
pub fn of_vec<K: Eq + Hash + Drop, V: Drop>(
    alloc: Global,
    items: Vec<(K, V)>,
) -> Result<Dict<K, V>, AllocError>
    ensures all { IfOk result (λ d. d.entries ≡ insert_all K.eq [] items.items) }
{
    Dict::from_iter(alloc, items)
}

/// A dictionary of two pairs, by `collect`.
pub fn two(alloc: Global, a: (u32, u64), b: (u32, u64)) -> Result<Dict<u32, u64>, AllocError>
    requires { nat_eq a.0 b.0 ≡ false }
    ensures first { IfOk result (λ d. get nat_eq d a.0 ≡ Some a.1) }
    ensures second { IfOk result (λ d. get nat_eq d b.0 ≡ Some b.1) }
{
    [a, b].into_iter().collect(alloc)
}

/// Puts the pairs of a vector in. What was there stays, also where that is refused.
pub fn add_vec<K: Eq + Hash + Drop, V: Drop>(
    dict: &mut Dict<K, V>,
    items: Vec<(K, V)>,
) -> Result<(), AllocError>
    ensures stays { (key : K) → is_some (get K.eq dict.old key) ≡ true → is_some (get K.eq dict.new key) ≡ true }
    ensures longer { dict_len dict.old ≤ dict_len dict.new }
    ensures each { OnOk result ((key : K) → get K.eq dict.new key ≡ update_all K.eq (get K.eq dict.old) items.items key) }
{
    dict.extend(items)
}

/// A copy, which has equal keys.
pub fn copied<K: Eq + Hash + Clone, V: Clone>(dict: &Dict<K, V>) -> Result<Dict<K, V>, AllocError>
    requires { IsEqualClone K.eq K.is_clone }
    ensures { IfOk result (λ copy. (key : K) → is_some (get K.eq copy key) ≡ is_some (get K.eq dict.now key)) }
{
    dict.clone()
}

/// A copy of numbers, which has what the dictionary has.
pub fn copied_numbers(dict: &Dict<u32, u64>) -> Result<Dict<u32, u64>, AllocError>
    ensures { IfOk result (λ copy. copy.entries ≡ dict.now.entries) }
{
    dict.clone()
}

/// What two dictionaries have at a key, whose hash is computed once.
pub fn in_both<'a>(
    d: &'a Dict<String, u64>,
    e: &'a Dict<String, u64>,
    name: &str,
) -> (Option<&'a u64>, bool)
    ensures first { option_copied result.0 ≡ get_by_text d.now name.now }
    ensures second { result.1 ≡ is_some (get_by_text e.now name.now) }
{
    let key = Hashed::new(name);
    (d.get_hashed(key), e.contains_key_hashed(key))
}

/// Forgets a key in two dictionaries. Its hash is computed once.
pub fn forget_in_both<K: Eq + Hash + Drop, V: Drop>(d: &mut Dict<K, V>, e: &mut Dict<K, V>, key: &K)
    ensures first { get K.eq d.new key.now ≡ None }
    ensures second { get K.eq e.new key.now ≡ None }
    ensures others { (other : K) → K.eq key.now other ≡ false → get K.eq d.new other ≡ get K.eq d.old other }
{
    let key = Hashed::new(key);
    d.shift_remove_hashed(key);
    e.shift_remove_hashed(key);
}

/// Puts a number at a name that is there, found by a hash that was computed before.
pub fn write_hashed(d: &mut Dict<String, u64>, name: &str, value: u64) -> bool
    ensures here { IsTrue result → get_by_text d.new name.now ≡ Some value }
    ensures there { result ≡ is_some (get_by_text d.old name.now) }
{
    match d.get_mut_hashed(Hashed::new(name)) {
        Some(there) => {
            *there = value;
            true
        }
        None => false,
    }
}
