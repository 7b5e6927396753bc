//! Callers that sort or turn round, and of what ascends.
ghost use Rattle.std.specs.Hash as fed;
ghost use Rattle.std.specs.Option.{unwrap_or};
ghost use Rattle.std.specs.Ordering.{nat_cmp};
ghost use Rattle.std.specs.Prelude.{◌≡◌, ◌≤◌, IfErr, IfOk, IfSome, IsSorted, OnOk, Some, is_some, length, map, nat_eq, nat_lt, reverse, slice_get, ℕ};
ghost use Rattle.starlark_small.specs.Lookup.{contains, get, keys};
ghost use Rattle.starlark_small.specs.Map.{own_match};

use starlark_map::sorted_map::SortedMap;
use starlark_sets::{OrderedMap, OrderedSet};
use starlark_small::SmallMap;
use std::alloc::AllocError;
use std::hash::Hash;

/// Sorts the keys, of which there are as many and which ascend then; each key has what it had.
pub fn sorted<K: Ord + Hash, V>(map: &mut SmallMap<K, V>) -> Result<(), AllocError>
    ensures ascend { OnOk result (IsSorted K.cmp (keys map.new)) }
    ensures same { (key : K) → get K.eq K.hash_input map.new key ≡ get K.eq K.hash_input map.old key }
    ensures count { length map.new.entries ≡ length map.old.entries }
{
    map.sort_keys()
}

/// Reverses the entries; each key has what it had.
pub fn turned<K: Eq + Hash, V>(map: &mut SmallMap<K, V>)
    ensures count { length map.new.entries ≡ length map.old.entries }
    ensures same { (key : K) → get K.eq K.hash_input map.new key ≡ get K.eq K.hash_input map.old key }
    ensures turned { map.new.entries ≡ reverse map.old.entries }
{
    map.reverse();
}

/// Sorts an ordered set, which finds what it found, and looks for an element.
pub fn sorted_in_order<T: Ord + Hash>(set: &mut OrderedSet<T>, n: &T) -> Result<bool, AllocError>
    ensures same { (other : T) → contains T.eq T.hash_input set.new other ≡ contains T.eq T.hash_input set.old other }
    ensures looked { IfOk result (λ is. is ≡ contains T.eq T.hash_input set.old n.now) }
{
    set.sort()?;
    Ok(set.contains(n))
}

/// Sorts the keys of an ordered map, and answers the index of one, or the length.
pub fn index_when_sorted(map: &mut OrderedMap<u32, u64>, key: u32) -> Result<usize, AllocError>
    ensures within { IfOk result (λ index. index ≤ length map.new.entries) }
    ensures index { IfOk result (λ index. index ≡ unwrap_or (own_match nat_eq fed.u32 map.new.entries key) (length map.new.entries)) }
    ensures ascend { OnOk result (IsSorted nat_cmp (keys map.new)) }
    ensures same { (other : ℕ) → get nat_eq fed.u32 map.new other ≡ get nat_eq fed.u32 map.old other }
{
    map.sort_keys()?;
    match map.get_index_of(&key) {
        Some(index) => Ok(index),
        None => Ok(map.len()),
    }
}

/// Sorts an ordered map, and looks for a key, or hands the map back.
pub fn look_sorted(map: OrderedMap<u32, u64>, key: u32) -> Result<Option<u64>, OrderedMap<u32, u64>>
    ensures looked { IfOk result (λ value. value ≡ get nat_eq fed.u32 map key) }
    ensures back { IfErr result (λ m. m.entries ≡ map.entries) }
{
    let sorted = SortedMap::from_ordered_map(map)?;
    Ok(sorted.get(&key).copied())
}

/// The first two keys.
pub fn first_two(map: &SortedMap<u32, u64>) -> Option<(u32, u32)>
    ensures are { is_some result ≡ nat_lt 1 (length map.now.entries) }
    ensures ascend { IfSome result (λ p. p.0 ≤ p.1) }
    ensures first { IfSome result (λ p. slice_get (keys map.now) 0 ≡ Some p.0) }
    ensures second { IfSome result (λ p. slice_get (keys map.now) 1 ≡ Some p.1) }
{
    let mut keys = map.keys();
    let a = keys.next()?;
    let b = keys.next()?;
    Some((*a, *b))
}
