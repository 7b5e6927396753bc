//! Callers that change unordered maps and sets.
ghost use Rattle.std.specs.Map.{values_of};
ghost use Rattle.std.specs.Option.{unwrap_or};
ghost use Rattle.std.specs.Prelude.{◌+◌, ◌-◌, ◌<◌, ◌^◌, ◌≡◌, IfOk, IfSome, IsOk, None, OnErr, OnOk, Some, false, if◌then◌else◌, is_some, length, min, nat_eq, not, sum, true, ℕ};
ghost use Rattle.starlark_unordered.specs.Lookup.{contains, get, get_text};
ghost use Rattle.starlark_unordered.specs.Pairs.{pairs_of};

use starlark_hash::NoRoom;
use starlark_unordered::entry::Entry;
use starlark_unordered::{UnorderedMap, UnorderedSet};
use std::alloc::{AllocError, Global};
use std::hash::Hash;

/// Puts a value at a key.
pub fn record<K: Eq + Hash + Drop, V: Drop>(
    map: &mut UnorderedMap<K, V>,
    key: K,
    value: V,
) -> Result<(), NoRoom<(K, V)>>
    ensures here { OnOk result (get K.eq map.new key ≡ Some value) }
    ensures others { OnOk result ((other : K) → K.eq key other ≡ false → get K.eq map.new other ≡ get K.eq map.old other) }
    ensures length { OnOk result (length (pairs_of map.new) ≡ length (pairs_of map.old) + (if contains K.eq map.old key then 0 else 1)) }
    ensures unchanged { OnErr result ((other : K) → get K.eq map.new other ≡ get K.eq map.old other) }
{
    map.insert(key, value)?;
    Ok(())
}

/// Puts a value in where there is room, which is not refused.
pub fn put_fitting<K: Eq + Hash + Drop, V: Drop>(
    map: &mut UnorderedMap<K, V>,
    key: K,
    value: V,
) -> Result<(), NoRoom<(K, V)>>
    requires { 0 < map.old.room }
    ensures succeeds { IsOk result }
    ensures here { get K.eq map.new key ≡ Some value }
{
    map.insert(key, value)?;
    Ok(())
}

/// Counts a key that is there.
pub fn bump(map: &mut UnorderedMap<u32, u64>, key: u32) -> Option<()>
    requires { IfSome (get nat_eq map.old key) (λ n. n + 1 < 2 ^ 64) }
    ensures was { is_some result ≡ contains nat_eq map.old key }
    ensures here { IfSome (get nat_eq map.old key) (λ n. get nat_eq map.new key ≡ Some (n + 1)) }
    ensures others { (other : ℕ) → nat_eq key other ≡ false → get nat_eq map.new other ≡ get nat_eq map.old other }
{
    *map.get_mut(&key)? += 1;
    Some(())
}

/// Counts a text. The string is made only where it is not there.
pub fn count_text(
    alloc: Global,
    map: &mut UnorderedMap<String, u64>,
    text: &str,
) -> Result<(), AllocError>
    ensures here { OnOk result (get_text map.new text.now ≡ Some (min (unwrap_or (get_text map.old text.now) 0 + 1) (2 ^ 64 - 1))) }
{
    match map.get_mut(text) {
        Some(count) => *count = count.saturating_add(1),
        None => {
            if let Err(_refused) = map.insert(String::from_str(alloc, text)?, 1) {
                return Err(AllocError);
            }
        }
    }
    Ok(())
}

/// Takes a key out.
pub fn forget<K: Eq + Hash + Drop, V: Drop>(map: &mut UnorderedMap<K, V>, key: &K) -> Option<V>
    ensures was { result ≡ get K.eq map.old key.now }
    ensures here { get K.eq map.new key.now ≡ None }
    ensures others { (other : K) → K.eq key.now other ≡ false → get K.eq map.new other ≡ get K.eq map.old other }
    ensures length { length (pairs_of map.old) ≡ length (pairs_of map.new) + (if contains K.eq map.old key.now then 1 else 0) }
{
    map.remove(key)
}

/// Takes every pair out.
pub fn empty<K: Eq + Hash + Drop, V: Drop>(map: &mut UnorderedMap<K, V>)
    ensures { (key : K) → get K.eq map.new key ≡ None }
{
    map.clear();
}

/// Puts a value at an entry, and answers the one that was there.
pub fn put_by_entry<K: Eq + Hash + Drop, V: Drop>(
    map: &mut UnorderedMap<K, V>,
    key: K,
    value: V,
) -> Result<Option<V>, NoRoom<(K, V)>>
    ensures was { IfOk result (λ was. was ≡ get K.eq map.old key) }
    ensures here { OnOk result (get K.eq map.new key ≡ Some value) }
    ensures others { OnOk result ((other : K) → K.eq key other ≡ false → get K.eq map.new other ≡ get K.eq map.old other) }
{
    match map.entry(key) {
        Entry::Occupied(mut entry) => Ok(Some(entry.insert(value))),
        Entry::Vacant(entry) => {
            entry.insert(value)?;
            Ok(None)
        }
    }
}

/// Writes the value at a key that is there, and else answers key and value.
pub fn write_if_there<K: Eq + Hash + Drop, V: Drop>(
    map: &mut UnorderedMap<K, V>,
    key: K,
    value: V,
) -> Option<(K, V)>
    ensures others { (other : K) → K.eq key other ≡ false → get K.eq map.new other ≡ get K.eq map.old other }
    ensures lacks { IfSome result (λ _. map.new ≡ map.old) }
    ensures back { result ≡ (if contains K.eq map.old key then None else Some (key, value)) }
{
    match map.entry(key) {
        Entry::Occupied(mut entry) => {
            *entry.get_mut() = value;
            None
        }
        Entry::Vacant(entry) => Some((entry.into_key(), value)),
    }
}

/// Puts a value at a key, and answers the one that was there: all together change by the two.
pub fn set<K: Eq + Hash + Drop>(
    sums: &mut UnorderedMap<K, u64>,
    key: K,
    value: u64,
) -> Result<Option<u64>, NoRoom<(K, u64)>>
    ensures { IfOk result (λ was. sum (values_of (pairs_of sums.new)) + unwrap_or was 0 ≡ sum (values_of (pairs_of sums.old)) + value) }
{
    sums.insert(key, value)
}

/// Takes a key out, and answers its value: all together are less by it.
pub fn refunded<K: Eq + Hash + Drop>(sums: &mut UnorderedMap<K, u64>, key: &K) -> Option<u64>
    ensures was { result ≡ get K.eq sums.old key.now }
    ensures total { sum (values_of (pairs_of sums.old)) ≡ sum (values_of (pairs_of sums.new)) + unwrap_or result 0 }
{
    sums.remove(key)
}

/// Puts an element in, and answers whether it was lacking.
pub fn add<T: Eq + Hash + Drop>(set: &mut UnorderedSet<T>, element: T) -> Result<bool, NoRoom<T>>
    ensures was { IfOk result (λ is_new. is_new ≡ not (contains T.eq set.old element)) }
    ensures here { OnOk result (contains T.eq set.new element ≡ true) }
    ensures others { OnOk result ((other : T) → T.eq element other ≡ false → contains T.eq set.new other ≡ contains T.eq set.old other) }
    ensures length { OnOk result (length (pairs_of set.new) ≡ length (pairs_of set.old) + (if contains T.eq set.old element then 0 else 1)) }
{
    set.insert(element)
}
