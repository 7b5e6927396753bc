//! Callers of entries.
ghost use Rattle.std.specs.Hash as fed;
ghost use Rattle.std.specs.Option.{unwrap_or};
ghost use Rattle.std.specs.Prelude.{[], ◌+◌, ◌-◌, ◌<◌, ◌^◌, ◌∷◌, ◌≡◌, IfOk, IfSome, IsNone, IsSome, None, OnOk, Some, false, min, nat_eq, ℕ};
ghost use Rattle.starlark_small.specs.Lookup.{AreOwn, contains, get, keys};

use starlark_hash::{Hashed, NoRoom};
use starlark_sets::OrderedMap;
use starlark_small::{Entry, SmallMap};
use std::hash::Hash;
use std::mem;

/// Leaves the value at an entry, or puts this one there; keys under their own hashes stay so.
pub fn put_own<K: Eq + Hash + Drop, V: Drop>(
    map: &mut SmallMap<K, V>,
    key: K,
    value: V,
) -> Result<(), NoRoom<(Hashed<K>, V)>>
    ensures own { OnOk result (AreOwn K.hash_input map.old → AreOwn K.hash_input map.new) }
    ensures here { OnOk result (get K.eq K.hash_input map.new key ≡ Some (unwrap_or (get K.eq K.hash_input map.old key) value)) }
{
    map.entry(key).or_insert(value)?;
    Ok(())
}

/// Counts a key whose first value a closure gives.
pub fn count_with<K: Eq + Hash + Drop>(
    map: &mut SmallMap<K, u64>,
    key: K,
) -> Result<(), NoRoom<(Hashed<K>, u64)>>
    ensures here { OnOk result (get K.eq K.hash_input map.new key ≡ Some (min (unwrap_or (get K.eq K.hash_input map.old key) 0 + 1) (2 ^ 64 - 1))) }
    ensures others { OnOk result ((other : K) → K.eq key other ≡ false → get K.eq K.hash_input map.new other ≡ get K.eq K.hash_input map.old other) }
{
    let count = map.entry(key).or_insert_with(|| 0)?;
    *count = count.saturating_add(1);
    Ok(())
}

/// Counts a key whose first value is the default one.
pub fn count_by_default<K: Eq + Hash + Drop>(
    map: &mut SmallMap<K, u64>,
    key: K,
) -> Result<(), NoRoom<(Hashed<K>, u64)>>
    ensures here { OnOk result (get K.eq K.hash_input map.new key ≡ Some (min (unwrap_or (get K.eq K.hash_input map.old key) 0 + 1) (2 ^ 64 - 1))) }
    ensures others { OnOk result ((other : K) → K.eq key other ≡ false → get K.eq K.hash_input map.new other ≡ get K.eq K.hash_input map.old other) }
{
    let count = map.entry(key).or_default()?;
    *count = count.saturating_add(1);
    Ok(())
}

/// Counts a key by a closure at its value.
pub fn count_modified<K: Eq + Hash + Drop>(
    map: &mut SmallMap<K, u64>,
    key: K,
) -> Result<(), NoRoom<(Hashed<K>, u64)>>
    ensures here { OnOk result (get K.eq K.hash_input map.new key ≡ Some (min (unwrap_or (get K.eq K.hash_input map.old key) 0 + 1) (2 ^ 64 - 1))) }
    ensures others { OnOk result ((other : K) → K.eq key other ≡ false → get K.eq K.hash_input map.new other ≡ get K.eq K.hash_input map.old other) }
{
    map.entry(key)
        .and_modify(|n| *n = n.saturating_add(1))
        .or_insert(1)?;
    Ok(())
}

/// Puts a value at an entry, and answers the one that was there.
pub fn put<K: Eq + Hash + Drop, V: Drop>(
    map: &mut SmallMap<K, V>,
    key: K,
    value: V,
) -> Result<Option<V>, NoRoom<(Hashed<K>, V)>>
    ensures was { IfOk result (λ was. was ≡ get K.eq K.hash_input map.old key) }
    ensures here { OnOk result (get K.eq K.hash_input map.new key ≡ Some value) }
    ensures others { OnOk result ((other : K) → K.eq key other ≡ false → get K.eq K.hash_input map.new other ≡ get K.eq K.hash_input map.old other) }
{
    match map.entry(key) {
        Entry::Occupied(mut entry) => Ok(Some(mem::replace(entry.get_mut(), value))),
        Entry::Vacant(entry) => {
            entry.insert(value)?;
            Ok(None)
        }
    }
}

/// Writes the value at a key that is there, and else answers it.
pub fn write_if_there<K: Eq + Hash + Drop, V: Drop>(
    map: &mut SmallMap<K, V>,
    key: K,
    value: V,
) -> Option<V>
    ensures others { (other : K) → K.eq key other ≡ false → get K.eq K.hash_input map.new other ≡ get K.eq K.hash_input map.old other }
    ensures here { IsNone result → get K.eq K.hash_input map.new key ≡ Some value }
    ensures lacking { IsSome result → get K.eq K.hash_input map.old key ≡ None }
    ensures back { IfSome result (λ back. back ≡ value) }
{
    match map.entry(key) {
        Entry::Occupied(mut entry) => {
            *entry.get_mut() = value;
            None
        }
        Entry::Vacant(_entry) => Some(value),
    }
}

/// Adds to the value at an entry.
pub fn add(
    map: &mut SmallMap<u32, u64>,
    word: u32,
    n: u64,
) -> Result<(), NoRoom<(Hashed<u32>, u64)>>
    requires { unwrap_or (get nat_eq fed.u32 map.old word) 0 + n < 2 ^ 64 }
    ensures here { OnOk result (get nat_eq fed.u32 map.new word ≡ Some (unwrap_or (get nat_eq fed.u32 map.old word) 0 + n)) }
    ensures others { OnOk result ((other : ℕ) → nat_eq word other ≡ false → get nat_eq fed.u32 map.new other ≡ get nat_eq fed.u32 map.old other) }
{
    *map.entry(word).or_insert(0)? += n;
    Ok(())
}

/// Enters a number into a map whose keys are known: it goes last.
pub fn entered_keys(map: &mut SmallMap<u32, u8>) -> Result<(), NoRoom<(Hashed<u32>, u8)>>
    requires keys { keys map.old ≡ 1 ∷ 3 ∷ [] }
    requires lacks { contains nat_eq fed.u32 map.old 2 ≡ false }
    ensures keys { OnOk result (keys map.new ≡ 1 ∷ 3 ∷ 2 ∷ []) }
    ensures value { OnOk result (get nat_eq fed.u32 map.new 2 ≡ Some 20) }
{
    *map.entry(2).or_insert(0)? = 20;
    Ok(())
}

/// Adds to the value at an entry of the map inside.
pub fn add_in_order(
    map: &mut OrderedMap<u32, u64>,
    number: u32,
    n: u64,
) -> Result<(), NoRoom<(Hashed<u32>, u64)>>
    requires { unwrap_or (get nat_eq fed.u32 map.old number) 0 + n < 2 ^ 64 }
    ensures here { OnOk result (get nat_eq fed.u32 map.new number ≡ Some (unwrap_or (get nat_eq fed.u32 map.old number) 0 + n)) }
    ensures others { OnOk result ((other : ℕ) → nat_eq number other ≡ false → get nat_eq fed.u32 map.new other ≡ get nat_eq fed.u32 map.old other) }
{
    add(map.as_mut_small_map(), number, n)
}
