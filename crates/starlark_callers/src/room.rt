//! Callers that count on room.
ghost use Rattle.std.specs.Hash as fed;
ghost use Rattle.std.specs.Map.{update_all};
ghost use Rattle.std.specs.Prelude.{◌+◌, ◌<◌, ◌≡◌, ◌≤◌, IsOk, OnErr, OnOk, Some, false, length, nat_eq, true, ℕ};
ghost use Rattle.starlark_small.specs.Lookup.{get};

use starlark_small::SmallMap;
use std::alloc::AllocError;
use std::hash::Hash;

/// Makes room for two entries, and then unwraps both insertions.
pub fn reserve_and_put(map: &mut SmallMap<u32, u64>, a: u32, b: u32) -> Result<(), AllocError>
    requires { nat_eq a b ≡ false }
    ensures first { OnOk result (get nat_eq fed.u32 map.new a ≡ Some 1) }
    ensures second { OnOk result (get nat_eq fed.u32 map.new b ≡ Some 2) }
{
    map.reserve(2)?;
    map.insert(a, 1).unwrap();
    map.insert(b, 2).unwrap();
    Ok(())
}

/// Makes room and puts a pair in, or leaves the entries.
pub fn put_or_leave(map: &mut SmallMap<u32, u64>, key: u32) -> Result<(), AllocError>
    ensures unchanged { OnErr result (map.new.entries ≡ map.old.entries) }
    ensures here { OnOk result (get nat_eq fed.u32 map.new key ≡ Some 1) }
{
    map.reserve(1)?;
    map.insert(key, 1)?;
    Ok(())
}

/// Writes the value at a key, or puts it in where there is room, which is then one less at most.
pub fn put_fitting(map: &mut SmallMap<u32, u64>, key: u32, value: u64)
    requires { 0 < map.old.room }
    ensures here { get nat_eq fed.u32 map.new key ≡ Some value }
    ensures others { (other : ℕ) → nat_eq key other ≡ false → get nat_eq fed.u32 map.new other ≡ get nat_eq fed.u32 map.old other }
    ensures room { map.old.room ≤ map.new.room + 1 }
{
    match map.get_mut(&key) {
        Some(there) => *there = value,
        None => {
            map.insert(key, value).unwrap();
        }
    }
}

/// Writes the values at two entries in turn, for which there is room.
pub fn enter_two(map: &mut SmallMap<u32, u64>, a: u32, b: u32) -> Result<(), AllocError>
    requires { 2 ≤ map.old.room }
    ensures done { IsOk result }
    ensures first { nat_eq b a ≡ false → OnOk result (get nat_eq fed.u32 map.new a ≡ Some 1) }
    ensures second { OnOk result (get nat_eq fed.u32 map.new b ≡ Some 2) }
{
    *map.entry(a).or_insert(0)? = 1;
    *map.entry(b).or_insert(0)? = 2;
    Ok(())
}

/// Takes all out: as many fit again without memory.
pub fn start_over(map: &mut SmallMap<u32, u64>)
    ensures { length map.old.entries + map.old.room ≤ map.new.room }
{
    map.clear();
}

/// Takes entries out in three ways, which leaves the room for another one.
pub fn refill(map: &mut SmallMap<u32, u64>, key: u32) -> bool
    requires { 0 < map.old.room }
    ensures done { result ≡ true }
    ensures here { get nat_eq fed.u32 map.new key ≡ Some 1 }
{
    map.shift_remove(&key);
    map.retain(|_key, value| *value != 0);
    map.clear();
    map.insert(key, 1).is_ok()
}

/// Puts pairs in for which there is room.
pub fn add_fitting(map: &mut SmallMap<u32, u64>, items: Vec<(u32, u64)>) -> Result<(), AllocError>
    requires { length items.items ≤ map.old.room }
    ensures done { IsOk result }
    ensures each { (key : ℕ) → get nat_eq fed.u32 map.new key ≡ update_all nat_eq (get nat_eq fed.u32 map.old) items.items key }
{
    map.extend(items)
}

/// Puts pairs in, and tells how much room is left.
pub fn add_leaving<K: Eq + Hash + Drop, V: Drop>(
    map: &mut SmallMap<K, V>,
    items: Vec<(K, V)>,
) -> Result<(), AllocError>
    ensures left { map.old.room ≤ map.new.room + length items.items }
    ensures each { OnOk result ((key : K) → get K.eq K.hash_input map.new key ≡ update_all K.eq (get K.eq K.hash_input map.old) items.items key) }
{
    map.extend(items)?;
    Ok(())
}
