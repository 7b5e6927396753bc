//! Callers that insert into maps, or write what is there.
ghost use Rattle.std.specs.Hash as fed;
ghost use Rattle.std.specs.Prelude.{◌+◌, ◌<◌, ◌≡◌, All, IfOk, List, None, OnErr, OnOk, Some, false, if◌then◌else◌, length, map, nat_eq, ℕ};
ghost use Rattle.std.specs.Str.{bytes_eq};
ghost use Rattle.std.specs.String.{string_bytes};
ghost use Rattle.starlark_hash.specs.Entries.{entry_value};
ghost use Rattle.starlark_small.specs.Lookup.{AreOwn, contains, get, get_text};

use starlark_hash::{Hashed, NoRoom};
use starlark_sets::OrderedMap;
use starlark_small::SmallMap;
use std::alloc::Global;
use std::hash::Hash;

/// Puts a value at a key.
pub fn record<K: Eq + Hash + Drop, V: Drop>(
    map: &mut SmallMap<K, V>,
    key: K,
    value: V,
) -> Result<(), NoRoom<(K, V)>>
    ensures here { OnOk result (get K.eq K.hash_input map.new key ≡ Some value) }
    ensures others { OnOk result ((other : K) → K.eq key other ≡ false → get K.eq K.hash_input map.new other ≡ get K.eq K.hash_input map.old other) }
    ensures lacking { OnErr result (get K.eq K.hash_input map.old key ≡ None) }
    ensures unchanged { OnErr result ((other : K) → get K.eq K.hash_input map.new other ≡ get K.eq K.hash_input map.old other) }
{
    map.insert(key, value)?;
    Ok(())
}

/// Puts a value at a key, and answers what was there.
pub fn exchange<K: Eq + Hash + Drop, V: Drop>(
    map: &mut SmallMap<K, V>,
    key: K,
    value: V,
) -> Result<Option<V>, NoRoom<(K, V)>>
    ensures was { IfOk result (λ was. was ≡ get K.eq K.hash_input map.old key) }
    ensures here { OnOk result (get K.eq K.hash_input map.new key ≡ Some value) }
{
    map.insert(key, value)
}

/// Puts a value at a key, and answers how many keys there are.
pub fn record_and_count<K: Eq + Hash + Drop, V: Drop>(
    map: &mut SmallMap<K, V>,
    key: K,
    value: V,
) -> Result<usize, NoRoom<(K, V)>>
    ensures count { IfOk result (λ n. n ≡ length map.old.entries + (if contains K.eq K.hash_input map.old key then 0 else 1)) }
    ensures here { OnOk result (get K.eq K.hash_input map.new key ≡ Some value) }
{
    map.insert(key, value)?;
    Ok(map.len())
}

/// Puts a value at a key whose hash is computed before.
pub fn record_ready<K: Eq + Hash + Drop, V: Drop>(
    map: &mut SmallMap<K, V>,
    key: K,
    value: V,
) -> Result<(), NoRoom<(Hashed<K>, V)>>
    ensures here { OnOk result (get K.eq K.hash_input map.new key ≡ Some value) }
    ensures others { OnOk result ((other : K) → K.eq key other ≡ false → get K.eq K.hash_input map.new other ≡ get K.eq K.hash_input map.old other) }
{
    map.insert_hashed(Hashed::new(key), value)?;
    Ok(())
}

/// A map of one key.
pub fn one<K: Eq + Hash + Drop, V: Drop>(
    alloc: Global,
    key: K,
    value: V,
) -> Result<SmallMap<K, V>, NoRoom<(K, V)>>
    ensures here { IfOk result (λ map. get K.eq K.hash_input map key ≡ Some value) }
    ensures others { IfOk result (λ map. (other : K) → K.eq key other ≡ false → get K.eq K.hash_input map other ≡ None) }
    ensures one { IfOk result (λ map. length map.entries ≡ 1) }
    ensures own { IfOk result (AreOwn K.hash_input) }
{
    let mut map = SmallMap::new(alloc);
    map.insert(key, value)?;
    Ok(map)
}

/// Writes the value at a key, or puts it there.
pub fn put<K: Eq + Hash + Drop, V: Drop>(
    map: &mut SmallMap<K, V>,
    key: K,
    value: V,
) -> Result<(), NoRoom<(K, V)>>
    ensures here { OnOk result (get K.eq K.hash_input map.new key ≡ Some value) }
    ensures others { OnOk result ((other : K) → K.eq key other ≡ false → get K.eq K.hash_input map.new other ≡ get K.eq K.hash_input map.old other) }
{
    match map.get_mut(&key) {
        Some(there) => *there = value,
        None => {
            map.insert(key, value)?;
        }
    }
    Ok(())
}

/// Puts a value at a key that is lacking, with no look-up before, and answers its index.
pub fn record_unseen<K: Eq + Hash, V>(
    map: &mut SmallMap<K, V>,
    key: K,
    value: V,
) -> Result<usize, NoRoom<(K, V)>>
    requires { get K.eq K.hash_input map.old key ≡ None }
    ensures last { IfOk result (λ i. i + 1 ≡ length map.new.entries) }
    ensures here { OnOk result (get K.eq K.hash_input map.new key ≡ Some value) }
    ensures others { OnOk result ((other : K) → K.eq key other ≡ false → get K.eq K.hash_input map.new other ≡ get K.eq K.hash_input map.old other) }
    ensures own { AreOwn K.hash_input map.old → AreOwn K.hash_input map.new }
    ensures unchanged { OnErr result ((other : K) → get K.eq K.hash_input map.new other ≡ get K.eq K.hash_input map.old other) }
{
    map.push_own(key, value)
}

/// Puts a value at a string: its text has it, and every other text has what it had.
#[tactic(auto, using(starlark_small::proofs::CallerKept::kept))]
pub fn record_string(
    map: &mut SmallMap<String, u64>,
    name: String,
    value: u64,
) -> Result<(), NoRoom<(String, u64)>>
    ensures here { OnOk result (get_text map.new (string_bytes name) ≡ Some value) }
    ensures others { OnOk result ((text : List ℕ) → bytes_eq (string_bytes name) text ≡ false → get_text map.new text ≡ get_text map.old text) }
{
    map.insert(name, value)?;
    Ok(())
}

/// Puts a name in that is lacking, with the next number: each number is below how many there are.
#[tactic(auto, using(starlark_small::proofs::CallerKept::kept))]
pub fn number(
    numbers: &mut SmallMap<String, usize>,
    name: String,
) -> Result<(), NoRoom<(String, usize)>>
    requires lacks { get_text numbers.old (string_bytes name) ≡ None }
    requires below { All (λ value. value < length numbers.old.entries) (map entry_value numbers.old.entries) }
    ensures below { OnOk result (All (λ value. value < length numbers.new.entries) (map entry_value numbers.new.entries)) }
{
    let next = numbers.len();
    numbers.insert(name, next)?;
    Ok(())
}

/// A map of known numbers, one put twice and another taken out.
pub fn numbers(alloc: Global) -> Result<SmallMap<u32, u8>, NoRoom<(u32, u8)>>
    ensures one { IfOk result (λ m. get nat_eq fed.u32 m 1 ≡ Some 10) }
    ensures two { IfOk result (λ m. get nat_eq fed.u32 m 2 ≡ None) }
    ensures three { IfOk result (λ m. get nat_eq fed.u32 m 3 ≡ Some 31) }
    ensures others { IfOk result (λ m. (key : ℕ) → nat_eq 1 key ≡ false → nat_eq 2 key ≡ false → nat_eq 3 key ≡ false → get nat_eq fed.u32 m key ≡ None) }
{
    let mut m = one(alloc, 3, 30)?;
    m.insert(1, 10)?;
    m.insert(2, 20)?;
    m.shift_remove(&2);
    m.insert(3, 31)?;
    Ok(m)
}

/// Writes the value at a key of an ordered map, or puts it there.
pub fn put_in_order<K: Eq + Hash + Drop, V: Drop>(
    map: &mut OrderedMap<K, V>,
    key: K,
    value: V,
) -> Result<(), NoRoom<(K, V)>>
    ensures here { OnOk result (get K.eq K.hash_input map.new key ≡ Some value) }
    ensures others { OnOk result ((other : K) → K.eq key other ≡ false → get K.eq K.hash_input map.new other ≡ get K.eq K.hash_input map.old other) }
{
    match map.get_mut(&key) {
        Some(there) => *there = value,
        None => {
            map.insert(key, value)?;
        }
    }
    Ok(())
}
