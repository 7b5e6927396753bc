//! Callers of dictionaries. No clause of theirs names a hash.
ghost use Rattle.std.specs.Option.{option_map, unwrap_or};
ghost use Rattle.std.specs.Prelude.{◌≡◌, ◌+◌, ◌∷◌, ◌<◌, ◌&&◌, [], ℕ, None, Some, IfOk, IfSome, OnErr, OnOk, false, if◌then◌else◌, is_some, nat_eq};
ghost use Rattle.starlark_dict.specs.Dict.{dict_len, get, get_by_text, get_key, IsUnique};

use starlark_dict::Dict;
use starlark_hash::NoRoom;
use std::alloc::Global;
use std::hash::Hash;

/// The value at a key, or another.
pub fn lookup_or<K: Eq + Hash>(dict: &Dict<K, u64>, key: &K, default: u64) -> u64
    ensures { result ≡ unwrap_or (get K.eq dict.now key.now) default }
{
    match dict.get(key) {
        Some(value) => *value,
        None => default,
    }
}

/// The number under a text.
pub fn named(dict: &Dict<String, u64>, name: &str) -> Option<u64>
    ensures { result ≡ get_by_text dict.now name.now }
{
    dict.get(name).copied()
}

/// Whether both dictionaries have the key.
pub fn has_both<K: Eq + Hash, V, W>(d: &Dict<K, V>, e: &Dict<K, W>, key: &K) -> bool
    ensures { result ≡ is_some (get K.eq d.now key.now) && is_some (get K.eq e.now key.now) }
{
    d.contains_key(key) && e.contains_key(key)
}

/// The stored key and its value, beside their index.
pub fn stored(entries: &Dict<u32, u64>, key: u32) -> Option<(usize, &u32, &u64)>
    ensures key { option_map (λ found. found.1.now) result ≡ get_key nat_eq entries.now key }
    ensures value { option_map (λ found. found.2.now) result ≡ get nat_eq entries.now key }
{
    entries.get_full(&key)
}

/// The index of a key, within the dictionary.
pub fn place<K: Eq + Hash, V>(dict: &Dict<K, V>, key: &K) -> Option<usize>
    ensures there { is_some result ≡ is_some (get K.eq dict.now key.now) }
    ensures within { IfSome result (λ i. i < dict_len dict.now) }
{
    dict.get_index_of(key)
}

/// Puts a value at a key.
pub fn record<K: Eq + Hash + Drop, V: Drop>(
    dict: &mut Dict<K, V>,
    key: K,
    value: V,
) -> Result<(), NoRoom<(K, V)>>
    ensures here { OnOk result (get K.eq dict.new key ≡ Some value) }
    ensures others { OnOk result ((other : K) → K.eq key other ≡ false → get K.eq dict.new other ≡ get K.eq dict.old other) }
    ensures lacking { OnErr result (get K.eq dict.old key ≡ None) }
    ensures unchanged { OnErr result (dict.new.entries ≡ dict.old.entries) }
    ensures unique { IsUnique K.eq dict.new }
{
    dict.insert(key, value)?;
    Ok(())
}

/// Puts a value at a key, and answers what was there.
pub fn exchange<K: Eq + Hash + Drop, V: Drop>(
    dict: &mut Dict<K, V>,
    key: K,
    value: V,
) -> Result<Option<V>, NoRoom<(K, V)>>
    ensures was { IfOk result (λ was. was ≡ get K.eq dict.old key) }
    ensures here { OnOk result (get K.eq dict.new key ≡ Some value) }
{
    dict.insert(key, value)
}

/// Puts a value at a key, and answers how many keys there are.
pub fn record_and_count<K: Eq + Hash + Drop, V: Drop>(
    dict: &mut Dict<K, V>,
    key: K,
    value: V,
) -> Result<usize, NoRoom<(K, V)>>
    ensures count { IfOk result (λ n. n ≡ dict_len dict.old + (if is_some (get K.eq dict.old key) then 0 else 1)) }
{
    dict.insert(key, value)?;
    Ok(dict.len())
}

/// A dictionary of one key.
pub fn one<K: Eq + Hash + Drop, V: Drop>(
    alloc: Global,
    key: K,
    value: V,
) -> Result<Dict<K, V>, NoRoom<(K, V)>>
    ensures here { IfOk result (λ d. get K.eq d key ≡ Some value) }
    ensures others { IfOk result (λ d. (other : K) → K.eq key other ≡ false → get K.eq d other ≡ None) }
    ensures all { IfOk result (λ d. d.entries ≡ (key, value) ∷ []) }
{
    let mut dict = Dict::new(alloc);
    dict.insert(key, value)?;
    Ok(dict)
}

/// Writes the value at a key, or puts it there.
pub fn put<K: Eq + Hash + Drop, V: Drop>(
    dict: &mut Dict<K, V>,
    key: K,
    value: V,
) -> Result<(), NoRoom<(K, V)>>
    ensures here { OnOk result (get K.eq dict.new key ≡ Some value) }
    ensures others { OnOk result ((other : K) → K.eq key other ≡ false → get K.eq dict.new other ≡ get K.eq dict.old other) }
{
    match dict.get_mut(&key) {
        Some(there) => *there = value,
        None => {
            dict.insert(key, value)?;
        }
    }
    Ok(())
}

/// Forgets a key.
pub fn forget<K: Eq + Hash + Drop, V: Drop>(dict: &mut Dict<K, V>, key: &K)
    ensures here { get K.eq dict.new key.now ≡ None }
    ensures others { (other : K) → K.eq key.now other ≡ false → get K.eq dict.new other ≡ get K.eq dict.old other }
{
    dict.shift_remove(key);
}

/// Takes the last pair out, and answers it.
pub fn take_last<K: Eq + Hash + Drop, V: Drop>(dict: &mut Dict<K, V>) -> Option<(K, V)>
    ensures gone { IfSome result (λ last. get K.eq dict.new last.0 ≡ None) }
    ensures others { IfSome result (λ last. (other : K) → K.eq last.0 other ≡ false → get K.eq dict.new other ≡ get K.eq dict.old other) }
{
    dict.pop()
}

/// A dictionary of known numbers, one put twice and another taken out.
pub fn numbers(alloc: Global) -> Result<Dict<u32, u8>, NoRoom<(u32, u8)>>
    ensures one { IfOk result (λ d. get nat_eq d 1 ≡ Some 10) }
    ensures two { IfOk result (λ d. get nat_eq d 2 ≡ None) }
    ensures three { IfOk result (λ d. get nat_eq d 3 ≡ Some 31) }
    ensures others { IfOk result (λ d. (key : ℕ) → nat_eq 1 key ≡ false → nat_eq 2 key ≡ false → nat_eq 3 key ≡ false → get nat_eq d key ≡ None) }
{
    let mut d = Dict::new(alloc);
    d.insert(3u32, 30u8)?;
    d.insert(1, 10)?;
    d.insert(2, 20)?;
    d.shift_remove(&2);
    d.insert(3, 31)?;
    Ok(d)
}
