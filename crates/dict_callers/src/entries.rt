//! Callers of the entries of dictionaries. No clause of theirs names a hash.
ghost use Rattle.std.specs.Option.{option_map, unwrap_or};
ghost use Rattle.std.specs.Prelude.{[], ◌+◌, ◌++◌, ◌-◌, ◌<◌, ◌^◌, ◌∷◌, ◌≡◌, IfOk, IsNone, IsSome, None, OnErr, OnOk, Some, false, if◌then◌else◌, is_some, min, nat_eq, true, ℕ};
ghost use Rattle.std.specs.String.{string_eq};
ghost use Rattle.std.specs.declared.alloc.Global.{Global};
ghost use Rattle.std.specs.declared.string.String.{String};
ghost use Rattle.starlark_dict.specs.Dict.{dict_len, get, insert_entry, IsUnique};

use starlark_dict::{Dict, Entry};
use starlark_hash::NoRoom;
use std::alloc::{AllocError, Global};
use std::hash::Hash;
use std::mem;

/// Leaves the value at a key, or puts this one there.
pub fn put_if_lacking<K: Eq + Hash + Drop, V: Drop>(
    dict: &mut Dict<K, V>,
    key: K,
    value: V,
) -> Result<(), NoRoom<(K, V)>>
    ensures here { OnOk result (get K.eq dict.new key ≡ Some (unwrap_or (get K.eq dict.old key) value)) }
    ensures others { OnOk result ((other : K) → K.eq key other ≡ false → get K.eq dict.new other ≡ get K.eq dict.old other) }
    ensures count { OnOk result (dict_len dict.new ≡ dict_len dict.old + (if is_some (get K.eq dict.old key) then 0 else 1)) }
    ensures refused { OnErr result (dict.new.entries ≡ dict.old.entries) }
{
    dict.entry(key).or_insert(value)?;
    Ok(())
}

/// Counts a word.
pub fn count_word(counts: &mut Dict<String, u64>, word: String) -> Result<(), NoRoom<(String, u64)>>
    requires { unwrap_or (get string_eq counts.old word) 0 + 1 < 2 ^ 64 }
    ensures here { OnOk result (get string_eq counts.new word ≡ Some (unwrap_or (get string_eq counts.old word) 0 + 1)) }
    ensures others { OnOk result ((other : String Global) → string_eq word other ≡ false → get string_eq counts.new other ≡ get string_eq counts.old other) }
    ensures refused { OnErr result (counts.new.entries ≡ counts.old.entries) }
{
    *counts.entry(word).or_insert(0)? += 1;
    Ok(())
}

/// Counts each of some numbers.
pub fn count_numbers(counts: &mut Dict<u32, u64>, numbers: &[u32]) -> Result<(), NoRoom<(u32, u64)>>
    ensures { OnOk result ((number : ℕ) → is_some (get nat_eq counts.old number) ≡ true → is_some (get nat_eq counts.new number) ≡ true) }
{
    for number in numbers {
        let count = counts.entry(*number).or_insert(0)?;
        *count = count.saturating_add(1);
    }
    Ok(())
}

/// Counts a key whose first value a closure gives.
pub fn count_with<K: Eq + Hash + Drop>(
    dict: &mut Dict<K, u64>,
    key: K,
) -> Result<(), NoRoom<(K, u64)>>
    ensures here { OnOk result (get K.eq dict.new key ≡ Some (min (unwrap_or (get K.eq dict.old key) 0 + 1) (2 ^ 64 - 1))) }
    ensures others { OnOk result ((other : K) → K.eq key other ≡ false → get K.eq dict.new other ≡ get K.eq dict.old other) }
{
    let count = dict.entry(key).or_insert_with(|| 0)?;
    *count = count.saturating_add(1);
    Ok(())
}

/// Counts a key whose first value is the default one.
pub fn count_by_default<K: Eq + Hash + Drop>(
    dict: &mut Dict<K, u64>,
    key: K,
) -> Result<(), NoRoom<(K, u64)>>
    ensures here { OnOk result (get K.eq dict.new key ≡ Some (min (unwrap_or (get K.eq dict.old key) 0 + 1) (2 ^ 64 - 1))) }
{
    let count = dict.entry(key).or_default()?;
    *count = count.saturating_add(1);
    Ok(())
}

/// Puts a number under a name, behind those that are there.
pub fn group(
    groups: &mut Dict<String, Vec<u32>>,
    name: String,
    number: u32,
    alloc: Global,
) -> Result<(), AllocError>
    ensures here { OnOk result (option_map (λ v. v.items) (get string_eq groups.new name) ≡ Some (unwrap_or (option_map (λ v. v.items) (get string_eq groups.old name)) [] ++ number ∷ [])) }
    ensures others { OnOk result ((other : String Global) → string_eq name other ≡ false → get string_eq groups.new other ≡ get string_eq groups.old other) }
{
    groups
        .entry(name)
        .or_insert_with(|| Vec::new(alloc))?
        .push(number)?;
    Ok(())
}

/// Counts a key by a closure at its value.
pub fn count_modified<K: Eq + Hash + Drop>(
    dict: &mut Dict<K, u64>,
    key: K,
) -> Result<(), NoRoom<(K, u64)>>
    ensures here { OnOk result (get K.eq dict.new key ≡ Some (min (unwrap_or (get K.eq dict.old key) 0 + 1) (2 ^ 64 - 1))) }
    ensures others { OnOk result ((other : K) → K.eq key other ≡ false → get K.eq dict.new other ≡ get K.eq dict.old other) }
{
    dict.entry(key)
        .and_modify(|n| *n = n.saturating_add(1))
        .or_insert(1)?;
    Ok(())
}

/// Puts a value at an entry, and answers the one that was there.
pub fn put<K: Eq + Hash + Drop, V: Drop>(
    dict: &mut Dict<K, V>,
    key: K,
    value: V,
) -> Result<Option<V>, NoRoom<(K, V)>>
    ensures was { IfOk result (λ was. was ≡ get K.eq dict.old key) }
    ensures here { OnOk result (get K.eq dict.new key ≡ Some value) }
    ensures others { OnOk result ((other : K) → K.eq key other ≡ false → get K.eq dict.new other ≡ get K.eq dict.old other) }
    ensures all { OnOk result (dict.new.entries ≡ insert_entry K.eq dict.old.entries key value) }
    ensures unique { OnOk result (IsUnique K.eq dict.new) }
{
    match dict.entry(key) {
        Entry::Occupied(mut entry) => Ok(Some(mem::replace(entry.get_mut(), value))),
        Entry::Vacant(entry) => {
            entry.insert(value)?;
            Ok(None)
        }
    }
}

/// Writes the value at a key that is there, and else answers it.
pub fn write_if_there<K: Eq + Hash + Drop, V: Drop>(
    dict: &mut Dict<K, V>,
    key: K,
    value: V,
) -> Option<V>
    ensures others { (other : K) → K.eq key other ≡ false → get K.eq dict.new other ≡ get K.eq dict.old other }
    ensures here { IsNone result → get K.eq dict.new key ≡ Some value }
    ensures lacking { IsSome result → get K.eq dict.old key ≡ None }
{
    match dict.entry(key) {
        Entry::Occupied(mut entry) => {
            *entry.get_mut() = value;
            None
        }
        Entry::Vacant(_entry) => Some(value),
    }
}
