//! What is done with an entry of an ordered map.

use crate::entries::{raise, show};
use play_words::values::raised;
use play_words::{Fault, Key, Out, Words};
use starlark_map::ordered_map::OrderedMap;
use starlark_map::small_map::Entry;

/// ACT VALUE: does something with an entry.
pub fn enter<K: Key>(
    map: &mut OrderedMap<K, i64>,
    key: K,
    mut words: Words<'_>,
    out: &mut Out,
) -> Result<(), Fault> {
    let act = words.word()?;
    let by = words.value()?;
    match act {
        "key" => show(&map.entry(key), out),
        "or" => or_insert(map, key, by, out),
        "orwith" => or_insert_with(map, key, by, out),
        "ordefault" => or_default(map, key, by, out),
        "modify" => modify(map, key, by, out),
        "match" => each_call(map, key, by, out),
        _ => Err(Fault::BadLine),
    }
}

fn or_insert<K: Key>(
    map: &mut OrderedMap<K, i64>,
    key: K,
    value: i64,
    out: &mut Out,
) -> Result<(), Fault> {
    let entry = map.entry(key);
    show(&entry, out)?;
    raise(entry.or_insert(value)?, 1, out)
}

fn or_insert_with<K: Key>(
    map: &mut OrderedMap<K, i64>,
    key: K,
    value: i64,
    out: &mut Out,
) -> Result<(), Fault> {
    let entry = map.entry(key);
    show(&entry, out)?;
    let mut calls = 0u64;
    let there = entry.or_insert_with(|| {
        calls = calls.wrapping_add(1);
        value
    })?;
    raise(there, 1, out)?;
    out.put(calls)
}

fn or_default<K: Key>(
    map: &mut OrderedMap<K, i64>,
    key: K,
    by: i64,
    out: &mut Out,
) -> Result<(), Fault> {
    let entry = map.entry(key);
    show(&entry, out)?;
    raise(entry.or_default()?, by, out)
}

fn modify<K: Key>(
    map: &mut OrderedMap<K, i64>,
    key: K,
    by: i64,
    out: &mut Out,
) -> Result<(), Fault> {
    let entry = map.entry(key);
    show(&entry, out)?;
    let mut calls = 0u64;
    let entry = entry.and_modify(|value| {
        calls = calls.wrapping_add(1);
        *value = raised(*value, by);
    });
    out.put(*entry.or_insert(by)?)?;
    out.put(calls)
}

// Each call of the entry's variant.
fn each_call<K: Key>(
    map: &mut OrderedMap<K, i64>,
    key: K,
    by: i64,
    out: &mut Out,
) -> Result<(), Fault> {
    let entry = map.entry(key);
    show(&entry, out)?;
    match entry {
        Entry::Occupied(mut entry) => {
            out.put(entry.key())?;
            out.put(entry.get())?;
            let value = entry.get_mut();
            *value = raised(*value, by);
            let (key, value) = entry.as_key_and_mut_value();
            let now = *value;
            *value = raised(now, 1);
            out.put((key, now))?;
            raise(entry.into_mut(), 1, out)
        }
        Entry::Vacant(entry) => {
            out.put(entry.key())?;
            raise(entry.insert(by)?, 1, out)
        }
    }
}
