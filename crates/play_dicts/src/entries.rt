//! What is done with an entry of a dictionary.

use play_words::values::{raised, write};
use play_words::{Fault, Key, Out, Words};
use starlark_dict::{Dict, Entry};

// Writes which of the two an entry is, and its key.
fn show<K: Key>(entry: &Entry<'_, K, i64>, out: &mut Out) -> Result<(), Fault> {
    out.say(match entry {
        Entry::Occupied(_) => "occupied",
        Entry::Vacant(_) => "vacant",
    })?;
    out.put(entry.key())
}

/// ACT VALUE: does something with an entry.
pub fn enter<K: Key>(
    dict: &mut Dict<K, i64>,
    key: K,
    mut words: Words<'_>,
    out: &mut Out,
) -> Result<(), Fault> {
    let act = words.word()?;
    let by = words.value()?;
    match act {
        "key" => show(&dict.entry(key), out),
        "or" => or_insert(dict, key, by, out),
        "orwith" => or_insert_with(dict, key, by, out),
        "ordefault" => or_default(dict, key, by, out),
        "modify" => modify(dict, key, by, out),
        "match" => each_call(dict, key, by, out),
        _ => Err(Fault::BadLine),
    }
}

fn or_insert<K: Key>(
    dict: &mut Dict<K, i64>,
    key: K,
    value: i64,
    out: &mut Out,
) -> Result<(), Fault> {
    let entry = dict.entry(key);
    show(&entry, out)?;
    write(Some(entry.or_insert(value)?), 1, out)
}

fn or_insert_with<K: Key>(
    dict: &mut Dict<K, i64>,
    key: K,
    value: i64,
    out: &mut Out,
) -> Result<(), Fault> {
    let entry = dict.entry(key);
    show(&entry, out)?;
    let mut calls = 0u64;
    let there = entry.or_insert_with(|| {
        calls = calls.wrapping_add(1);
        value
    })?;
    write(Some(there), 1, out)?;
    out.put(calls)
}

fn or_default<K: Key>(
    dict: &mut Dict<K, i64>,
    key: K,
    by: i64,
    out: &mut Out,
) -> Result<(), Fault> {
    let entry = dict.entry(key);
    show(&entry, out)?;
    write(Some(entry.or_default()?), by, out)
}

fn modify<K: Key>(dict: &mut Dict<K, i64>, key: K, by: i64, out: &mut Out) -> Result<(), Fault> {
    let entry = dict.entry(key);
    show(&entry, out)?;
    let mut calls = 0u64;
    let entry = entry.and_modify(|value| {
        calls = calls.wrapping_add(1);
        *value = raised(*value, by);
    });
    out.put(*entry.or_insert(by)?)?;
    out.put(calls)
}

// Each call of the entry's variant.
fn each_call<K: Key>(dict: &mut Dict<K, i64>, key: K, by: i64, out: &mut Out) -> Result<(), Fault> {
    let entry = dict.entry(key);
    show(&entry, out)?;
    match entry {
        Entry::Occupied(mut entry) => {
            out.put(entry.key())?;
            out.put(entry.get())?;
            let value = entry.get_mut();
            *value = raised(*value, by);
            let now = *entry.get();
            out.put((entry.key(), now))?;
            *entry.get_mut() = raised(now, 1);
            write(Some(entry.into_mut()), 1, out)
        }
        Entry::Vacant(entry) => {
            out.put(entry.key())?;
            write(Some(entry.insert(by)?), 1, out)
        }
    }
}
