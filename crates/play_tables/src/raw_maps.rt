//! Raw entries of an unordered map.

use crate::asked::{Asked, right, write_sorted};
use play_words::values::raised;
use play_words::{Fault, Key, Out, Words};
use starlark_map::Hashed;
use starlark_map::unordered_map::{RawEntryMut, UnorderedMap};

/// HOW HASH KEY ACT VALUE: names a place by the key, by key and hash, or by the hash and a closure that compares the key,
/// and does something there. The last word says whether the closure was asked about keys of that hash alone, about each
/// once.
pub fn raw<K: Key>(
    map: &mut UnorderedMap<K, i64>,
    mut words: Words<'_>,
    out: &mut Out,
) -> Result<(), Fault> {
    let how = words.word()?;
    let key: Hashed<K> = words.hashed()?;
    let act = words.word()?;
    let by = words.value()?;
    let told = if how == "hash" {
        told(map, &key, words)?
    } else {
        "right"
    };
    match act {
        "get" => write(map, how, &key, None, out)?,
        "set" => set(map, how, &key, by, out)?,
        "raise" => write(map, how, &key, Some(by), out)?,
        "key" => replace_key(map, how, key, out)?,
        "take" | "entry" => take(map, how, &key, act, out)?,
        "put" | "puth" => put(map, how, key, act, by, out)?,
        _ => return Err(Fault::BadLine),
    }
    out.say(told)
}

// Whether a closure that compares the key is asked as it is to be.
fn told<K: Key>(
    map: &mut UnorderedMap<K, i64>,
    key: &Hashed<K>,
    words: Words<'_>,
) -> Result<&'static str, Fault> {
    let mut asked: Asked<K> = Asked::new(words.alloc);
    drop(
        map.raw_entry_mut().from_hash(key.hash(), |other: &K| {
            asked.note(other);
            *other == *key.key()
        }),
    );
    Ok(right(asked.all()?.as_slice(), key.hash()))
}

// The place of the key.
fn find<'a, K: Key>(
    map: &'a mut UnorderedMap<K, i64>,
    how: &str,
    key: &Hashed<K>,
) -> RawEntryMut<'a, K, i64> {
    match how {
        "key" => map.raw_entry_mut().from_key(key.key()),
        "keyh" => map.raw_entry_mut().from_key_hashed(key.as_ref()),
        _ => map
            .raw_entry_mut()
            .from_hash(key.hash(), |other: &K| *other == *key.key()),
    }
}

// Writes the value, and one that is raised.
fn write<K: Key>(
    map: &mut UnorderedMap<K, i64>,
    how: &str,
    key: &Hashed<K>,
    by: Option<i64>,
    out: &mut Out,
) -> Result<(), Fault> {
    match find(map, how, key) {
        RawEntryMut::Occupied(mut entry) => {
            out.say("occupied")?;
            out.put(entry.get())?;
            let Some(by) = by else {
                return Ok(());
            };
            let value = entry.get_mut();
            *value = raised(*value, by);
            out.put(entry.get())
        }
        RawEntryMut::Vacant(_entry) => out.say("vacant"),
    }
}

fn set<K: Key>(
    map: &mut UnorderedMap<K, i64>,
    how: &str,
    key: &Hashed<K>,
    value: i64,
    out: &mut Out,
) -> Result<(), Fault> {
    match find(map, how, key) {
        RawEntryMut::Occupied(mut entry) => {
            out.say("occupied")?;
            out.put(entry.get())?;
            out.put(entry.insert(value))?;
            out.put(entry.get())
        }
        RawEntryMut::Vacant(_entry) => out.say("vacant"),
    }
}

fn take<K: Key>(
    map: &mut UnorderedMap<K, i64>,
    how: &str,
    key: &Hashed<K>,
    act: &str,
    out: &mut Out,
) -> Result<(), Fault> {
    match find(map, how, key) {
        RawEntryMut::Occupied(entry) => {
            out.say("occupied")?;
            out.put(entry.get())?;
            if act == "take" {
                out.put(entry.remove())
            } else {
                out.put(entry.remove_entry())
            }
        }
        RawEntryMut::Vacant(_entry) => out.say("vacant"),
    }
}

// Puts the key in the place of the one that is there.
fn replace_key<K: Key>(
    map: &mut UnorderedMap<K, i64>,
    how: &str,
    key: Hashed<K>,
    out: &mut Out,
) -> Result<(), Fault> {
    if matches!(find(map, how, &key), RawEntryMut::Vacant(_)) {
        return out.say("vacant");
    }
    let key = key.into_key();
    match map.raw_entry_mut().from_key(&key) {
        RawEntryMut::Occupied(mut entry) => {
            out.say("occupied")?;
            out.put(entry.get())?;
            out.put(entry.insert_key(key))
        }
        RawEntryMut::Vacant(_entry) => out.say("vacant"),
    }
}

fn put<K: Key>(
    map: &mut UnorderedMap<K, i64>,
    how: &str,
    key: Hashed<K>,
    act: &str,
    by: i64,
    out: &mut Out,
) -> Result<(), Fault> {
    if map.contains_key(key.key()) {
        return write(map, how, &key, None, out);
    }
    out.say("vacant")?;
    match how {
        "key" => put_by_key(map, key.into_key(), act, by, out),
        "keyh" => put_by_key_hashed(map, key, act, by, out),
        _ => put_by_hash(map, key, act, by, out),
    }
}

fn put_by_key<K: Key>(
    map: &mut UnorderedMap<K, i64>,
    key: K,
    act: &str,
    by: i64,
    out: &mut Out,
) -> Result<(), Fault> {
    match map.raw_entry_mut().from_key(&key) {
        RawEntryMut::Occupied(_entry) => Ok(()),
        RawEntryMut::Vacant(entry) if act == "put" => out.item(Some(entry.insert(key, by)?)),
        RawEntryMut::Vacant(entry) => { out.item(Some(entry.insert_hashed(Hashed::new(key), by)?)) }
    }
}

fn put_by_key_hashed<K: Key>(
    map: &mut UnorderedMap<K, i64>,
    key: Hashed<K>,
    act: &str,
    by: i64,
    out: &mut Out,
) -> Result<(), Fault> {
    if map.contains_key(key.key()) {
        return Ok(());
    }
    match map.raw_entry_mut().from_key_hashed(key.as_ref()) {
        RawEntryMut::Occupied(_entry) => Ok(()),
        RawEntryMut::Vacant(entry) if act == "put" => {
            out.item(Some(entry.insert(key.into_key(), by)?))
        }
        RawEntryMut::Vacant(entry) => {
            out.item(Some(entry.insert_hashed(Hashed::new(key.into_key()), by)?))
        }
    }
}

fn put_by_hash<K: Key>(
    map: &mut UnorderedMap<K, i64>,
    key: Hashed<K>,
    act: &str,
    by: i64,
    out: &mut Out,
) -> Result<(), Fault> {
    if map.contains_key(key.key()) {
        return Ok(());
    }
    let found = map
        .raw_entry_mut()
        .from_hash(key.hash(), |other: &K| *other == *key.key());
    match found {
        RawEntryMut::Occupied(_entry) => Ok(()),
        RawEntryMut::Vacant(entry) if act == "put" => {
            out.item(Some(entry.insert(key.into_key(), by)?))
        }
        RawEntryMut::Vacant(entry) => {
            out.item(Some(entry.insert_hashed(Hashed::new(key.into_key()), by)?))
        }
    }
}

/// HASH KEY: by a closure that accepts none, and notes the keys.
pub fn refuse<K: Key>(
    map: &mut UnorderedMap<K, i64>,
    mut words: Words<'_>,
    out: &mut Out,
) -> Result<(), Fault> {
    let key: Hashed<K> = words.hashed()?;
    let mut asked: Asked<K> = Asked::new(words.alloc);
    let found = map.raw_entry_mut().from_hash(key.hash(), |other: &K| {
        asked.note(other);
        false
    });
    match found {
        RawEntryMut::Occupied(_entry) => out.say("occupied")?,
        RawEntryMut::Vacant(_entry) => out.say("vacant")?,
    }
    write_sorted(asked.all()?, out)
}
