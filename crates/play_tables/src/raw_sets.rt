//! Raw entries of an unordered set.

use crate::asked::{Asked, right, write_sorted};
use play_words::{Fault, Key, Out, Words};
use starlark_map::Hashed;
use starlark_map::unordered_set::{RawEntryMut, UnorderedSet};

/// HOW HASH KEY ACT: names a place by the key, by key and hash, or by the hash and a closure that compares the key, and
/// does something there. The last word says whether the closure was asked about keys of that hash alone, about each once.
pub fn raw<K: Key>(
    set: &mut UnorderedSet<K>,
    mut words: Words<'_>,
    out: &mut Out,
) -> Result<(), Fault> {
    let how = words.word()?;
    let key: Hashed<K> = words.hashed()?;
    let act = words.word()?;
    let told = if how == "hash" {
        told(set, &key, words)?
    } else {
        "right"
    };
    match act {
        "set" => replace(set, how, key, out)?,
        "take" => take(set, how, &key, out)?,
        "put" | "puth" => put(set, how, key, act, out)?,
        _ => return Err(Fault::BadLine),
    }
    out.say(told)
}

// Whether a closure that compares the key is asked as it is to be.
fn told<K: Key>(
    set: &mut UnorderedSet<K>,
    key: &Hashed<K>,
    words: Words<'_>,
) -> Result<&'static str, Fault> {
    let mut asked: Asked<K> = Asked::new(words.alloc);
    drop(
        set.raw_entry_mut().from_hash(key.hash(), |other: &K| {
            asked.note(other);
            *other == *key.key()
        }),
    );
    Ok(right(asked.all()?.as_slice(), key.hash()))
}

// The place of the key.
fn find<'a, K: Key>(
    set: &'a mut UnorderedSet<K>,
    how: &str,
    key: &Hashed<K>,
) -> RawEntryMut<'a, K> {
    match how {
        "key" => set.raw_entry_mut().from_entry(key.key()),
        "keyh" => set.raw_entry_mut().from_entry_hashed(key.as_ref()),
        _ => set
            .raw_entry_mut()
            .from_hash(key.hash(), |other: &K| *other == *key.key()),
    }
}

fn take<K: Key>(
    set: &mut UnorderedSet<K>,
    how: &str,
    key: &Hashed<K>,
    out: &mut Out,
) -> Result<(), Fault> {
    match find(set, how, key) {
        RawEntryMut::Occupied(entry) => {
            out.say("occupied")?;
            out.put(entry.remove())
        }
        RawEntryMut::Vacant(_entry) => out.say("vacant"),
    }
}

// Puts the element in the place of the one that is there.
fn replace<K: Key>(
    set: &mut UnorderedSet<K>,
    how: &str,
    key: Hashed<K>,
    out: &mut Out,
) -> Result<(), Fault> {
    if matches!(find(set, how, &key), RawEntryMut::Vacant(_)) {
        return out.say("vacant");
    }
    let key = key.into_key();
    match set.raw_entry_mut().from_entry(&key) {
        RawEntryMut::Occupied(mut entry) => {
            out.say("occupied")?;
            out.put(entry.insert(key))
        }
        RawEntryMut::Vacant(_entry) => out.say("vacant"),
    }
}

fn put<K: Key>(
    set: &mut UnorderedSet<K>,
    how: &str,
    key: Hashed<K>,
    act: &str,
    out: &mut Out,
) -> Result<(), Fault> {
    if set.contains(key.key()) {
        let there = matches!(find(set, how, &key), RawEntryMut::Occupied(_));
        return out.say(if there { "occupied" } else { "vacant" });
    }
    out.say("vacant")?;
    match how {
        "key" => put_by_key(set, key.into_key(), act),
        "keyh" => put_by_key_hashed(set, key, act),
        _ => put_by_hash(set, key, act),
    }
}

fn put_by_key<K: Key>(set: &mut UnorderedSet<K>, key: K, act: &str) -> Result<(), Fault> {
    match set.raw_entry_mut().from_entry(&key) {
        RawEntryMut::Occupied(_entry) => {}
        RawEntryMut::Vacant(entry) if act == "put" => entry.insert(key)?,
        RawEntryMut::Vacant(entry) => entry.insert_hashed(Hashed::new(key))?,
    }
    Ok(())
}

fn put_by_key_hashed<K: Key>(
    set: &mut UnorderedSet<K>,
    key: Hashed<K>,
    act: &str,
) -> Result<(), Fault> {
    if set.contains(key.key()) {
        return Ok(());
    }
    match set.raw_entry_mut().from_entry_hashed(key.as_ref()) {
        RawEntryMut::Occupied(_entry) => {}
        RawEntryMut::Vacant(entry) if act == "put" => entry.insert(key.into_key())?,
        RawEntryMut::Vacant(entry) => entry.insert_hashed(Hashed::new(key.into_key()))?,
    }
    Ok(())
}

fn put_by_hash<K: Key>(set: &mut UnorderedSet<K>, key: Hashed<K>, act: &str) -> Result<(), Fault> {
    if set.contains(key.key()) {
        return Ok(());
    }
    let found = set
        .raw_entry_mut()
        .from_hash(key.hash(), |other: &K| *other == *key.key());
    match found {
        RawEntryMut::Occupied(_entry) => {}
        RawEntryMut::Vacant(entry) if act == "put" => entry.insert(key.into_key())?,
        RawEntryMut::Vacant(entry) => entry.insert_hashed(Hashed::new(key.into_key()))?,
    }
    Ok(())
}

/// HASH KEY: by a closure that accepts none, and notes the keys.
pub fn refuse<K: Key>(
    set: &mut UnorderedSet<K>,
    mut words: Words<'_>,
    out: &mut Out,
) -> Result<(), Fault> {
    let key: Hashed<K> = words.hashed()?;
    let mut asked: Asked<K> = Asked::new(words.alloc);
    let found = set.raw_entry_mut().from_hash(key.hash(), |other: &K| {
        asked.note(other);
        false
    });
    match found {
        RawEntryMut::Occupied(_entry) => out.say("occupied")?,
        RawEntryMut::Vacant(_entry) => out.say("vacant")?,
    }
    write_sorted(asked.all()?, out)
}
