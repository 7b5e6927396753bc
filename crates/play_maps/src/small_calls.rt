//! The calls of a small map by key, by hash and by index.

use play_words::values::{raise, raised, remainder, write};
use play_words::walks::{all, cloned_ends, ends, forth};
use play_words::{Fault, Key, Out, Words};
use starlark_map::small_map::SmallMap;
use starlark_map::{Hashed, StarlarkHasher};
use std::hash::Hasher;

/// Makes a map, or room in it.
pub fn make<K: Key>(
    map: &mut SmallMap<K, i64>,
    op: &str,
    mut words: Words<'_>,
    out: &mut Out,
) -> Result<(), Fault> {
    match op {
        "cap" => {
            let count = words.count()?;
            *map = SmallMap::with_capacity(words.alloc, count)?;
            out.put(map.capacity() == count)
        }
        "from" => {
            *map = SmallMap::from_iter(words.alloc, words.pairs::<K>()?)?;
            out.put(map.len())
        }
        "extend" => {
            map.extend(words.pairs::<K>()?)?;
            out.put(map.len())
        }
        "reserve" => {
            let count = words.count()?;
            map.reserve(count)?;
            out.put(map.room() >= count)
        }
        _ => insert(map, op, words, out),
    }
}

// Puts an entry in, or writes a value.
fn insert<K: Key>(
    map: &mut SmallMap<K, i64>,
    op: &str,
    mut words: Words<'_>,
    out: &mut Out,
) -> Result<(), Fault> {
    match op {
        "insert" => {
            let (key, value) = words.pair()?;
            out.put(map.insert(key, value)?)
        }
        "put" => {
            let (key, value) = words.hashed_pair()?;
            out.put(map.insert_hashed(key, value)?)
        }
        "unique" => unique(map, words, out),
        "uniqueh" => unique_hashed(map, words, out),
        "write" => {
            let (key, by): (K, i64) = words.pair()?;
            write(map.get_mut(&key), by, out)
        }
        "writeh" => {
            let (key, by): (Hashed<K>, i64) = words.hashed_pair()?;
            write(map.get_mut_hashed(key.as_ref()), by, out)
        }
        _ => remove(map, op, words, out),
    }
}

fn unique<K: Key>(
    map: &mut SmallMap<K, i64>,
    mut words: Words<'_>,
    out: &mut Out,
) -> Result<(), Fault> {
    let (key, value): (K, i64) = words.pair()?;
    if map.contains_key(&key) {
        return out.say("there");
    }
    map.insert_unique_unchecked(key, value)?;
    out.say("ok")
}

fn unique_hashed<K: Key>(
    map: &mut SmallMap<K, i64>,
    mut words: Words<'_>,
    out: &mut Out,
) -> Result<(), Fault> {
    let (key, value): (Hashed<K>, i64) = words.hashed_pair()?;
    if map.contains_key_hashed(key.as_ref()) {
        return out.say("there");
    }
    map.insert_hashed_unique_unchecked(key, value)?;
    out.say("ok")
}

// Takes an entry out.
fn remove<K: Key>(
    map: &mut SmallMap<K, i64>,
    op: &str,
    mut words: Words<'_>,
    out: &mut Out,
) -> Result<(), Fault> {
    match op {
        "remove" => {
            let key: K = words.key()?;
            out.put(map.shift_remove(&key))
        }
        "take" => {
            let key: K = words.key()?;
            out.put(map.shift_remove_entry(&key))
        }
        "del" => {
            let key: Hashed<K> = words.hashed()?;
            out.put(map.shift_remove_hashed(key.as_ref()))
        }
        "takeh" => {
            let key: Hashed<K> = words.hashed()?;
            out.put(map.shift_remove_hashed_entry(key.as_ref()))
        }
        "removeat" => out.put(map.shift_remove_index(words.count()?)),
        "removeath" => out.put(map.shift_remove_index_hashed(words.count()?)),
        "pop" => out.put(map.pop()),
        "retain" => retain(map, words, out),
        "raise" => {
            let by = words.value()?;
            raise(map.values_mut(), by, out)
        }
        "ends" => ends_of(map, words, out),
        _ => look(map, op, words, out),
    }
}

// MORE BY REST: adds MORE to each value, and keeps those that leave another rest than REST.
fn retain<K: Key>(
    map: &mut SmallMap<K, i64>,
    mut words: Words<'_>,
    out: &mut Out,
) -> Result<(), Fault> {
    let more = words.value()?;
    let by = words.value()?;
    let rest = words.value()?;
    let mut calls = 0u64;
    map.retain(|_, value| {
        calls = calls.wrapping_add(1);
        *value = raised(*value, more);
        remainder(*value, by) != rest
    });
    out.put(calls)?;
    out.put(map.len())
}

// Looks a key up under its own hash.
fn find<K: Key>(map: &SmallMap<K, i64>, op: &str, key: K, out: &mut Out) -> Result<(), Fault> {
    match op {
        "get" => out.put(map.get(&key)),
        "full" => full(map.get_full(&key), out),
        "index" => out.put(map.get_index_of(&key)),
        _ => out.put(map.contains_key(&key)),
    }
}

// Looks a key up under a hash.
fn find_hashed<K: Key>(
    map: &SmallMap<K, i64>,
    op: &str,
    key: Hashed<K>,
    out: &mut Out,
) -> Result<(), Fault> {
    match op {
        "geth" => out.put(map.get_hashed(key.as_ref())),
        "fullh" => full(map.get_full_hashed(key.as_ref()), out),
        "indexh" => out.put(map.get_index_of_hashed(key.as_ref())),
        "hash" => out.put(map.contains_key_hashed(key.as_ref())),
        _ => find_by_value(map, op, key, out),
    }
}

fn find_by_value<K: Key>(
    map: &SmallMap<K, i64>,
    op: &str,
    key: Hashed<K>,
    out: &mut Out,
) -> Result<(), Fault> {
    match op {
        "getv" => out.put(map.get_hashed_by_value(key)),
        "indexv" => out.put(map.get_index_of_hashed_by_value(key)),
        "hashv" => out.put(map.contains_key_hashed_by_value(key)),
        "find" => out.put(map.find_by_hash(key.hash(), |other| *other == *key.key())),
        _ => Err(Fault::BadLine),
    }
}

// An entry, behind its index.
fn full<K: Key>(entry: Option<(usize, &K, &i64)>, out: &mut Out) -> Result<(), Fault> {
    match entry {
        None => out.say("none"),
        Some((index, key, value)) => {
            out.put(index)?;
            out.put((key, value))
        }
    }
}

// Looks at entries by their indices, or at the map as a whole.
fn look<K: Key>(
    map: &SmallMap<K, i64>,
    op: &str,
    mut words: Words<'_>,
    out: &mut Out,
) -> Result<(), Fault> {
    match op {
        "at" => out.put(map.get_index(words.count()?)),
        "first" => out.put(map.first()),
        "last" => out.put(map.last()),
        "len" => {
            out.put(map.len())?;
            out.put(map.is_empty())?;
            out.put(map.capacity() >= map.len())
        }
        "indexed" => out.put(map.index().is_some()),
        "hasho" => {
            let mut hasher = StarlarkHasher::new();
            map.hash_ordered(&mut hasher);
            out.put(hasher.finish())
        }
        "walk" => all(map.iter_hashed(), out),
        "debug" => out.debug(map),
        "get" | "full" | "index" | "has" => find(map, op, words.key()?, out),
        _ => find_hashed(map, op, words.hashed()?, out),
    }
}

// WALK STEPS
fn ends_of<K: Key>(
    map: &mut SmallMap<K, i64>,
    mut words: Words<'_>,
    out: &mut Out,
) -> Result<(), Fault> {
    let walk = words.word()?;
    let steps = words.word()?;
    match walk {
        "iter" => cloned_ends(map.iter(), steps, out),
        "hashed" => cloned_ends(map.iter_hashed(), steps, out),
        "mut" => ends(map.iter_mut(), steps, out),
        "keys" => forth(map.keys(), steps, out),
        "values" => forth(map.values(), steps, out),
        "valuesmut" => forth(map.values_mut(), steps, out),
        _ => ends_into(map.clone()?, walk, steps, out),
    }
}

fn ends_into<K: Key>(
    map: SmallMap<K, i64>,
    walk: &str,
    steps: &str,
    out: &mut Out,
) -> Result<(), Fault> {
    match walk {
        "into" => ends(map.into_iter(), steps, out),
        "intoh" => ends(map.into_iter_hashed(), steps, out),
        "intokeys" => forth(map.into_keys(), steps, out),
        "intovalues" => forth(map.into_values(), steps, out),
        _ => Err(Fault::BadLine),
    }
}
