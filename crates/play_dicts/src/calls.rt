//! The calls of one dictionary.

use crate::entries::enter;
use play_words::values::{raise, raised, remainder, write};
use play_words::walks::{all, cloned_ends, ends, forth};
use play_words::{Fault, Key, Out, Words};
use starlark_dict::{Dict, dict};
use starlark_hash::{Hashed, StarlarkHasher};
use std::hash::Hasher;

/// Plays a command that changes the dictionary, or looks at it.
pub fn change<K: Key>(
    dict: &mut Dict<K, i64>,
    op: &str,
    mut words: Words<'_>,
    out: &mut Out,
) -> Result<(), Fault> {
    match op {
        "new" => *dict = Dict::new(words.alloc),
        "rev" => dict.reverse(),
        "sort" => dict.sort_keys()?,
        "clear" => dict.clear(),
        "cap" => {
            let count = words.count()?;
            *dict = Dict::with_capacity(words.alloc, count)?;
            return out.put(dict.capacity() == count);
        }
        "reserve" => {
            let count = words.count()?;
            dict.reserve(count)?;
            return out.put(dict.room() >= count);
        }
        "entry" => {
            let key = words.key()?;
            return enter(dict, key, words, out);
        }
        _ => return make(dict, op, words, out),
    }
    out.say("ok")
}

// Makes a dictionary of pairs, or puts them in.
fn make<K: Key>(
    dict: &mut Dict<K, i64>,
    op: &str,
    words: Words<'_>,
    out: &mut Out,
) -> Result<(), Fault> {
    match op {
        "from" => *dict = Dict::from_iter(words.alloc, words.pairs::<K>()?)?,
        "extend" => dict.extend(words.pairs::<K>()?)?,
        "macro" => *dict = two(words)?,
        "small" => *dict = Dict::from_small_map(dict.clone()?.into_small_map()),
        _ => return put(dict, op, words, out),
    }
    out.put(dict.len())
}

// KEY VALUE KEY VALUE: the dictionary of these two, by the macro.
fn two<K: Key>(mut words: Words<'_>) -> Result<Dict<K, i64>, Fault> {
    let (first, value): (K, i64) = words.pair()?;
    let (second, last): (K, i64) = words.pair()?;
    Ok(dict![words.alloc; first => value, second => last]?)
}

// Puts a pair in, writes values, or takes entries out that no key names.
fn put<K: Key>(
    dict: &mut Dict<K, i64>,
    op: &str,
    mut words: Words<'_>,
    out: &mut Out,
) -> Result<(), Fault> {
    match op {
        "insert" => {
            let (key, value) = words.pair()?;
            out.put(dict.insert(key, value)?)
        }
        "write" => {
            let (key, by): (K, i64) = words.pair()?;
            write(dict.get_mut(&key), by, out)
        }
        "writeh" => {
            let (key, by): (K, i64) = words.pair()?;
            write(dict.get_mut_hashed(Hashed::new(&key)), by, out)
        }
        "raise" => {
            let by = words.value()?;
            raise(dict.values_mut(), by, out)
        }
        "number" => number(dict, out),
        "pop" => out.put(dict.pop()),
        "retain" => retain(dict, words, out),
        "remove" | "del" | "take" | "takeh" => remove(dict, op, words.key()?, out),
        "ends" => ends_of(dict, words, out),
        _ => look(dict, op, words, out),
    }
}

// Adds to each value its index, and then to each the length.
fn number<K: Key>(dict: &mut Dict<K, i64>, out: &mut Out) -> Result<(), Fault> {
    let mut index = 0i64;
    for (_, value) in dict.iter_mut() {
        *value = raised(*value, index);
        index = raised(index, 1);
    }
    for (_, value) in &mut *dict {
        *value = raised(*value, index);
    }
    out.put(index)
}

// MORE BY REST: adds MORE to each value, and keeps those that leave another rest than REST.
fn retain<K: Key>(
    dict: &mut Dict<K, i64>,
    mut words: Words<'_>,
    out: &mut Out,
) -> Result<(), Fault> {
    let more = words.value()?;
    let by = words.value()?;
    let rest = words.value()?;
    let mut calls = 0u64;
    dict.retain(|_, value| {
        calls = calls.wrapping_add(1);
        *value = raised(*value, more);
        remainder(*value, by) != rest
    });
    out.put(calls)?;
    out.put(dict.len())
}

// Takes a key out.
fn remove<K: Key>(dict: &mut Dict<K, i64>, op: &str, key: K, out: &mut Out) -> Result<(), Fault> {
    match op {
        "remove" => out.put(dict.shift_remove(&key)),
        "del" => out.put(dict.shift_remove_hashed(Hashed::new(&key))),
        "take" => out.put(dict.shift_remove_entry(&key)),
        _ => out.put(dict.shift_remove_hashed_entry(Hashed::new(&key))),
    }
}

// Looks at entries by their indices, or at the dictionary as a whole.
fn look<K: Key>(
    dict: &Dict<K, i64>,
    op: &str,
    mut words: Words<'_>,
    out: &mut Out,
) -> Result<(), Fault> {
    match op {
        "at" => out.put(dict.get_index(words.count()?)),
        "first" => out.put(dict.first()),
        "last" => out.put(dict.last()),
        "len" => {
            out.put(dict.len())?;
            out.put(dict.is_empty())?;
            out.put(dict.capacity() >= dict.len())
        }
        "hasho" => {
            let mut hasher = StarlarkHasher::new();
            dict.hash_ordered(&mut hasher);
            out.put(hasher.finish())
        }
        "walk" => all(dict.as_small_map().iter_hashed(), out),
        "debug" => out.debug(dict),
        _ => find(dict, op, words.key()?, out),
    }
}

// Looks a key up.
fn find<K: Key>(dict: &Dict<K, i64>, op: &str, key: K, out: &mut Out) -> Result<(), Fault> {
    match op {
        "get" => out.put(dict.get(&key)),
        "geth" => out.put(dict.get_hashed(Hashed::new(&key))),
        "has" => out.put(dict.contains_key(&key)),
        "hash" => out.put(dict.contains_key_hashed(Hashed::new(&key))),
        "index" => out.put(dict.get_index_of(&key)),
        "indexh" => out.put(dict.get_index_of_hashed(Hashed::new(&key))),
        "full" => full(dict.get_full(&key), out),
        "fullh" => full(dict.get_full_hashed(Hashed::new(&key)), out),
        _ => Err(Fault::BadLine),
    }
}

// An entry, behind its index.
fn full<K: Key>(entry: Option<(usize, &K, &i64)>, out: &mut Out) -> Result<(), Fault> {
    match entry {
        None => out.say("none"),
        Some((index, key, value)) => {
            out.put(index)?;
            out.put((key, value))
        }
    }
}

// WALK STEPS
fn ends_of<K: Key>(
    dict: &mut Dict<K, i64>,
    mut words: Words<'_>,
    out: &mut Out,
) -> Result<(), Fault> {
    let walk = words.word()?;
    let steps = words.word()?;
    match walk {
        "iter" => cloned_ends(dict.iter(), steps, out),
        "ref" => cloned_ends((&*dict).into_iter(), steps, out),
        "mut" => ends(dict.iter_mut(), steps, out),
        "keys" => forth(dict.keys(), steps, out),
        "values" => forth(dict.values(), steps, out),
        "valuesmut" => forth(dict.values_mut(), steps, out),
        "into" => ends(dict.clone()?.into_iter(), steps, out),
        "intokeys" => forth(dict.clone()?.into_keys(), steps, out),
        "intovalues" => forth(dict.clone()?.into_values(), steps, out),
        _ => Err(Fault::BadLine),
    }
}
