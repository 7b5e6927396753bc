//! The commands on an unordered map.

use crate::asked::write_sorted;
use crate::raw_maps::{raw, refuse};
use play_words::values::{self, finished, raised, remainder};
use play_words::walks::all;
use play_words::{Fault, Key, Out, Shown, Slot, Slots, Words, had, text_of};
use starlark_map::Hashed;
use starlark_map::unordered_map::{Entry, UnorderedMap};

/// Plays a command on the map in a slot.
pub fn play<K: Key>(
    maps: &mut Slots<UnorderedMap<K, i64>>,
    slot: Slot,
    op: &str,
    words: Words<'_>,
    out: &mut Out,
) -> Result<(), Fault> {
    match op {
        "eq" => maps.equal(slot, words, out),
        "clone" => copy(maps, slot, words, out),
        "map" => mapped(maps, slot, words, out),
        _ => change(maps.at_mut(slot), op, words, out),
    }
}

fn copy<K: Key>(
    maps: &mut Slots<UnorderedMap<K, i64>>,
    slot: Slot,
    mut words: Words<'_>,
    out: &mut Out,
) -> Result<(), Fault> {
    let made = maps.at(words.slot()?).clone();
    maps.set(slot, made, out)
}

// BY MORE SLOT: each value of the map in that slot, times BY, plus MORE.
fn mapped<K: Key>(
    maps: &mut Slots<UnorderedMap<K, i64>>,
    slot: Slot,
    mut words: Words<'_>,
    out: &mut Out,
) -> Result<(), Fault> {
    let by = words.value()?;
    let more = words.value()?;
    let from = maps.at(words.slot()?).clone()?;
    let mut calls = 0u64;
    let map = had(from.map_values(|value: i64| {
        calls = calls.wrapping_add(1);
        value.wrapping_mul(by).wrapping_add(more)
    }))?;
    *maps.at_mut(slot) = map;
    out.put(calls)
}

// Commands that change one pair, or make the map anew.
fn change<K: Key>(
    map: &mut UnorderedMap<K, i64>,
    op: &str,
    mut words: Words<'_>,
    out: &mut Out,
) -> Result<(), Fault> {
    match op {
        "new" => {
            *map = UnorderedMap::new(words.alloc);
            out.say("ok")
        }
        "cap" => {
            *map = UnorderedMap::with_capacity(words.alloc, words.count()?)?;
            out.put(map.len())
        }
        "from" => {
            *map = UnorderedMap::from_iter(words.alloc, words.pairs::<K>()?)?;
            out.put(map.len())
        }
        "insert" => {
            let (key, value) = words.pair()?;
            out.put(map.insert(key, value)?)
        }
        "remove" => {
            let key: K = words.key()?;
            out.put(map.remove(&key))
        }
        "removeq" => {
            let key: K = words.key()?;
            out.put(key.remove_from(map))
        }
        "entry" => entry(map, words, out),
        "write" => {
            let (key, by): (K, i64) = words.pair()?;
            values::write(map.get_mut(&key), by, out)
        }
        "clear" => {
            map.clear();
            out.put(map.len())
        }
        _ => change_all(map, op, words, out),
    }
}

fn entry<K: Key>(
    map: &mut UnorderedMap<K, i64>,
    mut words: Words<'_>,
    out: &mut Out,
) -> Result<(), Fault> {
    let key = words.key()?;
    let act = words.word()?;
    let by = words.value()?;
    match map.entry(key) {
        Entry::Occupied(mut entry) => {
            out.say("occupied")?;
            out.put(entry.get())?;
            match act {
                "get" | "put" => Ok(()),
                "set" => {
                    out.put(entry.insert(by))?;
                    out.put(entry.get())
                }
                "raise" => {
                    let value = entry.get_mut();
                    *value = raised(*value, by);
                    out.put(entry.get())
                }
                _ => Err(Fault::BadLine),
            }
        }
        Entry::Vacant(entry) => {
            out.say("vacant")?;
            if act == "put" {
                entry.insert(by)?;
            }
            Ok(())
        }
    }
}

// Commands by raw entries, and on all pairs.
fn change_all<K: Key>(
    map: &mut UnorderedMap<K, i64>,
    op: &str,
    mut words: Words<'_>,
    out: &mut Out,
) -> Result<(), Fault> {
    match op {
        "raw" => raw(map, words, out),
        "refuse" => refuse(map, words, out),
        "retain" => retain(map, words, out),
        "ending" => ending(map, words, out),
        "below" => below(map, words, out),
        "raise" => {
            let by = words.value()?;
            values::raise(map.values_unordered_mut(), by, out)
        }
        "raiseeach" => raise_each(map, words, out),
        "hints" => {
            hints(map, out)?;
            hints_mut(map, out)
        }
        _ => walk(map, op, words, out),
    }
}

fn retain<K: Key>(
    map: &mut UnorderedMap<K, i64>,
    mut words: Words<'_>,
    out: &mut Out,
) -> Result<(), Fault> {
    let more = words.value()?;
    let by = words.value()?;
    let rest = words.value()?;
    let mut calls = 0u64;
    map.retain(|_, value| {
        calls = calls.wrapping_add(1);
        *value = raised(*value, more);
        remainder(*value, by) != rest
    });
    out.put(calls)?;
    out.put(map.len())
}

// BY END: keeps the keys whose texts have this end, on a copy, since the texts need memory.
fn ending<K: Key>(
    map: &mut UnorderedMap<K, i64>,
    mut words: Words<'_>,
    out: &mut Out,
) -> Result<(), Fault> {
    let by = words.value()?;
    let end = words.word()?;
    let alloc = words.alloc;
    let mut kept = map.clone()?;
    let mut refused = false;
    kept.retain(|key, value| {
        *value = raised(*value, by);
        match text_of(key, alloc) {
            Ok(text) => text.as_str().ends_with(end),
            Err(_) => {
                refused = true;
                false
            }
        }
    });
    if refused {
        return Err(Fault::Memory);
    }
    *map = kept;
    out.put(map.len())
}

fn below<K: Key>(
    map: &mut UnorderedMap<K, i64>,
    mut words: Words<'_>,
    out: &mut Out,
) -> Result<(), Fault> {
    let key: K = words.key()?;
    map.retain(|other, _| *other < key);
    out.put(map.len())
}

// BY: raises each value by BY times the length of its key's text, on a copy, since the texts need memory.
fn raise_each<K: Key>(
    map: &mut UnorderedMap<K, i64>,
    mut words: Words<'_>,
    out: &mut Out,
) -> Result<(), Fault> {
    let by = words.value()?;
    let mut risen = map.clone()?;
    let walk = risen.entries_unordered_mut();
    out.put(walk.len())?;
    for (key, value) in walk {
        let length = text_of(key, words.alloc)?.len() as i64;
        *value = raised(*value, by.wrapping_mul(length));
    }
    *map = risen;
    Ok(())
}

// How many are left, before each item and after the last, of the walks that read.
fn hints<K: Key>(map: &UnorderedMap<K, i64>, out: &mut Out) -> Result<(), Fault> {
    let mut entries = map.entries_unordered();
    out.hint(entries.size_hint())?;
    while entries.next().is_some() {
        out.put(entries.len())?;
    }
    let mut keys = map.keys_unordered();
    while keys.next().is_some() {
        out.put(keys.len())?;
    }
    out.hint(keys.size_hint())?;
    let mut values = map.values_unordered();
    out.hint(values.size_hint())?;
    out.put(values.next().is_some())?;
    out.hint(values.size_hint())?;
    out.put(values.count())
}

// The same of the walks that write.
fn hints_mut<K: Key>(map: &mut UnorderedMap<K, i64>, out: &mut Out) -> Result<(), Fault> {
    let mut entries = map.entries_unordered_mut();
    out.hint(entries.size_hint())?;
    out.put(entries.nth(2).is_some())?;
    out.hint(entries.size_hint())?;
    out.put(entries.last().is_some())?;
    let mut values = map.values_unordered_mut();
    out.hint(values.size_hint())?;
    out.put(values.next().is_some())?;
    out.put(values.len())?;
    out.put(values.count())
}

// Commands that look at one pair, or at the map as a whole.
fn look<K: Key>(
    map: &UnorderedMap<K, i64>,
    op: &str,
    mut words: Words<'_>,
    out: &mut Out,
) -> Result<(), Fault> {
    match op {
        "get" => {
            let key: K = words.key()?;
            out.put(map.get(&key))
        }
        "getq" => {
            let key: K = words.key()?;
            out.put(key.value_in(map))
        }
        "geth" => {
            let key: Hashed<K> = words.hashed()?;
            out.put(map.get_hashed(key.as_ref()))
        }
        "has" => {
            let key: K = words.key()?;
            out.put(map.contains_key(&key))
        }
        "hash" => {
            let key: Hashed<K> = words.hashed()?;
            out.put(map.contains_key_hashed(key.as_ref()))
        }
        "index" => index(map, words, out),
        "len" => {
            out.put(map.len())?;
            out.put(map.is_empty())
        }
        "finish" => out.put(finished(map)),
        "debug" if map.len() < 2 => out.debug(map),
        "debug" => out.say("-"),
        _ => Err(Fault::BadLine),
    }
}

fn index<K: Key>(
    map: &UnorderedMap<K, i64>,
    mut words: Words<'_>,
    out: &mut Out,
) -> Result<(), Fault> {
    let key: K = words.key()?;
    if map.contains_key(&key) {
        out.put(map[&key])
    } else {
        out.say("none")
    }
}

// Walks, each by its count and then in ascending order.
fn walk<K: Key>(
    map: &UnorderedMap<K, i64>,
    op: &str,
    words: Words<'_>,
    out: &mut Out,
) -> Result<(), Fault> {
    match op {
        "keys" => ascending(map.keys_unordered(), words, out),
        "values" => ascending(map.values_unordered(), words, out),
        "entries" => ascending(map.entries_unordered(), words, out),
        "hashmap" => ascending(map.clone()?.into_hash_map()?.into_iter(), words, out),
        "walk" => all(map.entries_sorted()?.into_iter(), out),
        "texts" => texts(map, words, out),
        _ => look(map, op, words, out),
    }
}

fn ascending<I: ExactSizeIterator>(walk: I, words: Words<'_>, out: &mut Out) -> Result<(), Fault>
where
    I::Item: Ord + Shown + Drop,
    requires { I.can_next walk }
{
    out.put(walk.len())?;
    let mut items = Vec::new(words.alloc);
    for item in walk {
        items.push(item)?;
    }
    write_sorted(items, out)
}

// Each value as a text in angle brackets, by `map_values`.
fn texts<K: Key>(map: &UnorderedMap<K, i64>, words: Words<'_>, out: &mut Out) -> Result<(), Fault> {
    let alloc = words.alloc;
    let texts = had(
        map.clone()?
            .map_values(|value: i64| format!(in alloc; "<{value}>").ok()),
    )?;
    out.put(texts.len())?;
    for (key, text) in texts.entries_sorted()? {
        let Some(text) = text else {
            return Err(Fault::Memory);
        };
        out.put((key, text))?;
    }
    Ok(())
}
