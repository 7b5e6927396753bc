//! The commands on an ordered map.

use crate::ordered_entries::enter;
use play_words::values::{finished, raise, raised, write};
use play_words::walks::{all, cloned_ends, ends, forth};
use play_words::{Fault, Key, Out, Slot, Slots, Words};
use starlark_map::ordered_map::OrderedMap;
use starlark_map::small_map::SmallMap;

/// Plays a command on the map in a slot.
pub fn play<K: Key>(
    maps: &mut Slots<OrderedMap<K, i64>>,
    small: &Slots<SmallMap<K, i64>>,
    slot: Slot,
    op: &str,
    words: Words<'_>,
    out: &mut Out,
) -> Result<(), Fault> {
    match op {
        "eq" => maps.equal(slot, words, out),
        "cmp" => maps.compare(slot, words, out),
        "clone" => copy(maps, slot, words, out),
        "fromsmall" => from_small(maps.at_mut(slot), small, words, out),
        _ => change(maps.at_mut(slot), op, words, out),
    }
}

fn copy<K: Key>(
    maps: &mut Slots<OrderedMap<K, i64>>,
    slot: Slot,
    mut words: Words<'_>,
    out: &mut Out,
) -> Result<(), Fault> {
    let made = maps.at(words.slot()?).clone();
    maps.set(slot, made, out)
}

fn from_small<K: Key>(
    map: &mut OrderedMap<K, i64>,
    small: &Slots<SmallMap<K, i64>>,
    mut words: Words<'_>,
    out: &mut Out,
) -> Result<(), Fault> {
    let from = small.at(words.slot()?).clone()?;
    *map = OrderedMap::from(from);
    out.put(map.len())
}

fn change<K: Key>(
    map: &mut OrderedMap<K, i64>,
    op: &str,
    mut words: Words<'_>,
    out: &mut Out,
) -> Result<(), Fault> {
    match op {
        "new" => *map = OrderedMap::new(words.alloc),
        "cap" => *map = OrderedMap::with_capacity(words.alloc, words.count()?)?,
        "clear" => map.clear(),
        "sort" => map.sort_keys()?,
        "entry" => {
            let key = words.key()?;
            return enter(map, key, words, out);
        }
        "number" => return number(map, out),
        "ends" => return ends_of(map, words, out),
        _ => return insert(map, op, words, out),
    }
    out.say("ok")
}

fn insert<K: Key>(
    map: &mut OrderedMap<K, i64>,
    op: &str,
    mut words: Words<'_>,
    out: &mut Out,
) -> Result<(), Fault> {
    match op {
        "from" => {
            *map = OrderedMap::from_iter(words.alloc, words.pairs::<K>()?)?;
            out.put(map.len())
        }
        "extend" => {
            map.extend(words.pairs::<K>()?)?;
            out.put(map.len())
        }
        "insert" => {
            let (key, value) = words.pair()?;
            out.put(map.insert(key, value)?)
        }
        "remove" => {
            let key: K = words.key()?;
            out.put(map.remove(&key))
        }
        "write" => {
            let (key, by): (K, i64) = words.pair()?;
            write(map.get_mut(&key), by, out)
        }
        "raise" => {
            let by = words.value()?;
            raise(map.values_mut(), by, out)
        }
        _ => look(map, op, words, out),
    }
}

// Adds to each value its index, and then to each the length.
fn number<K: Key>(map: &mut OrderedMap<K, i64>, out: &mut Out) -> Result<(), Fault> {
    let mut index = 0i64;
    for (_, value) in map.iter_mut() {
        *value = raised(*value, index);
        index = raised(index, 1);
    }
    for (_, value) in &mut *map {
        *value = raised(*value, index);
    }
    out.put(index)
}

fn look<K: Key>(
    map: &OrderedMap<K, i64>,
    op: &str,
    mut words: Words<'_>,
    out: &mut Out,
) -> Result<(), Fault> {
    match op {
        "get" => {
            let key: K = words.key()?;
            out.put(map.get(&key))
        }
        "at" => out.put(map.get_index(words.count()?)),
        "index" => {
            let key: K = words.key()?;
            out.put(map.get_index_of(&key))
        }
        "has" => {
            let key: K = words.key()?;
            out.put(map.contains_key(&key))
        }
        "len" => {
            out.put(map.len())?;
            out.put(map.is_empty())
        }
        "hash" => out.put(finished(map)),
        "walk" => all(map.iter_hashed(), out),
        "debug" => out.debug(map),
        _ => Err(Fault::BadLine),
    }
}

// WALK STEPS
fn ends_of<K: Key>(
    map: &mut OrderedMap<K, i64>,
    mut words: Words<'_>,
    out: &mut Out,
) -> Result<(), Fault> {
    let walk = words.word()?;
    let steps = words.word()?;
    match walk {
        "iter" => cloned_ends(map.iter(), steps, out),
        "ref" => cloned_ends((&*map).into_iter(), steps, out),
        "hashed" => cloned_ends(map.iter_hashed(), steps, out),
        "mut" => ends(map.iter_mut(), steps, out),
        "into" => ends(map.clone()?.into_iter(), steps, out),
        "keys" => forth(map.keys(), steps, out),
        "values" => forth(map.values(), steps, out),
        "valuesmut" => forth(map.values_mut(), steps, out),
        _ => Err(Fault::BadLine),
    }
}
