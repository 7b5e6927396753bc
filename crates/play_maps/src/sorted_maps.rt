//! The commands on a sorted map.

use play_words::values::{finished, raise, raised, write};
use play_words::walks::{all, cloned_ends, ends, forth};
use play_words::{Fault, Key, Out, Slot, Slots, Words, had};
use starlark_map::ordered_map::OrderedMap;
use starlark_map::small_map::SmallMap;
use starlark_map::sorted_map::SortedMap;

/// Plays a command on the map in a slot.
pub fn play<K: Key>(
    maps: &mut Slots<SortedMap<K, i64>>,
    small: &Slots<SmallMap<K, i64>>,
    ordered: &Slots<OrderedMap<K, i64>>,
    slot: Slot,
    op: &str,
    words: Words<'_>,
    out: &mut Out,
) -> Result<(), Fault> {
    match op {
        "eq" => maps.equal(slot, words, out),
        "cmp" => maps.compare(slot, words, out),
        "clone" => copy(maps, slot, words, out),
        "fromsmall" => from_small(maps.at_mut(slot), small, words, out),
        "fromordered" => from_ordered(maps.at_mut(slot), ordered, words, out),
        _ => change(maps.at_mut(slot), op, words, out),
    }
}

fn copy<K: Key>(
    maps: &mut Slots<SortedMap<K, i64>>,
    slot: Slot,
    mut words: Words<'_>,
    out: &mut Out,
) -> Result<(), Fault> {
    let made = maps.at(words.slot()?).clone();
    maps.set(slot, made, out)
}

fn from_small<K: Key>(
    map: &mut SortedMap<K, i64>,
    small: &Slots<SmallMap<K, i64>>,
    mut words: Words<'_>,
    out: &mut Out,
) -> Result<(), Fault> {
    let from = small.at(words.slot()?).clone()?;
    *map = had(SortedMap::from_small_map(from))?;
    out.put(map.len())
}

fn from_ordered<K: Key>(
    map: &mut SortedMap<K, i64>,
    ordered: &Slots<OrderedMap<K, i64>>,
    mut words: Words<'_>,
    out: &mut Out,
) -> Result<(), Fault> {
    let from = ordered.at(words.slot()?).clone()?;
    *map = had(SortedMap::from_ordered_map(from))?;
    out.put(map.len())
}

fn change<K: Key>(
    map: &mut SortedMap<K, i64>,
    op: &str,
    mut words: Words<'_>,
    out: &mut Out,
) -> Result<(), Fault> {
    match op {
        "new" => {
            *map = SortedMap::new(words.alloc);
            out.say("ok")
        }
        "from" => {
            *map = SortedMap::from_iter(words.alloc, words.pairs::<K>()?)?;
            out.put(map.len())
        }
        "write" => {
            let (key, by): (K, i64) = words.pair()?;
            write(map.get_mut(&key), by, out)
        }
        "raise" => {
            let by = words.value()?;
            raise(map.values_mut(), by, out)
        }
        "number" => number(map, out),
        "ends" => ends_of(map, words, out),
        _ => look(map, op, words, out),
    }
}

// Adds to each value its index, and then to each the length.
fn number<K: Key>(map: &mut SortedMap<K, i64>, out: &mut Out) -> Result<(), Fault> {
    let mut index = 0i64;
    for (_, value) in map.iter_mut() {
        *value = raised(*value, index);
        index = raised(index, 1);
    }
    for (_, value) in &mut *map {
        *value = raised(*value, index);
    }
    out.put(index)
}

fn look<K: Key>(
    map: &SortedMap<K, i64>,
    op: &str,
    mut words: Words<'_>,
    out: &mut Out,
) -> Result<(), Fault> {
    match op {
        "get" => {
            let key: K = words.key()?;
            out.put(map.get(&key))
        }
        "has" => {
            let key: K = words.key()?;
            out.put(map.contains_key(&key))
        }
        "len" => {
            out.put(map.len())?;
            out.put(map.is_empty())
        }
        "hash" => out.put(finished(map)),
        "walk" => all(map.iter_hashed(), out),
        "debug" => out.debug(map),
        _ => Err(Fault::BadLine),
    }
}

// WALK STEPS
fn ends_of<K: Key>(
    map: &mut SortedMap<K, i64>,
    mut words: Words<'_>,
    out: &mut Out,
) -> Result<(), Fault> {
    let walk = words.word()?;
    let steps = words.word()?;
    match walk {
        "iter" => forth(map.iter(), steps, out),
        "ref" => cloned_ends((&*map).into_iter(), steps, out),
        "hashed" => cloned_ends(map.iter_hashed(), steps, out),
        "mut" => ends((&mut *map).into_iter(), steps, out),
        "into" => ends(map.clone()?.into_iter(), steps, out),
        "keys" => forth(map.keys(), steps, out),
        "values" => forth(map.values(), steps, out),
        "valuesmut" => forth(map.values_mut(), steps, out),
        _ => Err(Fault::BadLine),
    }
}
