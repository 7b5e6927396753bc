//! The commands on a small map.

use crate::small_calls::make;
use crate::small_entries::enter;
use play_words::{Fault, Key, Out, Slot, Slots, Words};
use starlark_map::small_map::SmallMap;
use starlark_map::smallmap;

/// Plays a command on the map in a slot.
pub fn play<K: Key>(
    maps: &mut Slots<SmallMap<K, i64>>,
    slot: Slot,
    op: &str,
    words: Words<'_>,
    out: &mut Out,
) -> Result<(), Fault> {
    match op {
        "eq" => equal(maps, slot, words, out),
        "clone" => copy(maps, slot, words, out),
        _ => change(maps.at_mut(slot), op, words, out),
    }
}

fn equal<K: Key>(
    maps: &Slots<SmallMap<K, i64>>,
    slot: Slot,
    mut words: Words<'_>,
    out: &mut Out,
) -> Result<(), Fault> {
    let other = maps.at(words.slot()?);
    out.put(maps.at(slot) == other)?;
    out.put(maps.at(slot).eq_ordered(other))
}

fn copy<K: Key>(
    maps: &mut Slots<SmallMap<K, i64>>,
    slot: Slot,
    mut words: Words<'_>,
    out: &mut Out,
) -> Result<(), Fault> {
    let made = maps.at(words.slot()?).clone();
    maps.set(slot, made, out)
}

// Commands that say `ok`, and those on an entry or a text.
fn change<K: Key>(
    map: &mut SmallMap<K, i64>,
    op: &str,
    mut words: Words<'_>,
    out: &mut Out,
) -> Result<(), Fault> {
    match op {
        "new" => *map = SmallMap::new(words.alloc),
        "rev" => map.reverse(),
        "sort" => map.sort_keys()?,
        "clear" => map.clear(),
        "slim" => map.maybe_drop_index(),
        "macro" => return two(map, words, out),
        "entry" => {
            let key = words.hashed()?;
            return enter(map, key, words, out);
        }
        "parse" => return K::read_map(map, words.rest(), words.alloc, out),
        "json" => return K::write_map(map, words.alloc, out),
        _ => return make(map, op, words, out),
    }
    out.say("ok")
}

// KEY VALUE KEY VALUE: the map of these two, by the macro.
fn two<K: Key>(
    map: &mut SmallMap<K, i64>,
    mut words: Words<'_>,
    out: &mut Out,
) -> Result<(), Fault> {
    let (first, value): (K, i64) = words.pair()?;
    let (second, last): (K, i64) = words.pair()?;
    *map = smallmap![words.alloc; first => value, second => last]?;
    out.put(map.len())
}
