//! The commands on a small set.

use play_words::values::sieve;
use play_words::walks::{all, cloned_ends, ends, hinted};
use play_words::{Fault, Key, Out, Slot, Slots, Words};
use starlark_map::small_set::SmallSet;
use starlark_map::{Hashed, StarlarkHasher, smallset};
use std::hash::Hasher;

/// Plays a command on the set in a slot.
pub fn play<K: Key>(
    sets: &mut Slots<SmallSet<K>>,
    slot: Slot,
    op: &str,
    words: Words<'_>,
    out: &mut Out,
) -> Result<(), Fault> {
    match op {
        "eq" | "union" | "diff" => meet(sets, slot, op, words, out),
        "clone" => copy(sets, slot, words, out),
        _ => change(sets.at_mut(slot), op, words, out),
    }
}

fn meet<K: Key>(
    sets: &Slots<SmallSet<K>>,
    slot: Slot,
    op: &str,
    mut words: Words<'_>,
    out: &mut Out,
) -> Result<(), Fault> {
    let set = sets.at(slot);
    let other = sets.at(words.slot()?);
    match op {
        "union" => hinted(set.union(other), out),
        "diff" => hinted(set.difference(other), out),
        _ => {
            out.put(set == other)?;
            out.put(set.eq_ordered(other))
        }
    }
}

fn copy<K: Key>(
    sets: &mut Slots<SmallSet<K>>,
    slot: Slot,
    mut words: Words<'_>,
    out: &mut Out,
) -> Result<(), Fault> {
    let made = sets.at(words.slot()?).clone();
    sets.set(slot, made, out)
}

// Commands on all elements.
fn change<K: Key>(
    set: &mut SmallSet<K>,
    op: &str,
    words: Words<'_>,
    out: &mut Out,
) -> Result<(), Fault> {
    match op {
        "new" => *set = SmallSet::new(words.alloc),
        "sort" => set.sort()?,
        "reverse" => set.reverse(),
        "clear" => return clear(set, out),
        "retain" => return retain(set, words, out),
        "below" => return below(set, words, out),
        _ => return make(set, op, words, out),
    }
    out.say("ok")
}

fn clear<K: Key>(set: &mut SmallSet<K>, out: &mut Out) -> Result<(), Fault> {
    let before = set.capacity();
    set.clear();
    out.put(set.capacity() == before)
}

// Commands that make the set anew, or put many elements in.
fn make<K: Key>(
    set: &mut SmallSet<K>,
    op: &str,
    mut words: Words<'_>,
    out: &mut Out,
) -> Result<(), Fault> {
    match op {
        "cap" => {
            let count = words.count()?;
            *set = SmallSet::with_capacity(words.alloc, count)?;
            out.put(set.capacity() == count)
        }
        "macro" => three(set, words, out),
        "from" => {
            *set = SmallSet::from_iter(words.alloc, words.keys::<K>()?)?;
            out.put(set.len())
        }
        "fromh" => {
            *set = SmallSet::from_iter_hashed(words.alloc, words.all_hashed::<K>()?)?;
            out.put(set.len())
        }
        "parse" => K::read_set(set, words.rest(), words.alloc, out),
        "reserve" => {
            let count = words.count()?;
            set.reserve(count)?;
            out.put(set.capacity() >= set.len().wrapping_add(count))
        }
        "extend" => {
            set.extend(words.keys::<K>()?)?;
            out.put(set.len())
        }
        _ => insert(set, op, words, out),
    }
}

// KEY KEY KEY: the set of these three, by the macro.
fn three<K: Key>(set: &mut SmallSet<K>, mut words: Words<'_>, out: &mut Out) -> Result<(), Fault> {
    let first: K = words.key()?;
    let second: K = words.key()?;
    let third: K = words.key()?;
    *set = smallset![words.alloc; first, second, third]?;
    out.put(set.len())
}

fn insert<K: Key>(
    set: &mut SmallSet<K>,
    op: &str,
    mut words: Words<'_>,
    out: &mut Out,
) -> Result<(), Fault> {
    match op {
        "insert" => {
            let key = words.key()?;
            out.put(set.insert(key)?)
        }
        "inserth" => {
            let key = words.hashed()?;
            out.put(set.insert_hashed(key)?)
        }
        "unique" => unique(set, words, out),
        "uniqueh" => unique_hashed(set, words, out),
        "goi" => {
            let key = words.key()?;
            out.put(set.get_or_insert(key)?)
        }
        "goio" => {
            let key: K = words.key()?;
            out.put(key.own_in(set)?)
        }
        _ => remove(set, op, words, out),
    }
}

fn unique<K: Key>(set: &mut SmallSet<K>, mut words: Words<'_>, out: &mut Out) -> Result<(), Fault> {
    let key: K = words.key()?;
    if set.contains(&key) {
        return out.say("there");
    }
    set.insert_unique_unchecked(key)?;
    out.say("ok")
}

fn unique_hashed<K: Key>(
    set: &mut SmallSet<K>,
    mut words: Words<'_>,
    out: &mut Out,
) -> Result<(), Fault> {
    let key: Hashed<K> = words.hashed()?;
    if set.contains_hashed(key.as_ref()) {
        return out.say("there");
    }
    set.insert_hashed_unique_unchecked(key)?;
    out.say("ok")
}

fn remove<K: Key>(
    set: &mut SmallSet<K>,
    op: &str,
    mut words: Words<'_>,
    out: &mut Out,
) -> Result<(), Fault> {
    match op {
        "remove" => {
            let key: K = words.key()?;
            out.put(set.shift_remove(&key))
        }
        "removeh" => {
            let key: Hashed<K> = words.hashed()?;
            out.put(set.shift_remove_hashed(key.as_ref()))
        }
        "removeat" => out.put(set.shift_remove_index(words.count()?)),
        "removeath" => out.put(set.shift_remove_index_hashed(words.count()?)),
        "take" => {
            let key: K = words.key()?;
            out.put(set.take(&key))
        }
        "pop" => out.put(set.pop()),
        _ => look(set, op, words, out),
    }
}

// BY REST: asks of each element whether the number of the call leaves another rest than REST.
fn retain<K: Key>(set: &mut SmallSet<K>, mut words: Words<'_>, out: &mut Out) -> Result<(), Fault> {
    let by = words.number()?;
    let rest = words.number()?;
    let mut calls = 0u64;
    set.retain(|_| sieve(by, rest, &mut calls));
    out.put(calls)?;
    out.put(set.len())
}

fn below<K: Key>(set: &mut SmallSet<K>, mut words: Words<'_>, out: &mut Out) -> Result<(), Fault> {
    let key: K = words.key()?;
    set.retain(|element| *element < key);
    out.put(set.len())
}

fn find<K: Key>(set: &SmallSet<K>, op: &str, key: K, out: &mut Out) -> Result<(), Fault> {
    match op {
        "get" => out.put(set.get(&key)),
        "index" => out.put(set.get_index_of(&key)),
        "indexq" => out.put(key.place_in(set)),
        _ => out.put(set.contains(&key)),
    }
}

fn find_hashed<K: Key>(
    set: &SmallSet<K>,
    op: &str,
    key: Hashed<K>,
    out: &mut Out,
) -> Result<(), Fault> {
    match op {
        "geth" => out.put(set.get_hashed(key.as_ref())),
        "indexh" => out.put(set.get_index_of_hashed(key.as_ref())),
        "indexv" => out.put(set.get_index_of_hashed_by_value(key)),
        "hash" => out.put(set.contains_hashed(key.as_ref())),
        _ => Err(Fault::BadLine),
    }
}

fn look<K: Key>(
    set: &SmallSet<K>,
    op: &str,
    mut words: Words<'_>,
    out: &mut Out,
) -> Result<(), Fault> {
    match op {
        "at" => out.put(set.get_index(words.count()?)),
        "first" => out.put(set.first()),
        "last" => out.put(set.last()),
        "len" => {
            out.put(set.len())?;
            out.put(set.is_empty())?;
            out.put(set.capacity() >= set.len())
        }
        "hasho" => {
            let mut hasher = StarlarkHasher::new();
            set.hash_ordered(&mut hasher);
            out.put(hasher.finish())
        }
        "hashed" => {
            let hashed = set.clone()?.hashed();
            out.put(hashed.hash().get())
        }
        "walk" => all(set.iter_hashed(), out),
        "ends" => ends_of(set, words, out),
        "debug" => out.debug(set),
        "json" => K::write_set(set, words.alloc, out),
        "get" | "index" | "indexq" | "has" => find(set, op, words.key()?, out),
        _ => find_hashed(set, op, words.hashed()?, out),
    }
}

// WALK STEPS
fn ends_of<K: Key>(set: &SmallSet<K>, mut words: Words<'_>, out: &mut Out) -> Result<(), Fault> {
    let walk = words.word()?;
    let steps = words.word()?;
    match walk {
        "iter" => cloned_ends(set.iter(), steps, out),
        "hashed" => ends(set.iter_hashed(), steps, out),
        "into" => ends(set.clone()?.into_iter(), steps, out),
        "intoh" => ends(set.clone()?.into_iter_hashed(), steps, out),
        _ => Err(Fault::BadLine),
    }
}
