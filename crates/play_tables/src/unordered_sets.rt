//! The commands on an unordered set.

use crate::raw_sets::{raw, refuse};
use play_words::walks::all;
use play_words::{Fault, Key, Out, Slot, Slots, Words};
use starlark_map::Hashed;
use starlark_map::unordered_set::UnorderedSet;

/// Plays a command on the set in a slot.
pub fn play<K: Key>(
    sets: &mut Slots<UnorderedSet<K>>,
    slot: Slot,
    op: &str,
    words: Words<'_>,
    out: &mut Out,
) -> Result<(), Fault> {
    match op {
        "eq" => sets.equal(slot, words, out),
        "clone" => copy(sets, slot, words, out),
        _ => change(sets.at_mut(slot), op, words, out),
    }
}

fn copy<K: Key>(
    sets: &mut Slots<UnorderedSet<K>>,
    slot: Slot,
    mut words: Words<'_>,
    out: &mut Out,
) -> Result<(), Fault> {
    let made = sets.at(words.slot()?).clone();
    sets.set(slot, made, out)
}

fn change<K: Key>(
    set: &mut UnorderedSet<K>,
    op: &str,
    mut words: Words<'_>,
    out: &mut Out,
) -> Result<(), Fault> {
    match op {
        "new" => {
            *set = UnorderedSet::new(words.alloc);
            out.say("ok")
        }
        "cap" => {
            *set = UnorderedSet::with_capacity(words.alloc, words.count()?)?;
            out.put(set.len())
        }
        "from" => {
            *set = UnorderedSet::from_iter(words.alloc, words.keys::<K>()?)?;
            out.put(set.len())
        }
        "insert" => {
            let key = words.key()?;
            out.put(set.insert(key)?)
        }
        "raw" => raw(set, words, out),
        "refuse" => refuse(set, words, out),
        "clear" => {
            set.clear();
            out.put(set.len())
        }
        _ => look(set, op, words, out),
    }
}

fn look<K: Key>(
    set: &UnorderedSet<K>,
    op: &str,
    mut words: Words<'_>,
    out: &mut Out,
) -> Result<(), Fault> {
    match op {
        "has" => {
            let key: K = words.key()?;
            out.put(set.contains(&key))
        }
        "hash" => {
            let key: Hashed<K> = words.hashed()?;
            out.put(set.contains_hashed(key.as_ref()))
        }
        "len" => {
            out.put(set.len())?;
            out.put(set.is_empty())
        }
        "walk" => all(set.entries_sorted()?.into_iter(), out),
        "debug" if set.len() < 2 => out.debug(set),
        "debug" => out.say("-"),
        _ => Err(Fault::BadLine),
    }
}
