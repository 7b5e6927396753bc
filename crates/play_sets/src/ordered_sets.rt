//! The commands on an ordered set.

use play_words::values::finished;
use play_words::walks::{all, cloned_ends, ends, hinted};
use play_words::{Fault, Key, Out, Slot, Slots, Words};
use starlark_map::ordered_set::OrderedSet;
use starlark_map::small_set::SmallSet;
use starlark_map::{Hashed, TryInsertError};

/// Plays a command on the set in a slot.
pub fn play<K: Key>(
    sets: &mut Slots<OrderedSet<K>>,
    small: &Slots<SmallSet<K>>,
    slot: Slot,
    op: &str,
    words: Words<'_>,
    out: &mut Out,
) -> Result<(), Fault> {
    match op {
        "eq" => sets.equal(slot, words, out),
        "cmp" => sets.compare(slot, words, out),
        "union" => union(sets, slot, words, out),
        "clone" => copy(sets, slot, words, out),
        "fromset" => from_small(sets.at_mut(slot), small, words, out),
        _ => change(sets.at_mut(slot), op, words, out),
    }
}

fn union<K: Key>(
    sets: &Slots<OrderedSet<K>>,
    slot: Slot,
    mut words: Words<'_>,
    out: &mut Out,
) -> Result<(), Fault> {
    let other = words.slot()?;
    hinted(sets.at(slot).union(sets.at(other)), out)
}

fn copy<K: Key>(
    sets: &mut Slots<OrderedSet<K>>,
    slot: Slot,
    mut words: Words<'_>,
    out: &mut Out,
) -> Result<(), Fault> {
    let made = sets.at(words.slot()?).clone();
    sets.set(slot, made, out)
}

fn from_small<K: Key>(
    set: &mut OrderedSet<K>,
    small: &Slots<SmallSet<K>>,
    mut words: Words<'_>,
    out: &mut Out,
) -> Result<(), Fault> {
    let from = small.at(words.slot()?).clone()?;
    *set = OrderedSet::from(from);
    out.put(set.len())
}

fn change<K: Key>(
    set: &mut OrderedSet<K>,
    op: &str,
    mut words: Words<'_>,
    out: &mut Out,
) -> Result<(), Fault> {
    match op {
        "new" => *set = OrderedSet::new(words.alloc),
        "cap" => *set = OrderedSet::with_capacity(words.alloc, words.count()?)?,
        "clear" => set.clear(),
        "sort" => set.sort()?,
        "reverse" => set.reverse(),
        _ => return insert(set, op, words, out),
    }
    out.say("ok")
}

fn insert<K: Key>(
    set: &mut OrderedSet<K>,
    op: &str,
    mut words: Words<'_>,
    out: &mut Out,
) -> Result<(), Fault> {
    match op {
        "from" => {
            *set = OrderedSet::from_iter(words.alloc, words.keys::<K>()?)?;
            out.put(set.len())
        }
        "extend" => {
            set.extend(words.keys::<K>()?)?;
            out.put(set.len())
        }
        "insert" => {
            let key = words.key()?;
            out.put(set.insert(key)?)
        }
        "unique" => unique(set, words, out),
        "try" => try_insert(set, words, out),
        "take" => {
            let key: K = words.key()?;
            out.put(set.take(&key))
        }
        _ => look(set, op, words, out),
    }
}

fn unique<K: Key>(
    set: &mut OrderedSet<K>,
    mut words: Words<'_>,
    out: &mut Out,
) -> Result<(), Fault> {
    let key: K = words.key()?;
    if set.contains(&key) {
        return out.say("there");
    }
    set.insert_unique_unchecked(key)?;
    out.say("ok")
}

fn try_insert<K: Key>(
    set: &mut OrderedSet<K>,
    mut words: Words<'_>,
    out: &mut Out,
) -> Result<(), Fault> {
    let key = words.key()?;
    match set.try_insert(key) {
        Ok(()) => out.say("ok"),
        Err(TryInsertError::Occupied(error)) => {
            out.say("occupied")?;
            out.put(&error.value)?;
            out.put(error.occupied)
        }
        Err(TryInsertError::Memory(_)) => Err(Fault::Memory),
    }
}

fn find<K: Key>(set: &OrderedSet<K>, op: &str, key: K, out: &mut Out) -> Result<(), Fault> {
    match op {
        "get" => out.put(set.get(&key)),
        "has" => out.put(set.contains(&key)),
        "index" => out.put(set.get_index_of(&key)),
        _ => Err(Fault::BadLine),
    }
}

fn look<K: Key>(
    set: &OrderedSet<K>,
    op: &str,
    mut words: Words<'_>,
    out: &mut Out,
) -> Result<(), Fault> {
    match op {
        "at" => out.put(set.get_index(words.count()?)),
        "first" => out.put(set.first()),
        "last" => out.put(set.last()),
        "len" => {
            out.put(set.len())?;
            out.put(set.is_empty())
        }
        "hash" => out.put(finished(set)),
        "walk" => all(set.into_iter(), out),
        "walkh" => all(set.iter_hashed(), out),
        "ends" => ends_of(set, words, out),
        "debug" => out.debug(set),
        "hashed" => {
            let key: Hashed<K> = words.hashed()?;
            out.put(set.contains_hashed(key.as_ref()))
        }
        _ => find(set, op, words.key()?, out),
    }
}

// WALK STEPS
fn ends_of<K: Key>(set: &OrderedSet<K>, mut words: Words<'_>, out: &mut Out) -> Result<(), Fault> {
    let walk = words.word()?;
    let steps = words.word()?;
    match walk {
        "iter" => cloned_ends(set.iter(), steps, out),
        "hashed" => ends(set.iter_hashed(), steps, out),
        "into" => ends(set.clone()?.into_iter(), steps, out),
        _ => Err(Fault::BadLine),
    }
}
