//! The commands on a sorted set.

use play_words::values::finished;
use play_words::walks::{all, cloned_ends, ends, forth, hinted, part};
use play_words::{Fault, Key, Out, Slot, Slots, Words, had};
use starlark_map::ordered_set::OrderedSet;
use starlark_map::small_set::SmallSet;
use starlark_map::sorted_set::SortedSet;
use starlark_map::sorted_vec::SortedVec;

/// Plays a command on the set in a slot.
pub fn play<K: Key>(
    sets: &mut Slots<SortedSet<K>>,
    small: &Slots<SmallSet<K>>,
    ordered: &Slots<OrderedSet<K>>,
    vectors: &Slots<SortedVec<K>>,
    slot: Slot,
    op: &str,
    words: Words<'_>,
    out: &mut Out,
) -> Result<(), Fault> {
    match op {
        "eq" => sets.equal(slot, words, out),
        "cmp" => sets.compare(slot, words, out),
        "union" | "part" => union(sets, slot, op, words, out),
        "clone" => copy(sets, slot, words, out),
        "fromset" => from_small(sets.at_mut(slot), small, words, out),
        "fromordered" => from_ordered(sets.at_mut(slot), ordered, words, out),
        "unchecked" => unchecked(sets.at_mut(slot), ordered, words, out),
        "fromvec" => from_vector(sets.at_mut(slot), vectors, words, out),
        "new" => {
            *sets.at_mut(slot) = SortedSet::new(words.alloc);
            out.say("ok")
        }
        "from" => from(sets.at_mut(slot), words, out),
        _ => look(sets.at(slot), op, words, out),
    }
}

fn union<K: Key>(
    sets: &Slots<SortedSet<K>>,
    slot: Slot,
    op: &str,
    mut words: Words<'_>,
    out: &mut Out,
) -> Result<(), Fault> {
    let other = words.slot()?;
    let union = sets.at(slot).union(sets.at(other));
    match op {
        "union" => hinted(union, out),
        _ => part(union, words.word()?, out),
    }
}

fn copy<K: Key>(
    sets: &mut Slots<SortedSet<K>>,
    slot: Slot,
    mut words: Words<'_>,
    out: &mut Out,
) -> Result<(), Fault> {
    let made = sets.at(words.slot()?).clone();
    sets.set(slot, made, out)
}

fn from<K: Key>(set: &mut SortedSet<K>, words: Words<'_>, out: &mut Out) -> Result<(), Fault> {
    *set = SortedSet::from_iter(words.alloc, words.keys::<K>()?)?;
    out.put(set.len())
}

fn from_small<K: Key>(
    set: &mut SortedSet<K>,
    small: &Slots<SmallSet<K>>,
    mut words: Words<'_>,
    out: &mut Out,
) -> Result<(), Fault> {
    let from = small.at(words.slot()?).clone()?;
    *set = had(SortedSet::from_small_set(from))?;
    out.put(set.len())
}

fn from_ordered<K: Key>(
    set: &mut SortedSet<K>,
    ordered: &Slots<OrderedSet<K>>,
    mut words: Words<'_>,
    out: &mut Out,
) -> Result<(), Fault> {
    let from = ordered.at(words.slot()?).clone()?;
    *set = had(SortedSet::from_ordered_set(from))?;
    out.put(set.len())
}

fn from_vector<K: Key>(
    set: &mut SortedSet<K>,
    vectors: &Slots<SortedVec<K>>,
    mut words: Words<'_>,
    out: &mut Out,
) -> Result<(), Fault> {
    let from = vectors.at(words.slot()?).clone()?;
    *set = had(SortedSet::from_sorted_vec(from))?;
    out.put(set.len())
}

// SLOT: takes over an ordered set, which is to ascend.
fn unchecked<K: Key>(
    set: &mut SortedSet<K>,
    ordered: &Slots<OrderedSet<K>>,
    mut words: Words<'_>,
    out: &mut Out,
) -> Result<(), Fault> {
    let from = ordered.at(words.slot()?).clone()?;
    if !ascends(&from) {
        return out.say("unsorted");
    }
    *set = had(SortedSet::from_ordered_set(from))?;
    out.put(set.len())
}

fn ascends<K: Key>(set: &OrderedSet<K>) -> bool {
    let mut before: Option<&K> = None;
    for key in set.iter() {
        if let Some(before) = before
            && key < before
        {
            return false;
        }
        before = Some(key);
    }
    true
}

fn look<K: Key>(
    set: &SortedSet<K>,
    op: &str,
    mut words: Words<'_>,
    out: &mut Out,
) -> Result<(), Fault> {
    match op {
        "get" => {
            let key: K = words.key()?;
            out.put(set.get(&key))
        }
        "has" => {
            let key: K = words.key()?;
            out.put(set.contains(&key))
        }
        "at" => out.put(set.get_index(words.count()?)),
        "len" => {
            out.put(set.len())?;
            out.put(set.is_empty())
        }
        "hash" => out.put(finished(set)),
        "walk" => all(set.iter(), out),
        "ends" => ends_of(set, words, out),
        "debug" => out.debug(set),
        _ => Err(Fault::BadLine),
    }
}

// WALK STEPS
fn ends_of<K: Key>(set: &SortedSet<K>, mut words: Words<'_>, out: &mut Out) -> Result<(), Fault> {
    let walk = words.word()?;
    let steps = words.word()?;
    match walk {
        "iter" => forth(set.iter(), steps, out),
        "ref" => cloned_ends(set.into_iter(), steps, out),
        "into" => ends(set.clone()?.into_iter(), steps, out),
        _ => Err(Fault::BadLine),
    }
}
