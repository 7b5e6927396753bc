//! The commands on a sorted vector.

use play_words::values::finished;
use play_words::walks::{all, cloned_ends, ends};
use play_words::{Fault, Key, Out, Slot, Slots, Words, had};
use starlark_map::sorted_vec::SortedVec;

/// Plays a command on the vector in a slot.
pub fn play<K: Key>(
    vectors: &mut Slots<SortedVec<K>>,
    slot: Slot,
    op: &str,
    words: Words<'_>,
    out: &mut Out,
) -> Result<(), Fault> {
    match op {
        "eq" => vectors.equal(slot, words, out),
        "cmp" => vectors.compare(slot, words, out),
        "clone" => copy(vectors, slot, words, out),
        "new" | "from" | "fromvec" | "unchecked" => make(vectors.at_mut(slot), op, words, out),
        "hash" => out.put(finished(vectors.at(slot))),
        "walk" => all(vectors.at(slot).iter(), out),
        "ends" => ends_of(vectors.at(slot), words, out),
        "debug" => out.debug(vectors.at(slot)),
        _ => Err(Fault::BadLine),
    }
}

fn copy<K: Key>(
    vectors: &mut Slots<SortedVec<K>>,
    slot: Slot,
    mut words: Words<'_>,
    out: &mut Out,
) -> Result<(), Fault> {
    let made = vectors.at(words.slot()?).clone();
    vectors.set(slot, made, out)
}

fn make<K: Key>(
    vector: &mut SortedVec<K>,
    op: &str,
    words: Words<'_>,
    out: &mut Out,
) -> Result<(), Fault> {
    match op {
        "new" => {
            *vector = SortedVec::new(words.alloc);
            out.say("ok")
        }
        "from" => {
            *vector = SortedVec::from_iter(words.alloc, words.keys::<K>()?)?;
            out.put(vector.iter().len())
        }
        "fromvec" => {
            *vector = had(SortedVec::from_vec(words.keys::<K>()?))?;
            out.put(vector.iter().len())
        }
        _ => unchecked(vector, words, out),
    }
}

// KEY..: takes over keys that ascend. Their sort, which then changes nothing, proves that they do.
fn unchecked<K: Key>(
    vector: &mut SortedVec<K>,
    words: Words<'_>,
    out: &mut Out,
) -> Result<(), Fault> {
    let mut keys = words.keys::<K>()?;
    if !keys.is_sorted() {
        return out.say("unsorted");
    }
    keys.sort()?;
    *vector = SortedVec::new_unchecked(keys);
    out.put(vector.iter().len())
}

// WALK STEPS
fn ends_of<K: Key>(
    vector: &SortedVec<K>,
    mut words: Words<'_>,
    out: &mut Out,
) -> Result<(), Fault> {
    let walk = words.word()?;
    let steps = words.word()?;
    match walk {
        "iter" => cloned_ends(vector.iter(), steps, out),
        "into" => ends(vector.clone()?.into_iter(), steps, out),
        _ => Err(Fault::BadLine),
    }
}
