//! The dictionaries of a script.

use crate::calls::change;
use play_words::{Call, Fault, Key, Out, Slot, Slots, Words};
use starlark_dict::Dict;
use std::alloc::Global;

/// The dictionaries of a script, four of them.
pub type Dicts<K> = Slots<Dict<K, i64>>;

/// Empty ones.
pub fn new<K: Key>(alloc: Global) -> Dicts<K> {
    Slots::new(
        Dict::new(alloc),
        Dict::new(alloc),
        Dict::new(alloc),
        Dict::new(alloc),
    )
}

/// Plays a command on the dictionary in a slot.
pub fn play<K: Key>(dicts: &mut Dicts<K>, call: Call<'_>, out: &mut Out) -> Result<(), Fault> {
    let Call {
        slot,
        op,
        words,
        ..
    } = call;
    match op {
        "eq" => equal(dicts, slot, words, out),
        "clone" => copy(dicts, slot, words, out),
        _ => change(dicts.at_mut(slot), op, words, out),
    }
}

fn equal<K: Key>(
    dicts: &Dicts<K>,
    slot: Slot,
    mut words: Words<'_>,
    out: &mut Out,
) -> Result<(), Fault> {
    let other = dicts.at(words.slot()?);
    out.put(dicts.at(slot) == other)?;
    out.put(dicts.at(slot).eq_ordered(other))
}

fn copy<K: Key>(
    dicts: &mut Dicts<K>,
    slot: Slot,
    mut words: Words<'_>,
    out: &mut Out,
) -> Result<(), Fault> {
    let made = dicts.at(words.slot()?).clone();
    dicts.set(slot, made, out)
}
