//! Pair lists.

use play_words::values::{finished, raised, remainder, sieve};
use play_words::walks::{all, cloned_ends, ends};
use play_words::{Fault, Key, Out, Slot, Slots, Words};
use starlark_map::vec2::Vec2;

type List<K> = Vec2<K, i64>;

pub fn play<K: Key>(
    lists: &mut Slots<Vec2<K, i64>>,
    slot: Slot,
    op: &str,
    words: Words<'_>,
    out: &mut Out,
) -> Result<(), Fault> {
    match op {
        "eq" => lists.equal(slot, words, out),
        "clone" => copy(lists, slot, words, out),
        _ => one(lists.at_mut(slot), op, words, out),
    }
}

fn copy<K: Key>(
    lists: &mut Slots<Vec2<K, i64>>,
    slot: Slot,
    mut words: Words<'_>,
    out: &mut Out,
) -> Result<(), Fault> {
    let made = lists.at(words.slot()?).clone();
    lists.set(slot, made, out)
}

fn one<K: Key>(
    list: &mut Vec2<K, i64>,
    op: &str,
    words: Words<'_>,
    out: &mut Out,
) -> Result<(), Fault> {
    match op {
        "new" => new(list, words, out),
        "cap" => cap(list, words, out),
        "from" => from(list, words, out),
        "extend" => extend(list, words, out),
        "reserve" => reserve(list, words, out),
        "push" => push(list, words, out),
        "pop" => out.put(list.pop()),
        "get" => get(list, words, out),
        "set" => set(list, words, out),
        "removeat" => remove_at(list, words, out),
        "first" => out.put(list.first()),
        "last" => out.put(list.last()),
        "len" => len(list, out),
        "clear" => clear(list, out),
        "truncate" => truncate(list, words, out),
        "shrink" => shrink(list, out),
        "retain" => retain(list, words, out),
        "sort" => sort(list, out),
        "sortby" => sort_by(list, words, out),
        "walk" => all((&*list).into_iter(), out),
        "ends" => walk_ends(list, words, out),
        "debug" => out.debug(list),
        "hash" => out.put(finished(list)),
        _ => Err(Fault::BadLine),
    }
}

fn new<K: Key>(list: &mut List<K>, words: Words<'_>, out: &mut Out) -> Result<(), Fault> {
    *list = Vec2::new(words.alloc);
    out.say("ok")
}

fn cap<K: Key>(list: &mut List<K>, mut words: Words<'_>, out: &mut Out) -> Result<(), Fault> {
    let count = words.count()?;
    *list = Vec2::with_capacity(words.alloc, count)?;
    out.put(list.capacity() == count)
}

fn from<K: Key>(list: &mut List<K>, words: Words<'_>, out: &mut Out) -> Result<(), Fault> {
    *list = Vec2::from_iter(words.alloc, words.pairs()?)?;
    out.put(list.len())?;
    out.put(list.capacity() == list.len())
}

fn extend<K: Key>(list: &mut List<K>, words: Words<'_>, out: &mut Out) -> Result<(), Fault> {
    list.extend(words.pairs()?)?;
    out.put(list.len())
}

fn reserve<K: Key>(list: &mut List<K>, mut words: Words<'_>, out: &mut Out) -> Result<(), Fault> {
    let count = words.count()?;
    list.reserve(count)?;
    out.put(list.capacity() >= list.len().wrapping_add(count))
}

fn push<K: Key>(list: &mut List<K>, mut words: Words<'_>, out: &mut Out) -> Result<(), Fault> {
    let (key, value) = words.pair()?;
    list.push(key, value)?;
    out.put(list.len())
}

fn get<K: Key>(list: &List<K>, mut words: Words<'_>, out: &mut Out) -> Result<(), Fault> {
    out.put(list.get(words.count()?))
}

fn set<K: Key>(list: &mut List<K>, mut words: Words<'_>, out: &mut Out) -> Result<(), Fault> {
    let place = words.count()?;
    let (key, value) = words.pair()?;
    match list.get_mut(place) {
        None => out.say("none"),
        Some((first, second)) => {
            out.put((&*first, &*second))?;
            *first = key;
            *second = value;
            Ok(())
        }
    }
}

fn remove_at<K: Key>(list: &mut List<K>, mut words: Words<'_>, out: &mut Out) -> Result<(), Fault> {
    let place = words.count()?;
    if place < list.len() {
        out.put(list.remove(place))
    } else {
        out.say("none")
    }
}

fn len<K: Key>(list: &List<K>, out: &mut Out) -> Result<(), Fault> {
    out.put(list.len())?;
    out.put(list.is_empty())?;
    out.put(list.capacity() >= list.len())
}

fn clear<K: Key>(list: &mut List<K>, out: &mut Out) -> Result<(), Fault> {
    let before = list.capacity();
    list.clear();
    out.put(list.capacity() == before)
}

fn truncate<K: Key>(list: &mut List<K>, mut words: Words<'_>, out: &mut Out) -> Result<(), Fault> {
    list.truncate(words.count()?);
    out.put(list.len())
}

fn shrink<K: Key>(list: &mut List<K>, out: &mut Out) -> Result<(), Fault> {
    list.shrink_to_fit()?;
    out.put(list.capacity() == list.len())
}

fn retain<K: Key>(list: &mut List<K>, mut words: Words<'_>, out: &mut Out) -> Result<(), Fault> {
    let by = words.number()?;
    let rest = words.number()?;
    let more = words.value()?;
    let mut calls = 0u64;
    list.retain(|_, value| {
        *value = raised(*value, more);
        sieve(by, rest, &mut calls)
    });
    out.put(calls)?;
    out.put(list.len())
}

fn sort<K: Key>(list: &mut List<K>, out: &mut Out) -> Result<(), Fault> {
    list.sort_by(|first, second| first.cmp(&second))?;
    out.say("ok")
}

fn sort_by<K: Key>(list: &mut List<K>, mut words: Words<'_>, out: &mut Out) -> Result<(), Fault> {
    let by = words.value()?;
    list.sort_by(|first, second| remainder(*first.1, by).cmp(&remainder(*second.1, by)))?;
    out.say("ok")
}

fn walk_ends<K: Key>(list: &List<K>, mut words: Words<'_>, out: &mut Out) -> Result<(), Fault> {
    let kind = words.word()?;
    let steps = words.word()?;
    match kind {
        "iter" => cloned_ends(list.iter(), steps, out),
        "into" => ends(list.clone()?.into_iter(), steps, out),
        _ => Err(Fault::BadLine),
    }
}
