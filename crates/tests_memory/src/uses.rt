//! Visits, scores, words, a build graph, a cache, an interner and scopes: each of their calls succeeds where memory is there.

use crate::given::gives;
use starlark_dict::Dict;
use starlark_map::ordered_set::OrderedSet;
use starlark_map::small_map::SmallMap;
use starlark_map::unordered_map::UnorderedMap;
use starlark_uses::build::{Targets, declare, depend};
use starlark_uses::cache::Cache;
use starlark_uses::interner::Interner;
use starlark_uses::scopes::Scopes;
use starlark_uses::scores::{note, note_any, note_name, note_unordered};
use starlark_uses::value::Value;
use starlark_uses::visits::{Visits, put, record_first_visit, record_named, record_visit};
use starlark_uses::words::{count_of, tally_of};
use std::alloc::{AllocError, Global};

// The times of three pages, and how many pages with names there are.
fn visits(alloc: Global) -> Result<([Option<u32>; 3], usize), AllocError> {
    let mut visits: Visits = SmallMap::new(alloc);
    record_first_visit(&mut visits, 8, 80)?;
    record_visit(&mut visits, 3, 30)?;
    put(&mut visits, 9, 90)?;
    let mut named = SmallMap::new(alloc);
    record_named(&mut named, String::from_str(alloc, "home")?, 5)?;
    let (first, second) = (visits.get(&8).copied(), visits.get(&3).copied());
    Ok(([first, second, visits.get(&9).copied()], named.len()))
}

#[test]
fn notes_visits(rt: HostRuntime) {
    gives(
        &rt,
        visits(rt.alloc()),
        visits(rt.alloc()),
        ([Some(80), Some(30), Some(90)], 1),
    );
}

// A score under a number, under a key of any type, under a name, and in a map without order.
fn scores(alloc: Global) -> Result<[Option<u64>; 4], AllocError> {
    let mut numbered = SmallMap::new(alloc);
    note(&mut numbered, 7, 50)?;
    let mut any = SmallMap::new(alloc);
    note_any(&mut any, 7u8, 60)?;
    let mut named = SmallMap::new(alloc);
    note_name(&mut named, String::from_str(alloc, "a")?, 70)?;
    let mut unordered = UnorderedMap::new(alloc);
    note_unordered(&mut unordered, 7, 90)?;
    let (first, second) = (numbered.get(&7).copied(), any.get(&7).copied());
    let (third, last) = (named.get("a").copied(), unordered.get(&7u32).copied());
    Ok([first, second, third, last])
}

#[test]
fn notes_scores(rt: HostRuntime) {
    gives(
        &rt,
        scores(rt.alloc()),
        scores(rt.alloc()),
        [Some(50), Some(60), Some(70), Some(90)],
    );
}

fn words(alloc: Global) -> Result<(u64, u64, usize), AllocError> {
    let tally = tally_of(alloc, "one fish  two fish\nred fish ")?;
    Ok((
        count_of(&tally, "fish"),
        count_of(&tally, "blue"),
        tally.len(),
    ))
}

#[test]
fn counts_words(rt: HostRuntime) {
    gives(&rt, words(rt.alloc()), words(rt.alloc()), (3, 0, 4));
}

// How many dependencies the targets 5 and 2 have.
fn built(alloc: Global) -> Result<(Option<usize>, Option<usize>), AllocError> {
    let mut targets: Targets = SmallMap::new(alloc);
    declare(alloc, &mut targets, 5)?;
    declare(alloc, &mut targets, 2)?;
    depend(&mut targets, 5, 2)?;
    Ok((
        targets.get(&5).map(|on| on.len()),
        targets.get(&2).map(|on| on.len()),
    ))
}

#[test]
fn declares_targets(rt: HostRuntime) {
    gives(
        &rt,
        built(rt.alloc()),
        built(rt.alloc()),
        (Some(1), Some(0)),
    );
}

// What is cached for the set of 1 and 2, and the numbers of "x", "y" and "x" again.
fn cached(alloc: Global) -> Result<(Option<u32>, [usize; 3]), AllocError> {
    let mut cache = Cache::new(alloc);
    cache.put(OrderedSet::from_iter(alloc, [1u32, 2])?, 12)?;
    let set = OrderedSet::from_iter(alloc, [1u32, 2])?;
    let mut interner = Interner::new(alloc);
    let numbers = [
        interner.intern("x")?,
        interner.intern("y")?,
        interner.intern("x")?,
    ];
    Ok((cache.get(&set).copied(), numbers))
}

#[test]
fn caches_and_interns(rt: HostRuntime) {
    gives(
        &rt,
        cached(rt.alloc()),
        cached(rt.alloc()),
        (Some(12), [0, 1, 0]),
    );
}

fn bound(alloc: Global) -> Result<(Option<i64>, usize), AllocError> {
    let mut scopes: Scopes<i64> = Scopes::new(alloc);
    scopes.assign(String::from_str(alloc, "x")?, 1)?;
    scopes.enter()?;
    scopes.assign(String::from_str(alloc, "x")?, 2)?;
    Ok((scopes.get("x").copied(), scopes.depth()))
}

#[test]
fn binds_names(rt: HostRuntime) {
    gives(&rt, bound(rt.alloc()), bound(rt.alloc()), (Some(2), 1));
}

// A dictionary with two keys, of which one is set twice, and a copy from which the other is deleted: how many values the
// dictionary is made of, and its copy then; and whether the two are equal before, and then.
fn keyed(alloc: Global) -> Result<(u64, u64, bool, bool), AllocError> {
    let mut value = Value::Dict(Dict::new(alloc));
    value.set_key(String::from_str(alloc, "width")?, Value::Int(80))?;
    value.set_key(String::from_str(alloc, "depth")?, Value::Int(3))?;
    value.set_key(String::from_str(alloc, "width")?, Value::Int(40))?;
    let mut copy = value.copy(alloc)?;
    let same = copy == value;
    copy.delete_key("depth");
    Ok((value.count(), copy.count(), same, copy == value))
}

#[test]
fn sets_and_copies_keys(rt: HostRuntime) {
    gives(
        &rt,
        keyed(rt.alloc()),
        keyed(rt.alloc()),
        (3, 2, true, false),
    );
}
