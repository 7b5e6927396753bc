//! The workloads, on any map that can be asked for what they do. Each does one pass, and those that leave their map as it
//! is do a few in a row and answer the quickest, since the first finds little of it in the caches.

use crate::fault::Fault;
use crate::keys::{Key, places};
use crate::pass::{Pass, mix};
use crate::peer::{Asked, Listed, Roomy, Walked};
use std::alloc::Global;
use std::time::Instant;

/// How many operations a pass does, where nothing else is said.
pub const MILLION: usize = 1_000_000;

/// How many passes are done in a row on a map that stays as it is.
pub const PASSES: usize = 4;

// The map of these keys, each with its number in the stream as its value.
#[inline]
fn fill<K: Key, M: Asked<K>>(map: &mut M, block: &[K], first: u64) -> Result<(), Fault> {
    let mut number = first;
    for key in block {
        map.put(*key, K::of(number))?;
        number = number.wrapping_add(1);
    }
    Ok(())
}

// A map of the first `n` keys.
fn filled<K: Key, M: Asked<K>>(alloc: Global, keys: &[K], n: usize) -> Result<M, Fault> {
    let mut map = M::empty(alloc);
    fill(&mut map, keys.get(..n).unwrap_or(keys), 0)?;
    Ok(map)
}

/// Maps of `n` keys each, the first of the first `n` keys, and so on. Each begins with room for them, so that it lies in
/// memory as a clone does.
pub fn prepared<K: Key, M: Roomy<K>>(
    alloc: Global,
    keys: &[K],
    n: usize,
    count: usize,
) -> Result<Vec<M>, Fault> {
    let mut maps = Vec::with_capacity(alloc, count)?;
    let mut first = 0_u64;
    for block in keys.chunks(n.max(1)).take(count) {
        let mut map = M::with_room(alloc, n)?;
        fill(&mut map, block, first)?;
        maps.push(map)?;
        first = first.wrapping_add(n as u64);
    }
    Ok(maps)
}

// What a built map adds to the checksum.
#[inline]
fn built<K: Key, M: Walked<K>>(map: &M, checksum: u64, first: u64, n: usize) -> u64 {
    let last = map.last_or(first.wrapping_add(n as u64).wrapping_sub(1));
    mix(checksum, (map.entries() as u64).wrapping_add(last))
}

/// Builds maps of `n` keys, a million keys in all.
pub fn build<K: Key, M: Walked<K>>(rt: &HostRuntime, keys: &[K], n: usize) -> Result<Pass, Fault> {
    let start = Instant::now(rt)?;
    let mut checksum = 0;
    let mut first = 0_u64;
    for block in keys.chunks(n.max(1)).take(MILLION / n.max(1)) {
        let mut map = M::empty(rt.alloc());
        fill(&mut map, block, first)?;
        checksum = built(&map, checksum, first, n);
        first = first.wrapping_add(n as u64);
    }
    Pass::since(rt, start, checksum)
}

/// The same, each begun with room for its keys.
pub fn build_roomy<K: Key, M: Roomy<K>>(
    rt: &HostRuntime,
    keys: &[K],
    n: usize,
) -> Result<Pass, Fault> {
    let start = Instant::now(rt)?;
    let mut checksum = 0;
    let mut first = 0_u64;
    for block in keys.chunks(n.max(1)).take(MILLION / n.max(1)) {
        let mut map = M::with_room(rt.alloc(), n)?;
        fill(&mut map, block, first)?;
        checksum = built(&map, checksum, first, n);
        first = first.wrapping_add(n as u64);
    }
    Pass::since(rt, start, checksum)
}

/// Builds a million maps of the same `n` keys, all of which stand at the end.
pub fn hold<K: Key, M: Walked<K>>(rt: &HostRuntime, keys: &[K], n: usize) -> Result<Pass, Fault> {
    let block = keys.get(..n).unwrap_or(keys);
    let start = Instant::now(rt)?;
    let mut maps = Vec::with_capacity(rt.alloc(), MILLION)?;
    let mut checksum = 0;
    for _ in 0..MILLION {
        let mut map = M::empty(rt.alloc());
        fill(&mut map, block, 0)?;
        checksum = mix(checksum, map.entries() as u64);
        maps.push(map)?;
    }
    Pass::since(rt, start, checksum)
}

/// Builds maps of `n` keys, a million keys in all, of which only the lengths count.
pub fn insert<K: Key, M: Walked<K>>(rt: &HostRuntime, keys: &[K], n: usize) -> Result<Pass, Fault> {
    let start = Instant::now(rt)?;
    let mut checksum = 0;
    let mut first = 0_u64;
    for block in keys.chunks(n.max(1)).take(MILLION / n.max(1)) {
        let mut map = M::empty(rt.alloc());
        fill(&mut map, block, first)?;
        checksum = mix(checksum, map.entries() as u64);
        first = first.wrapping_add(n as u64);
    }
    Pass::since(rt, start, checksum)
}

// Adds up the values under these keys.
fn found<K: Key, M: Asked<K>>(
    rt: &HostRuntime,
    map: &M,
    queries: &[M::Query],
) -> Result<Pass, Fault> {
    let start = Instant::now(rt)?;
    let mut sum = 0_u64;
    for query in queries {
        if let Some(value) = map.at(query) {
            sum = sum.wrapping_add(value.number());
        }
    }
    Pass::since(rt, start, sum)
}

/// Looks up a million keys that are there, in a map of `n` keys.
pub fn hit<K: Key, M: Asked<K>>(rt: &HostRuntime, keys: &[K], n: usize) -> Result<Pass, Fault> {
    let map = filled::<K, M>(rt.alloc(), keys, n)?;
    let mut queries = Vec::with_capacity(rt.alloc(), MILLION)?;
    for place in places(rt.alloc(), n, MILLION)? {
        if let Some(key) = keys.get(place) {
            queries.push(M::query(*key))?;
        }
    }
    let mut best = found(rt, &map, &queries)?;
    for _ in 1..PASSES {
        best = best.or(found(rt, &map, &queries)?)?;
    }
    Ok(best)
}

// Counts the keys that are not there.
fn lacking<K: Key, M: Asked<K>>(
    rt: &HostRuntime,
    map: &M,
    queries: &[M::Query],
) -> Result<Pass, Fault> {
    let start = Instant::now(rt)?;
    let mut count = 0_u64;
    for query in queries {
        if map.at(query).is_none() {
            count = count.wrapping_add(1);
        }
    }
    Pass::since(rt, start, count)
}

/// Looks up a million keys that are not there, in a map of `n` keys.
pub fn miss<K: Key, M: Asked<K>>(rt: &HostRuntime, keys: &[K], n: usize) -> Result<Pass, Fault> {
    let map = filled::<K, M>(rt.alloc(), keys, n)?;
    let mut queries = Vec::with_capacity(rt.alloc(), MILLION)?;
    for key in keys.iter().skip(MILLION).take(MILLION) {
        queries.push(M::query(*key))?;
    }
    let mut best = lacking(rt, &map, &queries)?;
    for _ in 1..PASSES {
        best = best.or(lacking(rt, &map, &queries)?)?;
    }
    Ok(best)
}

// Adds up all keys and values, so many times over.
fn sums<K: Key, M: Walked<K>>(rt: &HostRuntime, map: &M, count: usize) -> Result<Pass, Fault> {
    let start = Instant::now(rt)?;
    let mut total = 0_u64;
    for _ in 0..count {
        total = total.wrapping_add(map.sum());
    }
    Pass::since(rt, start, total)
}

/// Walks a map of `n` keys, four million entries in all.
pub fn walk<K: Key, M: Walked<K>>(rt: &HostRuntime, keys: &[K], n: usize) -> Result<Pass, Fault> {
    let map = filled::<K, M>(rt.alloc(), keys, n)?;
    let count = 4 * MILLION / n.max(1);
    let mut best = sums(rt, &map, count)?;
    for _ in 1..PASSES {
        best = best.or(sums(rt, &map, count)?)?;
    }
    Ok(best)
}

/// Which entry `cycle` removes.
#[derive(Clone, Copy, Debug, PartialEq, Eq)]
pub enum Removed {
    First,
    Middle,
    Random,
}

impl Removed {
    // The places of the entries of so many turns.
    fn places(self, alloc: Global, n: usize, count: usize) -> Result<Vec<usize>, Fault> {
        let place = match self {
            Removed::First => 0,
            Removed::Middle => n / 2,
            Removed::Random => return Ok(places(alloc, n, count)?),
        };
        let mut same = Vec::with_capacity(alloc, count)?;
        same.resize(count, place)?;
        Ok(same)
    }
}

/// How often `cycle` turns at this length.
pub fn turns(n: usize) -> usize {
    if n < 1000 {
        200_000
    } else if n < 10_000 {
        20_000
    } else if n < 100_000 {
        2_000
    } else {
        200
    }
}

/// Removes an entry of a map of `n` keys and inserts it again under the next value, again and again.
pub fn cycle<K: Key, M: Listed<K>>(
    rt: &HostRuntime,
    removed: Removed,
    keys: &[K],
    n: usize,
) -> Result<Pass, Fault> {
    let mut map = M::with_room(rt.alloc(), n)?;
    fill(&mut map, keys.get(..n).unwrap_or(keys), 0)?;
    let places = removed.places(rt.alloc(), n, turns(n))?;
    let start = Instant::now(rt)?;
    let mut checksum = 0;
    for place in &places {
        if let Some(key) = map.key_at(*place) {
            if let Some(value) = map.take(&key) {
                map.put(key, K::of(value.number().wrapping_add(1)))?;
                checksum = mix(checksum, key.number().wrapping_add(value.number()));
            }
        }
    }
    Pass::since(rt, start, checksum)
}

// The keys that come to stand in the middle of a list of `n` keys, as each is removed and inserted again.
fn middles<K: Key>(alloc: Global, keys: &[K], n: usize) -> Result<Vec<K>, Fault> {
    let mut middles = Vec::with_capacity(alloc, turns(n))?;
    let rest = n.saturating_sub(n / 2).max(1);
    for turn in 0..turns(n) {
        if let Some(key) = keys.get((n / 2).saturating_add(turn % rest)) {
            middles.push(*key)?;
        }
    }
    Ok(middles)
}

/// Does with a map that has no places what `cycle` does in the middle of a list: it is asked for the same keys.
pub fn cycle_keys<K: Key, M: Walked<K>>(
    rt: &HostRuntime,
    keys: &[K],
    n: usize,
) -> Result<Pass, Fault> {
    let mut map = filled::<K, M>(rt.alloc(), keys, n)?;
    let middles = middles(rt.alloc(), keys, n)?;
    let start = Instant::now(rt)?;
    let mut checksum = 0;
    for key in &middles {
        if let Some(value) = map.take(key) {
            map.put(*key, K::of(value.number().wrapping_add(1)))?;
            checksum = mix(checksum, key.number().wrapping_add(value.number()));
        }
    }
    Pass::since(rt, start, checksum)
}

// Pops until no entry is left.
fn pop_one<K: Key, M: Listed<K>>(map: &mut M, checksum: u64) -> u64 {
    let mut checksum = checksum;
    for _ in 0..map.entries() {
        if let Some(value) = map.pop_value() {
            checksum = mix(checksum, value.number());
        }
    }
    checksum
}

/// Pops each entry of maps of `n` keys, a million keys in all.
pub fn pop<K: Key, M: Listed<K>>(rt: &HostRuntime, keys: &[K], n: usize) -> Result<Pass, Fault> {
    let mut maps = prepared::<K, M>(rt.alloc(), keys, n, MILLION / n.max(1))?;
    let start = Instant::now(rt)?;
    let mut checksum = 0;
    for map in &mut maps {
        checksum = pop_one(map, checksum);
    }
    Pass::since(rt, start, checksum)
}
