//! The workloads, on any map from texts to numbers. Each does one pass, and those that leave their map as it is do a few
//! in a row and answer the quickest.

use super::made::{Texts, drawn, rules};
use super::map::{Asks, TextMap};
use crate::fault::Fault;
use crate::pass::{Pass, mix};
pub use crate::workloads::{MILLION, PASSES};
use starlark_hash::StarlarkHashValue;
use std::alloc::Global;
use std::time::Instant;

// The map of the first texts, each with its place as its number.
fn numbered<'a, M: TextMap<'a>>(alloc: Global, texts: &'a [String], n: usize) -> Result<M, Fault> {
    let mut map = M::empty(alloc);
    let mut number = 0_u64;
    for text in texts.iter().take(n) {
        map.put(alloc, text.as_str(), number)?;
        number = number.wrapping_add(1);
    }
    Ok(map)
}

// What the map is asked by, for each of these texts.
fn asked<'a, M: TextMap<'a>, Q: Asks<'a, M>>(
    alloc: Global,
    texts: &[&'a str],
) -> Result<Vec<Q>, Fault> {
    let mut asked = Vec::with_capacity(alloc, texts.len())?;
    for text in texts {
        asked.push(Q::of(*text))?;
    }
    Ok(asked)
}

// The sum after what the map has under each of these, and 1 for each that is not there.
#[inline(always)]
fn found<'a, M: TextMap<'a>, Q: Asks<'a, M>>(map: &M, asked: &[Q], sum: u64) -> u64 {
    let mut sum = sum;
    for query in asked {
        sum = sum.wrapping_add(query.find(map).unwrap_or(1));
    }
    sum
}

// One pass over what the map is asked by.
fn ask<'a, M: TextMap<'a>, Q: Asks<'a, M>>(
    rt: &HostRuntime,
    map: &M,
    asked: &[Q],
) -> Result<Pass, Fault> {
    let start = Instant::now(rt)?;
    let sum = found(map, asked, 0);
    Pass::since(rt, start, sum)
}

/// Asks a map of `n` names a million times for the first `most` of these names.
pub fn look_up<'a, M: TextMap<'a>, Q: Asks<'a, M>>(
    rt: &HostRuntime,
    texts: &'a Texts,
    names: &'a [String],
    n: usize,
    most: usize,
) -> Result<Pass, Fault> {
    let map = numbered::<M>(rt.alloc(), &texts.names, n)?;
    let asked = asked::<M, Q>(rt.alloc(), &drawn(rt.alloc(), names, most, MILLION)?)?;
    let mut best = ask(rt, &map, &asked)?;
    for _ in 1..PASSES {
        best = best.or(ask(rt, &map, &asked)?)?;
    }
    Ok(best)
}

// Puts a number of its own, from this one on, under each of these.
#[inline(always)]
fn fill<'a, M: TextMap<'a>, Q: Asks<'a, M>>(
    alloc: Global,
    map: &mut M,
    given: &[Q],
    first: u64,
) -> Result<(), Fault> {
    let mut number = first;
    for query in given {
        query.put(alloc, map, number)?;
        number = number.wrapping_add(1);
    }
    Ok(())
}

/// Fills, asks and drops dictionaries of `n` attributes each. An operation is one attribute put and looked up.
pub fn attributes<'a, M: TextMap<'a>, Q: Asks<'a, M>>(
    rt: &HostRuntime,
    texts: &'a Texts,
    n: usize,
) -> Result<Pass, Fault> {
    let (given, again) = rules(rt.alloc(), texts, n, MILLION / n.max(1))?;
    let given = asked::<M, Q>(rt.alloc(), &given)?;
    let again = asked::<M, Q>(rt.alloc(), &again)?;
    let start = Instant::now(rt)?;
    let mut sum = 0_u64;
    let mut number = 0_u64;
    for (block, again) in given.chunks(n.max(1)).zip(again.chunks(n.max(1))) {
        let mut map = M::empty(rt.alloc());
        fill(rt.alloc(), &mut map, block, number)?;
        sum = found(&map, again, sum);
        number = number.wrapping_add(n as u64);
    }
    Pass::since(rt, start, sum)
}

// The checksum of how often each word came up to then.
fn counted<'a, M: TextMap<'a>>(alloc: Global, words: &[&'a str]) -> Result<u64, Fault> {
    let mut map = M::empty(alloc);
    let mut checksum = 0_u64;
    for word in words {
        checksum = mix(checksum, count(alloc, &mut map, *word)?);
    }
    Ok(checksum)
}

// Adds one to the number of a word, or puts 1, and answers the number.
#[inline(always)]
fn count<'a, M: TextMap<'a>>(alloc: Global, map: &mut M, word: &'a str) -> Result<u64, Fault> {
    if let Some(number) = map.at_mut(word) {
        *number = number.wrapping_add(1);
        return Ok(*number);
    }
    map.put(alloc, word, 1)?;
    Ok(1)
}

/// Counts the words of a text.
pub fn words<'a, M: TextMap<'a>>(rt: &HostRuntime, texts: &'a Texts) -> Result<Pass, Fault> {
    let mut words = Vec::new(rt.alloc());
    for word in texts.prose.split(' ') {
        words.push(word)?;
    }
    let start = Instant::now(rt)?;
    let checksum = counted::<M>(rt.alloc(), &words)?;
    Pass::since(rt, start, checksum)
}

/// How often `n` targets are numbered.
pub fn rounds(n: usize) -> usize {
    (MILLION / 6 / n.max(1)).max(1)
}

/// Numbers `n` targets by their labels, and looks up five dependencies of each. An operation is one insertion or look-up.
pub fn labels<'a, M: TextMap<'a>>(
    rt: &HostRuntime,
    texts: &'a Texts,
    n: usize,
) -> Result<Pass, Fault> {
    let asked = drawn(rt.alloc(), &texts.label_copies, n, n.saturating_mul(5))?;
    let start = Instant::now(rt)?;
    let mut sum = 0_u64;
    for _ in 0..rounds(n) {
        let map = numbered::<M>(rt.alloc(), &texts.labels, n)?;
        sum = found(&map, &asked, sum);
    }
    Pass::since(rt, start, sum)
}

// Adds up the hashes of these texts.
fn hashed(rt: &HostRuntime, texts: &[&str]) -> Result<Pass, Fault> {
    let start = Instant::now(rt)?;
    let mut sum = 0_u64;
    for text in texts {
        sum = sum.wrapping_add(u64::from(StarlarkHashValue::new(text).get()));
    }
    Pass::since(rt, start, sum)
}

/// Hashes the first `n` of these texts, a million times in all.
pub fn hashes(rt: &HostRuntime, texts: &[String], n: usize) -> Result<Pass, Fault> {
    let texts = drawn(rt.alloc(), texts, n, MILLION)?;
    let mut best = hashed(rt, &texts)?;
    for _ in 1..PASSES {
        best = best.or(hashed(rt, &texts)?)?;
    }
    Ok(best)
}
