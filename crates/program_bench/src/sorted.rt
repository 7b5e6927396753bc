//! The workload on `SortedSet`. Its checksum is the same on any two sets of these keys that are walked in ascending order.

use crate::fault::Fault;
use crate::keys::Key;
use crate::pass::{Pass, mix};
use crate::workloads::MILLION;
use starlark_map::sorted_set::SortedSet;
use std::alloc::Global;
use std::time::Instant;

// So many that a processor does not know by heart which key of a pair comes next.
const PAIRS: usize = 10;

// The set of `n` keys, from the key of this number on.
fn sorted<K: Key>(
    alloc: Global,
    keys: &[K],
    first: usize,
    n: usize,
) -> Result<SortedSet<K>, Fault> {
    let items = keys.iter().skip(first).take(n).copied();
    Ok(SortedSet::from_iter(alloc, items)?)
}

// The checksum after the elements of either set.
fn joined<K: Key>(first: &SortedSet<K>, second: &SortedSet<K>, checksum: u64) -> u64 {
    let mut checksum = checksum;
    for element in first.union(second) {
        checksum = mix(checksum, element.number());
    }
    checksum
}

/// Walks the unions of ten pairs of sets of `n` keys, of which half are in both, a million keys of each set in all.
pub fn union<K: Key>(rt: &HostRuntime, keys: &[K], n: usize) -> Result<Pass, Fault> {
    let mut pairs = Vec::with_capacity(rt.alloc(), PAIRS)?;
    for pair in 0..PAIRS {
        let first = pair.saturating_mul(n);
        pairs.push((
            sorted(rt.alloc(), keys, first, n)?,
            sorted(rt.alloc(), keys, first.saturating_add(n / 2), n)?,
        ))?;
    }
    let start = Instant::now(rt)?;
    let mut checksum = 0;
    for _ in 0..MILLION / PAIRS / n.max(1) {
        for (first, second) in &pairs {
            checksum = joined(first, second, checksum);
        }
    }
    Pass::since(rt, start, checksum)
}
