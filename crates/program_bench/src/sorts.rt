//! The workloads that sort maps.

use crate::fault::Fault;
use crate::keys::Key;
use crate::pass::Pass;
use crate::peer::Listed;
use crate::workloads::{MILLION, prepared};
use std::time::Instant;

// Sorts each of these maps.
fn sort_each<K: Key, M: Listed<K>>(maps: &mut [M]) -> Result<(), Fault> {
    for map in maps {
        map.sort()?;
    }
    Ok(())
}

// The checksum of the values of these maps, in their order.
fn mixed_of<K: Key, M: Listed<K>>(maps: &[M]) -> u64 {
    let mut checksum = 0;
    for map in maps {
        checksum = map.mixed(checksum);
    }
    checksum
}

/// Sorts maps of `n` keys, a million keys in all.
pub fn sort<K: Key, M: Listed<K>>(rt: &HostRuntime, keys: &[K], n: usize) -> Result<Pass, Fault> {
    let mut maps = prepared::<K, M>(rt.alloc(), keys, n, MILLION / n.max(1))?;
    let start = Instant::now(rt)?;
    sort_each(&mut maps)?;
    let pass = Pass::since(rt, start, 0)?;
    let checksum = mixed_of(&maps);
    Ok(Pass { checksum, ..pass })
}

/// Sorts the same maps once more, whose keys ascend already.
pub fn sort_again<K: Key, M: Listed<K>>(
    rt: &HostRuntime,
    keys: &[K],
    n: usize,
) -> Result<Pass, Fault> {
    let mut maps = prepared::<K, M>(rt.alloc(), keys, n, MILLION / n.max(1))?;
    sort_each(&mut maps)?;
    let start = Instant::now(rt)?;
    sort_each(&mut maps)?;
    let pass = Pass::since(rt, start, 0)?;
    let checksum = mixed_of(&maps);
    Ok(Pass { checksum, ..pass })
}
