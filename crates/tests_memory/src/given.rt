//! What several tests begin with. These functions say nothing of what they do, so a test that makes its calls through them is
//! proved in a part of the time.

use starlark_map::small_map::SmallMap;
use starlark_map::{Hashed, StarlarkHashValue};
use std::alloc::{AllocError, Global};
use std::fmt::Debug;
use std::process::Abort;

pub(crate) type Numbers = SmallMap<u32, u32>;

pub(crate) fn under<K>(hash: u32, key: K) -> Hashed<K> {
    Hashed::new_unchecked(StarlarkHashValue::new_unchecked(hash), key)
}

// The keys below a number, each with ten times itself.
pub(crate) fn tens(alloc: Global, count: u32) -> Result<Numbers, AllocError> {
    let mut map: Numbers = SmallMap::new(alloc);
    for key in 0..count {
        map.insert(key, key.wrapping_mul(10))?;
    }
    Ok(map)
}

// How many of a map's entries are those, in their order, and how many it has.
pub(crate) fn count_tens(map: &Numbers) -> (u32, usize) {
    let mut right = 0u32;
    for (key, value) in map {
        if (*key, *value) == (right, right.wrapping_mul(10)) {
            right = right.wrapping_add(1);
        }
    }
    (right, map.len())
}

// Ends the process where the two are not equal, and shows both.
pub(crate) fn same<T: PartialEq + Debug>(rt: &impl Abort, found: T, wanted: T)
where
    T: Drop,
{
    assert_eq!(rt; found, wanted);
}

// The same of two attempts, of which the second counts where the first was refused. One request of a run is refused at most.
pub(crate) fn gives<T: PartialEq + Debug>(
    rt: &impl Abort,
    first: Result<T, AllocError>,
    second: Result<T, AllocError>,
    wanted: T,
)
where
    T: Drop,
{
    same(rt, if first.is_ok() { first } else { second }, Ok(wanted));
}
