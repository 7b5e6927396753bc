//! Calls of a `DictSet`.

use crate::given::gives;
use starlark_dict::{DictSet, dict_set};
use std::alloc::{AllocError, Global};

// A set that is filled and sorted, one that is collected, and one that is written out: how many elements each has, and the
// index of the least of a copy of the first.
fn elements(alloc: Global) -> Result<(usize, Option<usize>, usize, usize), AllocError> {
    let mut set = DictSet::with_capacity(alloc, 1)?;
    set.reserve(2)?;
    set.insert(7u32)?;
    set.insert(3)?;
    set.sort()?;
    let copy = set.clone()?;
    let collected = DictSet::from_iter(alloc, [1u32, 1, 4])?;
    let written = dict_set![alloc; 2u32, 9]?;
    Ok((
        set.len(),
        copy.get_index_of(&3u32),
        collected.len(),
        written.len(),
    ))
}

#[test]
fn fills_sets(rt: HostRuntime) {
    gives(
        &rt,
        elements(rt.alloc()),
        elements(rt.alloc()),
        (2, Some(0), 2, 2),
    );
}
