//! Calls that ask for memory once at most, where it is there. `make refused` refuses the second request of each test here,
//! which none makes.

use crate::given::same;
use starlark_map::sorted_vec::SortedVec;
use std::test::Fail;

#[test]
fn collects_five_items(rt: HostRuntime) -> Result<(), Fail> {
    let sorted = SortedVec::from_iter(rt.alloc(), 0..5u32)?;
    same(&rt, sorted.iter().len(), 5);
    Ok(())
}

#[test]
fn collects_forty_items(rt: HostRuntime) -> Result<(), Fail> {
    let sorted = SortedVec::from_iter(rt.alloc(), 0..40u32)?;
    same(&rt, sorted.iter().len(), 40);
    Ok(())
}
