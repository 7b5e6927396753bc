//! Calls that ask for no memory. `make refused` refuses the first request of each test here, which none makes.

use crate::given::same;
use starlark_map::vec2::Vec2;
use std::test::Fail;

// Case: pairs without size are pushed where no memory is left
#[test]
fn pushes_pairs_without_size(rt: HostRuntime) -> Result<(), Fail> {
    let mut list: Vec2<(), ()> = Vec2::new(rt.alloc());
    for _ in 0..100 {
        list.push((), ())?;
    }
    same(&rt, list.len(), 100);
    Ok(())
}

// Case: the capacity of pairs without size
#[test]
fn shrinks_a_list_without_size(rt: HostRuntime) -> Result<(), Fail> {
    let mut list: Vec2<(), ()> = Vec2::with_capacity(rt.alloc(), 10)?;
    list.push((), ())?;
    list.push((), ())?;
    same(&rt, list.capacity(), 10);
    list.shrink_to_fit()?;
    same(&rt, list.capacity(), 2);
    Ok(())
}
