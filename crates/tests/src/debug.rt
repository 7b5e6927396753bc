//! The texts of `Debug` that the player does not show.

use crate::given::same;
use starlark_map::smallmap;
use starlark_map::unordered_map::UnorderedMap;
use starlark_map::unordered_set::UnorderedSet;
use starlark_map::vec2::Vec2;
use std::test::Fail;

// Rust's test: small_map::test_smallmap_debug
// Case: the text of a map
#[test]
fn shows_maps(rt: HostRuntime) -> Result<(), Fail> {
    let map = smallmap![rt.alloc(); 1 => "test", 2 => "more"]?;
    let text = format!(in rt.alloc(); "{map:?}")?;
    same(&rt, text.as_str(), "{1: \"test\", 2: \"more\"}");
    Ok(())
}

// The pairs come in no order.
// Case: the text of an unordered map and set
#[test]
fn shows_unordered_maps_and_sets(rt: HostRuntime) -> Result<(), Fail> {
    let map = UnorderedMap::from_iter(rt.alloc(), [(1u32, 10u32), (2, 20)])?;
    let text = format!(in rt.alloc(); "{map:?}")?;
    let either = ["{1: 10, 2: 20}", "{2: 20, 1: 10}"];
    same(
        &rt,
        (text.as_str(), either.contains(&text.as_str())),
        (text.as_str(), true),
    );
    let set = UnorderedSet::from_iter(rt.alloc(), [1u32, 2])?;
    let text = format!(in rt.alloc(); "{set:?}")?;
    let either = [
        "UnorderedSet { map: {1: (), 2: ()} }",
        "UnorderedSet { map: {2: (), 1: ()} }",
    ];
    same(
        &rt,
        (text.as_str(), either.contains(&text.as_str())),
        (text.as_str(), true),
    );
    Ok(())
}

// Case: the text of a walk
#[test]
fn shows_walks(rt: HostRuntime) -> Result<(), Fail> {
    let list = Vec2::from_iter(rt.alloc(), [(1u32, 10u32), (2, 20), (3, 30)])?;
    let mut walk = list.iter();
    same(&rt, walk.next(), Some((&1, &10)));
    let text = format!(in rt.alloc(); "{walk:?}")?;
    same(&rt, text.as_str(), "[(2, 20), (3, 30)]");
    Ok(())
}
