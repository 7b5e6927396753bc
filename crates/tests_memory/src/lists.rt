//! Calls of lists of pairs and of vector maps that the collections above them do not make, or make up for.

use crate::given::{gives, same, under};
use starlark_map::vec2::Vec2;
use starlark_vecmap::VecMap;
use std::alloc::{AllocError, Global};

// The numbers below 24 in steps of seven, each with itself: so many, and so mixed, that a sort of them asks for memory.
fn mixed(alloc: Global) -> Result<Vec2<u32, u32>, AllocError> {
    let mut list = Vec2::new(alloc);
    for place in 0..24u32 {
        let item = place.wrapping_mul(7) % 24;
        list.push(item, item)?;
    }
    Ok(list)
}

// How many of the pairs of a list are those of a number from 0 on, in their order.
fn count_ascent(list: &Vec2<u32, u32>) -> u32 {
    let mut right = 0u32;
    for (first, second) in list {
        if (*first, *second) == (right, right) {
            right = right.wrapping_add(1);
        }
    }
    right
}

fn sorted(alloc: Global) -> Result<u32, AllocError> {
    let mut list = mixed(alloc)?;
    list.sort_pairs_by(|a, b| a.0.cmp(&b.0))?;
    Ok(count_ascent(&list))
}

// Also where the second pair went.
fn sorted_with_moves(alloc: Global) -> Result<(u32, Option<u32>), AllocError> {
    let mut list = mixed(alloc)?;
    let moves = list.sort_pairs_with_moves_by(|a, b| a.1.0.cmp(&b.1.0))?;
    Ok((count_ascent(&list), moves.get(1).copied()))
}

#[test]
fn sorts_whole_pairs(rt: HostRuntime) {
    let alloc = rt.alloc();
    gives(&rt, sorted(alloc), sorted(alloc), 24);
    gives(
        &rt,
        sorted_with_moves(alloc),
        sorted_with_moves(alloc),
        (24, Some(7)),
    );
}

// The first key of three that fell before, and where its entry went.
fn sorted_entries(alloc: Global) -> Result<(Option<u32>, Option<u32>), AllocError> {
    let mut map: VecMap<u32, u32> = VecMap::new(alloc);
    for key in [3, 2, 1] {
        map.insert_hashed_unique_unchecked(under(7, key), 0)?;
    }
    let moves = map.sort_keys_with_moves()?;
    Ok((map.keys().next().copied(), moves.get(0).copied()))
}

#[test]
fn sorts_entries_with_their_moves(rt: HostRuntime) {
    let alloc = rt.alloc();
    gives(
        &rt,
        sorted_entries(alloc),
        sorted_entries(alloc),
        (Some(1), Some(2)),
    );
}

// How many items an iterator was asked for that promises none, whether all seventeen went in, and how many did.
fn asked(alloc: Global) -> (usize, bool, usize) {
    let mut list: Vec2<u32, u32> = Vec2::new(alloc);
    let mut asked = 0usize;
    let done = list
        .extend(
            (3..20u32).filter(|_| true).map(|item| {
                asked = asked.wrapping_add(1);
                (item, item)
            }),
        )
        .is_ok();
    (asked, done, list.len())
}

// Behind the pair that is refused the iterator is asked for none.
#[test]
fn takes_pairs_up_to_the_one_that_is_refused(rt: HostRuntime) {
    let (asked, done, taken) = asked(rt.alloc());
    let wanted = if done { 17 } else { taken.wrapping_add(1) };
    same(&rt, (asked, taken <= 17), (wanted, true));
}
