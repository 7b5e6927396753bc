//! The search of a hash in an array, beside a plain one.

use crate::given::same;
use starlark_vecmap::find_hash_in_array;
use std::alloc::{AllocError, Global};
use std::process::Abort;
use std::test::Fail;

// The least index with a hash, one after the other.
fn plain(array: &[u32], hash: u32) -> Option<usize> {
    let mut index = 0usize;
    for other in array {
        if *other == hash {
            return Some(index);
        }
        index = index.wrapping_add(1);
    }
    None
}

// This many 88s, with a hash at one index in place of them, and behind that index too where `filled`.
fn array(
    alloc: Global,
    length: usize,
    at: usize,
    hash: u32,
    filled: bool,
) -> Result<Vec<u32>, AllocError> {
    let mut array = Vec::new(alloc);
    for index in 0..length {
        let here = index == at || (filled && at < index);
        array.push(if here { hash } else { 88 })?;
    }
    Ok(array)
}

// Searches arrays of a length that have a hash at each index, and one that lacks it.
fn agrees(rt: &(impl Abort + AllocGlobal), length: usize, hash: u32) -> Result<(), Fail> {
    for at in 0..=length {
        let one = array(rt.alloc(), length, at, hash, false)?;
        let rest = array(rt.alloc(), length, at, hash, true)?;
        let wanted = if at < length { Some(at) } else { None };
        same(rt, find_hash_in_array(one.as_slice(), hash), wanted);
        same(rt, find_hash_in_array(rest.as_slice(), hash), wanted);
        same(rt, plain(one.as_slice(), hash), wanted);
        same(rt, plain(rest.as_slice(), hash), wanted);
    }
    Ok(())
}

// Rust's test: vec_map::test_find_hash_in_array
// Case: a hash is searched in arrays of up to forty
#[test]
fn finds_what_a_plain_search_finds(rt: HostRuntime) -> Result<(), Fail> {
    for length in 0..=40 {
        agrees(&rt, length, 77)?;
        agrees(&rt, length, 0)?;
        agrees(&rt, length, u32::MAX)?;
    }
    Ok(())
}

// Case: the least of several places that have a hash
#[test]
fn finds_the_first_of_several(rt: HostRuntime) {
    same(&rt, find_hash_in_array(&[88, 88, 88, 88, 77], 77), Some(4));
    same(&rt, find_hash_in_array(&[88, 88, 88, 77, 77], 77), Some(3));
    same(
        &rt,
        find_hash_in_array(&[88, 88, 88, 88, 77, 77], 77),
        Some(4),
    );
    same(&rt, find_hash_in_array(&[77, 77, 77, 77], 77), Some(0));
    same(&rt, find_hash_in_array(&[88, 88, 77], 77), Some(2));
}
