//! The search for a hash in an array of hashes.
ghost use Rattle.std.specs.Prelude.{◌≡◌, ◌+◌, ◌==◌, ◌<◌, ◌≤◌, length, map, drop, position, IfSome};
ghost use Rattle.std.specs.Option.{option_map};
ghost use Rattle.std.specs.Simd.Lanes.{mask_l, chunk};

use std::simd::prelude::*;

// The number of hashes up to which a search is inlined.
const SHORT: usize = 8;

// How many hashes one mask covers.
pub(crate) const BLOCK: usize = 32;

/// The least index at which the array has this hash. `None` if it does not have it.
#[inline]
pub fn find_hash_in_array(array: &[u32], hash: u32) -> Option<usize>
    ensures index { result ≡ position (λ h. h == hash) array.now }
    ensures within { IfSome result (λ i. i < length array.now) }
{
    if array.len() > SHORT {
        return find_hash_in_blocks(array, hash);
    }
    let mask = indices_of_short(array, hash);
    if mask == 0 {
        return None;
    }
    Some(mask.trailing_zeros() as usize)
}

// `find_hash_in_array` for more than `SHORT` hashes, block by block.
fn find_hash_in_blocks(array: &[u32], hash: u32) -> Option<usize>
    requires { 8 < length array.now }
    ensures index { result ≡ position (λ h. h == hash) array.now }
    ensures within { IfSome result (λ i. i < length array.now) }
{
    let mut rest = array;
    let mut passed = 0;
    while rest.len() > BLOCK {
        let (block, tail) = rest.split_at(BLOCK);
        let mask = indices_of_block(block, hash);
        if mask != 0 {
            return Some(passed + mask.trailing_zeros() as usize);
        }
        passed += BLOCK;
        rest = tail;
    }
    // The last block may begin among hashes that were searched before, so that it has at least `SHORT`.
    let start = passed.min(array.len() - SHORT);
    let mask = indices_of_block(&array[start..], hash);
    if mask == 0 {
        return None;
    }
    Some(start + mask.trailing_zeros() as usize)
}

// A bit for each index of an array, set if it has this hash there. No branch depends on the index.
#[inline]
pub(crate) fn indices_of(array: &[u32], hash: u32) -> u64
    requires { length array.now ≤ 32 }
    ensures { result ≡ mask_l (map (λ h. h == hash) array.now) }
{
    if array.len() > SHORT {
        indices_of_long(array, hash)
    } else {
        indices_of_short(array, hash)
    }
}

// `indices_of` for more than `SHORT` hashes. The last hash is read by itself: it may just have been written, and a
// processor that reads it together with others waits until it is in memory. The code is long, so it is not inlined.
#[inline(never)]
fn indices_of_long(array: &[u32], hash: u32) -> u64
    requires enough { 8 < length array.now }
    requires few { length array.now ≤ 32 }
    ensures { result ≡ mask_l (map (λ h. h == hash) array.now) }
{
    let last = array.len() - 1;
    let front = indices_of_block(&array[..last], hash);
    front + (u64::from(array[last] == hash) << last)
}

// `indices_of` for at most `SHORT` hashes. Two groups of four cover four to eight. The second ends where the array does, and
// may begin in the first; the bits of both count once. Fewer are compared one by one.
#[inline]
fn indices_of_short(array: &[u32], hash: u32) -> u64
    requires { length array.now ≤ 8 }
    ensures { result ≡ mask_l (map (λ h. h == hash) array.now) }
{
    let len = array.len();
    if len < 4 {
        return indices_of_few(array, hash);
    }
    let last = indices_of_four(array, len - 4, hash);
    indices_of_four(array, 0, hash) + ((last >> (8 - len)) << 4)
}

// `indices_of` for 8 to 32 hashes, by two groups of eight or of sixteen, which may overlap.
#[inline]
fn indices_of_block(block: &[u32], hash: u32) -> u64
    requires enough { 8 ≤ length block.now }
    requires few { length block.now ≤ 32 }
    ensures { result ≡ mask_l (map (λ h. h == hash) block.now) }
{
    let len = block.len();
    if len <= 16 {
        let last = indices_of_eight(block, len - 8, hash);
        indices_of_eight(block, 0, hash) + ((last >> (16 - len)) << 8)
    } else {
        let last = indices_of_sixteen(block, len - 16, hash);
        indices_of_sixteen(block, 0, hash) + ((last >> (32 - len)) << 16)
    }
}

// A bit for each of the four indices from `start` on.
#[inline]
fn indices_of_four(block: &[u32], start: usize, hash: u32) -> u64
    requires { start + 4 ≤ length block.now }
    ensures { result ≡ mask_l (map (λ h. h == hash) (chunk start 4 block.now)) }
{
    let four = u32x4::from_slice(&block[start..]);
    four.simd_eq(u32x4::splat(hash)).to_bitmask()
}

#[inline]
fn indices_of_eight(block: &[u32], start: usize, hash: u32) -> u64
    requires { start + 8 ≤ length block.now }
    ensures { result ≡ mask_l (map (λ h. h == hash) (chunk start 8 block.now)) }
{
    let eight = u32x8::from_slice(&block[start..]);
    eight.simd_eq(u32x8::splat(hash)).to_bitmask()
}

#[inline]
fn indices_of_sixteen(block: &[u32], start: usize, hash: u32) -> u64
    requires { start + 16 ≤ length block.now }
    ensures { result ≡ mask_l (map (λ h. h == hash) (chunk start 16 block.now)) }
{
    let sixteen = u32x16::from_slice(&block[start..]);
    sixteen.simd_eq(u32x16::splat(hash)).to_bitmask()
}

// `indices_of` for fewer than four hashes.
#[inline]
fn indices_of_few(block: &[u32], hash: u32) -> u64
    requires { length block.now < 4 }
    ensures { result ≡ mask_l (map (λ h. h == hash) block.now) }
{
    let mut mask = 0;
    for (i, found) in block.iter().enumerate() {
        mask += u64::from(*found == hash) << i;
    }
    mask
}

// The least index from `start` on at which the array has this hash.
#[inline]
pub(crate) fn find_hash_from(array: &[u32], start: usize, hash: u32) -> Option<usize>
    requires { start ≤ length array.now }
    ensures index { result ≡ option_map (λ skipped. start + skipped) (position (λ h. h == hash) (drop start array.now)) }
    ensures within { IfSome result (λ i. i < length array.now) }
{
    let rest = &array[start..];
    let skipped = find_hash_in_array(rest, hash)?;
    Some(start + skipped)
}
