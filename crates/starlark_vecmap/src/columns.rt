//! The work of a vector map on its two columns: the pairs of a key and a value, and the number of each key's hash.
ghost use Rattle.std.specs.Prelude.{◌≡◌, ◌+◌, ◌<◌, ◌≤◌, length, fold, MatchBool, IsSortedByKey};
ghost use Rattle.starlark_hash.specs.Search.{Asks, CanSearch, keys_under};
ghost use Rattle.starlark_vecmap.specs.Sort.{TellsAscent};
ghost use Rattle.starlark_vecmap.specs.EntryList.{entries_in};
ghost use Rattle.starlark_hash.specs.Compare.{ordered_feed};

use crate::hash_search::{BLOCK, find_hash_from, indices_of};
use starlark_hash::StarlarkHashValue;
use std::cmp::Ordering;
use std::hash::{Hash, Hasher};

// The first index under the hash whose key the closure accepts. The closure is asked about the keys under the hash,
// from the front.
#[inline]
pub(crate) fn search_columns<K, V, F: FnMut(&K) -> bool>(
    pairs: &[(K, V)],
    hashes: &[u32],
    hash: StarlarkHashValue,
    accepts: F,
) -> Option<usize>
    requires lengths { length hashes.now ≡ length pairs.now }
    requires callable { CanSearch F.FnMut (keys_under hash (entries_in pairs.now hashes.now)) accepts }
    ensures { (last : F) × Asks F.FnMut accepts (keys_under hash (entries_in pairs.now hashes.now)) result last }
{
    if hashes.len() > BLOCK {
        return search_long(pairs, hashes, hash, accepts);
    }
    search_few(pairs, hashes, hash, accepts)
}

// `search_columns` for at most `BLOCK` entries, whose matches fit in one mask.
#[inline(always)]
pub(crate) fn search_few<K, V, F: FnMut(&K) -> bool>(
    pairs: &[(K, V)],
    hashes: &[u32],
    hash: StarlarkHashValue,
    mut accepts: F,
) -> Option<usize>
    requires few { length hashes.now ≤ 32 }
    requires lengths { length hashes.now ≡ length pairs.now }
    requires callable { CanSearch F.FnMut (keys_under hash (entries_in pairs.now hashes.now)) accepts }
    ensures { (last : F) × Asks F.FnMut accepts (keys_under hash (entries_in pairs.now hashes.now)) result last }
{
    let mut mask = indices_of(hashes, hash.get());
    let mut i = 0;
    while mask != 0 {
        let index = i + mask.trailing_zeros() as usize;
        if accepts(&pairs[index].0) {
            return Some(index);
        }
        mask = mask >> mask.trailing_zeros() >> 1;
        i = index + 1;
    }
    None
}

// `search_columns` for more than `BLOCK` entries.
#[inline(never)]
fn search_long<K, V, F: FnMut(&K) -> bool>(
    pairs: &[(K, V)],
    hashes: &[u32],
    hash: StarlarkHashValue,
    mut accepts: F,
) -> Option<usize>
    requires lengths { length hashes.now ≡ length pairs.now }
    requires callable { CanSearch F.FnMut (keys_under hash (entries_in pairs.now hashes.now)) accepts }
    ensures { (last : F) × Asks F.FnMut accepts (keys_under hash (entries_in pairs.now hashes.now)) result last }
{
    let number = hash.get();
    let mut i = 0;
    while let Some(index) = find_hash_from(hashes, i, number) {
        if accepts(&pairs[index].0) {
            return Some(index);
        }
        i = index + 1;
    }
    None
}

// How many keys are compared without a jump between them, in a list of which many ascend.
const AT_ONCE: usize = 8;

// Whether the keys ascend. The first few are compared one by one, since they mostly show that a list is not sorted.
pub(crate) fn keys_ascend<K: Ord, V>(pairs: &[(K, V)]) -> bool
    ensures { MatchBool result (IsSortedByKey (λ p. p.0) K.cmp pairs.now) (IsSortedByKey (λ p. p.0) K.cmp pairs.now → ⊥) }
{
    let len = pairs.len();
    if len == 0 {
        return true;
    }
    let mut last = len.min(AT_ONCE) - 1;
    if !ascend_one_by_one(pairs, 0, last + 1) {
        return false;
    }
    while len - last > AT_ONCE {
        if !ascend_at_once(pairs, last) {
            return false;
        }
        last += AT_ONCE;
    }
    ascend_one_by_one(pairs, last, len)
}

// Whether the keys ascend from the index `low` up to `high`.
#[inline]
fn ascend_one_by_one<K: Ord, V>(pairs: &[(K, V)], low: usize, high: usize) -> bool
    requires some { low < high }
    requires within { high ≤ length pairs.now }
    ensures { TellsAscent K.cmp pairs.now low high result }
{
    for i in low + 1..high {
        if pairs[i].0.cmp(&pairs[i - 1].0) == Ordering::Less {
            return false;
        }
    }
    true
}

// Whether the key at the index `low` and the `AT_ONCE` keys after it ascend. It has no jump between them.
#[inline]
fn ascend_at_once<K: Ord, V>(pairs: &[(K, V)], low: usize) -> bool
    requires { low + AT_ONCE < length pairs.now }
    ensures { TellsAscent K.cmp pairs.now low (low + AT_ONCE + 1) result }
{
    let mut falls = false;
    for i in 0..AT_ONCE {
        falls |= pairs[low + i + 1].0.cmp(&pairs[low + i].0) == Ordering::Less;
    }
    !falls
}

// Feeds the hash of each entry, and then its value.
pub(crate) fn hash_columns<K, V: Hash, H: Hasher>(pairs: &[(K, V)], hashes: &[u32], state: &mut H)
    requires { length hashes.now ≡ length pairs.now }
    ensures { state.new ≡ fold H.write state.old (ordered_feed V.hash_input (entries_in pairs.now hashes.now)) }
{
    for i in 0..pairs.len() {
        state.write_u32(hashes[i]);
        pairs[i].1.hash(state);
    }
}
